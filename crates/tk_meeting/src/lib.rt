//! A group apart, as definitions and laws: clients and servers on machines of their own, and what is on its way between
//! them. What it does, however packets are delivered, is what the serial run does.
#![tactic(auto)]

mod laws;

pub use laws::{
    clauses_say_programs, honest_hold, liars_as_often, liars_play_alike, liars_see_alike,
    lied_have_scripts, matched_one_to_one, meetings_are_serial, meetings_as_often,
    meetings_deliver, meetings_have_scripts, meetings_keep_pace, meetings_look_alike,
    members_act_alike, own_keys_serve, programs_meet, restarts_change_nothing,
};
