//! What a run delivers, for every legal history: its entries, what each log gives to each follower,
//! the report, and what each server sees.
#![tactic(auto)]

mod clients;
mod count;
mod displacement;
mod fold;
mod group;
mod history_text;
mod laws;
mod ledger;
mod left;
mod line_kind;
mod log_text;
mod marked;
mod opened;
mod outcome;
mod outcome_text;
mod parse;
mod plan;
mod report_lines;
mod report_text;
mod said;
mod sendings;
mod sent;
mod sent_list;
mod takes;
mod told_by;
mod turn_reads;
mod turn_writes;
mod whole_report;

pub use clients::Clients;
pub use count::displaced_with;
pub use displacement::{displaced, displaced_in_order};
pub use group::Group;
pub use laws::{
    agreement, clear, delivered, ends, honest_passing_over, honest_servers, laid_out, lifted,
    marks, one_history, queues_send, records_are_shown, servers_alike, told,
};
pub use ledger::Ledger;
pub use marked::Marked;
pub use opened::open_followers;
pub use outcome::Outcome;
pub use outcome_text::print_outcome;
pub use parse::parse_history;
pub use plan::Plan;
pub use said::count_said;
pub use sendings::Sendings;
pub use sent::Sent;
pub use sent_list::all_sent;
pub use takes::Takes;
pub use tk_shape::Memory;
pub use turn_reads::{open_to, read_turn};
pub use whole_report::report;
