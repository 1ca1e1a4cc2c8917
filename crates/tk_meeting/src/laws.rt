//! Why a group on several machines does what the serial run does, and looks the same to all servers but one.
ghost use Rattle.tk_meeting.specs.Adaptive.{LiarsAsOften, LiarsPlayAlike};
ghost use Rattle.tk_meeting.specs.Counted.{MeetingsAsOften};
ghost use Rattle.tk_meeting.specs.Delivery.{MeetingsDeliver};
ghost use Rattle.tk_meeting.specs.Hidden.{MeetingsLookAlike};
ghost use Rattle.tk_meeting.specs.Laws.{MeetingsAreSerial};
ghost use Rattle.tk_meeting.specs.Matched.{HonestHold, LiarsSeeAlike, MatchedOneToOne};
ghost use Rattle.tk_meeting.specs.OwnBooks.{OwnKeysServe};
ghost use Rattle.tk_meeting.specs.Pacing.{MeetingsKeepPace};
ghost use Rattle.tk_meeting.specs.Programs.{MembersAct, ProgramsMeet, ServersAct};
ghost use Rattle.tk_meeting.specs.Restarts.{MembersGoOn, MembersPutAgain, ServersStandAgain, ServersTellAgain};
ghost use Rattle.tk_meeting.specs.Scripts.{LiedHaveScripts, MeetingsHaveScripts};
ghost use Rattle.tk_meeting.specs.Shown.{MembersActAlike};

/// Two groups in which the same happens but for what is said: whatever all servers but the hidden one look for at any
/// time in what they see together, they find it over as many tapes of the one as of the other.
pub fn meetings_as_often()
    ensures { MeetingsAsOften }
{}

/// However packets are delayed, mixed and delivered: at any time what each server has of each client is a front of what
/// the serial run has it see, what each member told is a front of what the report says, nobody refuses, and once all is
/// handed over each member has told all.
pub fn meetings_are_serial()
    ensures { MeetingsAreSerial }
{}

/// What a member tells of a log is, in a clear run, each text as it was written; and a number that it tells to be
/// absent was rightly passed over.
pub fn meetings_deliver()
    ensures { MeetingsDeliver }
{}

/// Two groups in which the same happens but for what is said, the second one over the mirrored tape, look alike at any
/// time: each server but the hidden one gets and sends the same, in the same order, and on each link there are frames
/// of the same kinds and lengths.
pub fn meetings_look_alike()
    ensures { MeetingsLookAlike }
{}

/// When a member writes and asks depends on no text and no key: two groups of one shape in which the same happens but
/// for what is said keep pace, whatever words they have, keyed or drawn; and on each link there are frames of the same
/// kinds and lengths, in format 1 or where both have keyed words or both drawn ones.
pub fn meetings_keep_pace()
    ensures { MeetingsKeepPace }
{}

/// A keyed book with the handles of the logs that a client uses, and with its seed, serves the client as the book with
/// all keys does.
pub fn own_keys_serve()
    ensures { OwnKeysServe }
{}

/// Whatever happens, there is a script that has what was said: each text in the turn that its writer wrote next.
pub fn meetings_have_scripts()
    ensures { MeetingsHaveScripts }
{}

/// What a member reads decides nothing of when it writes, asks and ends, whatever servers send it: members that stand
/// alike, and to which packets come that show the same, stand alike then, or have ended at the same packet for the same
/// fault.
pub fn members_act_alike()
    ensures { MembersActAlike }
{}

/// Over matched tapes all servers but the hidden one get the same of two groups in which the same is done but for what
/// is said, whatever these servers send; and each client goes on, or has ended for the same fault, at the same time.
pub fn liars_see_alike()
    ensures { LiarsSeeAlike }
{}

/// Each tape of a group is matched with just one of another group, whatever is done in both.
pub fn matched_one_to_one()
    ensures { MatchedOneToOne }
{}

/// Servers that lie by all that they have seen so far see the same of two groups over matched tapes at each step, and so
/// do the same in both.
pub fn liars_play_alike()
    ensures { LiarsPlayAlike }
{}

/// Whatever liars whose deeds are settled beforehand look for in what they see at any time, they find it over as many
/// tapes of one group as of another one, in which the same is done but for what is said.
pub fn liars_as_often()
    ensures { LiarsAsOften }
{}

/// A hidden server that holds the writes of a run is one of which the laws on liars speak.
pub fn honest_hold()
    ensures { HonestHold }
{}

/// Whatever is done to a group whose servers lie, there is a script that has what was said, whatever words its clients
/// have.
pub fn lied_have_scripts()
    ensures { LiedHaveScripts }
{}

/// Programs that do what `serve` and `take_part` ensure, and whose streams agree link by link at any time, are some
/// meeting: each member and each server stands as the program does.
pub fn programs_meet()
    ensures { ProgramsMeet }
{}

/// What passes over the line of `take_part` and of `serve`, where the line tells it, is what those programs do.
pub fn clauses_say_programs()
    ensures members { MembersAct }
    ensures servers { ServersAct }
{}

/// A member that is given its journal again, and a server that is given again what clients sent, put again what they put:
/// nobody gets two different frames for one turn. A member whose journal lacks what a server has of it ends.
pub fn restarts_change_nothing()
    ensures put_again { MembersPutAgain }
    ensures go_on { MembersGoOn }
    ensures tell_again { ServersTellAgain }
    ensures stand_again { ServersStandAgain }
{}
