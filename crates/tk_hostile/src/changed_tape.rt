ghost use Rattle.std.specs.Prelude.{◌≡◌, ◌*◌, ◌≤◌, length, None, IfOk, IfErr, OnOk};
ghost use Rattle.tk_shape.specs.Lengths.{turn_count, tape_len};
ghost use Rattle.tk_schedule.specs.Schedule.{IsLegal};
ghost use Rattle.tk_privacy.specs.Refusals.{mirror_refusal, IsMirrorRefusal};
ghost use Rattle.tk_hostile.specs.Given.{sums_at};
ghost use Rattle.tk_hostile.specs.Walks.{AreSides, AreLastReadsOver};
ghost use Rattle.tk_hostile.specs.Wrong as told;

use crate::replies::Replies;
use crate::sides::Sides;
use crate::walk::{Walk, walk_all};
use std::alloc::Global;
use tk_frames::ReadFrame;
use tk_privacy::{MirrorError, Steps, check_mirror, draws_over, tape_of};
use tk_report::{Plan, all_sent};
use tk_schedule::History;
use tk_script::Script;
use tk_shape::Memory;
use tk_words::Tape;

/// The tape over which one script shows every server but the hidden one what another of the same
/// shape shows over a tape, where all servers but the hidden one reply with these sums. The tape is
/// lost with a refusal: shapes that differ come first, then the hidden server, then that memory ran
/// out.
pub fn wrong_mirror(
    alloc: Global,
    a: &Script,
    b: &Script,
    history: &History,
    hidden: u32,
    replies: &Replies,
    tape: Tape,
) -> Result<Tape, MirrorError>
    requires replies { replies.now.shape ≡ a.now.shape }
    requires legal { IsLegal a.now.shape history.now }
    requires whole { length tape ≡ tape_len a.now.shape }
    ensures kept { OnOk result (mirror_refusal a.now.shape b.now.shape hidden ≡ None) }
    ensures mirrored { IfOk result (λ v. v
        ≡ told.wrong_mirror a.now b.now history.now hidden (sums_at replies.now) tape) }
    ensures refused { IfErr result (IsMirrorRefusal
        (mirror_refusal a.now.shape b.now.shape hidden)) }
{
    check_mirror(&a.shape, &b.shape, hidden)?;
    let run = Run { history, replies };
    let shown = run.normal(alloc, a, hidden, tape.as_bytes())?;
    let mirrored = run.unnormal(alloc, b, hidden, shown.as_slice())?;
    Ok(tape_of(b, mirrored))
}

/// What runs of scripts of one shape go by: a legal history, and chosen replies.
#[derive(Drop)]
struct Run<'a> {
    history: &'a History,
    replies: &'a Replies,
    ghost legal: { IsLegal replies.now.shape history.now },
}

impl<'a> Run<'a> {
    /// The tape of what a script shows to all servers but the hidden one.
    fn normal(
        &self,
        alloc: Global,
        script: &Script,
        hidden: u32,
        tape: &[u8],
    ) -> Result<Vec<u8>, Memory>
        requires one_shape { self.now.replies.now.shape ≡ script.now.shape }
        requires low { 1 ≤ hidden }
        requires high { hidden ≤ script.now.shape.servers }
        requires whole { length tape.now ≡ tape_len script.now.shape }
        ensures { let F = sums_at self.now.replies.now in
            IfOk result (λ v. v.items
            ≡ told.wrong_normal script.now self.now.history.now hidden F tape.now) }
    {
        let sent = all_sent(alloc, script)?;
        let steps = Steps {
            script,
            sent: sent.as_slice(),
            hidden,
        };
        let sides = Sides {
            hidden,
            asked: hidden,
            seen: script.shape.servers,
        };
        let reads = self.reads(alloc, script, sides, tape)?;
        steps.normal(alloc, tape, reads.as_slice())
    }

    /// The tape over which a script shows that. The vectors of the hidden server that are regained
    /// are those that the last server gets over the tape of what is shown, so that the hidden one
    /// replies to its frames.
    fn unnormal(
        &self,
        alloc: Global,
        script: &Script,
        hidden: u32,
        tape: &[u8],
    ) -> Result<Vec<u8>, Memory>
        requires one_shape { self.now.replies.now.shape ≡ script.now.shape }
        requires low { 1 ≤ hidden }
        requires high { hidden ≤ script.now.shape.servers }
        requires whole { length tape.now ≡ tape_len script.now.shape }
        ensures { let F = sums_at self.now.replies.now in
            IfOk result (λ v. v.items
            ≡ told.wrong_unnormal script.now self.now.history.now hidden F tape.now) }
    {
        let sent = all_sent(alloc, script)?;
        let steps = Steps {
            script,
            sent: sent.as_slice(),
            hidden,
        };
        let regained = steps.regained(alloc, tape)?;
        let servers = script.shape.servers;
        let sides = Sides {
            hidden,
            asked: servers,
            seen: servers,
        };
        let reads = self.reads(alloc, script, sides, regained.as_slice())?;
        steps.with_reads_changed(alloc, regained.as_slice(), reads.as_slice())
    }

    /// The read frames that the last server sees of a run over a tape.
    fn reads(
        &self,
        alloc: Global,
        script: &Script,
        sides: Sides,
        tape: &[u8],
    ) -> Result<Vec<ReadFrame>, Memory>
        requires one_shape { self.now.replies.now.shape ≡ script.now.shape }
        requires sides { AreSides script.now.shape sides }
        requires last { sides.seen ≡ script.now.shape.servers }
        requires whole { length tape.now ≡ tape_len script.now.shape }
        ensures counted { let shape = script.now.shape in
            IfOk result (λ reads. length reads.items ≡ turn_count shape * shape.clients) }
        ensures reads { let F = sums_at self.now.replies.now in
            IfOk result (λ reads.
            AreLastReadsOver script.now self.now.history.now sides F tape.now reads.items) }
    {
        let draws = draws_over(alloc, script, tape)?;
        let plan = Plan {
            script,
            draws: &draws,
            history: self.history,
        };
        let walk = Walk {
            plan: &plan,
            replies: self.replies,
            sides,
        };
        let fold = walk_all(alloc, &walk)?;
        Ok(fold.reads)
    }
}
