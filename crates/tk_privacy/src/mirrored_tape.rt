ghost use Rattle.std.specs.Prelude.{◌≡◌, ◌*◌, ◌≤◌, length, Some, None, IfOk, IfErr, OnOk};
ghost use Rattle.tk_words.specs.Words.{drawn};
ghost use Rattle.tk_shape.specs.Lengths.{tape_len, turn_count};
ghost use Rattle.tk_schedule.specs.Schedule.{IsLegal};
ghost use Rattle.tk_privacy.specs.Privacy as told;
ghost use Rattle.tk_privacy.specs.Refusals.{mirror_refusal, IsMirrorRefusal};
ghost use Rattle.tk_privacy.specs.Steps.{AreLastReads};

use crate::exchange::push;
use crate::mirror_error::MirrorError;
use crate::reads::all_reads;
use crate::steps::Steps;
use std::alloc::Global;
use tk_frames::ReadFrame;
use tk_report::{Plan, all_sent};
use tk_schedule::History;
use tk_script::Script;
use tk_shape::{Memory, Shape};
use tk_words::{DrawnDraws, Draws, Tape};

/// The tape over which one script shows every server but the hidden one what another of the same
/// shape shows over a tape. The tape is lost with a refusal: shapes that differ come first, then
/// the hidden server, then that memory ran out.
pub fn mirror(
    alloc: Global,
    a: &Script,
    b: &Script,
    history: &History,
    hidden: u32,
    tape: Tape,
) -> Result<Tape, MirrorError>
    requires legal { IsLegal a.now.shape history.now }
    requires whole { length tape ≡ tape_len a.now.shape }
    ensures kept { OnOk result (mirror_refusal a.now.shape b.now.shape hidden ≡ None) }
    ensures mirrored { IfOk result (λ v.
        v ≡ told.mirror a.now b.now history.now hidden tape) }
    ensures refused { IfErr result (IsMirrorRefusal
        (mirror_refusal a.now.shape b.now.shape hidden)) }
{
    check_mirror(&a.shape, &b.shape, hidden)?;
    let shown = normal(alloc, a, history, hidden, tape.as_bytes())?;
    let mirrored = unnormal(alloc, b, history, hidden, shown.as_slice())?;
    Ok(tape_of(b, mirrored))
}

/// Refuses shapes that differ, and then a hidden server that isn't one of the shape's.
pub fn check_mirror(a: &Shape, b: &Shape, hidden: u32) -> Result<(), MirrorError>
    ensures kept { OnOk result (mirror_refusal a.now b.now hidden ≡ None) }
    ensures refused { IfErr result (λ e. mirror_refusal a.now b.now hidden ≡ Some e) }
    ensures one_shape { OnOk result (a.now ≡ b.now) }
    ensures low { OnOk result (1 ≤ hidden) }
    ensures high { OnOk result (hidden ≤ a.now.servers) }
{
    if let Some(differs) = a.differs(b) {
        return Err(MirrorError::Shapes(differs));
    }
    let servers = a.servers;
    if hidden < 1 || hidden > servers {
        return Err(MirrorError::Hidden {
            got: hidden,
            servers,
        });
    }
    Ok(())
}

/// The tape of what a script shows to all servers but the hidden one.
fn normal(
    alloc: Global,
    script: &Script,
    history: &History,
    hidden: u32,
    tape: &[u8],
) -> Result<Vec<u8>, Memory>
    requires legal { IsLegal script.now.shape history.now }
    requires low { 1 ≤ hidden }
    requires high { hidden ≤ script.now.shape.servers }
    requires whole { length tape.now ≡ tape_len script.now.shape }
    ensures { IfOk result (λ v. v.items ≡ told.normal script.now history.now hidden tape.now) }
{
    let sent = all_sent(alloc, script)?;
    let steps = Steps {
        script,
        sent: sent.as_slice(),
        hidden,
    };
    let reads = last_reads(alloc, script, history, tape)?;
    steps.normal(alloc, tape, reads.as_slice())
}

/// The tape over which a script shows that.
fn unnormal(
    alloc: Global,
    script: &Script,
    history: &History,
    hidden: u32,
    tape: &[u8],
) -> Result<Vec<u8>, Memory>
    requires legal { IsLegal script.now.shape history.now }
    requires low { 1 ≤ hidden }
    requires high { hidden ≤ script.now.shape.servers }
    requires whole { length tape.now ≡ tape_len script.now.shape }
    ensures { IfOk result (λ v. v.items ≡ told.unnormal script.now history.now hidden tape.now) }
{
    let sent = all_sent(alloc, script)?;
    let steps = Steps {
        script,
        sent: sent.as_slice(),
        hidden,
    };
    let regained = steps.regained(alloc, tape)?;
    let reads = last_reads(alloc, script, history, regained.as_slice())?;
    steps.with_reads_changed(alloc, regained.as_slice(), reads.as_slice())
}

/// The read frames that the last server sees of a run over a tape.
fn last_reads(
    alloc: Global,
    script: &Script,
    history: &History,
    tape: &[u8],
) -> Result<Vec<ReadFrame>, Memory>
    requires legal { IsLegal script.now.shape history.now }
    requires whole { length tape.now ≡ tape_len script.now.shape }
    ensures counted { let shape = script.now.shape in
        IfOk result (λ reads. length reads.items ≡ turn_count shape * shape.clients) }
    ensures reads { IfOk result (λ reads.
        AreLastReads script.now.shape history.now
        (told.pairs_read script.now (drawn tape.now) history.now) tape.now reads.items) }
{
    let draws = draws_over(alloc, script, tape)?;
    let plan = Plan {
        script,
        draws: &draws,
        history,
    };
    all_reads(alloc, &plan, script.shape.servers)
}

/// The words of a tape, which is copied.
pub fn draws_over(alloc: Global, script: &Script, tape: &[u8]) -> Result<DrawnDraws, Memory>
    requires whole { length tape.now ≡ tape_len script.now.shape }
    ensures shape { IfOk result (λ draws.
        ⟦<DrawnDraws as Draws>⟧.shape draws ≡ script.now.shape) }
    ensures book { IfOk result (λ draws. ⟦<DrawnDraws as Draws>⟧.book draws ≡ drawn tape.now) }
{
    let mut bytes = Vec::new(alloc);
    push(tape, &mut bytes)?;
    Ok(DrawnDraws::new(&script.shape, tape_of(script, bytes)))
}

/// These bytes as a tape of a script.
pub fn tape_of(script: &Script, bytes: Vec<u8>) -> Tape
    requires { length bytes.items ≡ tape_len script.now.shape }
    ensures { result ≡ bytes.items }
{
    Tape::from_bytes(&script.shape, bytes).unwrap()
}
