ghost use Rattle.std.specs.Prelude.{◌≡◌, ◌+◌, ◌*◌, ◌<◌, ◌≤◌, ◌++◌, List, length, IfOk, OnOk, OnErr};
ghost use Rattle.tk_shape.specs.Lengths.{turn_count};
ghost use Rattle.tk_schedule.specs.declared.history.History.{History};
ghost use Rattle.tk_schedule.specs.Schedule.{IsLegal};
ghost use Rattle.tk_words.specs.Words.{WordBook};
ghost use Rattle.tk_frames.specs.declared.read_frame.ReadFrame.{ReadFrame as FrameOfRead};
ghost use Rattle.tk_report.specs.Exchange as told;
ghost use Rattle.tk_client.specs.Framing.{AreAllTold};
ghost use Rattle.tk_privacy.specs.Views.{IsViewBefore, all_viewed};

use crate::reads::all_reads;
use crate::server_sights::Seen;
use std::alloc::Global;
use tk_frames::ReadFrame;
use tk_report::{Group, Plan};
use tk_schedule::History;
use tk_script::Script;
use tk_shape::{Bytes, Memory};
use tk_words::Draws;

/// A run as far as it was seen: the clients that write, and the frames.
#[derive(Drop)]
pub(crate) struct Viewed {
    pub group: Group,
    pub seen: Seen,
}

/// Appends the frames that a server sees of a run of a script whose history is this one: turn after
/// turn its entries in order, and then what each client asks of that server. Where memory is
/// wanting nothing is appended.
pub fn view<D: Draws>(
    alloc: Global,
    script: &Script,
    draws: &D,
    history: &History,
    server: u32,
    out: &mut Vec<Bytes>,
) -> Result<(), Memory>
    requires one_shape { D.shape draws.now ≡ script.now.shape }
    requires legal { IsLegal script.now.shape history.now }
    requires low { 1 ≤ server }
    requires high { server ≤ script.now.shape.servers }
    ensures ok { OnOk result (out.new.items
        ≡ out.old.items ++ told.view script.now (D.book draws.now) history.now server) }
    ensures err { OnErr result (out.new.items ≡ out.old.items) }
{
    let plan = Plan {
        script,
        draws,
        history,
    };
    let reads = all_reads(alloc, &plan, server)?;
    let mut frames = all_frames(alloc, &plan, reads.as_slice())?;
    out.append(&mut frames)?;
    Ok(())
}

/// The frames that a server sees of a run: turn after turn its entries in order, and then these reads
/// of it, by client.
pub fn all_frames<D: Draws>(
    alloc: Global,
    plan: &Plan<D>,
    reads: &[ReadFrame],
) -> Result<Vec<Bytes>, Memory>
    requires counted { let shape = plan.now.script.now.shape in
        length reads.now ≡ turn_count shape * shape.clients }
    requires told { AreAllTold reads.now }
    ensures { IfOk result (λ frames. frames.items ≡ all_viewed plan.now.script.now
        (D.book plan.now.draws.now) plan.now.history.now reads.now) }
{
    let mut viewed = open_view(alloc, plan.script)?;
    'turns: for turn in 0..plan.script.shape.turns() {
        view_turn(alloc, plan, turn, reads, &mut viewed)?;
    }
    Ok(viewed.seen.frames)
}

/// A run before its first turn.
fn open_view(alloc: Global, script: &Script) -> Result<Viewed, Memory>
    ensures { (b : WordBook) (H : History) (reads : List FrameOfRead)
        → IfOk result (IsViewBefore script.now b H reads 0) }
{
    Ok(Viewed {
        group: Group::open(alloc, script)?,
        seen: Seen {
            entries: 0,
            frames: Vec::new(alloc),
        },
    })
}

/// What is seen of a turn: its entries in order, and then its reads.
fn view_turn<D: Draws>(
    alloc: Global,
    plan: &Plan<D>,
    turn: u32,
    reads: &[ReadFrame],
    viewed: &mut Viewed,
) -> Result<(), Memory>
    requires turn_in { turn < turn_count plan.now.script.now.shape }
    requires counted { let shape = plan.now.script.now.shape in
        length reads.now ≡ turn_count shape * shape.clients }
    requires told { AreAllTold reads.now }
    requires viewed { IsViewBefore plan.now.script.now (D.book plan.now.draws.now)
        plan.now.history.now reads.now turn viewed.old }
    ensures { OnOk result (IsViewBefore plan.now.script.now (D.book plan.now.draws.now)
        plan.now.history.now reads.now (turn + 1) viewed.new) }
{
    viewed.group.write(alloc, plan, turn, &mut viewed.seen)?;
    viewed.seen.ask(alloc, &plan.script.shape, turn, reads)?;
    Ok(())
}
