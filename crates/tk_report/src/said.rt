ghost use Rattle.std.specs.Prelude.{◌≡◌, ◌+◌, ◌<◌, ℕ, length, IfOk, OnOk};
ghost use Rattle.tk_shape.specs.Lengths.{turn_count};
ghost use Rattle.tk_client.specs.Reader.{Reader};
ghost use Rattle.tk_report.specs.Clients.{AreKnowing, HaveSaid};
ghost use Rattle.tk_report.specs.Queues.{said_before};

use std::alloc::Global;
use tk_client::Client;
use tk_schedule::turn;
use tk_script::Script;
use tk_shape::Memory;

/// How many texts a script says. More than 32 bits can count are as if memory had run out.
pub fn count_said(script: &Script) -> Result<u32, Memory>
    ensures { IfOk result (λ n. n ≡ length script.now.says) }
{
    let count = script.says.as_slice().len();
    u32::try_from(count).map_err(|_| Memory)
}

/// The texts that are said in a turn, from this place on in the script, join the queues of their
/// logs' writers. Answers the place after them. Where memory runs out some of them may have joined,
/// and nothing is promised of the clients.
pub(crate) fn say_turn(
    alloc: Global,
    script: &Script,
    now: u32,
    said: usize,
    clients: &mut [Client],
) -> Result<usize, Memory>
    requires turn_in { now < turn_count script.now.shape }
    requires said { said ≡ said_before script.now now }
    requires counted { length clients.old ≡ script.now.shape.clients }
    ensures counted { length clients.new ≡ length clients.old }
    ensures said { IfOk result (λ place. place ≡ said_before script.now (now + 1)) }
    ensures clients { (knows : ℕ → Reader) → AreKnowing script.now knows now clients.old
        → OnOk result (HaveSaid script.now knows now clients.new) }
{
    for place in said..script.says.as_slice().len() {
        let say = script.say(place);
        if turn(&script.shape, say.phase, say.tick) != now {
            return Ok(place);
        }
        let writer = &mut clients[script.role(say.log).writer as usize];
        // the writer of the log says a text of the script, so that only memory may be wanting
        let Ok(()) = writer.say_allowed(alloc, say.log, say.text.as_slice()) else {
            return Err(Memory);
        };
    }
    Ok(script.says.as_slice().len())
}
