ghost use Rattle.std.specs.Prelude.{◌≡◌, [], IfOk, IfErr};
ghost use Rattle.tk_client.specs.Saying.{fault_of};
ghost use Rattle.embed.specs.Faults.{IsTalkFault};
ghost use Rattle.embed.specs.Turns.{after_turn, with_said, new_writer};

use crate::fault::Fault;
use crate::servers::open_servers;
use crate::turn::take_turn;
use std::alloc::Global;
use tk_client::Client;
use tk_shape::Shape;
use tk_words::Draws;

/// A client that writes log 0 and follows it too says a text, and takes its first turn with servers
/// that have nothing yet.
pub fn talk<D: Draws>(alloc: Global, shape: &Shape, draws: &D, text: &[u8]) -> Result<Client, Fault>
    requires one_shape { D.shape draws.now ≡ shape.now }
    requires one_tick { shape.now.ticks ≡ 1 }
    ensures client { IfOk result (λ client. client
        ≡ after_turn (D.book draws.now) 0 [] (with_said text.now (new_writer shape.now))) }
    ensures fault { let logs = (new_writer shape.now).writing.logs in
        IfErr result (IsTalkFault (fault_of shape.now logs 0 text.now)) }
{
    let mut servers = open_servers(alloc, shape)?;
    let mut client = Client::open(alloc, shape, 0, &[0], &[0])?;
    client.say(alloc, 0, text)?;
    take_turn(alloc, draws, 0, &mut client, servers.as_mut_slice())?;
    Ok(client)
}
