//! One client and the servers of a shape, which exchange frames for a turn: an example for those
//! who build on these crates. It prints what the client's log gave.
#![tactic(auto)]

mod fault;
mod keys;
mod order;
mod servers;
mod talk;
mod turn;

use fault::Fault;
use keys::keyed_draws;
use std::str;
use talk::talk;
use tk_client::Got;
use tk_shape::Shape;

/// Two servers, eight buckets of four slots, blocks of 64 bytes; one client, one turn, one log.
const NUMBERS: [u32; 12] = [2, 8, 4, 4, 64, 64, 2, 0, 1, 1, 1, 1];

fn main(rt: HostRuntime) -> Result<(), Fault> {
    let shape = Shape::new(NUMBERS)?;
    let draws = keyed_draws(rt.alloc(), &shape)?;
    let client = talk(rt.alloc(), &shape, &draws, b"At the gate, at seven.")?;
    for got in client.log(0) {
        match got {
            Got::Absent => println!(rt; "absent")?,
            Got::Text(text) => match str::from_utf8(text.as_slice()) {
                Ok(text) => println!(rt; "text {text}")?,
                Err(_) => println!(rt; "no text")?,
            },
        }
    }
    Ok(())
}
