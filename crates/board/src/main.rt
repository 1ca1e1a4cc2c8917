//! A notice board: three members, each with a log that all follow, and two servers. In each
//! turn every member writes and reads; each second turn ends a phase with a mark, whose epoch the
//! next reads are over. Half-way the servers stop, and go on from what they saved. An example for
//! those who build on these crates: it prints what each member read.
#![tactic(auto)]

mod board;
mod fault;
mod member;
mod notices;

use board::Board;
use fault::Fault;
use member::Member;
use notices::notice;
use std::str;
use tk_client::Got;
use tk_frames::Entry;
use tk_shape::Shape;

/// Two servers, eight buckets of four slots, of which 16 are kept, blocks of 64 bytes, a filter of
/// 64 bits with two positions a write, two numbers ahead; three members, four phases of two turns,
/// three logs.
const NUMBERS: [u32; 12] = [2, 8, 4, 16, 64, 64, 2, 2, 3, 4, 2, 3];

fn main(rt: HostRuntime) -> Result<(), Fault> {
    let alloc = rt.alloc();
    let shape = Shape::new(NUMBERS)?;
    let mut board = Board::open(alloc, &shape)?;
    let mut members = Vec::new(alloc);
    for number in 0..shape.clients {
        members.push(Member::open(alloc, &shape, number)?)?;
    }
    for turn in 0..shape.turns() {
        for member in members.iter_mut() {
            if let Some(text) = notice(turn, member.number()) {
                member.say(alloc, text)?;
            }
            board.take(alloc, Entry::Write(member.write(alloc)?))?;
        }
        if turn % shape.ticks == shape.ticks - 1 {
            board.mark(alloc)?;
        }
        let epoch = board.latest()?;
        for member in members.iter_mut() {
            let frames = member.ask(alloc, &epoch)?;
            member.take(alloc, board.replies(alloc, frames.as_slice())?.as_slice())?;
        }
        if turn + 1 == shape.turns() / 2 {
            board.restart(alloc)?;
        }
    }
    for member in &members {
        for log in 0..shape.logs {
            for got in member.log(log) {
                if let Got::Text(text) = got {
                    let text = str::from_utf8(text.as_slice()).unwrap_or("no text");
                    println!(rt; "member {} read on log {log}: {text}", member.number())?;
                }
            }
        }
    }
    Ok(())
}
