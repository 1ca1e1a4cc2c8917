ghost use Rattle.std.specs.Prelude.{cond, nat_lt};

use std::alloc::Global;
use std::test::Fail;
use tk_io::NoTaps;
use tk_run::{Ended, Keeper, ResumeError, resumed, resumed_by};
use tk_script::{Form, Input, parse};
use tk_shape::{Bytes, Memory};
use tk_words::Book;

/// A text that client 0 says in the first turn, and client 1 reads in the second.
const ONE_TEXT: &[u8] = b"talek 1
shape 2 8 4 4 24 64 1 0 2 2 1 1
drawn
log 0 1
say 1 1 0 hi
end
tape
fill 11 36
fill 12 36
fill 13 36
fill 14 36
fill 21 10
fill 22 10
fill 23 10
fill 24 10
fill 31 36
fill 32 36
end
";

/// The last byte of the text's sealed block in the checkpoint behind the first mark.
const SEALED: usize = 296;

/// Gives the servers from a number on what it keeps with a bit of one byte changed, if that isn't 0.
#[derive(Drop)]
struct Changer {
    kept: Vec<Bytes>,
    own: Vec<u8>,
    changed: Vec<u8>,
    at: usize,
    from: u32,
}

impl Keeper for Changer {
    ghost kept = { λ k. k.kept.items };

    ghost gives = { λ k j. cond (nat_lt j k.from) k.own.items k.changed.items };

    fn keep(&mut self, alloc: Global, bytes: &[u8]) -> Result<(), Memory> {
        let own = Vec::from_slice(alloc, bytes)?;
        let mut changed = Vec::from_slice(alloc, bytes)?;
        if self.at < changed.len() && changed[self.at] != 0 {
            changed[self.at] ^= 1;
        }
        let copy = Bytes::from_slice(alloc, bytes)?;
        self.kept.push(copy)?;
        self.own = own;
        self.changed = changed;
        Ok(())
    }

    fn give(&self, alloc: Global, server: u32) -> Result<Vec<u8>, Memory> {
        if server < self.from {
            return Ok(Vec::from_slice(alloc, self.own.as_slice())?);
        }
        Ok(Vec::from_slice(alloc, self.changed.as_slice())?)
    }
}

/// Gives each server one text, whatever it keeps.
#[derive(Drop)]
struct Stubborn {
    kept: Vec<Bytes>,
    text: Vec<u8>,
}

impl Keeper for Stubborn {
    ghost kept = { λ k. k.kept.items };

    ghost gives = { λ k _. k.text.items };

    fn keep(&mut self, alloc: Global, bytes: &[u8]) -> Result<(), Memory> {
        self.kept.push(Bytes::from_slice(alloc, bytes)?)?;
        Ok(())
    }

    fn give(&self, alloc: Global, _server: u32) -> Result<Vec<u8>, Memory> {
        Ok(Vec::from_slice(alloc, self.text.as_slice())?)
    }
}

/// What is left of the run that begins anew at an epoch.
fn left<K: Keeper>(
    alloc: Global,
    epoch: u32,
    keeper: &mut K,
) -> Result<Result<Ended, ResumeError>, Fail> {
    let Ok(
        Input {
            first: script,
            tape,
            ..
        },
    ) = parse(alloc, ONE_TEXT, Form::Run)
    else {
        return Err(Fail::from("a script"));
    };
    let Ok(Book::Drawn(draws)) = script.book(alloc, tape) else {
        return Err(Fail::from("drawn words"));
    };
    if epoch > script.shape.phases {
        return Err(Fail::from("an epoch"));
    }
    Ok(resumed_by(alloc, &script, &draws, &mut NoTaps, epoch, keeper))
}

/// How many numbers of the log client 1 gets where the run itself keeps the checkpoint.
fn got_alone(alloc: Global, epoch: u32) -> Result<usize, Fail> {
    let Ok(
        Input {
            first: script,
            tape,
            ..
        },
    ) = parse(alloc, ONE_TEXT, Form::Run)
    else {
        return Err(Fail::from("a script"));
    };
    let Ok(Book::Drawn(draws)) = script.book(alloc, tape) else {
        return Err(Fail::from("drawn words"));
    };
    if epoch > script.shape.phases {
        return Err(Fail::from("an epoch"));
    }
    let Ok(outcome) = resumed(alloc, &script, &draws, &mut NoTaps, epoch) else {
        return Err(Fail::from("a run"));
    };
    match outcome.clients.as_slice().get(1) {
        Some(client) => Ok(client.log(0).len()),
        None => Ok(0),
    }
}

/// What keeps nothing yet, and will change a byte for the servers from a number on.
fn changing(alloc: Global, at: usize, from: u32) -> Changer {
    Changer {
        kept: Vec::new(alloc),
        own: Vec::new(alloc),
        changed: Vec::new(alloc),
        at,
        from,
    }
}

/// How many numbers of the log client 1 got.
fn got(ended: &Ended) -> usize {
    match ended.clients.as_slice().get(1) {
        Some(client) => client.log(0).len(),
        None => 0,
    }
}

/// What client 1 gets where one bit of the text's block is changed in what some servers begin anew from: nothing, if that
/// is behind the write and before its read.
#[test]
fn changed_checkpoints(rt: HostRuntime) -> Result<(), Fail> {
    let alloc = rt.alloc();
    for (epoch, from, want) in [(1, 3, 1), (1, 1, 0), (1, 2, 0), (0, 1, 1), (2, 1, 1)] {
        let Ok(ended) = left(alloc, epoch, &mut changing(alloc, SEALED, from))? else {
            return Err(Fail::from("a run"));
        };
        assert!(rt; got(&ended) == want, "from {epoch}, {from} on changed");
    }
    Ok(())
}

/// A text that is no checkpoint is refused.
#[test]
fn foreign_texts(rt: HostRuntime) -> Result<(), Fail> {
    let alloc = rt.alloc();
    for at in [0, 4, 64, 68, 72] {
        let ended = left(alloc, 1, &mut changing(alloc, at, 1))?;
        let refused = matches!(ended, Err(ResumeError::Refused));
        assert!(rt; refused, "byte {at} changed");
    }
    Ok(())
}

/// So is the checkpoint of another epoch, since that has other numbers of entries and marks.
#[test]
fn other_checkpoints(rt: HostRuntime) -> Result<(), Fail> {
    let alloc = rt.alloc();
    for (made, epoch) in [(0, 1), (1, 0), (1, 2), (2, 1)] {
        let mut keeper = changing(alloc, 0, 9);
        let Ok(_) = left(alloc, made, &mut keeper)? else {
            return Err(Fail::from("a run"));
        };
        let mut other = Stubborn {
            kept: Vec::new(alloc),
            text: keeper.own,
        };
        let refused = matches!(left(alloc, epoch, &mut other)?, Err(ResumeError::Refused));
        assert!(rt; refused, "from {made} at {epoch}");
    }
    Ok(())
}

/// Where the run itself keeps the checkpoint, client 1 gets the text, wherever the servers begin anew.
#[test]
fn own_checkpoints(rt: HostRuntime) -> Result<(), Fail> {
    for epoch in [0, 1, 2] {
        let got = got_alone(rt.alloc(), epoch)?;
        assert!(rt; got == 1, "from {epoch} on");
    }
    Ok(())
}
