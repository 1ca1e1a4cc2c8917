ghost use Rattle.std.specs.Prelude.{◌≡◌, ◌+◌, ◌<◌, [], length, map, replicate, IfOk, OnOk};
ghost use Rattle.std.specs.List.{range_with_len};
ghost use Rattle.tk_report.specs.Listings.{sent_by, IsListing};

use crate::sendings::Sendings;
use crate::sent::Sent;
use std::alloc::Global;
use tk_schedule::turn;
use tk_script::Script;
use tk_shape::Memory;

/// What clients send, as far as a script's texts were gone through.
#[derive(Drop)]
pub(crate) struct Listing<'a> {
    /// By client, the first turn that is free.
    pub free: Vec<u32>,
    /// By log, how many of its texts are sent.
    pub counts: Vec<u32>,
    /// By client, what it sends.
    pub sent: Vec<Sendings<'a>>,
}

/// What each client sends, by number. The texts stay in the script, which is gone through once.
pub fn all_sent<'a>(alloc: Global, script: &'a Script) -> Result<Vec<Sendings<'a>>, Memory>
    ensures { let S = script.now in
        IfOk result (λ all. all.items ≡ map (sent_by S) (range_with_len 0 S.shape.clients)) }
{
    let mut listing = open_listing(alloc, script)?;
    'says: for place in 0..script.says.as_slice().len() {
        list_text(script, place, &mut listing)?;
    }
    Ok(listing.sent)
}

/// A listing before the first text.
fn open_listing<'a>(alloc: Global, script: &'a Script) -> Result<Listing<'a>, Memory>
    ensures { IfOk result (IsListing script.now 0) }
{
    Ok(Listing {
        free: vec![in alloc; 0u32; script.shape.clients as usize]?,
        counts: vec![in alloc; 0u32; script.shape.logs as usize]?,
        sent: nothing_sent(alloc, script.shape.clients)?,
    })
}

/// An empty list for each client.
fn nothing_sent<'a>(alloc: Global, clients: u32) -> Result<Vec<Sendings<'a>>, Memory>
    ensures { IfOk result (λ all. all.items ≡ replicate clients []) }
{
    let mut all = Vec::new(alloc);
    for _made in 0..clients {
        all.push(Sendings::new(alloc))?;
    }
    Ok(all)
}

/// Lists the text at a place of the script for the writer of its log, where a turn is free.
fn list_text<'a>(script: &'a Script, place: usize, listing: &mut Listing<'a>) -> Result<(), Memory>
    requires within { place < length script.now.says }
    requires listing { IsListing script.now place listing.old }
    ensures { OnOk result (IsListing script.now (place + 1) listing.new) }
{
    let say = script.say(place);
    let writer = script.role(say.log).writer as usize;
    let free = listing.free[writer];
    if free >= script.shape.turns() {
        return Ok(());
    }
    let now = turn(&script.shape, say.phase, say.tick).max(free);
    let number = listing.counts[say.log as usize];
    let sendings = &mut listing.sent[writer];
    sendings.push(Sent {
        turn: now,
        log: say.log,
        number,
        text: &say.text,
    })?;
    listing.counts[say.log as usize] = number + 1;
    listing.free[writer] = now + 1;
    Ok(())
}
