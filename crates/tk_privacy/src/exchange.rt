ghost use Rattle.std.specs.Prelude.{◌≡◌, ◌<◌, ◌≤◌, ◌+◌, ◌++◌, length, map, IsTrue, OnOk};
ghost use Rattle.std.specs.List.{range_with_len};
ghost use Rattle.std.specs.Option.{option_copied};
ghost use Rattle.tk_shape.specs.Lengths.{turn_count, cell_len};
ghost use Rattle.tk_seal.specs.Texts.{is_allowed};
ghost use Rattle.tk_script.specs.Sent.{sent, sent_as};
ghost use Rattle.tk_report.specs.Listings.{sent_by};
ghost use Rattle.tk_privacy.specs.Privacy.{masked_cell};
ghost use Rattle.tk_privacy.specs.Exchanging.{write_of_client, writes_of_turn, writes_exchanged};
ghost use Rattle.tk_privacy.specs.Exchanging.{number_of_log, numbers_of_log, keyeds_exchanged};

use crate::cells::Cells;
use crate::log_texts::texts_of;
use crate::way::Way;
use std::alloc::Global;
use tk_report::{Sendings, Sent};
use tk_script::Script;
use tk_seal::mask;
use tk_shape::{Memory, Shape};

/// The exchange of the cells of a tape that texts of a script call for: of each write cell in whose
/// turn a text is sent, and of the cell of the text's number.
#[derive(Drop)]
pub(crate) struct Exchange<'a> {
    pub way: Way,
    pub script: &'a Script,
    pub sent: &'a [Sendings<'a>],
    pub cells: &'a Cells<'a>,
    ghost one_shape: { cells.now.shape.now ≡ script.now.shape },
    ghost all_sent: { sent.now ≡ map (sent_by script.now)
        (range_with_len 0 script.now.shape.clients) },
}

impl<'a> Exchange<'a> {
    /// Appends all write cells.
    pub(crate) fn push_writes(&self, alloc: Global, out: &mut Vec<u8>) -> Result<(), Memory>
        ensures { OnOk result (out.new.items ≡ out.old.items
            ++ writes_exchanged self.now.way self.now.script.now self.now.cells.now.bytes.now) }
    {
        for turn in 0..self.script.shape.turns() {
            self.push_turn(alloc, turn, out)?;
        }
        Ok(())
    }

    /// Appends the write cells of a turn.
    fn push_turn(&self, alloc: Global, turn: u32, out: &mut Vec<u8>) -> Result<(), Memory>
        requires { turn < turn_count self.now.script.now.shape }
        ensures { OnOk result (out.new.items ≡ out.old.items
            ++ writes_of_turn self.now.way self.now.script.now self.now.cells.now.bytes.now turn) }
    {
        for client in 0..self.script.shape.clients {
            self.push_write(alloc, turn, client, out)?;
        }
        Ok(())
    }

    /// Appends the write cell of a client's turn.
    fn push_write(
        &self,
        alloc: Global,
        turn: u32,
        client: u32,
        out: &mut Vec<u8>,
    ) -> Result<(), Memory>
        requires turn_in { turn < turn_count self.now.script.now.shape }
        requires client_in { client < self.now.script.now.shape.clients }
        ensures { OnOk result (out.new.items ≡ out.old.items ++ write_of_client self.now.way
            self.now.script.now self.now.cells.now.bytes.now turn client) }
    {
        let Some(found) = self.sent_in(turn, client) else {
            return push(self.cells.write_cell(turn, client), out);
        };
        let cell = self.cells.keyed_cell(found.log, found.number);
        match self.way {
            Way::Show => push_masked(alloc, &self.script.shape, found.text.as_slice(), cell, out),
            Way::Regain => push(cell, out),
        }
    }

    /// Appends the cells of all numbers, log after log.
    pub(crate) fn push_keyeds(&self, alloc: Global, out: &mut Vec<u8>) -> Result<(), Memory>
        ensures { OnOk result (out.new.items ≡ out.old.items
            ++ keyeds_exchanged self.now.way self.now.script.now self.now.cells.now.bytes.now) }
    {
        for log in 0..self.script.shape.logs {
            self.push_log(alloc, log, out)?;
        }
        Ok(())
    }

    /// Appends the cells of a log's numbers.
    fn push_log(&self, alloc: Global, log: u32, out: &mut Vec<u8>) -> Result<(), Memory>
        requires { log < self.now.script.now.shape.logs }
        ensures { OnOk result (out.new.items ≡ out.old.items
            ++ numbers_of_log self.now.way self.now.script.now self.now.cells.now.bytes.now log) }
    {
        let writer = self.script.role(log).writer;
        let sent = self.sent[writer as usize].as_slice();
        let texts = texts_of(alloc, sent, log)?;
        for number in 0..self.script.shape.turns() {
            let found = texts.as_slice().get(number as usize);
            self.push_number(alloc, log, number, found, out)?;
        }
        Ok(())
    }

    /// Appends the cell of a number of a log, as which this is sent.
    fn push_number(
        &self,
        alloc: Global,
        log: u32,
        number: u32,
        found: Option<&Sent>,
        out: &mut Vec<u8>,
    ) -> Result<(), Memory>
        requires log_in { log < self.now.script.now.shape.logs }
        requires number_in { number < turn_count self.now.script.now.shape }
        requires found { option_copied found ≡ sent_as self.now.script.now log number }
        ensures { OnOk result (out.new.items ≡ out.old.items ++ number_of_log self.now.way
            self.now.script.now self.now.cells.now.bytes.now log number) }
    {
        let Some(found) = found else {
            return push(self.cells.keyed_cell(log, number), out);
        };
        let writer = self.script.role(log).writer;
        let cell = self.cells.write_cell(found.turn, writer);
        match self.way {
            Way::Show => push(cell, out),
            Way::Regain => push_masked(alloc, &self.script.shape, found.text.as_slice(), cell, out),
        }
    }

    /// What a client sends in a turn.
    fn sent_in(&self, turn: u32, client: u32) -> Option<&Sent<'a>>
        requires { client < self.now.script.now.shape.clients }
        ensures { option_copied result ≡ sent self.now.script.now turn client }
    {
        self.sent[client as usize].in_turn(turn)
    }
}

/// Appends a cell with a text sealed in its block.
fn push_masked(
    alloc: Global,
    shape: &Shape,
    text: &[u8],
    cell: &[u8],
    out: &mut Vec<u8>,
) -> Result<(), Memory>
    requires whole { length cell.now ≡ cell_len shape.now }
    requires allowed { IsTrue (is_allowed text.now) }
    requires fits { length text.now + 18 ≤ shape.now.block }
    ensures { OnOk result
        (out.new.items ≡ out.old.items ++ masked_cell shape.now text.now cell.now) }
{
    let (words, block) = cell.split_at(8 + 4 * shape.hits as usize);
    let (pad, tag) = block.split_at(shape.block as usize - 16);
    let mut masked = vec![in alloc; 0u8; pad.len()]?;
    mask(pad, text, masked.as_mut_slice());
    out.extend_from_slice(words)?;
    out.extend_from_slice(masked.as_slice())?;
    out.extend_from_slice(tag)?;
    Ok(())
}

/// Appends a cell as it is.
pub(crate) fn push(cell: &[u8], out: &mut Vec<u8>) -> Result<(), Memory>
    ensures { OnOk result (out.new.items ≡ out.old.items ++ cell.now) }
{
    out.extend_from_slice(cell)?;
    Ok(())
}
