ghost use Rattle.std.specs.Prelude.{◌≡◌, ◌+◌, ◌-◌, ◌*◌, ◌<◌, ◌≤◌, length};
ghost use Rattle.tk_words.specs.Words.{write_cells_len, read_cells_len};
ghost use Rattle.tk_shape.specs.Lengths.{tape_len, turn_count, cell_len, read_cell_len};

use crate::cells::{cell_block, cell_hits, cell_pair, cell_seeds_and_vectors, pad_and_tag, piece};
use crate::{Draws, LogSeeds, Tape};
use tk_seal::{mask, unmask};
use tk_shape::Shape;

/// The words of a tape.
#[derive(Drop)]
pub struct DrawnDraws {
    shape: Shape,
    tape: Tape,
    ghost whole: { length tape ≡ tape_len shape },
}

impl DrawnDraws {
    ghost use Rattle.tk_words.specs.Words.{drawn, write_cell, read_cell, keyed_cell};

    /// The words of a tape of the shape's length.
    pub fn new(shape: &Shape, tape: Tape) -> DrawnDraws
        requires { length tape ≡ tape_len shape.now }
        ensures shape { ⟦<DrawnDraws as Draws>⟧.shape result ≡ shape.now }
        ensures book { ⟦<DrawnDraws as Draws>⟧.book result ≡ drawn tape }
    {
        DrawnDraws {
            shape: *shape,
            tape,
        }
    }

    fn write_cell(&self, turn: u32, client: u32) -> &[u8]
        requires turn_in { turn < turn_count self.now.shape }
        requires client_in { client < self.now.shape.clients }
        ensures cell { result.now ≡ write_cell self.now.shape self.now.tape turn client }
        ensures len { length result.now ≡ cell_len self.now.shape }
    {
        let size = self.shape.cell_len() as usize;
        let part = &self.tape.as_bytes()[..write_cells_len(&self.shape)];
        piece(part, size, place(turn, self.shape.clients, client))
    }

    fn read_cell(&self, turn: u32, client: u32) -> &[u8]
        requires turn_in { turn < turn_count self.now.shape }
        requires client_in { client < self.now.shape.clients }
        ensures cell { result.now ≡ read_cell self.now.shape self.now.tape turn client }
        ensures len { length result.now ≡ read_cell_len self.now.shape }
    {
        let size = self.shape.read_cell_len() as usize;
        let rest = &self.tape.as_bytes()[write_cells_len(&self.shape)..];
        let part = &rest[..read_cells_len(&self.shape)];
        piece(part, size, place(turn, self.shape.clients, client))
    }

    fn keyed_cell(&self, log: u32, number: u32) -> &[u8]
        requires log_in { log < self.now.shape.logs }
        requires number_in { number < turn_count self.now.shape }
        ensures cell { result.now ≡ keyed_cell self.now.shape self.now.tape log number }
        ensures len { length result.now ≡ cell_len self.now.shape }
    {
        let size = self.shape.cell_len() as usize;
        let start = write_cells_len(&self.shape) + read_cells_len(&self.shape);
        let part = &self.tape.as_bytes()[start..];
        piece(part, size, place(log, self.shape.turns(), number))
    }
}

impl Draws for DrawnDraws {
    ghost use Rattle.tk_words.specs.Words.{drawn};
    ghost use Rattle.tk_words.specs.OpeningLaws.{opens_what_seals, opens_sealed};

    ghost shape = { λ draws. draws.shape };

    ghost book = { λ draws. drawn draws.tape };

    fn pair(&self, log: u32, number: u32) -> (u32, u32) {
        cell_pair(&self.shape, self.keyed_cell(log, number))
    }

    fn hits(&self, log: u32, number: u32, out: &mut [u32]) {
        cell_hits(&self.shape, self.keyed_cell(log, number), out);
    }

    fn pair_and_hits(&self, log: u32, number: u32, hits: &mut [u32]) -> (u32, u32) {
        let cell = self.keyed_cell(log, number);
        cell_hits(&self.shape, cell, hits);
        cell_pair(&self.shape, cell)
    }

    fn log_seeds(&self, _log: u32) -> Option<LogSeeds> {
        None
    }

    fn seal(&self, log: u32, number: u32, text: &[u8], out: &mut [u8]) {
        let (pad, tag) = pad_and_tag(&self.shape, self.keyed_cell(log, number));
        let (masked, mark) = out.split_at_mut(pad.len());
        mask(pad, text, masked);
        mark.copy_from_slice(tag);
    }

    fn open(&self, log: u32, number: u32, block: &[u8], out: &mut [u8]) -> Option<usize> {
        let (pad, tag) = pad_and_tag(&self.shape, self.keyed_cell(log, number));
        let (masked, mark) = block.split_at(pad.len());
        if mark != tag {
            out.fill(0);
            return None;
        }
        unmask(pad, masked, out)
    }

    fn fresh_write(
        &self,
        client: u32,
        turn: u32,
        hits: &mut [u32],
        block: &mut [u8],
    ) -> (u32, u32) {
        let cell = self.write_cell(turn, client);
        cell_hits(&self.shape, cell, hits);
        block.copy_from_slice(cell_block(&self.shape, cell));
        cell_pair(&self.shape, cell)
    }

    fn fresh_read(
        &self,
        client: u32,
        turn: u32,
        seeds: &mut [u8],
        vectors: &mut [u8],
    ) -> (u32, u32) {
        let cell = self.read_cell(turn, client);
        cell_seeds_and_vectors(&self.shape, cell, seeds, vectors);
        cell_pair(&self.shape, cell)
    }

    fn shows(&self) -> bool {
        true
    }

    ghost serves = { λ draws. draws.whole };

    ghost opens_what_seals = { λ draws.
        opens_what_seals draws.shape (drawn draws.tape) draws.whole };

    ghost opens_sealed = { λ draws. opens_sealed draws.shape (drawn draws.tape) draws.whole };
}

// The bytes of a tape's write cells.
pub(crate) fn write_cells_len(shape: &Shape) -> usize
    ensures { result ≡ write_cells_len shape.now }
{
    shape.turns() as usize * shape.clients as usize * shape.cell_len() as usize
}

// The bytes of its read cells.
pub(crate) fn read_cells_len(shape: &Shape) -> usize
    ensures { result ≡ read_cells_len shape.now }
{
    shape.turns() as usize * shape.clients as usize * shape.read_cell_len() as usize
}

// The place of a column in rows of a width.
fn place(row: u32, width: u32, column: u32) -> usize
    requires low { row < 16384 }
    requires narrow { width ≤ 16384 }
    ensures { result ≡ row * width + column }
{
    row as usize * width as usize + column as usize
}
