ghost use Rattle.std.specs.Prelude.{◌≡◌, ◌<◌, ◌≤◌, ◌+◌, ◌-◌, ◌*◌, ◌++◌, length, take, drop, OnOk};
ghost use Rattle.tk_shape.specs.Lengths.{turn_count, read_cell_len};
ghost use Rattle.tk_privacy.specs.Hiding.{cell_with, read_hidden_in, turn_hidden_in, reads_hidden_in};

use crate::cells::{Cells, place};
use tk_frames::ReadFrame;
use tk_shape::{Memory, Shape};

/// The change of a tape's read cells by which the hidden server, which isn't the last, gets the
/// vectors that the last server gets in these reads: those of all turns, in each by client.
#[derive(Drop)]
pub(crate) struct Hiding<'a> {
    pub hidden: u32,
    pub cells: &'a Cells<'a>,
    pub reads: &'a [ReadFrame],
    ghost low: { 1 ≤ hidden },
    ghost high: { hidden < cells.now.shape.now.servers },
    ghost counted: { length reads.now
        ≡ turn_count cells.now.shape.now * cells.now.shape.now.clients },
}

impl<'a> Hiding<'a> {
    /// Appends all read cells.
    pub(crate) fn push_reads(&self, out: &mut Vec<u8>) -> Result<(), Memory>
        ensures { OnOk result (out.new.items ≡ out.old.items
            ++ reads_hidden_in self.now.cells.now self.now.reads.now self.now.hidden) }
    {
        for turn in 0..self.cells.shape.turns() {
            self.push_turn(turn, out)?;
        }
        Ok(())
    }

    /// Appends the read cells of a turn.
    fn push_turn(&self, turn: u32, out: &mut Vec<u8>) -> Result<(), Memory>
        requires { turn < turn_count self.now.cells.now.shape.now }
        ensures { OnOk result (out.new.items ≡ out.old.items
            ++ turn_hidden_in self.now.cells.now self.now.reads.now self.now.hidden turn) }
    {
        for client in 0..self.cells.shape.clients {
            self.push_read(turn, client, out)?;
        }
        Ok(())
    }

    /// Appends the read cell of a client's turn.
    fn push_read(&self, turn: u32, client: u32, out: &mut Vec<u8>) -> Result<(), Memory>
        requires turn_in { turn < turn_count self.now.cells.now.shape.now }
        requires client_in { client < self.now.cells.now.shape.now.clients }
        ensures { OnOk result (out.new.items ≡ out.old.items
            ++ read_hidden_in self.now.cells.now self.now.reads.now self.now.hidden turn client) }
    {
        let shape = self.cells.shape;
        let read = &self.reads[place(turn, shape.clients, client)];
        push_hidden(
            shape,
            self.hidden,
            self.cells.read_cell(turn, client),
            read,
            out,
        )
    }
}

/// Appends a read cell whose vectors of the hidden server are replaced by those of a read frame. Its
/// seeds stay.
pub(crate) fn push_hidden(
    shape: &Shape,
    hidden: u32,
    cell: &[u8],
    read: &ReadFrame,
    out: &mut Vec<u8>,
) -> Result<(), Memory>
    requires low { 1 ≤ hidden }
    requires high { hidden < shape.now.servers }
    requires whole { length cell.now ≡ read_cell_len shape.now }
    ensures { OnOk result (out.new.items ≡ out.old.items
        ++ cell_with shape.now hidden read.now.first read.now.second cell.now) }
{
    let size = shape.vector_len() as usize;
    let each = shape.piece_len() as usize;
    let at = (hidden as usize - 1) * each + shape.seed_len() as usize;
    let (front, pieces) = cell.split_at(8);
    let (first, second) = pieces.split_at((shape.servers as usize - 1) * each);
    out.extend_from_slice(front)?;
    push_replaced(first, at, size, read.first.as_slice(), out)?;
    push_replaced(second, at, size, read.second.as_slice(), out)
}

/// Appends bytes of which so many from a place on are replaced by others.
fn push_replaced(
    bytes: &[u8],
    at: usize,
    size: usize,
    other: &[u8],
    out: &mut Vec<u8>,
) -> Result<(), Memory>
    requires { at + size ≤ length bytes.now }
    ensures { OnOk result (out.new.items ≡ out.old.items
        ++ (take at bytes.now ++ (other.now ++ drop (at + size) bytes.now))) }
{
    out.extend_from_slice(&bytes[..at])?;
    out.extend_from_slice(other)?;
    out.extend_from_slice(&bytes[at + size..])?;
    Ok(())
}
