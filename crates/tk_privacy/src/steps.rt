//! The two steps from a script's tape to the one over which another shows the same.
ghost use Rattle.std.specs.Prelude.{◌≡◌, ◌≤◌, ◌*◌, ◌++◌, length, map, IfOk, OnOk};
ghost use Rattle.std.specs.List.{range_with_len};
ghost use Rattle.tk_shape.specs.Lengths.{tape_len, turn_count};
ghost use Rattle.tk_report.specs.Listings.{sent_by};
ghost use Rattle.tk_privacy.specs.Privacy.{normal_for, regained, with_reads_for};
ghost use Rattle.tk_privacy.specs.Steps.{ForTheirBuckets, MakesTape, reads_changed};

use crate::cells::Cells;
use crate::exchange::{Exchange, push};
use crate::hidden_cells::Hiding;
use crate::way::Way;
use std::alloc::Global;
use tk_frames::ReadFrame;
use tk_report::Sendings;
use tk_script::Script;
use tk_shape::Memory;

/// A script with what each client sends, and the server that is hidden.
#[derive(Drop)]
pub struct Steps<'a> {
    pub script: &'a Script,
    pub sent: &'a [Sendings<'a>],
    pub hidden: u32,
    pub ghost all_sent: { sent.now ≡ map (sent_by script.now)
        (range_with_len 0 script.now.shape.clients) },
    pub ghost low: { 1 ≤ hidden },
    pub ghost high: { hidden ≤ script.now.shape.servers },
}

impl<'a> Steps<'a> {
    /// The normal tape: of what is shown to all servers but the hidden one.
    pub fn normal(&self, alloc: Global, tape: &[u8], reads: &[ReadFrame]) -> Result<Vec<u8>, Memory>
        requires whole { length tape.now ≡ tape_len self.now.script.now.shape }
        requires counted { let shape = self.now.script.now.shape in
            length reads.now ≡ turn_count shape * shape.clients }
        ensures { let S = self.now.script.now in
            MakesTape S.shape (normal_for S self.now.hidden) tape.now reads.now result }
    {
        let cells = Cells {
            shape: &self.script.shape,
            bytes: tape,
        };
        let exchange = Exchange {
            way: Way::Show,
            script: self.script,
            sent: self.sent,
            cells: &cells,
        };
        let mut out = Vec::new(alloc);
        exchange.push_writes(alloc, &mut out)?;
        self.push_reads(&cells, reads, &mut out)?;
        exchange.push_keyeds(alloc, &mut out)?;
        Ok(out)
    }

    /// The tape whose cells of writes are regained from a normal one.
    pub fn regained(&self, alloc: Global, tape: &[u8]) -> Result<Vec<u8>, Memory>
        requires { length tape.now ≡ tape_len self.now.script.now.shape }
        ensures { IfOk result (λ bytes.
            bytes.items ≡ regained self.now.script.now tape.now) }
    {
        let cells = Cells {
            shape: &self.script.shape,
            bytes: tape,
        };
        let exchange = Exchange {
            way: Way::Regain,
            script: self.script,
            sent: self.sent,
            cells: &cells,
        };
        let mut out = Vec::new(alloc);
        exchange.push_writes(alloc, &mut out)?;
        push(cells.read_part(), &mut out)?;
        exchange.push_keyeds(alloc, &mut out)?;
        Ok(out)
    }

    /// The tape with its read cells changed.
    pub fn with_reads_changed(
        &self,
        alloc: Global,
        tape: &[u8],
        reads: &[ReadFrame],
    ) -> Result<Vec<u8>, Memory>
        requires whole { length tape.now ≡ tape_len self.now.script.now.shape }
        requires counted { let shape = self.now.script.now.shape in
            length reads.now ≡ turn_count shape * shape.clients }
        ensures { let S = self.now.script.now in
            MakesTape S.shape (with_reads_for S.shape self.now.hidden) tape.now reads.now result }
    {
        let cells = Cells {
            shape: &self.script.shape,
            bytes: tape,
        };
        let mut out = Vec::new(alloc);
        push(cells.write_part(), &mut out)?;
        self.push_reads(&cells, reads, &mut out)?;
        push(cells.keyed_part(), &mut out)?;
        Ok(out)
    }

    /// Appends the read cells, changed by the reads that the last server sees.
    fn push_reads(
        &self,
        cells: &Cells,
        reads: &[ReadFrame],
        out: &mut Vec<u8>,
    ) -> Result<(), Memory>
        requires one_shape { cells.now.shape.now ≡ self.now.script.now.shape }
        requires counted { let shape = self.now.script.now.shape in
            length reads.now ≡ turn_count shape * shape.clients }
        ensures { let S = self.now.script.now in
            let tape = cells.now.bytes.now in
            ForTheirBuckets S.shape tape reads.now (λ pairs. OnOk result (out.new.items
            ≡ out.old.items ++ reads_changed S.shape self.now.hidden pairs tape)) }
    {
        if self.hidden == self.script.shape.servers {
            return push(cells.read_part(), out);
        }
        let hiding = Hiding {
            hidden: self.hidden,
            cells,
            reads,
        };
        hiding.push_reads(out)
    }
}
