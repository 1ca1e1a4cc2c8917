ghost use Rattle.std.specs.Prelude.{◌≡◌, ◌≤◌, IfOk, IfErr, OnOk, Some, None, false};
ghost use Rattle.tk_shape.specs.Ranges.{IsShape};

use crate::{Field, limits};

/// What fixes a run: its format, and its numbers.
#[derive(Clone, Copy, Debug, PartialEq, Eq)]
pub struct Shape {
    /// How reads tell servers their vectors: 1 as they are, 2 by seeds to all servers but the last.
    pub format: u32,
    /// Replicated servers, 2 to 8.
    pub servers: u32,
    /// Buckets of a table: a power of two, 8 to 4,096 in format 1 and 8 to 16,384 in format 2.
    pub buckets: u32,
    /// Slots of a bucket, 1 to 8.
    pub depth: u32,
    /// Writes that a table keeps, 1 to buckets times depth.
    pub retained: u32,
    /// Bytes of a sealed text, 24 to 1,024.
    pub block: u32,
    /// Bits of the filter of what is worth reading: a power of two, 64 to 65,536.
    pub filter_bits: u32,
    /// Filter positions of a write, 1 to 4.
    pub hits: u32,
    /// Numbers of a log that a reader looks ahead, 0 to 8.
    pub ahead: u32,
    /// Clients, 1 to 64.
    pub clients: u32,
    /// Phases, 1 to 256; each ends with an epoch.
    pub phases: u32,
    /// Ticks of a phase, 1 to 64; in each, each client writes once and reads once.
    pub ticks: u32,
    /// Logs, 1 to 256.
    pub logs: u32,
    pub ghost in_range: { IsShape format servers buckets depth retained block filter_bits hits ahead clients phases ticks logs },
}

/// The first line of the table of limits that numbers break, and the number that breaks it.
#[derive(Clone, Copy, Debug, PartialEq, Eq)]
pub struct ShapeError {
    pub field: Field,
    pub value: u64,
}

impl Shape {
    ghost use Rattle.tk_shape.specs.Limits.{broken, numbers_in, limit};
    ghost use Rattle.tk_shape.specs.Numbers.{numbers_of};

    /// The shape of format 1 of twelve numbers, as `of` gives it.
    pub fn new(numbers: [u32; 12]) -> Result<Shape, ShapeError>
        ensures format { IfOk result (λ s. s.format ≡ 1) }
        ensures found { IfOk result (λ s. numbers_of s ≡ numbers) }
        ensures kept { OnOk result (broken (numbers_in 1 numbers) ≡ None) }
        ensures broken { IfErr result (λ e. broken (numbers_in 1 numbers) ≡ Some (limit e.field e.value false)) }
    {
        Shape::of(1, numbers)
    }

    /// The shape of a format and twelve numbers, in the order of its fields. Where limits are broken the answer names
    /// the first.
    pub fn of(format: u32, numbers: [u32; 12]) -> Result<Shape, ShapeError>
        requires low { 1 ≤ format }
        requires high { format ≤ 2 }
        ensures format { IfOk result (λ s. s.format ≡ format) }
        ensures found { IfOk result (λ s. numbers_of s ≡ numbers) }
        ensures kept { OnOk result (broken (numbers_in format numbers) ≡ None) }
        ensures broken { IfErr result (λ e. broken (numbers_in format numbers) ≡ Some (limit e.field e.value false)) }
    {
        limits::keep(format, &numbers)?;
        let [
            servers,
            buckets,
            depth,
            retained,
            block,
            filter_bits,
            hits,
            ahead,
            clients,
            phases,
            ticks,
            logs,
        ] = numbers;
        Ok(Shape {
            format,
            servers,
            buckets,
            depth,
            retained,
            block,
            filter_bits,
            hits,
            ahead,
            clients,
            phases,
            ticks,
            logs,
        })
    }

    /// The twelve numbers, in the order of the fields.
    pub fn numbers(&self) -> [u32; 12]
        ensures { result ≡ numbers_of self.now }
    {
        let Shape {
            format: _,
            servers,
            buckets,
            depth,
            retained,
            block,
            filter_bits,
            hits,
            ahead,
            clients,
            phases,
            ticks,
            logs,
        } = *self;
        [
            servers,
            buckets,
            depth,
            retained,
            block,
            filter_bits,
            hits,
            ahead,
            clients,
            phases,
            ticks,
            logs,
        ]
    }
}
