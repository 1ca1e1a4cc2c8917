ghost use Rattle.std.specs.Prelude.{◌≡◌, ◌≤◌, ◌&&◌, IfErr, OnOk, Some, None, true, false};
ghost use Rattle.std.specs.Int.{is_power_of_two};
ghost use Rattle.tk_shape.specs.Limits.{broken, numbers_in, limit, is_between};
ghost use Rattle.tk_shape.specs.Ranges as ranges;

use crate::{Field, ShapeError};

/// Holds the twelve numbers of a shape against the table of limits, line by line; the first line that they break is the
/// error.
pub(crate) fn keep(format: u32, numbers: &[u32; 12]) -> Result<(), ShapeError>
    requires low { 1 ≤ format }
    requires high { format ≤ 2 }
    ensures kept { OnOk result (broken (numbers_in format numbers.now) ≡ None) }
    ensures broken { IfErr result (λ e. broken (numbers_in format numbers.now) ≡ Some (limit e.field e.value false)) }
{
    let [
        servers,
        buckets,
        depth,
        retained,
        block,
        filter_bits,
        hits,
        ahead,
        clients,
        phases,
        ticks,
        logs,
    ] = *numbers;
    within(Field::Servers, servers, 2, 8)?;
    power_within(Field::Buckets, buckets, 8, most_buckets(format))?;
    within(Field::Depth, depth, 1, 8)?;
    within(Field::Retained, retained, 1, buckets * depth)?;
    within(Field::Block, block, 24, 1024)?;
    power_within(Field::Filter, filter_bits, 64, 65536)?;
    within(Field::Hits, hits, 1, 4)?;
    within(Field::Ahead, ahead, 0, 8)?;
    within(Field::Clients, clients, 1, 64)?;
    within(Field::Phases, phases, 1, 256)?;
    within(Field::Ticks, ticks, 1, 64)?;
    within(Field::Logs, logs, 1, 256)?;
    let schedule = clients * phases * ticks;
    within(Field::Schedule, schedule, 0, 65000)?;
    let table = buckets * depth * (16 + block);
    within(Field::Table, table, 0, 4194304)?;
    let work = u64::from(schedule) * u64::from(servers) * u64::from(table);
    long_within(Field::Work, work, 0, 34359738368)
}

/// Format 2 has more: over keys it sends most servers seeds in place of vectors, which grow with the buckets.
fn most_buckets(format: u32) -> u32
    ensures value { result ≡ ranges.most_buckets format }
    ensures most { result ≤ 16384 }
{
    if format == 2 { 16384 } else { 4096 }
}

/// A power of two from `low` to `high`.
fn power_within(field: Field, value: u32, low: u32, high: u32) -> Result<(), ShapeError>
    ensures kept { OnOk result ((is_power_of_two value && is_between low high value) ≡ true) }
    ensures low { OnOk result (low ≤ value) }
    ensures high { OnOk result (value ≤ high) }
    ensures broken { IfErr result (λ e. (is_power_of_two value && is_between low high value) ≡ false) }
    ensures told { IfErr result (λ e. e ≡ record { field = field; value = value }) }
{
    if !value.is_power_of_two() {
        return Err(ShapeError {
            field,
            value: u64::from(value),
        });
    }
    within(field, value, low, high)
}

/// A number from `low` to `high`.
fn within(field: Field, value: u32, low: u32, high: u32) -> Result<(), ShapeError>
    ensures kept { OnOk result (is_between low high value ≡ true) }
    ensures low { OnOk result (low ≤ value) }
    ensures high { OnOk result (value ≤ high) }
    ensures broken { IfErr result (λ e. is_between low high value ≡ false) }
    ensures told { IfErr result (λ e. e ≡ record { field = field; value = value }) }
{
    long_within(field, u64::from(value), u64::from(low), u64::from(high))
}

/// The same of a longer number.
fn long_within(field: Field, value: u64, low: u64, high: u64) -> Result<(), ShapeError>
    ensures kept { OnOk result (is_between low high value ≡ true) }
    ensures low { OnOk result (low ≤ value) }
    ensures high { OnOk result (value ≤ high) }
    ensures broken { IfErr result (λ e. is_between low high value ≡ false) }
    ensures told { IfErr result (λ e. e ≡ record { field = field; value = value }) }
{
    if low <= value && value <= high {
        return Ok(());
    }
    Err(ShapeError { field, value })
}
