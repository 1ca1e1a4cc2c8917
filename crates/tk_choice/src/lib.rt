//! Where the message of a number of a log is put: two buckets, and the positions of a filter.
#![tactic(auto)]

ghost use Rattle.std.specs.Prelude.{◌≡◌, ◌<◌, ◌≤◌, length, IsTrue};
ghost use Rattle.std.specs.Int.{is_power_of_two};
ghost use Rattle.std.specs.List.{AllByRecursion};
ghost use Rattle.tk_choice.specs.Choice.{keyed_pair, keyed_hits};

use tk_handle::{Handle, Stream, remainders, word};

/// The two buckets of a number of a log: the first words of the number's streams under the handle's two seeds.
pub fn pair(handle: &Handle, number: u32, buckets: u32) -> (u32, u32)
    requires { IsTrue (is_power_of_two buckets) }
    ensures pair { result ≡ keyed_pair buckets handle.now number }
    ensures first_in { result.0 < buckets }
    ensures second_in { result.1 < buckets }
{
    let stream = u64::from(number);
    (
        word(&handle.seed1, stream, 0) % buckets,
        word(&handle.seed2, stream, 0) % buckets,
    )
}

/// The filter positions of a number of a log: the words after the first one of its stream under the second seed.
pub fn hits(handle: &Handle, number: u32, bits: u32, out: &mut [u32])
    requires power { IsTrue (is_power_of_two bits) }
    requires few { length out.old ≤ 4 }
    ensures hits { out.new ≡ keyed_hits bits (length out.old) handle.now number }
    ensures hits_in { AllByRecursion (λ h. h < bits) out.new }
{
    remainders(&handle.seed2, u64::from(number), 1, bits, out);
}

/// The two buckets and the filter positions of a number of a log, as `pair` and `hits` give them.
/// What comes from the stream under the second seed comes from one drawing of it.
pub fn pair_and_hits(
    handle: &Handle,
    number: u32,
    buckets: u32,
    bits: u32,
    out: &mut [u32],
) -> (u32, u32)
    requires buckets { IsTrue (is_power_of_two buckets) }
    requires bits { IsTrue (is_power_of_two bits) }
    requires few { length out.old ≤ 4 }
    ensures pair { result ≡ keyed_pair buckets handle.now number }
    ensures first_in { result.0 < buckets }
    ensures second_in { result.1 < buckets }
    ensures hits { out.new ≡ keyed_hits bits (length out.old) handle.now number }
    ensures hits_in { AllByRecursion (λ h. h < bits) out.new }
{
    let stream = u64::from(number);
    let first = word(&handle.seed1, stream, 0) % buckets;
    let mut words = Stream::at(&handle.seed2, stream, 0);
    let second = words.next_word() % buckets;
    words.remainders(bits, out);
    (first, second)
}
