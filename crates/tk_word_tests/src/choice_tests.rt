use tk_choice::{hits, pair, pair_and_hits};
use tk_handle::Handle;

const BITS: u32 = 64;

// Places under the handle of zeros.
#[test]
fn places_of_zeros(rt: HostRuntime) {
    let handle = Handle {
        id: 0,
        seed1: [0; 32],
        seed2: [0; 32],
        key: [0; 32],
    };
    for (buckets, want) in [(8_u32, (6, 6)), (256, (118, 118))] {
        assert!(rt; buckets.is_power_of_two());
        assert!(rt; pair(&handle, 0, buckets) == want);
    }
    let mut places = [9; 2];
    assert!(rt; BITS.is_power_of_two());
    hits(&handle, 0, BITS, &mut places);
    assert!(rt; places.as_slice() == [32, 0].as_slice());
}

// Each seed has a bucket of its own, and each number its places.
#[test]
fn places_of_a_root(rt: HostRuntime) {
    let handle = Handle::from_root(7, b"abcdefghijklmnopqrstuvwxyz012345");
    let buckets = 8_u32;
    assert!(rt; buckets.is_power_of_two());
    assert!(rt; pair(&handle, 5, buckets) == (5, 4));
    let mut places = [9; 4];
    assert!(rt; BITS.is_power_of_two());
    hits(&handle, 5, BITS, &mut places);
    assert!(rt; places.as_slice() == [4, 14, 58, 33].as_slice());
    let mut same = [9; 4];
    assert!(rt; pair_and_hits(&handle, 5, buckets, BITS, &mut same) == (5, 4));
    assert!(rt; same.as_slice() == places.as_slice());
}
