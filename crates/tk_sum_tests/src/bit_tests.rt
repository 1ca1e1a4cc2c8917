use tk_bits::{bit, join, share};
use tk_kernel::xor_choose;

#[test]
fn bits_of_a_vector(rt: HostRuntime) {
    // bits 0, 2, 5 and 7 of the first byte, and the least of the second
    let mut set = [false; 16];
    for i in [0, 2, 5, 7, 8] {
        set[i] = true;
    }
    for i in 0..16 {
        assert!(rt; bit(&[0xa5, 0x01], i as u32) == set[i]);
    }
}

#[test]
fn a_bucket_read_from_two_servers(rt: HostRuntime) {
    // eight buckets of 41 bytes, bucket i with all bytes i + 1
    let mut buckets = [0; 328];
    for (i, byte) in buckets.iter_mut().enumerate() {
        *byte = (i / 41) as u8 + 1;
    }
    for (drawn, computed) in [(0x21, 0x29), (0x22, 0x2a)] {
        let mut last = [0xff];
        share(3, &[drawn], &mut last);
        assert!(rt; last[0] == computed);
        let mut answers = [0; 82];
        let (first, second) = answers.split_at_mut(41);
        xor_choose(first, &buckets, &[drawn], 0);
        xor_choose(second, &buckets, &last, 0);
        let mut bucket = [0xff; 41];
        join(&answers, &mut bucket);
        assert!(rt; bucket.as_slice() == [4; 41].as_slice());
    }
}

#[test]
fn shares_of_four_servers(rt: HostRuntime) {
    // bit 9 of two bytes: 0x02 in the second
    let drawn = [0x0f, 0xf0, 0x33, 0xcc, 0x55, 0xaa];
    let mut last = [0; 2];
    share(9, &drawn, &mut last);
    assert!(rt; last.as_slice() == [0x69, 0x94].as_slice());
    let mut unit = [0xff; 2];
    join(&[0x0f, 0xf0, 0x33, 0xcc, 0x55, 0xaa, 0x69, 0x94], &mut unit);
    assert!(rt; unit.as_slice() == [0x00, 0x02].as_slice());
    join(&[], &mut unit);
    assert!(rt; unit.as_slice() == [0, 0].as_slice());
}
