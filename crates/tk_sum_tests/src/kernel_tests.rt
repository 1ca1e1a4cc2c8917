use tk_kernel::{xor_choose, xor_into};

#[test]
fn one_slice_added(rt: HostRuntime) {
    let mut sum = [0x21, 0xff, 0x00, 0x5a, 0x80];
    xor_into(&mut sum, &[0x08, 0x0f, 0x07, 0x5a, 0xff]);
    assert!(rt; sum.as_slice() == [0x29, 0xf0, 0x07, 0x00, 0x7f].as_slice());
    xor_into(&mut [], &[]);
}

#[test]
fn chosen_blocks(rt: HostRuntime) {
    // eight blocks of 41 bytes, block i with all bytes i + 1
    let mut blocks = [0; 328];
    for (i, byte) in blocks.iter_mut().enumerate() {
        *byte = (i / 41) as u8 + 1;
    }
    for (vector, want) in [(0xa5, 0x0c), (0x00, 0x00), (0x80, 0x08), (0x01, 0x01)] {
        let mut sum = [0; 41];
        xor_choose(&mut sum, &blocks, &[vector], 0);
        assert!(rt; sum.as_slice() == [want; 41].as_slice());
    }
    // the same blocks from bit 5 on, added to what is there
    let mut sum = [0x10; 41];
    xor_choose(&mut sum, &blocks, &[0xa0, 0x01], 5);
    assert!(rt; sum.as_slice() == [0x16; 41].as_slice());
}
