use std::test::Fail;
use tk_handle::{Handle, fill, remainders, word};

// The key stream of the zero key and stream 0 (RFC 8439, A.1, test vectors 1 and 2).
const ZERO_KEY_BYTES: [u8; 96] = [
    0x76, 0xb8, 0xe0, 0xad, 0xa0, 0xf1, 0x3d, 0x90, 0x40, 0x5d, 0x6a, 0xe5, 0x53, 0x86, 0xbd, 0x28,
    0xbd, 0xd2, 0x19, 0xb8, 0xa0, 0x8d, 0xed, 0x1a, 0xa8, 0x36, 0xef, 0xcc, 0x8b, 0x77, 0x0d, 0xc7,
    0xda, 0x41, 0x59, 0x7c, 0x51, 0x57, 0x48, 0x8d, 0x77, 0x24, 0xe0, 0x3f, 0xb8, 0xd8, 0x4a, 0x37,
    0x6a, 0x43, 0xb8, 0xf4, 0x15, 0x18, 0xa1, 0x1c, 0xc3, 0x87, 0xb6, 0x69, 0xb2, 0xee, 0x65, 0x86,
    0x9f, 0x07, 0xe7, 0xbe, 0x55, 0x51, 0x38, 0x7a, 0x98, 0xba, 0x97, 0x7c, 0x73, 0x2d, 0x08, 0x0d,
    0xcb, 0x0f, 0x29, 0xa0, 0x48, 0xe3, 0x65, 0x69, 0x12, 0xc6, 0x53, 0x3e, 0x32, 0xee, 0x7a, 0xed,
];

#[test]
fn words_of_the_zero_key(rt: HostRuntime) {
    for (stream, place, want) in [
        (0, 0, 0xade0b876),
        (0, 1, 0x903df1a0),
        (0, 2, 0xe56a5d40),
        (0, 16, 0xbee7079f),
        // The stream is the nonce of test vector 5.
        (0x0200_0000_0000_0000, 0, 0x374dc6c2),
        (0x0200_0000_0000_0000, 1, 0x3736d58c),
    ] {
        assert!(rt; word(&[0; 32], stream, place) == want, "at {place}");
    }
}

#[test]
fn bytes_of_the_zero_key(rt: HostRuntime) {
    let mut bytes = [0; 96];
    fill(&[0; 32], 0, 0, &mut bytes);
    assert!(rt; bytes.as_slice() == ZERO_KEY_BYTES.as_slice());
    let mut bytes = [0; 5];
    fill(&[0; 32], 0, 22, &mut bytes);
    assert!(rt; bytes.as_slice() == &ZERO_KEY_BYTES[88..93]);
}

#[test]
fn remainders_of_the_zero_key(rt: HostRuntime) {
    let mut out = [0; 2];
    remainders(&[0; 32], 0, 1, 0x100, &mut out);
    assert!(rt; out.as_slice() == [0xa0, 0x40].as_slice());
}

#[test]
fn handle_of_the_zero_root(rt: HostRuntime) -> Result<(), Fail> {
    let handle = Handle::from_root(0, &[0; 32]);
    let bytes = handle.to_bytes();
    assert!(rt; &bytes[..8] == [0; 8].as_slice());
    assert!(rt; &bytes[8..] == ZERO_KEY_BYTES.as_slice());
    let read = Handle::from_bytes(&bytes).ok_or("104 bytes")?;
    assert!(rt; read == handle);
    assert!(rt; Handle::from_bytes(&[7; 103]).is_none());
    Ok(())
}
