use sha2::{Digest, Sha256};
use std::test::Fail;
use tk_handle::Handle;
use tk_seal::{allowed, hmac, mask, open, plain, plain_text, seal, unmask};

const ZERO_HANDLE: Handle = Handle {
    id: 0,
    seed1: [0; 32],
    seed2: [0; 32],
    key: [0; 32],
};

// `hi` as message 0 under the handle of zeros.
const SEALED: [u8; 24] = [
    0x9f, 0x05, 0x8f, 0xd7, 0x55, 0x51, 0x38, 0x7a, 0xd7, 0xa0, 0x59, 0x25, 0x79, 0xb6, 0x18, 0x31,
    0x2f, 0x0c, 0x56, 0x9d, 0xc4, 0x85, 0xaa, 0x49,
];

// Texts, and the first byte that may not be sent. The second has an accent and a face.
const TEXTS: [(&[u8], Option<usize>); 7] = [
    (b"", None),
    (b"h\xc3\xa9 \xf0\x9f\x98\x80~", None),
    (b"a\tb", Some(1)),
    (b"ab\x7f", Some(2)),
    (b"\xff", Some(0)),
    (b"ab\xc3\xa9\xc3", Some(4)),
    (b"\xc3\n", Some(0)),
];

#[test]
fn texts_that_may_be_sent(rt: HostRuntime) {
    for (text, at) in &TEXTS {
        assert!(rt; allowed(text) == *at);
    }
}

// Bytes, and how long the text is of which they are the plain form, if they are one. The first are
// that of `hi`.
const FORMS: [(&[u8], Option<usize>); 8] = [
    (&[0, 2, 0x68, 0x69, 0, 0, 0, 0], Some(2)),
    (&[0, 0, 0, 0, 0, 0, 0, 0], Some(0)),
    (&[0, 6, 0x68, 0x69, 0x68, 0x69, 0x68, 0x69], Some(6)),
    (&[0, 2, 0x68, 0x69, 0, 0, 0, 1], None),
    (&[0, 3, 0x68, 0x69, 0, 0, 0, 0], None),
    (&[0, 7, 0x68, 0x69, 0x68, 0x69, 0x68, 0x69], None),
    (&[1, 2, 0x68, 0x69, 0, 0, 0, 0], None),
    (&[0], None),
];

#[test]
fn plain_form_of_a_text(rt: HostRuntime) {
    let text = b"hi";
    assert!(rt; allowed(text).is_none());
    let mut form = [9; 8];
    plain(text, &mut form);
    assert!(rt; form.as_slice() == [0, 2, 0x68, 0x69, 0, 0, 0, 0].as_slice());
    for (bytes, want) in &FORMS {
        assert!(rt; plain_text(bytes) == *want);
    }
}

#[test]
fn text_behind_a_pad(rt: HostRuntime) {
    let text = b"hi";
    let pad = [0xff, 0x0f, 0, 0x01, 0, 0, 0, 0xf0];
    assert!(rt; allowed(text).is_none());
    let mut masked = [0; 8];
    mask(&pad, text, &mut masked);
    assert!(rt; masked.as_slice() == [0xff, 0x0d, 0x68, 0x68, 0, 0, 0, 0xf0].as_slice());
    let mut out = [9; 6];
    assert!(rt; unmask(&pad, &masked, &mut out) == Some(2));
    assert!(rt; out.as_slice() == [0x68, 0x69, 0, 0, 0, 0].as_slice());
    assert!(rt; unmask(&pad, &pad, &mut out) == Some(0));
    assert!(rt; unmask(&masked, &[0; 8], &mut out).is_none());
    assert!(rt; out.as_slice() == [0; 6].as_slice());
}

// SHA-256 of `abc` (FIPS 180-4), and the first two test cases of RFC 4231.
#[test]
fn digests(rt: HostRuntime) {
    let abc: [u8; 32] = Sha256::digest(b"abc");
    for (digest, want) in [
        (
            abc,
            [
                0xba, 0x78, 0x16, 0xbf, 0x8f, 0x01, 0xcf, 0xea, 0x41, 0x41, 0x40, 0xde, 0x5d, 0xae,
                0x22, 0x23, 0xb0, 0x03, 0x61, 0xa3, 0x96, 0x17, 0x7a, 0x9c, 0xb4, 0x10, 0xff, 0x61,
                0xf2, 0x00, 0x15, 0xad,
            ],
        ),
        (
            hmac(&[0x0b; 20], b"Hi ", b"There"),
            [
                0xb0, 0x34, 0x4c, 0x61, 0xd8, 0xdb, 0x38, 0x53, 0x5c, 0xa8, 0xaf, 0xce, 0xaf, 0x0b,
                0xf1, 0x2b, 0x88, 0x1d, 0xc2, 0x00, 0xc9, 0x83, 0x3d, 0xa7, 0x26, 0xe9, 0x37, 0x6c,
                0x2e, 0x32, 0xcf, 0xf7,
            ],
        ),
        (
            hmac(b"Jefe", b"", b"what do ya want for nothing?"),
            [
                0x5b, 0xdc, 0xc1, 0x46, 0xbf, 0x60, 0x75, 0x4e, 0x6a, 0x04, 0x24, 0x26, 0x08, 0x95,
                0x75, 0xc7, 0x5a, 0x00, 0x3f, 0x08, 0x9d, 0x27, 0x39, 0x83, 0x9d, 0xec, 0x58, 0xb9,
                0x64, 0xec, 0x38, 0x43,
            ],
        ),
    ] {
        assert!(rt; digest == want);
    }
}

// Whether that block with a bit of byte `i` changed doesn't open, and leaves zeros.
fn stays_shut(i: usize) -> bool {
    let mut changed = SEALED;
    if i >= changed.len() {
        return false;
    }
    changed[i] ^= 0x10;
    let mut out = [9; 6];
    open(&ZERO_HANDLE, 0, &changed, &mut out).is_none() && out == [0; 6]
}

#[test]
fn sealed_and_opened(rt: HostRuntime) -> Result<(), Fail> {
    let text = b"hi";
    assert!(rt; allowed(text).is_none());
    let mut block = [0; 24];
    seal(&ZERO_HANDLE, 0, text, &mut block);
    assert!(rt; block.as_slice() == SEALED.as_slice());
    let mut out = [9; 6];
    assert!(rt; open(&ZERO_HANDLE, 0, &block, &mut out) == Some(2));
    assert!(rt; out.as_slice() == [0x68, 0x69, 0, 0, 0, 0].as_slice());
    for i in 0..24 {
        assert!(rt; stays_shut(i), "at {i}");
    }
    assert!(rt; open(&ZERO_HANDLE, 1, &block, &mut out).is_none());
    Ok(())
}
