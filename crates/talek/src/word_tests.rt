use crate::testing::{ONE_TEXT, tried};
use std::test::Fail;
use tk_cli::Status;
use tk_handle::Handle;
use tk_seal::{allowed, open, seal};

const ZERO_ROOT: &str = "0000000000000000000000000000000000000000000000000000000000000000";

const LOWER_ROOT: &str = "00000000000000000000000000000000000000000000000000000000000000ff";

const UPPER_ROOT: &str = "00000000000000000000000000000000000000000000000000000000000000FF";

/// The handle of log 0 under the zero root: its id, and 96 bytes of the zero key's stream (RFC 8439, A.1).
const ZERO_HANDLE: &str =
    "000000000000000076b8e0ada0f13d90405d6ae55386bd28bdd219b8a08ded1aa836efcc8b770dc7da41597c5157488d7724e03fb8d84a376a43b8f41518a11cc387b669b2ee65869f07e7be5551387a98ba977c732d080dcb0f29a048e3656912c6533e32ee7aed\n";

/// The handle of the last log under the other root.
const LAST_HANDLE: &str =
    "ffffffffffffffffd38182be1f535393a263c6a0e10aeb4ebc5ec5828811fbd48c04dc688de8076664152ec6eb28e14587bb1b91ce94c365fc28de39fe1d91180643834a309b2fef47d45de2d54a3d6eed1fa0ef040ac7b8af1ed6cf37b6e09a85721d88f52c387a\n";

#[test]
fn words(rt: HostRuntime) -> Result<(), Fail> {
    for words in [
        [].as_slice(),
        &["run", "65"],
        &["run", "0"],
        &["run", "01"],
        &["run", "065"],
        &["run", "2", "0"],
        &["run", "2", "65"],
        &["run", "0", "1"],
        &["run", "65", "1"],
        &["run", "1", "01"],
        &["run", "1", "1", "1"],
        &["relay", "1"],
        &["Relay"],
        &["resume"],
        &["resume", "01"],
        &["resume", "4294967296"],
        &["resume", "1", "1"],
        &["make"],
        &["make", "x"],
        &["make", "18446744073709551616"],
        &["tally", "01"],
        &["tally"],
        &["mirror"],
        &["wrong"],
        &["wrong", "01"],
        &["view", "01"],
        &["view", "4294967296"],
        &["handle", "0"],
        &["handle", "0", &ZERO_ROOT[1..]],
        &["handle", "18446744073709551616", ZERO_ROOT],
        &["handle", "00", ZERO_ROOT],
        &["handle", ZERO_ROOT, "0"],
        &["Serial"],
        &["lift", "1"],
        &["lift", "2"],
        &["serial", "1"],
    ] {
        let (end, written) = tried(&rt, words, ONE_TEXT)?;
        assert!(rt; end == (Status::Usage, ONE_TEXT.len(), 0));
        assert!(rt; written.is_empty());
    }
    Ok(())
}

#[test]
fn handles(rt: HostRuntime) -> Result<(), Fail> {
    let largest = "18446744073709551615";
    for (id, root, line) in [
        ("0", ZERO_ROOT, ZERO_HANDLE),
        (largest, LOWER_ROOT, LAST_HANDLE),
        (largest, UPPER_ROOT, LAST_HANDLE),
    ] {
        let (end, written) = tried(&rt, &["handle", id, root], ONE_TEXT)?;
        assert!(rt; end == (Status::Done, ONE_TEXT.len(), 0));
        assert!(rt; written.as_slice() == line.as_bytes());
    }
    Ok(())
}

#[test]
fn handle_of_zero_bytes(rt: HostRuntime) -> Result<(), Fail> {
    assert!(rt; Handle::from_bytes(&[0; 103]).is_none());
    let handle = Handle::from_bytes(&[0; 104]).ok_or("104 bytes")?;
    assert!(rt; handle.to_bytes().as_slice() == [0; 104].as_slice());
    let text = b"hi";
    assert!(rt; allowed(text).is_none());
    let mut block = [0; 24];
    seal(&handle, 0, text, &mut block);
    assert!(rt; &block[..8] == b"\x9f\x05\x8f\xd7\x55\x51\x38\x7a".as_slice());
    let mut out = [9; 6];
    assert!(rt; open(&handle, 0, &block, &mut out) == Some(2));
    assert!(rt; &out[..2] == text.as_slice());
    block[23] ^= 1;
    assert!(rt; open(&handle, 0, &block, &mut out) == None);
    Ok(())
}
