use crate::testing::{ONE_TEXT, REPORT, run, run_serially, run_tapped, source_of, taps_of};
use std::alloc::AllocGlobal;
use std::sync::Wait;
use std::test::Fail;
use std::thread::Threads;
use tk_cli::Status;
use tk_io::MemSink;
use tk_script::Cause;
use tk_shape::{Field, Memory};

/// The script of one text in format 2, and its tape: before each vector 32 zero bytes.
const LIFTED: &[u8] = b"talek 2
shape 2 8 4 4 24 64 1 0 2 2 1 1
drawn
log 0 1
say 1 1 0 hi
end
tape
x 1111111111111111111111111111111111111111111111111111111111111111
x 1111111112121212121212121212121212121212121212121212121212121212
x 1212121212121212131313131313131313131313131313131313131313131313
x 1313131313131313131313131414141414141414141414141414141414141414
x 1414141414141414141414141414141421212121212121210000000000000000
x 0000000000000000000000000000000000000000000000002100000000000000
x 0000000000000000000000000000000000000000000000000021222222222222
x 2222000000000000000000000000000000000000000000000000000000000000
x 0000220000000000000000000000000000000000000000000000000000000000
x 0000002223232323232323230000000000000000000000000000000000000000
x 0000000000000000000000002300000000000000000000000000000000000000
x 0000000000000000000000000023242424242424242400000000000000000000
x 0000000000000000000000000000000000000000000024000000000000000000
x 0000000000000000000000000000000000000000000000243131313131313131
x 3131313131313131313131313131313131313131313131313131313132323232
x 3232323232323232323232323232323232323232323232323232323232323232
end
";

/// The last read frame of the first server over it: two seeds of zeros, and two vectors.
const LAST_READ: [u8; 80] = [
    7, 1, 0, 0, 0, 1, 0, 0, 0, 1, 0, 0, 0, 1, 0, 0, 0, 0, 0, 0, 0, 0, 0, 0, 0, 0, 0, 0, 0, 0, 0, 0,
    0, 0, 0, 0, 0, 0, 0, 0, 0, 0, 0, 0, 0, 0, 0, 0, 0, 0, 0, 0, 0, 0, 0, 0, 0, 0, 0, 0, 0, 0, 0, 0,
    0, 0, 0, 0, 0, 0, 0, 0, 0, 0, 0, 0, 0, 0, 36, 36,
];

/// The bytes of a reply in that shape, which has buckets of 160 bytes.
const REPLY: usize = 334;

/// A keyed script in format 2 with as many buckets as there may be.
const LARGE: &[u8] = b"talek 2
shape 2 16384 1 8 24 64 1 0 2 2 1 1
keyed
log 0 1
handle 000000000000000076b8e0ada0f13d90405d6ae55386bd28bdd219b8a08ded1aa836efcc8b770dc7da41597c5157488d7724e03fb8d84a376a43b8f41518a11cc387b669b2ee65869f07e7be5551387a98ba977c732d080dcb0f29a048e3656912c6533e32ee7aed
seed 0000000000000000000000000000000000000000000000000000000000000001
seed 0000000000000000000000000000000000000000000000000000000000000002
end
";

const FORM: Status = Status::Script {
    line: 1,
    cause: Cause::Form,
};

const BUCKETS: Status = Status::Script {
    line: 2,
    cause: Cause::Shape {
        field: Field::Buckets,
        value: 16384,
    },
};

/// A word, an input, and the status with which it writes nothing.
const REFUSED: [(&str, &[u8], Status); 6] = [
    (
        "serial",
        b"talek 1\nshape 2 16384 1 8 24 64 1 0 2 2 1 1\nkeyed\nlog 0\nend\n",
        BUCKETS,
    ),
    (
        "serial",
        b"talek 3\nshape 2 8 4 4 24 64 1 0 2 2 1 1\n",
        FORM,
    ),
    ("lift", b"talek 3\nshape 2 8 4 4 24 64 1 0 2 2 1 1\n", FORM),
    (
        "lift",
        b"talek 1\nshape 2 8 1 1 24 64 1 0 64 10 64 1\ndrawn\nlog 0\nend\ntape\nfill 00 1907200\nend\n",
        Status::Wide { want: 4528640 },
    ),
    (
        "lift",
        b"talek 1\nshape 2 8 1 1 24 64 1 0 64 10 64 1\ndrawn\nlog 0\nend\ntape\nfill 00 1907199\nend\n",
        Status::Tape {
            want: 1907200,
            got: 1907199,
        },
    ),
    (
        "serial",
        b"talek 2\nshape 2 8 4 4 24 64 1 0 2 2 1 1\ndrawn\nlog 0\nend\ntape\nfill 00 256\nend\n",
        Status::Tape {
            want: 512,
            got: 256,
        },
    ),
];

/// What `lift` writes of an input that it takes.
fn lifted<R: AllocGlobal + Threads + Wait + Sync>(
    rt: &R,
    input: &[u8],
) -> Result<(Status, Vec<u8>), Memory> {
    let alloc = rt.alloc();
    let mut source = source_of(alloc, input)?;
    let mut sink = MemSink::new(alloc, 4096, Vec::new(alloc));
    let status = run(rt, &["lift"], &mut source, &mut sink)?;
    Ok((status, sink.bytes().to_vec(alloc)?))
}

#[test]
fn lifted_scripts(rt: HostRuntime) -> Result<(), Fail> {
    // of format 2 a script stays as it is
    for (input, text) in [(ONE_TEXT, LIFTED), (LIFTED, LIFTED), (LARGE, LARGE)] {
        let (status, written) = lifted(&rt, input)?;
        assert!(rt; status == Status::Done);
        assert!(rt; written.as_slice() == text);
    }
    Ok(())
}

#[test]
fn lifted_run(rt: HostRuntime) -> Result<(), Fail> {
    let alloc = rt.alloc();
    let mut source = source_of(alloc, LIFTED)?;
    let mut sink = MemSink::new(alloc, 4096, Vec::new(alloc));
    let mut taps = taps_of(alloc)?;
    let status = run_tapped(&rt, &["serial"], &mut source, &mut sink, &mut taps)?;
    assert!(rt; status == Status::Done);
    assert!(rt; sink.bytes() == REPORT);
    let seen = taps.bytes(1);
    if seen.len() < REPLY {
        return Err(Fail::from("a reply"));
    }
    let (before, _) = seen.split_at(seen.len() - REPLY);
    assert!(rt; before.ends_with(LAST_READ.as_slice()));
    Ok(())
}

#[test]
fn most_buckets(rt: HostRuntime) -> Result<(), Fail> {
    let (status, written) = run_serially(&rt, LARGE)?;
    assert!(rt; status == Status::Done);
    assert!(rt; written.ends_with(b"log 0 1 0\nunsent 0 0\nunsent 1 0\nend\n"));
    Ok(())
}

#[test]
fn refused_formats(rt: HostRuntime) -> Result<(), Fail> {
    let alloc = rt.alloc();
    for (word, input, refusal) in REFUSED {
        let mut source = source_of(alloc, input)?;
        let mut sink = MemSink::new(alloc, 4096, Vec::new(alloc));
        let status = run(&rt, &[word], &mut source, &mut sink)?;
        assert!(rt; status == refusal);
        assert!(rt; sink.bytes().is_empty());
    }
    Ok(())
}
