use crate::report_tests::LARGER_REPORT;
use crate::testing::{
    ONE_TEXT, REPORT, digits_of, joined, run_tapped, source_of, taps_of, tried, words_of,
};
use crate::traces::{Object, traces_of};
use crate::view_tests::lines_from;
use std::test::Fail;
use tk_cli::{Status, talek};
use tk_io::{MemSink, OpenGate};
use tk_report::print_outcome;
use tk_script::Cause;

/// A keyed script of two clients with one text, over two phases of one tick.
const KEYED: &[u8] = b"talek 1
shape 2 8 1 8 24 64 1 0 2 2 1 1
keyed
log 0 1
handle 000000000000000076b8e0ada0f13d90405d6ae55386bd28bdd219b8a08ded1aa836efcc8b770dc7da41597c5157488d7724e03fb8d84a376a43b8f41518a11cc387b669b2ee65869f07e7be5551387a98ba977c732d080dcb0f29a048e3656912c6533e32ee7aed
seed 0000000000000000000000000000000000000000000000000000000000000001
seed 0000000000000000000000000000000000000000000000000000000000000002
say 1 1 0 hi
end
";

/// What the first server sees of its run: for each read the bundle, and the masked reply of the second.
const FIRST: &str =
    "050100000000000000010000000000000000000000000000000000000031510f207193b791fcd94f58399e388063167d
429af5dccea605010000000000000002000000010000000000000005000000010000002c9a348a6e80991aab45935563
4784ff554b4ea753d09955fe0401000000000000000300000001080100000000000000000000000089770c9d0a010000
00000000000000000000c90e794af7ff1688f78e6f3662700eaba73b888231c94812e58637281b166237e0bc4b8751ac
76d0aa313905e7cb91d70c3e2825b989f58f64b50160b384dd07f59fbccd43721919c5a896928017a1e4080100000001
0000000000000000a58066e50a01000000010000000000000000cbffb30270b229e89230865db8a5eebac8d1201ada88
15e10694318340829989feeb91b73f6384c266ab4394f0b2aa7165bc6cc6de77e7085313d7305a188cd8498a597447b5
52e01374404b7054192d05010000000000000004000000000000000100000007000000070000000021eb990894a02ea8
ba08bdce158e13ee2097a5497aa85bba050100000000000000050000000100000001000000050000000300000030a305
a7ca02c58c4a540cb552b7699b0797ee765997ffbda60401000000000000000600000002080100000000000000010000
00014e832c770a010000000000000001000000013b55cd5b61d9f6e8a95cc40af257acbebcfe6d96827c08f8543dde79
087f02b3b585c7ee38d5277addb572ff8950a8f2b0c8a9cf93dd7920e0309df8da4b02cd9ce5b2c9399aee6acd9e71af
1aba24d808010000000100000001000000015a2f2e1d0a0100000001000000010000000183f6de26ee9b22b4fc9b9afc
13e8a4b26b29a8ae4d578c82bc7cdc888642afe72f9d67db83f797871c5a2d1b8f670840acc5102bfaee18904c433c2d
2f9d0782dc54369f606708721d05aef4d144edde
";

/// What the second sees: for each read its part, and its masked reply.
const SECOND: &str =
    "050100000000000000010000000000000000000000000000000000000031510f207193b791fcd94f58399e388063167d
429af5dccea605010000000000000002000000010000000000000005000000010000002c9a348a6e80991aab45935563
4784ff554b4ea753d09955fe040100000000000000030000000109010000000000000000000000000c9d0a0100000000
0000000000000000c90e794af7ff1688f78e6f3662700eaba73b888231c94812e58637281b166237e0bc4b8751ac76d0
aa313905e7cb91d70c3e2825b989f58f64b50160b384dd07f59fbccd43721919c5a896928017a1e40901000000010000
00000000000066e50a01000000010000000000000000cbffb30270b229e89230865db8a5eebac8d1201ada8815e10694
318340829989feeb91b73f6384c266ab4394f0b2aa7165bc6cc6de77e7085313d7305a188cd8498a597447b552e01374
404b7054192d05010000000000000004000000000000000100000007000000070000000021eb990894a02ea8ba08bdce
158e13ee2097a5497aa85bba050100000000000000050000000100000001000000050000000300000030a305a7ca02c5
8c4a540cb552b7699b0797ee765997ffbda6040100000000000000060000000209010000000000000001000000012c77
0a010000000000000001000000013b55cd5b61d9f6e8a95cc40af257acbebcfe6d96827c08f8543dde79087f02b3b585
c7ee38d5277addb572ff8950a8f2b0c8a9cf93dd7920e0309df8da4b02cd9ce5b2c9399aee6acd9e71af1aba24d80901
0000000100000001000000012e1d0a0100000001000000010000000183f6de26ee9b22b4fc9b9afc13e8a4b26b29a8ae
4d578c82bc7cdc888642afe72f9d67db83f797871c5a2d1b8f670840acc5102bfaee18904c433c2d2f9d0782dc54369f
606708721d05aef4d144edde
";

/// Eight servers, three clients and three logs.
const EIGHT: &[u8] = b"talek 1
shape 8 8 2 2 24 64 1 0 3 2 2 3
keyed
log 2 0 2
log 1 0
log 0
handle 000000000000000076b8e0ada0f13d90405d6ae55386bd28bdd219b8a08ded1aa836efcc8b770dc7da41597c5157488d7724e03fb8d84a376a43b8f41518a11cc387b669b2ee65869f07e7be5551387a98ba977c732d080dcb0f29a048e3656912c6533e32ee7aed
handle 0000000000000001ef3fdfd6c61578fbf5cf35bd3dd33b8009631634d21e42ac33960bd138e50d32111e4caf237ee53ca8ad6426194a88545ddc497a0b466e7d6bbdb0041b2f586b5305e5e44aff19b235936144675efbe4409eb7e8e5f1430f5f5836aeb49bb532
handle 0000000000000002d0c5b9b7442870728d812f034c635e8192b02c311c7947633ee40f1f04bf18123672a895a95cc2d445d09465426062b23f1319d65a573da430e4e47a9f8d121cccef837f778ea449c4ef4cede4e495d476a4abee6a83d149fb1d3637527f9e05
seed 0000000000000000000000000000000000000000000000000000000000000001
seed 0000000000000000000000000000000000000000000000000000000000000002
seed 0000000000000000000000000000000000000000000000000000000000000003
say 1 1 2 x
say 1 2 0 a
say 1 2 1 b
say 2 1 1 c
say 2 2 0 d
say 2 2 0 e
end
";

/// A group's keyed script has the same report by way of one server.
#[test]
fn relayed_group(rt: HostRuntime) -> Result<(), Fail> {
    let (_, script) = tried(&rt, &["make", "1"], b"")?;
    let (_, written) = tried(&rt, &["serial"], script.as_slice())?;
    let ((status, left, _), relayed) = tried(&rt, &["relay"], script.as_slice())?;
    assert!(rt; (status, left) == (Status::Done, 0));
    assert!(rt; relayed == written);
    Ok(())
}

#[test]
fn what_each_server_sees(rt: HostRuntime) -> Result<(), Fail> {
    let alloc = rt.alloc();
    let words = words_of(alloc, &["relay"])?;
    let mut source = source_of(alloc, KEYED)?;
    let mut sink = MemSink::new(alloc, 4096, Vec::new(alloc));
    let mut taps = taps_of(alloc)?;
    let ended = talek(
        &rt,
        words.as_slice(),
        &mut source,
        &mut sink,
        &mut taps,
        &OpenGate,
    );
    assert!(rt; ended.status == Status::Done);
    assert!(rt; sink.bytes() == REPORT);
    for (server, seen) in [(1, FIRST), (2, SECOND), (3, "")] {
        let digits = hex::encode(alloc, taps.bytes(server))?;
        assert!(rt; digits.as_bytes() == digits_of(alloc, seen)?.as_slice());
    }
    assert!(rt; ended.closed.is_none());
    let outcome = ended.outcome.ok_or("an outcome")?;
    let mut left = Vec::new(alloc);
    print_outcome(alloc, &outcome, &mut left)?;
    assert!(rt; left.as_slice() == REPORT);
    Ok(())
}

#[test]
fn eight_servers(rt: HostRuntime) -> Result<(), Fail> {
    let alloc = rt.alloc();
    let mut source = source_of(alloc, EIGHT)?;
    let mut sink = MemSink::new(alloc, 4096, Vec::new(alloc));
    let mut taps = taps_of(alloc)?;
    let status = run_tapped(&rt, &["relay"], &mut source, &mut sink, &mut taps)?;
    assert!(rt; status == Status::Done);
    assert!(rt; sink.bytes() == LARGER_REPORT);
    // twelve records of 54 bytes, two marks, and twelve reads: of each the first server sees a bundle of 30 bytes
    // and seven replies of 174, and each other its part of 16 and its reply
    let entries = 12 * 54 + 2 * 14;
    assert!(rt; taps.bytes(1).len() == entries + 12 * (30 + 7 * 174));
    for server in 2..9 {
        assert!(rt; taps.bytes(server).len() == entries + 12 * (16 + 174));
    }
    Ok(())
}

/// In format 2 the same is told.
#[test]
fn relayed_in_format_2(rt: HostRuntime) -> Result<(), Fail> {
    for (input, report) in [(KEYED, REPORT), (EIGHT, LARGER_REPORT)] {
        let (_, lifted) = tried(&rt, &["lift"], input)?;
        assert!(rt; lifted.starts_with(b"talek 2\n"));
        let ((status, left, _), written) = tried(&rt, &["relay"], lifted.as_slice())?;
        assert!(rt; (status, left) == (Status::Done, 0));
        assert!(rt; written.as_slice() == report);
    }
    Ok(())
}

fn at_line(line: u64, cause: Cause) -> Status {
    Status::Script { line, cause }
}

#[test]
fn inputs_refused(rt: HostRuntime) -> Result<(), Fail> {
    let alloc = rt.alloc();
    let with_tape = joined(alloc, &[KEYED, b"tape\nend\n"])?;
    for (input, status) in [
        (ONE_TEXT, at_line(3, Cause::Form)),
        (b"".as_slice(), at_line(1, Cause::Early)),
        (with_tape.as_slice(), at_line(10, Cause::After)),
    ] {
        let (end, written) = tried(&rt, &["relay"], input)?;
        assert!(rt; end == (status, 0, 0));
        assert!(rt; written.is_empty());
    }
    // a text that is cut off behind any of its lines
    for lines in 0..9 {
        let input = lines_from(alloc, KEYED, 1, lines)?;
        let (end, written) = tried(&rt, &["relay"], input.as_slice())?;
        let status = at_line(lines as u64 + 1, Cause::Early);
        assert!(rt; end == (status, 0, 0), "behind line {lines}");
        assert!(rt; written.is_empty());
    }
    Ok(())
}

/// An object, which of its calls fails, and how a run ends then; and how many bytes are written, and each of two taps has.
const FAULTS: [(Object, u32, Status, usize, (usize, usize)); 8] = [
    (Object::Source, 0, Status::Done, 119, (692, 684)),
    (Object::Source, 300, Status::Read, 0, (0, 0)),
    (Object::Sink, 1, Status::Write, 0, (692, 684)),
    (Object::Sink, 12, Status::Write, 110, (692, 684)),
    (Object::Taps, 1, Status::Write, 0, (0, 0)),
    (Object::Taps, 2, Status::Write, 0, (346, 0)),
    (Object::Taps, 3, Status::Write, 0, (346, 342)),
    (Object::Taps, 4, Status::Write, 0, (692, 342)),
];

#[test]
fn faults(rt: HostRuntime) -> Result<(), Fail> {
    let words = ["relay"].as_slice();
    let whole = traces_of(&rt, words, KEYED, Object::Source, 0)?;
    for (object, call, status, written, seen) in FAULTS {
        let traces = traces_of(&rt, words, KEYED, object, call)?;
        assert!(rt; traces.status == status, "at {object:?} {call}");
        assert!(rt; traces.written.len() == written, "at {object:?} {call}");
        assert!(rt;
            (traces.first.len(), traces.second.len()) == seen,
            "at {object:?} {call}"
        );
        assert!(rt; traces.is_front_of(&whole), "at {object:?} {call}");
    }
    Ok(())
}
