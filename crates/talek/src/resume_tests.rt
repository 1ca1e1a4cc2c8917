use crate::report_tests::{LARGER, LARGER_REPORT, ONE_BUCKET, ONE_BUCKET_REPORT};
use crate::testing::{ONE_TEXT, REPORT, tried};
use crate::traces::{Object, traces_of};
use std::test::Fail;
use tk_cli::Status;
use tk_script::Cause;

/// Epochs in words.
const EPOCHS: [&str; 5] = ["0", "1", "2", "3", "4"];

/// An input, its report, and how many phases it has.
const RUNS: [(&[u8], &[u8], u32); 3] = [
    (ONE_TEXT, REPORT, 2),
    (LARGER, LARGER_REPORT, 2),
    // writes of which some are displaced, and expire later
    (ONE_BUCKET, ONE_BUCKET_REPORT, 4),
];

/// Whatever the epoch at which the servers begin anew, a run is told as a serial one, and the first server sees the same.
#[test]
fn runs_begun_anew(rt: HostRuntime) -> Result<(), Fail> {
    for (input, report, phases) in RUNS {
        let whole = traces_of(&rt, &["serial"], input, Object::Source, 0)?;
        assert!(rt; whole.written.as_slice() == report);
        for (epoch, number) in EPOCHS.iter().enumerate() {
            let traces = traces_of(&rt, &["resume", *number], input, Object::Source, 0)?;
            if epoch as u32 <= phases {
                assert!(rt; traces == whole, "from {number}");
            } else {
                let got = epoch as u32;
                assert!(rt; traces.status == Status::Phase { got, phases });
            }
        }
    }
    Ok(())
}

/// An input, an epoch, and the status with which nothing is written.
const REFUSED: [(&[u8], &str, Status); 6] = [
    (ONE_TEXT, "3", Status::Phase { got: 3, phases: 2 }),
    (
        ONE_TEXT,
        "4294967295",
        Status::Phase {
            got: 4294967295,
            phases: 2,
        },
    ),
    // the tape is asked before the epoch, and each line before both
    (WITHOUT_A_TAPE, "3", Status::Tape { want: 256, got: 0 }),
    (
        b"",
        "3",
        Status::Script {
            line: 1,
            cause: Cause::Early,
        },
    ),
    (
        b"talek 1\nshape 2 8 4 4 24 64 1 0 2 2 1 1\ndrawn\nlog 0 2\n",
        "3",
        Status::Script {
            line: 4,
            cause: Cause::Number { value: 2 },
        },
    ),
    (
        b"talek 1\nshape 2 8 4 4 24 64 1 0 2 2 1 1\ndrawn\nlog 0 1\n",
        "1",
        Status::Script {
            line: 5,
            cause: Cause::Early,
        },
    ),
];

const WITHOUT_A_TAPE: &[u8] =
    b"talek 1\nshape 2 8 4 4 24 64 1 0 2 2 1 1\ndrawn\nlog 0 1\nend\ntape\nend\n";

#[test]
fn refused_epochs(rt: HostRuntime) -> Result<(), Fail> {
    for (input, epoch, status) in REFUSED {
        let (end, written) = tried(&rt, &["resume", epoch], input)?;
        assert!(rt; end == (status, 0, 0));
        assert!(rt; written.is_empty());
    }
    Ok(())
}

/// Where an object fails, all is left as a serial run leaves it.
#[test]
fn faults(rt: HostRuntime) -> Result<(), Fail> {
    for (object, call) in [
        (Object::Source, 100),
        (Object::Sink, 1),
        (Object::Sink, 12),
        (Object::Taps, 1),
        (Object::Taps, 2),
        (Object::Taps, 3),
        (Object::Taps, 4),
    ] {
        let serial = traces_of(&rt, &["serial"], ONE_TEXT, object, call)?;
        let traces = traces_of(&rt, &["resume", "1"], ONE_TEXT, object, call)?;
        assert!(rt; traces == serial, "at {object:?} {call}");
    }
    Ok(())
}
