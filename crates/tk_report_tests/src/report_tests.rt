use crate::inputs::reported;
use std::test::Fail;

/// Reports of the script: the follower reads the text in the turn that makes its epoch, or too
/// early, or in the next turn over the epoch before.
const REPORTS: [&[u8]; 3] = [
    b"report
order 1 1 0 mark 1
reads 1 1 0 1
order 2 1 1 0 mark
reads 2 1 1 2
log 0 1 1
text 0 hi
unsent 0 0
unsent 1 0
end
",
    b"report
order 1 1 1 mark 0
reads 1 1 1 1
order 2 1 mark 0 1
reads 2 1 2 1
log 0 1 0
unsent 0 0
unsent 1 0
end
",
    b"report
order 1 1 1 0 mark
reads 1 1 0 0
order 2 1 mark 0 1
reads 2 1 2 1
log 0 1 1
text 0 hi
unsent 0 0
unsent 1 0
end
",
];

#[test]
fn reports_of_mixed_epochs(rt: HostRuntime) -> Result<(), Fail> {
    let alloc = rt.alloc();
    for wanted in REPORTS {
        let found = reported(alloc, wanted)?.ok().ok_or("a history")?;
        assert!(rt; found.as_slice() == wanted);
    }
    Ok(())
}
