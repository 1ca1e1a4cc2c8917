use std::test::Fail;
use tk_make::generate;
use tk_script::{Form, parse, print};

/// The front of what is made from 1, up to its first handle.
const FRONT: &[u8] = b"talek 1
shape 3 256 4 512 256 4096 3 4 12 8 4 4
keyed
log 0 1 2
log 3 4 5
log 6 7 8
log 9 10 11
";

/// Its first handle.
const HANDLE: [&[u8]; 5] = [
    b"handle 0000000000000000",
    b"4540f05a9f1fb296d7736e7b208e3c96eb4fe1834688d260",
    b"4f450952ed432d41bbe2a0b6ea7566d2a5d1e7e20d42af2c",
    b"53d792b1c43fea817e9ad275ae5469633aeb5224ecf84992",
    b"9b9d828db1ced4dd832025e8018b8160b82284f3c949aa5a\n",
];

/// Its last seed, and its texts.
const BACK: &[u8] = b"seed c47559e80726b7015d0d180418317bae1d8afb7ba02b662a439eb1d2b04f5036
say 1 1 1 note 1 1 1
say 1 1 3 note 3 1 1
say 1 2 0 note 0 1 2
say 1 2 2 note 2 1 2
say 1 3 1 note 1 1 3
say 1 3 3 note 3 1 3
say 1 4 0 note 0 1 4
say 1 4 2 note 2 1 4
say 2 1 0 note 0 2 1
say 2 1 2 note 2 2 1
say 2 2 1 note 1 2 2
say 2 2 3 note 3 2 2
say 2 3 0 note 0 2 3
say 2 3 2 note 2 2 3
say 2 4 1 note 1 2 4
say 2 4 3 note 3 2 4
say 3 1 1 note 1 3 1
say 3 1 3 note 3 3 1
say 3 2 0 note 0 3 2
say 3 2 2 note 2 3 2
say 3 3 1 note 1 3 3
say 3 3 3 note 3 3 3
say 3 4 0 note 0 3 4
say 3 4 2 note 2 3 4
say 4 1 0 note 0 4 1
say 4 1 2 note 2 4 1
say 4 2 1 note 1 4 2
say 4 2 3 note 3 4 2
say 4 3 0 note 0 4 3
say 4 3 2 note 2 4 3
say 4 4 1 note 1 4 4
say 4 4 3 note 3 4 4
say 5 1 1 note 1 5 1
say 5 1 3 note 3 5 1
say 5 2 0 note 0 5 2
say 5 2 2 note 2 5 2
say 5 3 1 note 1 5 3
say 5 3 3 note 3 5 3
say 5 4 0 note 0 5 4
say 5 4 2 note 2 5 4
say 6 1 0 note 0 6 1
say 6 1 2 note 2 6 1
say 6 2 1 note 1 6 2
say 6 2 3 note 3 6 2
say 6 3 0 note 0 6 3
say 6 3 2 note 2 6 3
say 6 4 1 note 1 6 4
say 6 4 3 note 3 6 4
say 7 1 1 note 1 7 1
say 7 1 3 note 3 7 1
say 7 2 0 note 0 7 2
say 7 2 2 note 2 7 2
say 7 3 1 note 1 7 3
say 7 3 3 note 3 7 3
say 7 4 0 note 0 7 4
say 7 4 2 note 2 7 4
say 8 1 0 note 0 8 1
say 8 1 2 note 2 8 1
say 8 2 1 note 1 8 2
say 8 2 3 note 3 8 2
say 8 3 0 note 0 8 3
say 8 3 2 note 2 8 3
say 8 4 1 note 1 8 4
say 8 4 3 note 3 8 4
end
";

#[test]
fn made_from_one(rt: HostRuntime) -> Result<(), Fail> {
    let alloc = rt.alloc();
    let script = generate(alloc, 1)?;
    let mut text = Vec::new(alloc);
    print(&script, &mut text)?;
    let mut front = Vec::from_slice(alloc, FRONT)?;
    for digits in HANDLE {
        front.extend_from_slice(digits)?;
    }
    assert!(rt; text.as_slice().starts_with(front.as_slice()));
    assert!(rt; text.as_slice().ends_with(BACK));
    let input = parse(alloc, text.as_slice(), Form::Run)?;
    let mut again = Vec::new(alloc);
    print(&input.first, &mut again)?;
    assert!(rt; again.as_slice() == text.as_slice());
    Ok(())
}
