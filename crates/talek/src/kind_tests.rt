//! Each form of the words over each kind of input that it takes: words that are drawn and words of keys, either format,
//! two servers and three. That memory ran out is said by no contract to be wrong, so that only a run shows what is done.

use crate::testing::{REPORT, joined, retold, tried};
use sha2::{Digest, Sha256};
use std::alloc::{AllocError, Global};
use std::sync::Wait;
use std::test::Fail;
use std::thread::Threads;
use tk_cli::Status;
use tk_script::{Form, Input, parse};
use tk_words::Book;

/// A kind of input, and SHA-256 of what another program writes of it.
#[derive(Clone, Copy)]
struct Kind {
    format: &'static str,
    /// The numbers of the servers.
    servers: &'static [&'static str],
    /// Where words are drawn, how many bytes a read has on the tape.
    read: Option<&'static str>,
    /// What `lift` writes.
    lifted: &'static str,
    /// What `view` writes of each server, one after the other.
    views: &'static str,
    /// Where words are drawn, what `mirror` writes with each server hidden, and what `wrong` writes.
    mirrors: [&'static str; 2],
}

const TWO: &[&str] = &["1", "2"];

const THREE: &[&str] = &["1", "2", "3"];

const DRAWN: [Kind; 4] = [
    Kind {
        format: "1",
        servers: TWO,
        read: Some("10"),
        lifted: "ff76ffdd4af01369cc4ea02fdd32e9939004294795c20aed67a40b1f951a1c89",
        views: "aa14c3a5e4d497144baeeaf733e264f46fc8eb8fd9b568f445def3ae63c4478f",
        mirrors: [
            "574f9a38678fee707076cfd9d26bd834bd73e10870ad7a409ae2a9035a02e6fe",
            "27b9fe81bad2e3c43134cd10d4afdbe79bab57de9651ef840b563a21473e0552",
        ],
    },
    Kind {
        format: "1",
        servers: THREE,
        read: Some("12"),
        lifted: "a37953a4050c31fc99242667bbf97b9ab245199d9575cecdfc229fbb0a844271",
        views: "86480fbdff51a8f8f471d1e452648f2427a1c54b4ad0585db98f642dc20ab55c",
        mirrors: [
            "4bf141e66b6818d533588362c7aea3b598b9f0231f4e0ec594a6dd9437ab1b91",
            "62490d5d920debcfac93d6264c580e7c86aebaa67db7e1ab6bf8b8abcf373658",
        ],
    },
    Kind {
        format: "2",
        servers: TWO,
        read: Some("74"),
        lifted: "dfb99571e6de4ea9882c2adbc708f28e8d17a6c786f07358c8819f3d956f4d8f",
        views: "ceb2669498fdfc1a2cc8216cc5a96e3fef263aa9e8a0934bdfdd0c2b1463c63e",
        mirrors: [
            "e17f31bae7473cb3c511dcf95c0523bf391a6177fa47848d20ebaad51acb8ed7",
            "81a89100eedfad8aad0131bf15c3a7b133cb3c4dac7eacb71ed00df4d2bed778",
        ],
    },
    Kind {
        format: "2",
        servers: THREE,
        read: Some("140"),
        lifted: "b46dd375bc5bdc3174217be425285828f0229c96d39b7ace720a433d9be414db",
        views: "60d798d2c3ed7d31d40ca98247f63cf23142214832b55d90802829084ac02870",
        mirrors: [
            "d20341e1ad4cae9c3cf2af7e0f9b65451086afd442cb53d83a3916c5cfc1b04a",
            "9040b9290486bfaaa68c3163eac5381b270dece53e944c4803ffb6be7221af65",
        ],
    },
];

const KEYED: [Kind; 4] = [
    Kind {
        format: "1",
        servers: TWO,
        read: None,
        lifted: "c94489fc3b67893f013d7ed67b74a6875cb1ec643be4ecf77f49bc8c1ee18933",
        views: "c6ab2efced88d09ef6dd432353f800e1fe06644129d2d48d980c9908bd2ba97f",
        mirrors: ["", ""],
    },
    Kind {
        format: "1",
        servers: THREE,
        read: None,
        lifted: "70710d579b5130990d57047614f87ff97cfb8f8719310948d7ca6eddf3752436",
        views: "314f2c80ad6d81f12012246a29b149f66c7362a3135947b84caaae424d20f608",
        mirrors: ["", ""],
    },
    Kind {
        format: "2",
        servers: TWO,
        read: None,
        lifted: "c94489fc3b67893f013d7ed67b74a6875cb1ec643be4ecf77f49bc8c1ee18933",
        views: "7a72818b2e5aa71e4ced361e8f3d2fd2497a9f736c685597c27983f31c6f46e4",
        mirrors: ["", ""],
    },
    Kind {
        format: "2",
        servers: THREE,
        read: None,
        lifted: "70710d579b5130990d57047614f87ff97cfb8f8719310948d7ca6eddf3752436",
        views: "49ff9b4d6685c0d266199378710e166ddfe41ea6c60e806deffc9d873b66a955",
        mirrors: ["", ""],
    },
];

/// The keys of a log and of two clients.
const KEYS: &str = "keyed
log 0 1
handle 000000000000000076b8e0ada0f13d90405d6ae55386bd28bdd219b8a08ded1aa836efcc8b770dc7da41597c5157488d7724e03fb8d84a376a43b8f41518a11cc387b669b2ee65869f07e7be5551387a98ba977c732d080dcb0f29a048e3656912c6533e32ee7aed
seed 0000000000000000000000000000000000000000000000000000000000000001
seed 0000000000000000000000000000000000000000000000000000000000000002
";

/// The history of a serial run.
const HISTORY: &str = "history
order 1 1 0 1 mark
reads 1 1 0 0
order 2 1 0 1 mark
reads 2 1 1 1
end
";

/// Server 2 gives client 1 in the first turn a block that opens as number 0 of log 0, with the text `hi`.
const REPLIES: &str = "replies
reply 0 1 2 0000000000000009000000010000000131335958313131313131313131313131313131313131313100000000000000000000000000000000000000000000000000000000000000000000000000000000
end
";

/// A script of two clients, of whom one says something to the other, or nothing.
fn script_of(alloc: Global, kind: &Kind, said: &'static str) -> Result<Vec<u8>, AllocError> {
    let count = if kind.servers.len() == 2 { "2" } else { "3" };
    let words = match kind.read {
        Some(_) => "drawn\nlog 0 1\n",
        None => KEYS,
    };
    let mut script = Vec::new(alloc);
    for part in [
        "talek ",
        kind.format,
        "\nshape ",
        count,
        " 8 1 4 24 64 1 0 2 2 1 1\n",
        words,
        said,
        "end\n",
    ] {
        script.extend_from_slice(part.as_bytes())?;
    }
    Ok(script)
}

/// Its tape, where its words are drawn.
fn tape_of(alloc: Global, kind: &Kind) -> Result<Vec<u8>, AllocError> {
    let Some(read) = kind.read else {
        return Ok(Vec::new(alloc));
    };
    let mut tape = Vec::new(alloc);
    tape.extend_from_slice(b"tape\nfill 15 36\nfill 12 36\nfill 13 36\nfill 14 36\n")?;
    for byte in ["21", "22", "23", "24"] {
        for part in ["fill ", byte, " ", read, "\n"] {
            tape.extend_from_slice(part.as_bytes())?;
        }
    }
    tape.extend_from_slice(b"fill 31 36\nfill 32 36\nend\n")?;
    Ok(tape)
}

/// That script with a text, sections behind it, and the tape.
fn input_of(alloc: Global, kind: &Kind, sections: &[u8]) -> Result<Vec<u8>, AllocError> {
    let script = script_of(alloc, kind, "say 1 1 0 hi\n")?;
    let tape = tape_of(alloc, kind)?;
    joined(alloc, &[script.as_slice(), sections, tape.as_slice()])
}

/// What words write of an input that they take to its end.
fn done<R: AllocGlobal + Threads + Wait + Sync>(
    rt: &R,
    words: &[&str],
    input: &[u8],
) -> Result<Vec<u8>, Fail> {
    let ((status, left, _), written) = tried(rt, words, input)?;
    if status != Status::Done || left != 0 {
        return Err("not done".into());
    }
    Ok(written)
}

/// The digits of SHA-256 of what a word writes with each server's number, one after the other.
fn with_each_server<R: AllocGlobal + Threads + Wait + Sync>(
    rt: &R,
    word: &'static str,
    kind: &Kind,
    input: &[u8],
) -> Result<String, Fail> {
    let mut all = Vec::new(rt.alloc());
    for server in kind.servers {
        all.extend_from_slice(&done(rt, &[word, *server], input)?)?;
    }
    digits(rt.alloc(), &all)
}

fn digits(alloc: Global, bytes: &[u8]) -> Result<String, Fail> {
    let digest: [u8; 32] = Sha256::digest(bytes);
    Ok(hex::encode(alloc, &digest)?)
}

/// Whether a text is the report for the history that it tells, of the run of an input.
fn is_retold(alloc: Global, input: &[u8], text: &[u8]) -> Result<bool, Fail> {
    let Ok(
        Input {
            first: script,
            tape,
            ..
        },
    ) = parse(alloc, input, Form::Run)
    else {
        return Err("an input".into());
    };
    let told = match script.book(alloc, tape) {
        Ok(Book::Drawn(draws)) => retold(alloc, &script, &draws, text)?,
        Ok(Book::Keyed(draws)) => retold(alloc, &script, &draws, text)?,
        Err(_) => return Err("a book".into()),
    };
    Ok(told.as_slice() == text)
}

#[test]
fn runs_of_each_kind(rt: HostRuntime) -> Result<(), Fail> {
    for kinds in [DRAWN, KEYED] {
        for kind in kinds {
            let input = input_of(rt.alloc(), &kind, b"")?;
            for words in [
                ["serial"].as_slice(),
                &["resume", "0"],
                &["resume", "1"],
                &["resume", "2"],
            ] {
                assert!(rt; done(&rt, words, &input)?.as_slice() == REPORT);
            }
            for words in [["run"].as_slice(), &["run", "2"], &["run", "2", "3"]] {
                let told = done(&rt, words, &input)?;
                assert!(rt; is_retold(rt.alloc(), &input, &told)?);
            }
            let lifted = done(&rt, &["lift"], &input)?;
            assert!(rt; digits(rt.alloc(), &lifted)?.as_str() == kind.lifted);
        }
    }
    for kind in KEYED {
        let input = input_of(rt.alloc(), &kind, b"")?;
        assert!(rt; done(&rt, &["relay"], &input)?.as_slice() == REPORT);
    }
    Ok(())
}

#[test]
fn views_of_each_kind(rt: HostRuntime) -> Result<(), Fail> {
    for kinds in [DRAWN, KEYED] {
        for kind in kinds {
            let input = input_of(rt.alloc(), &kind, HISTORY.as_bytes())?;
            let views = with_each_server(&rt, "view", &kind, &input)?;
            assert!(rt; views.as_str() == kind.views);
        }
    }
    Ok(())
}

#[test]
fn mirrors_of_each_kind(rt: HostRuntime) -> Result<(), Fail> {
    let alloc = rt.alloc();
    for kind in DRAWN {
        let [mirrors, wrongs] = kind.mirrors;
        let silent = script_of(alloc, &kind, "")?;
        let section = joined(alloc, &[silent.as_slice(), HISTORY.as_bytes()])?;
        let input = input_of(alloc, &kind, &section)?;
        assert!(rt; with_each_server(&rt, "mirror", &kind, &input)?.as_str() == mirrors);
        let section = joined(alloc, &[section.as_slice(), REPLIES.as_bytes()])?;
        let input = input_of(alloc, &kind, &section)?;
        assert!(rt; with_each_server(&rt, "wrong", &kind, &input)?.as_str() == wrongs);
    }
    Ok(())
}
