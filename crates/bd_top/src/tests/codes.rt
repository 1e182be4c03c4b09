//! The words of the command line, and the texts and codes of faults.
use super::words;
use crate::{Command, Status, To, Which, code, fault_text, read_words};
use std::process::Abort;
use std::test::Fail;

/// Lines of words that say no command.
const NO_COMMAND: [&[&str]; 16] = [
    &[],
    &[""],
    &["replay"],
    &["replay", "image", "script"],
    &["replay", "image", "script", "out", "more"],
    &["replay", "", "script", "out"],
    &["replay", "image", "-script", "out"],
    &["replay", "image", "script", "--journal"],
    &["replay", "--journal", "image", "script", "out", "--journal"],
    &["--journal", "replay", "image", "script", "out"],
    &["run", "image", "script", "out"],
    &["verify", "image", "script", "journal", "--journal"],
    &["check", "image", "--journal"],
    &["check", "-"],
    &["make", "07", "image", "script"],
    &["make", "18446744073709551616", "image", "script"],
];

#[test]
fn finds_no_command_in_other_words(rt: HostRuntime) -> Result<(), Fail> {
    for line in NO_COMMAND {
        let own = words(rt.alloc(), line)?;
        assert!(&rt; read_words(own.as_slice()).is_none());
    }
    Ok(())
}

#[test]
fn reads_the_word_for_the_journal_at_each_place(rt: HostRuntime) -> Result<(), Fail> {
    for line in [
        ["replay", "--journal", "i", "s", "o"],
        ["replay", "i", "--journal", "s", "o"],
        ["replay", "i", "s", "--journal", "o"],
        ["replay", "i", "s", "o", "--journal"],
    ] {
        let own = words(rt.alloc(), line.as_slice())?;
        let want = Command::Replay {
            image: "i",
            script: "s",
            out: "o",
            journal: true,
        };
        assert!(&rt; read_words(own.as_slice()) == Some(want));
    }
    Ok(())
}

#[test]
fn reads_words_that_say_a_command(rt: HostRuntime) -> Result<(), Fail> {
    let replay = words(rt.alloc(), ["replay", "a b", "/x/../y", "o-"].as_slice())?;
    let want = Command::Replay {
        image: "a b",
        script: "/x/../y",
        out: "o-",
        journal: false,
    };
    assert!(&rt; read_words(replay.as_slice()) == Some(want));
    let verify = words(rt.alloc(), ["verify", "i", "verify", "j-"].as_slice())?;
    let want = Command::Verify {
        image: "i",
        script: "verify",
        journal: "j-",
    };
    assert!(&rt; read_words(verify.as_slice()) == Some(want));
    let check = words(rt.alloc(), ["check", "check"].as_slice())?;
    assert!(&rt; read_words(check.as_slice()) == Some(Command::Check { image: "check" }));
    Ok(())
}

/// Expects this code and this text of a status.
fn has_text(
    rt: &(impl Abort + AllocGlobal),
    status: Status,
    number: u8,
    text: &str,
) -> Result<(), Fail> {
    assert_eq!(rt; code(&status), number);
    assert!(rt; fault_text(rt.alloc(), &status)?.as_slice() == text.as_bytes());
    Ok(())
}

#[test]
fn tells_each_fault(rt: HostRuntime) -> Result<(), Fail> {
    let write = Status::WriteFault(To::Disk);
    has_text(&rt, Status::Done, 0, "")?;
    has_text(&rt, Status::Usage, 2, "bypassd: usage")?;
    let read = Status::ReadFault(Which::Script);
    has_text(&rt, read, 3, "bypassd: read fault: script")?;
    has_text(&rt, write, 4, "bypassd: write fault: disk")?;
    let script = Status::BadScript { line: 31, rule: 0 };
    has_text(&rt, script, 6, "bypassd: bad script: rule 0 at line 31")?;
    has_text(&rt, Status::OutOfMemory, 7, "bypassd: out of memory")
}
