//! Whether a journal is a legal history of an image's files by a script's calls.
use super::{
    Inputs, Left, Plan, REPORT, SCRIPT, SURE, command_on, first_image, is_refused, joined,
};
use crate::{Status, To, Which};
use bd_base::Pid;
use std::alloc::Global;
use std::process::Abort;
use std::test::Fail;

/// The journal of the first read.
const JOURNAL: &[u8] = b"bypassd-journal 1\n0 0 opened 0 0 r direct\n0 0 attached 0 0\n\
    0 0 mapped 0 1\n0 1 access 0 0 0 0 3 0 5 read direct 68*1,65*1,6C*2,6F*1\n";

/// The line that tells that it is legal.
const LEGAL: &[u8] = b"legal calls 2 pieces 1\n";

/// Verifies a journal of a script over the image of the first read.
fn verified(alloc: Global, script: &[u8], journal: &[u8], plan: Plan) -> Result<Left, Fail> {
    let words = ["verify", "image", "script", "journal"];
    let inputs = Inputs {
        image: first_image(alloc)?,
        script,
        journal,
    };
    command_on(alloc, words.as_slice(), inputs, plan)
}

/// Expects that the journal of this script is legal, and what is told then.
fn is_legal(
    rt: &(impl Abort + AllocGlobal),
    script: &[u8],
    journal: &[u8],
    line: &[u8],
) -> Result<(), Fail> {
    let left = verified(rt.alloc(), script, journal, SURE)?;
    assert_eq!(rt; left.outcome.status, Status::Done);
    assert!(rt; left.out.held() == line);
    assert!(rt; left.disk.held().is_empty());
    Ok(())
}

/// Expects that the journal of the first read's script is refused so.
fn is_refused_so(
    rt: &(impl Abort + AllocGlobal),
    journal: &[u8],
    want: Status,
) -> Result<(), Fail> {
    let left = verified(rt.alloc(), SCRIPT, journal, SURE)?;
    is_refused(rt, &left, want);
    Ok(())
}

#[test]
fn finds_the_first_read_legal(rt: HostRuntime) -> Result<(), Fail> {
    is_legal(&rt, SCRIPT, JOURNAL, LEGAL)?;
    // What stands before the journal is passed over.
    let whole = joined(rt.alloc(), [REPORT, JOURNAL].as_slice())?;
    is_legal(&rt, SCRIPT, whole.as_slice(), LEGAL)
}

#[test]
fn takes_scripts_with_all_calls(rt: HostRuntime) -> Result<(), Fail> {
    let empty = b"legal calls 0 pieces 0\n";
    is_legal(&rt, b"bypassd-script 1\n", b"bypassd-journal 1\n", empty)?;
    let script = b"bypassd-script 1\nproc 100\nopen a rw plain\nwrite 0 4 41*3\nread 0 4095 2\n\
        truncate 0 0\nraw-read 0 0 5\nclose 0\nunlink a\ncreate b 15\nschedule 0*2\n";
    let journal = b"bypassd-journal 1\n0 0 opened 0 0 rw plain\n0 1 extended 0 7 -\n\
        0 1 access 0 0 0 0 3 4 7 wrote plain 41*3\n0 2 access 1 0 0 1 - 0 1 read plain -\n\
        0 2 access 0 0 0 0 3 4095 4096 read plain -\n0 3 released 0 0 3\n0 3 sized 0 0\n\
        0 4 missed 0 no-directory\n0 5 closed 0\n0 6 unlinked 0\n0 7 created 0 b 15\n";
    is_legal(&rt, script, journal, b"legal calls 8 pieces 4\n")
}

/// The last line of the journal.
const LAST: &[u8] = b"0 1 access 0 0 0 0 3 0 5 read direct 68*1,65*1,6C*2,6F*1\n";

#[test]
fn tells_what_is_wrong_with_a_journal(rt: HostRuntime) -> Result<(), Fail> {
    let twice = joined(rt.alloc(), [JOURNAL, LAST].as_slice())?;
    is_refused_so(
        &rt,
        twice.as_slice(),
        Status::NotLegal { entry: 4, rule: 1 },
    )?;
    let without = JOURNAL.strip_suffix(LAST).ok_or("no last line")?;
    let process = Pid::new(0).ok_or("no process")?;
    is_refused_so(&rt, without, Status::Unfinished { process, call: 1 })?;
    let other: &[u8] = b"0 1 access 0 0 0 0 3 0 5 read direct 69*1,65*1,6C*2,6F*1\n";
    let changed = joined(rt.alloc(), [without, other].as_slice())?;
    is_refused_so(
        &rt,
        changed.as_slice(),
        Status::NotLegal { entry: 3, rule: 12 },
    )
}

/// Texts that are no journals, and their first bad lines.
const BAD_TEXTS: [(&[u8], u64); 10] = [
    (b"", 1),
    (b"abc", 2),
    (b"abc\n", 2),
    (b"abc\n\n", 3),
    (b"bypassd-journal 1", 1),
    (b"bypassd-journal 1\r\n", 2),
    (b"a\nb\nbypassd-journal 1\n0 0 mapped 0 1", 4),
    (b"bypassd-journal 1\n0 0 mapped 0 1\n\n", 3),
    (b"bypassd-journal 1\n0 0 mapped 0 18446744073709551616\n", 2),
    (
        b"bypassd-report 1\nbypassd-journal 1\nbypassd-journal 1\n",
        3,
    ),
];

#[test]
fn tells_the_first_bad_line(rt: HostRuntime) -> Result<(), Fail> {
    for (text, line) in BAD_TEXTS {
        is_refused_so(&rt, text, Status::BadJournal { line })?;
    }
    Ok(())
}

/// Expects that an empty image is refused, whatever the others are.
fn refuses_the_image_first(rt: &(impl Abort + AllocGlobal)) -> Result<(), Fail> {
    let alloc = rt.alloc();
    let words = ["verify", "image", "script", "journal"];
    let inputs = Inputs {
        image: Vec::new(alloc),
        script: b"",
        journal: b"",
    };
    let left = command_on(alloc, words.as_slice(), inputs, SURE)?;
    is_refused(rt, &left, Status::BadImage { rule: 1, place: 0 });
    Ok(())
}

#[test]
fn tells_the_inputs_in_their_order(rt: HostRuntime) -> Result<(), Fail> {
    refuses_the_image_first(&rt)?;
    let left = verified(rt.alloc(), b"bypassd-script 1\nread 0 0 0\n", b"", SURE)?;
    is_refused(&rt, &left, Status::BadScript { line: 2, rule: 5 });
    Ok(())
}

/// Expects that a verification of the first read with these calls failing ends so.
fn fails_so(rt: &(impl Abort + AllocGlobal), plan: Plan, want: Status) -> Result<(), Fail> {
    let left = verified(rt.alloc(), SCRIPT, JOURNAL, plan)?;
    is_refused(rt, &left, want);
    Ok(())
}

#[test]
fn each_call_of_a_verification_may_fail(rt: HostRuntime) -> Result<(), Fail> {
    for call in 0..3 {
        let image = Some(call);
        fails_so(&rt, Plan { image, ..SURE }, Status::ReadFault(Which::Image))?;
    }
    for call in 0..4 {
        let script = Some(call);
        fails_so(
            &rt,
            Plan { script, ..SURE },
            Status::ReadFault(Which::Script),
        )?;
    }
    // 131 bytes in pieces of 20, and the end.
    for call in 0..8 {
        let journal = Some(call);
        fails_so(
            &rt,
            Plan { journal, ..SURE },
            Status::ReadFault(Which::Journal),
        )?;
    }
    let out = Some(0);
    fails_so(&rt, Plan { out, ..SURE }, Status::WriteFault(To::Out))
}

/// The first calls of a verification that there are not.
const PAST_THE_LAST: Plan = Plan {
    image: Some(3),
    script: Some(4),
    journal: Some(8),
    out: Some(1),
    disk: Some(0),
};

#[test]
fn no_other_call_of_a_verification_is_made(rt: HostRuntime) -> Result<(), Fail> {
    let left = verified(rt.alloc(), SCRIPT, JOURNAL, PAST_THE_LAST)?;
    assert_eq!(&rt; left.outcome.status, Status::Done);
    Ok(())
}
