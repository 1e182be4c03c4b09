//! Journals that are written and read, and texts that are none.
use crate::{JournalError, after_report, print_journal, read_journal};
use std::alloc::Global;
use std::process::Abort;
use std::test::Fail;

// Reads a journal of the header and this line, and checks that it is written as it was.
fn both_ways(rt: &impl Abort, alloc: Global, line: &str) -> Result<(), Fail> {
    let text = format!(in alloc; "bypassd-journal 1\n{line}\n")?;
    let entries = read_journal(alloc, text.as_bytes()).map_err(|_| "a journal")?;
    assert_eq!(rt; entries.len(), 1, "from {line}");
    let written = print_journal(alloc, entries.as_slice())?;
    assert_eq!(rt; written.as_slice(), text.as_bytes(), "from {line}");
    Ok(())
}

#[test]
fn reads_each_kind(rt: HostRuntime) -> Result<(), Fail> {
    for line in [
        "0 0 opened 0 0 r direct",
        "15 255 opened 255 7 rw plain",
        "1 2 created 9 a.b_c-1 255",
        "0 0 attached 7 7",
        "0 0 mapped 0 8",
        "0 1 cleared 15 7 7",
        "0 1 detached 15 7 7",
        "0 1 access 0 0 0 0 3 0 5 read direct 68*1,65*1,6C*2,6F*1",
        "0 1 access 4 7 255 268435459 - 4095 4096 wrote past-known -",
        "0 1 access 1 1 1 1 16383 0 4096 wrote plain 00*4096",
        "0 1 access 1 1 1 1 16383 0 4096 read after-miss FF*1",
        "2 0 missed 4 beyond 4096",
        "2 0 extended 3 16777216 16383",
        "2 0 extended 3 1 -",
        "2 0 released 3 0 5",
        "2 0 sized 3 16777216",
        "2 0 size 3 0",
        "2 0 closed 3",
        "2 0 unlinked 255",
        "2 0 refused 4 no-file",
    ] {
        both_ways(&rt, rt.alloc(), line)?;
    }
    Ok(())
}

#[test]
fn reads_each_reason(rt: HostRuntime) -> Result<(), Fail> {
    let alloc = rt.alloc();
    for reason in [
        "no-file",
        "exists",
        "denied 1",
        "denied 5",
        "inodes",
        "no-space",
        "extents",
        "too-big",
        "open-by 15 7",
        "bad-fd",
        "read-only",
        "fds-full",
        "kernel-open 0",
    ] {
        let line = format!(in alloc; "2 0 refused - {reason}")?;
        both_ways(&rt, alloc, line.as_str())?;
    }
    for found in ["no-directory", "no-right", "no-entry", "beyond 1"] {
        let line = format!(in alloc; "2 0 missed 0 {found}")?;
        both_ways(&rt, alloc, line.as_str())?;
    }
    Ok(())
}

#[test]
fn reads_a_journal(rt: HostRuntime) -> Result<(), Fail> {
    let alloc = rt.alloc();
    let text =
        "bypassd-journal 1\n0 0 opened 0 0 r direct\n0 0 attached 0 0\n0 0 mapped 0 1\n0 1 access 0 0 0 0 3 0 5 read direct 68*1,65*1,6C*2,6F*1\n";
    let entries = read_journal(alloc, text.as_bytes()).map_err(|_| "a journal")?;
    assert_eq!(rt; entries.len(), 4);
    let written = print_journal(alloc, entries.as_slice())?;
    assert_eq!(rt; written.as_slice(), text.as_bytes());
    let none = read_journal(alloc, b"bypassd-journal 1\n".as_slice()).map_err(|_| "a journal")?;
    assert!(rt; none.is_empty());
    Ok(())
}

// The number of the first bad line: 0 where there is none.
fn bad_line(alloc: Global, text: &[u8]) -> u64 {
    match read_journal(alloc, text) {
        Err(JournalError::BadJournal { line }) => line,
        _ => 0,
    }
}

#[test]
fn refuses_a_bad_line(rt: HostRuntime) -> Result<(), Fail> {
    let alloc = rt.alloc();
    for line in [
        "",
        " ",
        "0",
        "0 0",
        "0 0 closed",
        "0 0 closed ",
        "0 0  closed 1",
        "00 0 closed 1",
        "0 01 closed 1",
        "0 0 closed 01",
        "0 0 closed +1",
        "0 0 closed 8",
        "0 0 closed 1 ",
        "0 0 closed 1\r",
        "16 0 closed 1",
        "0 256 closed 1",
        "0 0 close 1",
        "0 0 opened 256 0 r direct",
        "0 0 opened 0 0 w direct",
        "0 0 opened 0 0 r past-known",
        "0 0 created 0 A 0",
        "0 0 created 0 a 256",
        "0 0 attached 0 8",
        "0 0 mapped 0 9",
        "0 0 cleared 16 0 0",
        "0 0 released 0 268435460 0",
        "0 0 released 0 0 16384",
        "0 0 released 0 0 -",
        "0 0 extended 0 16777217 0",
        "0 0 access 5 0 0 0 3 0 5 read direct -",
        "0 0 access 0 0 0 0 3 5 5 read direct -",
        "0 0 access 0 0 0 0 3 0 4097 read direct -",
        "0 0 access 0 0 0 0 3 0 5 read direct 00*4097",
        "0 0 access 0 0 0 0 3 0 5 read direct",
        "0 0 missed 0 beyond 0",
        "0 0 missed 0 beyond 4097",
        "0 0 refused 5 no-file",
        "0 0 refused - denied 0",
        "0 0 refused - denied 6",
        "0 0 refused - open-by 0",
        "0 0 refused - no-entry",
    ] {
        let text = format!(in alloc; "bypassd-journal 1\n0 0 closed 0\n{line}\n0 0 closed 0\n")?;
        assert_eq!(rt; bad_line(alloc, text.as_bytes()), 3, "from {line:?}");
    }
    Ok(())
}

#[test]
fn refuses_a_bad_text(rt: HostRuntime) -> Result<(), Fail> {
    for (text, line) in [
        ("", 1),
        ("bypassd-journal 1", 1),
        ("bypassd-journal 2\n", 1),
        ("bypassd-journal 1 \n", 1),
        ("\nbypassd-journal 1\n", 1),
        ("bypassd-journal 1\n0 0 closed 0", 2),
        ("bypassd-journal 1\n0 0 closed 0\n\n", 3),
        ("bypassd-journal 1\n0 0 closed 0\n0", 3),
    ] {
        assert_eq!(rt;
            bad_line(rt.alloc(), text.as_bytes()),
            line,
            "from {text:?}"
        );
    }
    Ok(())
}

#[test]
fn finds_the_journal(rt: HostRuntime) {
    for (text, place) in [
        ("", 0),
        ("bypassd-journal 1", 0),
        ("bypassd-journal 1\n", 0),
        ("a\nbypassd-journal 1\nbypassd-journal 1\n", 2),
        ("bypassd-report 1\nproc 0\nbypassd-journal 1", 24),
        ("a bypassd-journal 1\n", 20),
        ("a\nbypassd-journal 12\n", 21),
        ("a\nb\n", 4),
    ] {
        assert_eq!(rt; after_report(text.as_bytes()), place, "in {text:?}");
    }
}
