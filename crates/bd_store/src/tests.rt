//! Journals of small scripts over an empty volume: whole ones, ones that stop early, and ones whose last entry breaks a
//! rule.
ghost use Rattle.std.specs.Prelude.{IfOk};
ghost use Rattle.bd_base.specs.Scripts.{IsWithinLimits};
ghost use Rattle.bd_base.specs.Volumes.{IsSoundVolume};

use crate::{Verdict, check_journal};
use bd_base::{Bytes, InodeList, List, OutOfMemory, Pid, Script, Volume};
use bd_entry::{EntryList, read_journal};
use bd_script::read_script;
use std::alloc::Global;
use std::process::Abort;
use std::test::Fail;

/// How many blocks the volume of the tests has: the data blocks are 3 to 19.
const BLOCKS: u32 = 20;

/// A volume with room for sixteen files, and none there.
fn empty_volume(alloc: Global) -> Result<Volume, OutOfMemory>
    ensures { IfOk result IsSoundVolume }
{
    let mut inodes: InodeList = List::new(alloc);
    for _id in 0..16usize {
        inodes.push(None)?;
    }
    let bytes = vec![in alloc; 0u8; 81_920]?;
    Ok(Volume {
        total: BLOCKS,
        inodes,
        bytes: Bytes::from_vec(bytes),
    })
}

/// The script of these lines after its first.
fn script_of(alloc: Global, lines: &[&str]) -> Result<Script, Fail>
    ensures { IfOk result IsWithinLimits }
{
    let mut text = String::from_str(alloc, "bypassd-script 1\n")?;
    for line in lines {
        text.push_str(line)?;
        text.push_str("\n")?;
    }
    read_script(alloc, text.as_bytes()).map_err(|_| "a script".into())
}

/// The journal of the first lines, so many, after its first line, and of one more.
fn journal_of(
    alloc: Global,
    lines: &[&str],
    count: usize,
    last: Option<&str>,
) -> Result<EntryList, Fail> {
    let mut text = String::from_str(alloc, "bypassd-journal 1\n")?;
    for line in lines.iter().take(count) {
        text.push_str(line)?;
        text.push_str("\n")?;
    }
    if let Some(line) = last {
        text.push_str(line)?;
        text.push_str("\n")?;
    }
    read_journal(alloc, text.as_bytes()).map_err(|_| "a journal".into())
}

/// Expects this of the first lines of a journal, and one more.
fn expect(
    rt: &(impl Abort + AllocGlobal),
    script: &[&str],
    lines: &[&str],
    count: usize,
    last: Option<&str>,
    want: Verdict,
) -> Result<(), Fail> {
    let alloc = rt.alloc();
    let script = script_of(alloc, script)?;
    let journal = journal_of(alloc, lines, count, last)?;
    let volume = empty_volume(alloc)?;
    let verdict = check_journal(alloc, volume, &script, journal.as_slice())?;
    let shown = last.unwrap_or("no further entry");
    assert_eq!(rt; verdict, want, "after {count} entries: {shown}");
    Ok(())
}

/// Expects that each of these lines breaks the rule, after so many first lines of a journal.
fn expect_broken(
    rt: &(impl Abort + AllocGlobal),
    script: &[&str],
    lines: &[&str],
    rule: u8,
    rows: &[(usize, &str)],
) -> Result<(), Fail> {
    for row in rows {
        let (count, line) = *row;
        let want = Verdict::NotLegal {
            entry: count as u64,
            rule,
        };
        expect(rt, script, lines, count, Some(line), want)?;
    }
    Ok(())
}

/// Expects that the journal of so many first lines lacks the end of this call.
fn expect_unfinished(
    rt: &(impl Abort + AllocGlobal),
    script: &[&str],
    lines: &[&str],
    count: usize,
    process: u64,
    call: u16,
) -> Result<(), Fail> {
    let process = Pid::new(process).ok_or("a process")?;
    let want = Verdict::Unfinished { process, call };
    expect(rt, script, lines, count, None, want)
}

const DIRECT_SCRIPT: [&str; 12] = [
    "proc 1",
    "create f 15",
    "open f rw direct",
    "write 0 0 41*5",
    "read 0 0 5",
    "map 0",
    "read 0 0 5",
    "write 0 0 42*3",
    "size 0",
    "truncate 0 2",
    "close 0",
    "unlink f",
];

const DIRECT_JOURNAL: [&str; 18] = [
    "0 0 created 0 f 15",
    "0 1 opened 0 0 rw direct",
    "0 1 mapped 0 0",
    "0 2 extended 0 5 3",
    "0 2 access 0 0 0 0 3 0 5 wrote past-known 41*5",
    "0 3 missed 0 no-directory",
    "0 3 access 0 0 0 0 3 0 5 read after-miss 41*5",
    "0 4 attached 0 0",
    "0 4 mapped 0 1",
    "0 5 access 0 0 0 0 3 0 5 read direct 41*5",
    "0 6 access 0 0 0 0 3 0 3 wrote direct 42*3",
    "0 7 size 0 5",
    "0 8 cleared 0 0 0",
    "0 8 detached 0 0 0",
    "0 8 sized 0 2",
    "0 9 closed 0",
    "0 10 released 0 0 3",
    "0 10 unlinked 0",
];

const DIRECT_BREAKS_1: [(usize, &str); 4] = [
    (0, "1 0 created 0 f 15"),
    (0, "0 1 opened 0 0 rw direct"),
    (1, "0 0 created 1 f 15"),
    (18, "0 10 unlinked 0"),
];

const DIRECT_BREAKS_2: [(usize, &str); 11] = [
    (0, "0 0 opened 0 0 rw direct"),
    (0, "0 0 created 0 g 15"),
    (0, "0 0 created 0 f 14"),
    (1, "0 1 opened 0 0 r direct"),
    (1, "0 1 opened 0 0 rw plain"),
    (1, "0 1 attached 0 0"),
    (2, "0 1 mapped 1 0"),
    (3, "0 2 access 0 0 0 0 3 0 4 wrote past-known 41*4"),
    (3, "0 2 access 0 0 0 0 3 0 5 read past-known -"),
    (3, "0 2 access 1 0 0 0 3 0 5 wrote past-known 41*5"),
    (4, "0 2 access 0 1 0 0 3 0 5 wrote past-known 41*5"),
];

const DIRECT_BREAKS_3: [(usize, &str); 2] = [
    (2, "0 1 opened 0 1 rw direct"),
    (6, "0 3 missed 0 no-directory"),
];

const DIRECT_BREAKS_4: [(usize, &str); 5] = [
    (3, "0 2 access 0 0 0 0 3 0 5 wrote direct 41*5"),
    (3, "0 2 access 0 0 0 0 3 0 5 wrote plain 41*5"),
    (3, "0 2 missed 0 no-directory"),
    (5, "0 3 access 0 0 0 0 3 0 5 read after-miss 41*5"),
    (9, "0 5 access 0 0 0 0 3 0 5 read after-miss 41*5"),
];

const DIRECT_BREAKS_5: [(usize, &str); 2] = [
    (1, "0 1 opened 0 1 rw direct"),
    (12, "0 8 cleared 0 1 0"),
];

const DIRECT_BREAKS_6: [(usize, &str); 5] = [
    (0, "0 0 created 1 f 15"),
    (1, "0 1 opened 1 0 rw direct"),
    (3, "0 2 extended 1 5 3"),
    (4, "0 2 access 0 0 1 0 3 0 5 wrote past-known 41*5"),
    (17, "0 10 unlinked 1"),
];

const DIRECT_BREAKS_8: [(usize, &str); 15] = [
    (2, "0 1 mapped 0 1"),
    (2, "0 1 attached 0 0"),
    (5, "0 3 missed 0 no-right"),
    (5, "0 3 missed 0 beyond 3"),
    (5, "0 3 access 0 0 0 0 3 0 5 read direct 41*5"),
    (7, "0 4 mapped 0 0"),
    (7, "0 4 attached 0 1"),
    (8, "0 4 attached 0 0"),
    (8, "0 4 mapped 0 0"),
    (9, "0 5 missed 0 no-directory"),
    (9, "0 5 missed 0 no-entry"),
    (12, "0 8 sized 0 2"),
    (12, "0 8 detached 0 0 0"),
    (12, "0 8 released 0 0 3"),
    (13, "0 8 cleared 0 0 0"),
];

const DIRECT_BREAKS_10: [(usize, &str); 5] = [
    (3, "0 2 extended 0 5 4"),
    (3, "0 2 extended 0 5 -"),
    (3, "0 2 access 0 0 0 0 3 0 5 wrote past-known 41*5"),
    (6, "0 3 access 0 0 0 0 4 0 5 read after-miss 41*5"),
    (16, "0 10 released 0 1 3"),
];

const DIRECT_BREAKS_11: [(usize, &str); 7] = [
    (3, "0 2 extended 0 4 3"),
    (3, "0 2 access 0 0 0 0 - 0 5 wrote past-known 41*5"),
    (4, "0 2 extended 0 6 -"),
    (11, "0 7 size 0 4"),
    (14, "0 8 sized 0 3"),
    (14, "0 8 released 0 0 3"),
    (16, "0 10 unlinked 0"),
];

const DIRECT_BREAKS_12: [(usize, &str); 3] = [
    (4, "0 2 access 0 0 0 0 3 0 5 wrote past-known 41*4"),
    (4, "0 2 access 0 0 0 0 3 0 5 wrote past-known 42*5"),
    (6, "0 3 access 0 0 0 0 3 0 5 read after-miss 41*4"),
];

const DIRECT_BREAKS_13: [(usize, &str); 4] = [
    (1, "0 1 refused - no-file"),
    (2, "0 1 refused - fds-full"),
    (3, "0 2 refused 0 too-big"),
    (14, "0 8 refused - no-space"),
];

#[test]
fn follows_a_direct_descriptor(rt: HostRuntime) -> Result<(), Fail> {
    let (script, journal) = (&DIRECT_SCRIPT, &DIRECT_JOURNAL);
    expect(&rt, script, journal, 18, None, Verdict::Legal)?;
    expect_unfinished(&rt, script, journal, 0, 0, 0)?;
    expect_unfinished(&rt, script, journal, 2, 0, 1)?;
    expect_unfinished(&rt, script, journal, 17, 0, 10)?;
    expect_broken(&rt, script, journal, 1, &DIRECT_BREAKS_1)?;
    expect_broken(&rt, script, journal, 2, &DIRECT_BREAKS_2)?;
    expect_broken(&rt, script, journal, 3, &DIRECT_BREAKS_3)?;
    expect_broken(&rt, script, journal, 4, &DIRECT_BREAKS_4)?;
    expect_broken(&rt, script, journal, 5, &DIRECT_BREAKS_5)?;
    expect_broken(&rt, script, journal, 6, &DIRECT_BREAKS_6)?;
    expect_broken(&rt, script, journal, 8, &DIRECT_BREAKS_8)?;
    expect_broken(&rt, script, journal, 10, &DIRECT_BREAKS_10)?;
    expect_broken(&rt, script, journal, 11, &DIRECT_BREAKS_11)?;
    expect_broken(&rt, script, journal, 12, &DIRECT_BREAKS_12)?;
    expect_broken(&rt, script, journal, 13, &DIRECT_BREAKS_13)?;
    Ok(())
}

const PLAIN_SCRIPT: [&str; 18] = [
    "proc 1",
    "create f 7",
    "open f rw plain",
    "write 0 0 41*2",
    "close 0",
    "unlink f",
    "proc 2",
    "open f rw direct",
    "open f r direct",
    "map 0",
    "map 0",
    "raw-read 0 0 2",
    "raw-write 0 0 42*1",
    "raw-read 0 0 3",
    "raw-read 1 0 1",
    "close 0",
    "size 0",
    "raw-read 0 0 1",
];

const PLAIN_JOURNAL: [&str; 21] = [
    "0 0 created 0 f 7",
    "1 0 refused - denied 4",
    "0 1 opened 0 0 rw plain",
    "0 2 extended 0 2 3",
    "0 2 access 0 0 0 0 3 0 2 wrote plain 41*2",
    "1 1 opened 0 0 r direct",
    "1 1 mapped 0 0",
    "1 2 refused - kernel-open 0",
    "0 3 closed 0",
    "1 3 attached 0 0",
    "1 3 mapped 0 1",
    "1 4 access 0 0 0 0 3 0 2 read direct 41*2",
    "1 5 missed 0 no-right",
    "0 4 refused - open-by 1 0",
    "1 6 missed 0 beyond 2",
    "1 7 missed 0 no-entry",
    "1 8 cleared 1 0 0",
    "1 8 detached 1 0 0",
    "1 8 closed 0",
    "1 9 refused - bad-fd",
    "1 10 missed 0 no-directory",
];

const PLAIN_BREAKS_2: [(usize, &str); 2] = [
    (11, "1 4 refused 0 bad-fd"),
    (16, "1 8 cleared 1 1 0"),
];

const PLAIN_BREAKS_4: [(usize, &str); 3] = [
    (4, "0 2 access 0 0 0 0 3 0 2 wrote direct 41*2"),
    (11, "1 4 access 0 0 0 0 3 0 2 read after-miss 41*2"),
    (11, "1 4 refused - bad-fd"),
];

const PLAIN_BREAKS_5: [(usize, &str); 2] = [
    (19, "1 9 size 0 0"),
    (20, "1 10 access 0 0 0 0 3 0 1 read direct 41*1"),
];

const PLAIN_BREAKS_7: [(usize, &str); 2] = [
    (1, "1 0 opened 0 0 rw direct"),
    (12, "1 5 access 0 0 0 0 3 0 1 wrote direct 42*1"),
];

const PLAIN_BREAKS_8: [(usize, &str); 10] = [
    (6, "1 1 mapped 0 1"),
    (11, "1 4 missed 0 no-directory"),
    (11, "1 4 missed 0 beyond 1"),
    (12, "1 5 missed 0 no-entry"),
    (13, "0 4 unlinked 0"),
    (13, "0 4 released 0 0 3"),
    (14, "1 6 missed 0 beyond 3"),
    (16, "1 8 closed 0"),
    (17, "1 8 cleared 1 0 0"),
    (20, "1 10 missed 0 no-entry"),
];

const PLAIN_BREAKS_9: [(usize, &str); 2] = [(6, "1 1 attached 0 0"), (7, "1 2 attached 0 0")];

const PLAIN_BREAKS_11: [(usize, &str); 2] = [
    (14, "1 6 access 0 0 0 0 3 0 3 read direct 41*2"),
    (15, "1 7 access 0 0 0 1 - 0 1 read direct -"),
];

const PLAIN_BREAKS_13: [(usize, &str); 5] = [
    (0, "1 0 refused - denied 4"),
    (1, "1 0 refused - denied 3"),
    (7, "1 2 mapped 0 0"),
    (7, "1 2 refused - kernel-open 1"),
    (13, "0 4 refused - open-by 0 0"),
];

#[test]
fn follows_a_plain_descriptor_and_raw_commands(rt: HostRuntime) -> Result<(), Fail> {
    let (script, journal) = (&PLAIN_SCRIPT, &PLAIN_JOURNAL);
    expect(&rt, script, journal, 21, None, Verdict::Legal)?;
    expect_unfinished(&rt, script, journal, 20, 1, 10)?;
    expect_unfinished(&rt, script, journal, 13, 0, 4)?;
    expect_broken(&rt, script, journal, 2, &PLAIN_BREAKS_2)?;
    expect_broken(&rt, script, journal, 4, &PLAIN_BREAKS_4)?;
    expect_broken(&rt, script, journal, 5, &PLAIN_BREAKS_5)?;
    expect_broken(&rt, script, journal, 7, &PLAIN_BREAKS_7)?;
    expect_broken(&rt, script, journal, 8, &PLAIN_BREAKS_8)?;
    expect_broken(&rt, script, journal, 9, &PLAIN_BREAKS_9)?;
    expect_broken(&rt, script, journal, 11, &PLAIN_BREAKS_11)?;
    expect_broken(&rt, script, journal, 13, &PLAIN_BREAKS_13)?;
    Ok(())
}
