//! Many processes that open files.
use super::{Want, leaves};
use crate::tests::images::{File, add, blank, fill, one_file};
use crate::tests::traces::push_line;
use std::alloc::{AllocError, Global};
use std::process::Abort;
use std::test::Fail;

/// The texts of a run, as they grow.
#[derive(Drop)]
struct Texts {
    script: Vec<u8>,
    report: Vec<u8>,
    journal: Vec<u8>,
    trace: Vec<u8>,
}

/// Appends a text.
fn push(text: &mut Vec<u8>, more: &[u8]) -> Result<(), AllocError> {
    text.extend_from_slice(more)
}

/// The first lines of all texts.
fn first_lines(alloc: Global) -> Result<Texts, AllocError> {
    let mut texts = Texts {
        script: Vec::new(alloc),
        report: Vec::new(alloc),
        journal: Vec::new(alloc),
        trace: Vec::new(alloc),
    };
    push(&mut texts.script, b"bypassd-script 1\n")?;
    push(&mut texts.report, b"bypassd-report 1\n")?;
    push(&mut texts.journal, b"bypassd-journal 1\n")?;
    Ok(texts)
}

/// Expects that a run of this script leaves these texts and this image.
fn leaves_texts(
    rt: &(impl Abort + AllocGlobal),
    image: Vec<u8>,
    texts: &Texts,
    after: &[u8],
) -> Result<(), Fail> {
    let want = Want {
        script: texts.script.as_slice(),
        report: texts.report.as_slice(),
        journal: texts.journal.as_slice(),
        trace: texts.trace.as_slice(),
    };
    leaves(rt, image, want, after)
}

/// Appends to the journal and the trace: the entry of a call of a process, and its turn.
fn push_turn(
    alloc: Global,
    texts: &mut Texts,
    place: [u64; 3],
    entry: &str,
    event: &str,
) -> Result<(), Fail> {
    let [turn, process, call] = place;
    push_line(alloc, &mut texts.journal, &[process, call], entry)?;
    push_line(alloc, &mut texts.trace, &[turn, process], event)
}

/// The entries of the attaches of the parts of a file by descriptor 0.
const ATTACHED: [&str; 8] = [
    "attached 0 0",
    "attached 0 1",
    "attached 0 2",
    "attached 0 3",
    "attached 0 4",
    "attached 0 5",
    "attached 0 6",
    "attached 0 7",
];

/// Adds a process that opens a file of eight parts. While it does so it holds the file, and those after it wait: each of
/// its ten turns but the first comes a round of 33 turns after the one before.
fn add_large_open(alloc: Global, texts: &mut Texts, p: u8) -> Result<(), Fail> {
    push(&mut texts.script, b"proc 100\nopen a r direct\n")?;
    let process = u64::from(p);
    push(&mut texts.report, b"proc ")?;
    push_digits(&mut texts.report, p)?;
    push(&mut texts.report, b"\n0 ok 0 mapped 8\n")?;
    let mut turn = 298 * process;
    push_turn(
        alloc,
        texts,
        [turn, process, 0],
        "opened 0 0 r direct",
        "opened",
    )?;
    for entry in ATTACHED {
        turn = turn.saturating_add(33);
        push_turn(alloc, texts, [turn, process, 0], entry, "attach")?;
    }
    turn = turn.saturating_add(33);
    push_turn(alloc, texts, [turn, process, 0], "mapped 0 8", "mapped")
}

/// Appends a number below 100.
fn push_digits(text: &mut Vec<u8>, number: u8) -> Result<(), AllocError> {
    if number >= 10 {
        text.push(b'0' + number / 10 % 10)?;
    }
    text.push(b'0' + number % 10)?;
    Ok(())
}

/// The last lines of the report of a run in which nothing was accessed.
const NO_ACCESS: &[u8] = b"total direct 0 kernel 0 missed 0 detached 0\ncache hits 0 misses 0\n";

#[test]
fn sixteen_processes_share_the_fragments_of_a_file(rt: HostRuntime) -> Result<(), Fail> {
    let alloc = rt.alloc();
    let mut texts = first_lines(alloc)?;
    for p in 0..16 {
        add_large_open(alloc, &mut texts, p)?;
    }
    push(&mut texts.report, NO_ACCESS)?;
    let image = one_file(alloc, 4200, 16_777_216, 4096)?;
    let after = one_file(alloc, 4200, 16_777_216, 4096)?;
    leaves_texts(&rt, image, &texts, after.as_slice())
}

/// The name of a file: `f` and two digits.
fn name_of(number: u8) -> [u8; 3] {
    [b'f', b'0' + number / 10 % 10, b'0' + number % 10]
}

/// 65 files of one byte, `f00` to `f64`.
fn many_files(alloc: Global) -> Result<Vec<u8>, AllocError> {
    let mut image = blank(alloc, 100, 80)?;
    for number in 0..65 {
        let name = name_of(number);
        let start = 7 + u16::from(number);
        let file = File {
            inode: number,
            name: name.as_slice(),
            size: 1,
            start,
            blocks: 1,
        };
        add(&mut image, file);
        fill(&mut image, start, 0, b'A', 1);
    }
    Ok(image)
}

/// Adds the open of a file by one of the first eight processes, by the descriptor of its call's number.
fn add_small_open(alloc: Global, texts: &mut Texts, p: u8, call: u8) -> Result<(), Fail> {
    let file = p.saturating_mul(8).saturating_add(call);
    push(&mut texts.script, b"open ")?;
    push(&mut texts.script, name_of(file).as_slice())?;
    push(&mut texts.script, b" r direct\n")?;
    push_digits(&mut texts.report, call)?;
    push(&mut texts.report, b" ok ")?;
    push_digits(&mut texts.report, call)?;
    push(&mut texts.report, b" mapped 1\n")?;
    add_small_entries(alloc, texts, u64::from(p), u64::from(call), u64::from(file))
}

/// Adds the three entries of that open, and their turns.
fn add_small_entries(
    alloc: Global,
    texts: &mut Texts,
    process: u64,
    call: u64,
    file: u64,
) -> Result<(), Fail> {
    let first = file.saturating_mul(3);
    let trace = &mut texts.trace;
    push_line(alloc, trace, &[first, process], "opened")?;
    push_line(alloc, trace, &[first.saturating_add(1), process], "attach")?;
    push_line(alloc, trace, &[first.saturating_add(2), process], "mapped")?;
    let journal = &mut texts.journal;
    push_words(journal, process, call, b"opened ")?;
    push_line(alloc, journal, &[file, call], "r direct")?;
    push_words(journal, process, call, b"attached ")?;
    push_line(alloc, journal, &[call], "0")?;
    push_words(journal, process, call, b"mapped ")?;
    push_line(alloc, journal, &[call], "1")
}

/// Appends where an entry is, and the word of its kind.
fn push_words(text: &mut Vec<u8>, process: u64, call: u64, word: &[u8]) -> Result<(), AllocError> {
    push_digits(text, (process % 10) as u8)?;
    push(text, b" ")?;
    push_digits(text, (call % 10) as u8)?;
    push(text, b" ")?;
    push(text, word)
}

/// Adds one of the first eight processes.
fn add_small_opens(alloc: Global, texts: &mut Texts, p: u8) -> Result<(), Fail> {
    push(&mut texts.script, b"proc 100\n")?;
    push(&mut texts.report, b"proc ")?;
    push_digits(&mut texts.report, p)?;
    push(&mut texts.report, b"\n")?;
    for call in 0..8 {
        add_small_open(alloc, texts, p, call)?;
    }
    Ok(())
}

/// Adds the process that opens the 65th file, and the schedule, by which the other processes take their turns first.
fn add_last_open(texts: &mut Texts) -> Result<(), AllocError> {
    push(
        &mut texts.script,
        b"proc 100\nopen f64 r direct\nread 0 0 1\nschedule 0*24 1*24 2*24 3*24 4*24 5*24 6*24 7*24\n",
    )?;
    push(
        &mut texts.report,
        b"proc 8\n0 ok 0 mapped 0\n1 ok 1 41*1\ntotal direct 0 kernel 1 missed 1 detached 0\n\
        cache hits 0 misses 0\n",
    )?;
    push(
        &mut texts.journal,
        b"8 0 opened 64 0 r direct\n8 0 mapped 0 0\n8 1 missed 0 no-directory\n\
        8 1 access 0 0 64 0 71 0 1 read after-miss 41*1\n",
    )?;
    push(
        &mut texts.trace,
        b"200 8 opened\n219 8 mapped\n238 8 submit\n247 17 enter-missed\n266 17 missed\n285 17 retire\n\
        304 17 complete\n314 8 poll\n333 8 kernel-access\n",
    )
}

#[test]
fn the_65th_pair_of_a_file_and_a_part_gets_no_right(rt: HostRuntime) -> Result<(), Fail> {
    let alloc = rt.alloc();
    let mut texts = first_lines(alloc)?;
    for p in 0..8 {
        add_small_opens(alloc, &mut texts, p)?;
    }
    add_last_open(&mut texts)?;
    let image = many_files(alloc)?;
    let after = many_files(alloc)?;
    leaves_texts(&rt, image, &texts, after.as_slice())
}
