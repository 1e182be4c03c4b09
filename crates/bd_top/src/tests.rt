//! Whole commands from sources to sinks.
mod checks;
mod codes;
mod faults;
mod images;
mod makes;
mod readings;
mod refusals;
mod runs;
mod traces;
mod verdicts;
mod worked;

use crate::{Outcome, Status, top};
use bd_base::List;
use bd_outside::{MemSink, MemSource, NumberList, Sink, Source};
use std::alloc::{AllocError, Global};
use std::process::Abort;
use std::test::Fail;

/// The script of the first read, that of examples/first-read: `a` is opened for direct reads, and
/// five bytes are read.
const SCRIPT: &[u8] = b"bypassd-script 1\nproc 100\nopen a r direct\nread 0 0 5\n";

/// The report of its run: 133 bytes.
const REPORT: &[u8] = b"bypassd-report 1\nproc 0\n0 ok 0 mapped 1\n1 ok 5 68*1,65*1,6C*2,6F*1\n\
    total direct 1 kernel 0 missed 0 detached 0\ncache hits 0 misses 1\n";

/// These texts one after the other.
fn joined(alloc: Global, texts: &[&[u8]]) -> Result<Vec<u8>, AllocError> {
    let mut all = Vec::new(alloc);
    for text in texts {
        all.extend_from_slice(text)?;
    }
    Ok(all)
}

/// Writes these bytes, where they lie within the image.
fn put(image: &mut [u8], place: usize, bytes: &[u8]) {
    if place <= image.len() && bytes.len() <= image.len() - place {
        image[place..place + bytes.len()].copy_from_slice(bytes);
    }
}

/// Writes one byte, where it lies within the image.
fn set(image: &mut [u8], place: usize, byte: u8) {
    if place < image.len() {
        image[place] = byte;
    }
}

/// The image of the first read: 20 blocks with the file `a`, five bytes in block 3.
fn first_image(alloc: Global) -> Result<Vec<u8>, AllocError> {
    let mut image = vec![in alloc; 0u8; 81_920]?;
    put(&mut image, 0, b"BYPDFS01\x01\0\0\0\x14\0\0\0\x10");
    set(&mut image, 4096, 0x0F);
    put(&mut image, 8192, b"\x01\x0F\x01\0\x64\0\0\0\x05");
    put(&mut image, 8208, b"a");
    put(&mut image, 8240, b"\x03\0\0\0\x01");
    put(&mut image, 12_288, b"hello");
    Ok(image)
}

/// Words of a command line.
fn words(alloc: Global, texts: &[&str]) -> Result<Vec<String>, Fail> {
    let mut words = Vec::new(alloc);
    for text in texts {
        words.push(format!(in alloc; "{text}")?)?;
    }
    Ok(words)
}

/// The numbers of the calls that fail: this one, or none.
fn fails_of(alloc: Global, call: Option<u64>) -> Result<NumberList, AllocError> {
    let mut fails = Vec::new(alloc);
    if let Some(number) = call {
        fails.push(number)?;
    }
    Ok(List::from_vec(fails))
}

/// A source of these bytes, at most so many a call, of which this call fails.
fn source(
    alloc: Global,
    bytes: Vec<u8>,
    most: usize,
    call: Option<u64>,
) -> Result<MemSource, Fail> {
    if most == 0 {
        return Err("a source that gives nothing".into());
    }
    Ok(MemSource::new(List::from_vec(bytes), most, fails_of(alloc, call)?))
}

/// A sink that takes at most so many bytes a call, of which this call fails.
fn sink(alloc: Global, most: usize, call: Option<u64>) -> Result<MemSink, Fail> {
    if most == 0 {
        return Err("a sink that takes nothing".into());
    }
    Ok(MemSink::new(alloc, most, fails_of(alloc, call)?))
}

/// How many bytes a call of a source or a sink moves at most.
#[derive(Clone, Copy)]
struct Most {
    image: usize,
    text: usize,
    out: usize,
}

/// What a call moves at most, but for the tests of that.
const MOST: Most = Most {
    image: 40_960,
    text: 20,
    out: 40,
};

/// The call of each source and sink that fails, if one does.
#[derive(Clone, Copy)]
struct Plan {
    image: Option<u64>,
    script: Option<u64>,
    journal: Option<u64>,
    out: Option<u64>,
    disk: Option<u64>,
}

/// No call fails.
const SURE: Plan = Plan {
    image: None,
    script: None,
    journal: None,
    out: None,
    disk: None,
};

/// What a command reads from.
#[derive(Drop)]
struct Sources {
    image: MemSource,
    script: MemSource,
    journal: MemSource,
}

/// What a command writes to.
#[derive(Drop)]
struct Sinks {
    out: MemSink,
    disk: MemSink,
}

/// What a command leaves.
#[derive(Drop)]
struct Left {
    outcome: Outcome,
    out: MemSink,
    disk: MemSink,
}

/// What a command is given to read.
#[derive(Drop)]
struct Inputs<'a> {
    image: Vec<u8>,
    script: &'a [u8],
    journal: &'a [u8],
}

/// Runs the command of these words, and forgets what it promises.
fn run<I: Source, S: Source, J: Source, O: Sink, D: Sink>(
    alloc: Global,
    words: &[String],
    image: &mut I,
    script: &mut S,
    journal: &mut J,
    out: &mut O,
    disk: &mut D,
) -> Outcome {
    top(alloc, words, image, script, journal, out, disk)
}

/// A source of a text.
fn text_source(
    alloc: Global,
    text: &[u8],
    most: usize,
    call: Option<u64>,
) -> Result<MemSource, Fail> {
    source(alloc, text.to_vec(alloc)?, most, call)
}

/// The sources of these inputs.
fn sources_of(alloc: Global, inputs: Inputs<'_>, most: Most, plan: Plan) -> Result<Sources, Fail> {
    let Inputs {
        image,
        script,
        journal,
    } = inputs;
    let image = source(alloc, image, most.image, plan.image)?;
    let script = text_source(alloc, script, most.text, plan.script)?;
    let journal = text_source(alloc, journal, most.text, plan.journal)?;
    Ok(Sources {
        image,
        script,
        journal,
    })
}

/// The sinks of a command.
fn sinks_of(alloc: Global, most: Most, plan: Plan) -> Result<Sinks, Fail> {
    let out = sink(alloc, most.out, plan.out)?;
    let disk = sink(alloc, most.image, plan.disk)?;
    Ok(Sinks { out, disk })
}

/// Runs the command of these words from these sources to these sinks.
fn run_between(alloc: Global, words: &[String], sources: Sources, sinks: Sinks) -> Left {
    let Sources {
        mut image,
        mut script,
        mut journal,
    } = sources;
    let Sinks { mut out, mut disk } = sinks;
    let outcome = run(
        alloc,
        words,
        &mut image,
        &mut script,
        &mut journal,
        &mut out,
        &mut disk,
    );
    Left { outcome, out, disk }
}

/// Runs a command on all its inputs.
fn command_on(alloc: Global, texts: &[&str], inputs: Inputs<'_>, plan: Plan) -> Result<Left, Fail> {
    command_in_pieces(alloc, texts, inputs, MOST, plan)
}

/// Runs a command on all its inputs, in pieces of at most so many bytes.
fn command_in_pieces(
    alloc: Global,
    texts: &[&str],
    inputs: Inputs<'_>,
    most: Most,
    plan: Plan,
) -> Result<Left, Fail> {
    let words = words(alloc, texts)?;
    let sources = sources_of(alloc, inputs, most, plan)?;
    let sinks = sinks_of(alloc, most, plan)?;
    Ok(run_between(alloc, words.as_slice(), sources, sinks))
}

/// Runs a command that reads no journal.
fn command(
    alloc: Global,
    texts: &[&str],
    image: Vec<u8>,
    script: &[u8],
    plan: Plan,
) -> Result<Left, Fail> {
    let inputs = Inputs {
        image,
        script,
        journal: b"",
    };
    command_on(alloc, texts, inputs, plan)
}

/// Replays a script over an image.
fn replay_image(alloc: Global, image: Vec<u8>, script: &[u8], plan: Plan) -> Result<Left, Fail> {
    let words = ["replay", "image", "script", "out"];
    command(alloc, words.as_slice(), image, script, plan)
}

/// Checks an image.
fn check_image(alloc: Global, image: Vec<u8>, plan: Plan) -> Result<Left, Fail> {
    command(alloc, ["check", "image"].as_slice(), image, SCRIPT, plan)
}

/// Expects that a command was refused so: there was no run, and nothing was written.
fn is_refused(rt: &impl Abort, left: &Left, want: Status) {
    assert_eq!(rt; left.outcome.status, want);
    assert!(rt; left.outcome.journal.is_empty() && left.outcome.trace.is_empty());
    assert!(rt; left.out.held().is_empty() && left.disk.held().is_empty());
}

/// Expects that a replay of the first read ended so, with these first bytes of the report and of
/// the image written.
fn has_run(rt: &impl Abort, left: &Left, want: Status, report: &[u8], image: &[u8]) {
    assert_eq!(rt; left.outcome.status, want);
    assert!(rt; left.outcome.journal.len() == 4 && left.outcome.trace.len() == 12);
    assert!(rt; left.out.held() == report);
    assert!(rt; left.disk.held() == image);
}
