//! The program: it names the files that the words say, runs the command on them, and ends with its
//! code.
#![tactic(auto)]

mod files;

use crate::files::{InputFile, OutputFile};
use bd_top::{Command, ReadSource, Status, WriteSink, code, fault_text, read_words, top};
use std::env;
use std::io::{ErrorKind, Write, empty, sink};
use std::process::ExitCode;

/// The words after the program's name. Words that are no text say no command.
fn words_of(rt: &HostRuntime) -> Result<Vec<String>, Status> {
    let args = match env::args(rt) {
        Ok(args) => args,
        Err(error) if error.kind() == ErrorKind::OutOfMemory => return Err(Status::OutOfMemory),
        Err(_) => return Err(Status::Usage),
    };
    let mut words = Vec::new(rt.alloc());
    for word in args.skip(1) {
        if words.push(word).is_err() {
            return Err(Status::OutOfMemory);
        }
    }
    Ok(words)
}

/// Replays the script at one path over the image at another, and writes the image to a third. A
/// replay reads no journal.
fn run_replay(rt: &HostRuntime, words: &[String], image: &str, script: &str, out: &str) -> Status {
    let mut image = ReadSource::new(InputFile::new(rt, image));
    let mut script = ReadSource::new(InputFile::new(rt, script));
    let mut no_journal = ReadSource::new(empty());
    let mut report = WriteSink::new(rt.stdout());
    let mut disk = WriteSink::new(OutputFile::new(rt, out));
    top(
        rt.alloc(),
        words,
        &mut image,
        &mut script,
        &mut no_journal,
        &mut report,
        &mut disk,
    )
    .status
}

/// Verifies the journal at one path by the script at another over the image at a third. A
/// verification writes no image.
fn run_verify(
    rt: &HostRuntime,
    words: &[String],
    image: &str,
    script: &str,
    journal: &str,
) -> Status {
    let mut image = ReadSource::new(InputFile::new(rt, image));
    let mut script = ReadSource::new(InputFile::new(rt, script));
    let mut journal = ReadSource::new(InputFile::new(rt, journal));
    let mut line = WriteSink::new(rt.stdout());
    let mut no_disk = WriteSink::new(sink());
    top(
        rt.alloc(),
        words,
        &mut image,
        &mut script,
        &mut journal,
        &mut line,
        &mut no_disk,
    )
    .status
}

/// Checks the image at a path. A check reads no script and no journal, and writes no image.
fn run_check(rt: &HostRuntime, words: &[String], image: &str) -> Status {
    let mut image = ReadSource::new(InputFile::new(rt, image));
    let mut no_script = ReadSource::new(empty());
    let mut no_journal = ReadSource::new(empty());
    let mut line = WriteSink::new(rt.stdout());
    let mut no_disk = WriteSink::new(sink());
    top(
        rt.alloc(),
        words,
        &mut image,
        &mut no_script,
        &mut no_journal,
        &mut line,
        &mut no_disk,
    )
    .status
}

/// Makes an image and a script, and writes them to two paths. A making reads nothing.
fn run_make(rt: &HostRuntime, words: &[String], image: &str, script: &str) -> Status {
    let mut no_image = ReadSource::new(empty());
    let mut no_script = ReadSource::new(empty());
    let mut no_journal = ReadSource::new(empty());
    let mut text = WriteSink::new(OutputFile::new(rt, script));
    let mut disk = WriteSink::new(OutputFile::new(rt, image));
    top(
        rt.alloc(),
        words,
        &mut no_image,
        &mut no_script,
        &mut no_journal,
        &mut text,
        &mut disk,
    )
    .status
}

/// Runs the command that the words say on the files that they name.
fn run(rt: &HostRuntime, words: &[String]) -> Status {
    match read_words(words) {
        Some(
            Command::Replay {
                image,
                script,
                out,
                ..
            },
        ) => run_replay(rt, words, image, script, out),
        Some(
            Command::Verify {
                image,
                script,
                journal,
            },
        ) => run_verify(rt, words, image, script, journal),
        Some(Command::Check { image }) => run_check(rt, words, image),
        Some(Command::Make { image, script, .. }) => run_make(rt, words, image, script),
        None => Status::Usage,
    }
}

/// Prints the line of a fault to standard error; where that finds no memory or no place to go,
/// nothing.
fn tell(rt: &HostRuntime, status: &Status) {
    if *status == Status::Done {
        return;
    }
    if let Ok(text) = fault_text(rt.alloc(), status) {
        let mut errors = rt.stderr();
        if errors.write_all(text.as_slice()).is_ok() {
            let _ended = errors.write_all(b"\n");
        }
    }
}

fn main(rt: HostRuntime) -> ExitCode {
    let status = match words_of(&rt) {
        Ok(words) => run(&rt, words.as_slice()),
        Err(status) => status,
    };
    tell(&rt, &status);
    ExitCode::from(code(&status))
}
