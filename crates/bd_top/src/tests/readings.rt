//! The words of the command line, read by the program and by `clap`.
use super::words;
use crate::{Command, read_words};
use clap::{Arg, ArgAction, ArgMatches, value_parser};
use std::alloc::Global;
use std::process::Abort;
use std::test::Fail;

/// Lines of words that say a command.
const LINES: [&[&str]; 14] = [
    &["replay", "image", "script", "out"],
    &["replay", "a b", "/x/../y", "o-"],
    &["replay", "make", "check", "replay"],
    &["replay", "--journal", "image", "script", "out"],
    &["replay", "image", "--journal", "script", "out"],
    &["replay", "image", "script", "--journal", "out"],
    &["replay", "image", "script", "out", "--journal"],
    &["verify", "image", "script", "journal"],
    &["verify", "verify", "x", "verify"],
    &["check", "image"],
    &["check", "check"],
    &["make", "0", "image", "script"],
    &["make", "7", "a-", "."],
    &["make", "18446744073709551615", "make", "7"],
];

/// A command for `clap`, with these paths as its arguments.
fn with_paths<'a>(
    mut command: clap::Command<'a>,
    alloc: Global,
    paths: &[&'static str],
) -> Result<clap::Command<'a>, Fail> {
    for path in paths {
        command = command.arg(Arg::new(alloc, path).required(true))?;
    }
    Ok(command)
}

/// The subcommand `replay` for `clap`.
fn replay_command<'a>(alloc: Global) -> Result<clap::Command<'a>, Fail> {
    let flag = Arg::new(alloc, "journal")
        .long("journal")
        .action(ArgAction::SetTrue);
    let replay = clap::Command::new(alloc, "replay").arg(flag)?;
    with_paths(replay, alloc, &["image", "script", "out"])
}

/// The subcommand `make` for `clap`.
fn make_command<'a>(alloc: Global) -> Result<clap::Command<'a>, Fail> {
    let number = Arg::new(alloc, "n")
        .required(true)
        .value_parser(value_parser!(u64));
    let make = clap::Command::new(alloc, "make").arg(number)?;
    with_paths(make, alloc, &["image", "script"])
}

/// A command line for `clap` with one subcommand more.
fn with_subcommand<'a>(
    line: clap::Command<'a>,
    command: clap::Command<'a>,
) -> Result<clap::Command<'a>, Fail> {
    Ok(line.subcommand(command)?)
}

/// A command line for `clap` with one subcommand more, which has these paths as its arguments.
fn with_command_of_paths<'a>(
    line: clap::Command<'a>,
    alloc: Global,
    name: &'static str,
    paths: &[&'static str],
) -> Result<clap::Command<'a>, Fail> {
    let command = with_paths(clap::Command::new(alloc, name), alloc, paths)?;
    with_subcommand(line, command)
}

/// The command line for `clap`: a subcommand for each command.
fn command_line<'a>(alloc: Global) -> Result<clap::Command<'a>, Fail> {
    let line = clap::Command::new(alloc, "bypassd").subcommand_required(true);
    let line = with_subcommand(line, replay_command(alloc)?)?;
    let line = with_subcommand(line, make_command(alloc)?)?;
    let verify = ["image", "script", "journal"];
    let line = with_command_of_paths(line, alloc, "verify", verify.as_slice())?;
    with_command_of_paths(line, alloc, "check", &["image"])
}

/// Expects that `clap` has this word as this argument.
fn has_word(rt: &impl Abort, matches: &ArgMatches<'_>, id: &str, word: &str) {
    assert_eq!(rt; matches.get_str(id), Some(word));
}

/// Expects that `clap` has the same command with the same words.
fn is_same(rt: &impl Abort, read: Command<'_>, name: &str, matches: &ArgMatches<'_>) {
    match read {
        Command::Replay {
            image,
            script,
            out,
            journal,
        } => {
            assert!(rt; name == "replay");
            assert_eq!(rt; matches.get_flag("journal"), journal);
            has_word(rt, matches, "image", image);
            has_word(rt, matches, "script", script);
            has_word(rt, matches, "out", out);
        }
        Command::Verify {
            image,
            script,
            journal,
        } => {
            assert!(rt; name == "verify");
            has_word(rt, matches, "image", image);
            has_word(rt, matches, "script", script);
            has_word(rt, matches, "journal", journal);
        }
        Command::Check { image } => {
            assert!(rt; name == "check");
            has_word(rt, matches, "image", image);
        }
        Command::Make { n, image, script } => {
            assert!(rt; name == "make");
            assert_eq!(rt; matches.get_one::<u64>("n"), Some(n));
            has_word(rt, matches, "image", image);
            has_word(rt, matches, "script", script);
        }
    }
}

/// Expects that both read this line alike.
fn is_read_alike(rt: &(impl Abort + AllocGlobal), line: &[&str]) -> Result<(), Fail> {
    let alloc = rt.alloc();
    let own = words(alloc, line)?;
    let read = read_words(own.as_slice()).ok_or("no command")?;
    let mut all = Vec::new(alloc);
    all.push("bypassd")?;
    all.extend_from_slice(line)?;
    let matches = command_line(alloc)?.try_get_matches_from(all.as_slice())?;
    let (name, matches) = matches.subcommand().ok_or("no subcommand")?;
    is_same(rt, read, name, matches);
    Ok(())
}

#[test]
fn reads_words_as_clap_does(rt: HostRuntime) -> Result<(), Fail> {
    for line in LINES {
        is_read_alike(&rt, line)?;
    }
    Ok(())
}
