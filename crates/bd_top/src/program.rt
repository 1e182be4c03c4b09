//! The program on sources and sinks: the words of the command line, and the command that they say.
ghost use Rattle.std.specs.Prelude.{◌≡◌, ◌↔◌, None};
ghost use Rattle.bd_outside.specs.Around.{reading, writing};
ghost use Rattle.bd_top.specs.Commands.{Around, Does};
ghost use Rattle.bd_top.specs.Words.{request_of};

use crate::check::check_all;
use crate::make::make_all;
use crate::replay::replay_all;
use crate::status::{Outcome, Status, without_run};
use crate::verify::verify_all;
use crate::words::{Command, read_words};
use bd_outside::{Sink, Source};
use std::alloc::Global;

/// Runs the command that the words after the program's name say, on these sources and sinks.
///
/// What the words ask for is done as that command promises it (`Does`, specs/Commands.antt).
/// `replay` runs the script over the image, writes the report to `out`, with `--journal` the journal
/// after it, and then the image as the run leaves it to `disk`. `verify` writes one line to `out` where
/// the journal is a legal history of the image's files by the script's calls. `check` writes one line
/// that tells of the image to `out`. `make` reads nothing; it writes the text of the script that it
/// makes to `out`, and then the image to `disk`. Where the words ask for nothing, the status is `Usage`
/// and nothing is done.
pub fn top<I: Source, S: Source, J: Source, O: Sink, D: Sink>(
    alloc: Global,
    words: &[String],
    image: &mut I,
    script: &mut S,
    journal: &mut J,
    out: &mut O,
    disk: &mut D,
) -> Outcome
    ensures usage { (result.status ≡ Status.Usage) ↔ (request_of words.now ≡ None) }
    ensures does { let around : Around = record {
      image = reading I.Source image.old image.new;
      script = reading S.Source script.old script.new;
      journal = reading J.Source journal.old journal.new;
      out = writing O.Sink out.old out.new;
      disk = writing D.Sink disk.old disk.new;
    } in Does (request_of words.now) around result }
{
    match read_words(words) {
        Some(Command::Replay { journal: print, .. }) => {
            replay_all(alloc, image, script, out, disk, print)
        }
        Some(Command::Verify { .. }) => {
            let status = verify_all(alloc, image, script, journal, out);
            without_run(alloc, status)
        }
        Some(Command::Check { .. }) => {
            let status = check_all(alloc, image, out);
            without_run(alloc, status)
        }
        Some(Command::Make { n, .. }) => {
            let status = make_all(alloc, n, out, disk);
            without_run(alloc, status)
        }
        None => without_run(alloc, Status::Usage),
    }
}
