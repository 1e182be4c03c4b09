//! The command `replay`.
ghost use Rattle.std.specs.Prelude.{◌≡◌, ◌+◌, ◌++◌, None, IfOk, IfErr, OnOk};
ghost use Rattle.bd_base.specs.declared.limits.TheConstants.{IMAGE_SIZE, SCRIPT_SIZE};
ghost use Rattle.bd_base.specs.Scripts.{IsWithinLimits};
ghost use Rattle.bd_entry.specs.History.{InOrder};
ghost use Rattle.bd_image.specs.Volumes.{AcceptedVolume};
ghost use Rattle.bd_machine.specs.Turns.{AreBuilt};
ghost use Rattle.bd_outside.specs.Around.{ReadAtMost, reading, writing};
ghost use Rattle.bd_top.specs.Ends.{ReplayAround, Replays};
ghost use Rattle.bd_top.specs.Inputs.{IsScriptRead, RefusesReplay, RefusesRun, first_unbuilt};
ghost use Rattle.bd_top.specs.Runs.{IsReplay, IsRun, printed, run_text};

use crate::inputs::{read_image, read_script};
use crate::status::{Outcome, Status, without_run};
use crate::unbuilt::first_unbuilt;
use crate::writes::write_both;
use bd_base::{Bytes, List, OutOfMemory, Script, Volume};
use bd_entry::laws::histories_keep_valid;
use bd_entry::{Entry, EntryList, print_journal};
use bd_image::{one_refusal, refused_is_not_accepted, render, sound_volumes};
use bd_machine::{Event, EventList, Run, replay};
use bd_outside::{Sink, Source};
use bd_report::{counts, report};
use std::alloc::Global;

/// A run: its history, and what is to be written.
#[derive(Debug, Drop)]
struct WholeRun {
    journal: EntryList,
    trace: EventList,
    text: Bytes,
    image: Bytes,
}

/// Appends the journal as it is printed, where it is to be.
fn push_printed(
    alloc: Global,
    text: &mut Vec<u8>,
    journal: &[Entry],
    print: bool,
) -> Result<(), OutOfMemory>
    ensures { OnOk result (text.new.items ≡ text.old.items ++ printed print journal.now) }
{
    if print {
        text.extend_from_slice(print_journal(alloc, journal)?.as_slice())?;
    }
    Ok(())
}

/// The report of a run, the line of the cache, and the journal where it is to be printed.
fn text_of(
    alloc: Global,
    script: &Script,
    journal: &[Entry],
    trace: &[Event],
    print: bool,
) -> Result<Bytes, OutOfMemory>
    requires limits { IsWithinLimits script.now }
    requires in_order { InOrder script.now journal.now }
    ensures { IfOk result (λ text. text ≡ run_text script.now print journal.now trace.now) }
{
    let mut text = report(alloc, script, journal)?.into_vec();
    text.extend_from_slice(counts(alloc, trace)?.as_slice())?;
    push_printed(alloc, &mut text, journal, print)?;
    Ok(List::from_vec(text))
}

/// Runs the script to its end, and makes the whole text and the whole image.
fn run_script(
    alloc: Global,
    volume: Volume,
    script: Script,
    print: bool,
) -> Result<WholeRun, OutOfMemory>
    requires volume { AcceptedVolume volume }
    requires limits { IsWithinLimits script }
    requires built { AreBuilt script }
    ensures { IfOk result (λ run. IsRun volume script print run.journal run.trace run.text run.image) }
{
    sound_volumes();
    histories_keep_valid();
    let machine = replay(alloc, volume, script)?;
    let text = text_of(
        alloc,
        machine.script(),
        machine.journal(),
        machine.trace(),
        print,
    )?;
    let Run {
        volume,
        journal,
        trace,
    } = machine.into_run()?;
    let image = render(alloc, &volume)?;
    Ok(WholeRun {
        journal,
        trace,
        text,
        image,
    })
}

/// Reads a script of which all calls are built.
fn read_built<S: Source>(alloc: Global, script: &mut S) -> Result<Script, Status>
    ensures ok { IfOk result (IsScriptRead (reading S.Source script.old script.new)) }
    ensures built { IfOk result (λ t. first_unbuilt t ≡ None) }
    ensures err { IfErr result (RefusesRun (reading S.Source script.old script.new)) }
    ensures taken { ReadAtMost (SCRIPT_SIZE + 1) (reading S.Source script.old script.new) }
{
    let script = read_script(alloc, script)?;
    match first_unbuilt(&script) {
        None => Ok(script),
        Some(line) => Err(Status::BadScript { line, rule: 0 }),
    }
}

/// Reads the image and the script, and makes the run with its text and its image. It takes no sink.
fn read_and_run<I: Source, S: Source>(
    alloc: Global,
    image: &mut I,
    script: &mut S,
    print: bool,
) -> Result<WholeRun, Status>
    ensures ok { IfOk result (λ run. IsReplay
        (reading I.Source image.old image.new) (reading S.Source script.old script.new) print
        run.journal run.trace run.text run.image) }
    ensures err { IfErr result (RefusesReplay
        (reading I.Source image.old image.new) (reading S.Source script.old script.new)) }
    ensures image_taken { ReadAtMost (IMAGE_SIZE + 1) (reading I.Source image.old image.new) }
    ensures script_taken { ReadAtMost (SCRIPT_SIZE + 1) (reading S.Source script.old script.new) }
{
    let volume = read_image(alloc, image)?;
    let script = read_built(alloc, script)?;
    match run_script(alloc, volume, script, print) {
        Ok(run) => Ok(run),
        Err(OutOfMemory) => Err(Status::OutOfMemory),
    }
}

/// Replays a script over an image: turns by the script's schedule and then in rounds, on one thread. Writes the report,
/// with the journal after it where that is to be printed, to `out`, and then the image as the run leaves it to `disk`.
///
/// A script with a call that is not built yet is refused by the first line of one and rule 0. Text and image are made
/// by a call that takes no sink, and written by one that takes no allocator, so nothing is written before both are
/// made. `Replays` (specs/Ends.antt) tells what each status means.
pub fn replay_all<I: Source, S: Source, O: Sink, D: Sink>(
    alloc: Global,
    image: &mut I,
    script: &mut S,
    out: &mut O,
    disk: &mut D,
    print: bool,
) -> Outcome
    ensures { let around : ReplayAround = record {
      image = reading I.Source image.old image.new;
      script = reading S.Source script.old script.new;
      out = writing O.Sink out.old out.new;
      disk = writing D.Sink disk.old disk.new;
    } in Replays print around result }
{
    refused_is_not_accepted();
    one_refusal();
    match read_and_run(alloc, image, script, print) {
        Ok(run) => {
            let status = write_both(out, disk, run.text.as_slice(), run.image.as_slice());
            Outcome {
                status,
                journal: run.journal,
                trace: run.trace,
            }
        }
        Err(status) => without_run(alloc, status),
    }
}
