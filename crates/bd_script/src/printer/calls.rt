//! Appending the lines of calls to a text.
ghost use Rattle.std.specs.Prelude.{◌≡◌, ◌++◌, OnOk, codes};
ghost use Rattle.bd_base.specs.declared.script.Call.TheVariants.{RawRead};
ghost use Rattle.bd_blocks.specs.Runs.{runs_text};
ghost use Rattle.bd_blocks.specs.Texts.{before, number_text};
ghost use Rattle.bd_blocks.specs.Words.{mode_and_how_text};
ghost use Rattle.bd_script.specs.Texts.{call_text};

use bd_base::{Call, How, Mode, OutOfMemory, Range, Vba};
use bd_blocks::push_runs;
use bd_blocks::text::{
    push_bytes, push_field, push_mode_and_how, push_number, push_number_field, push_three_numbers,
    push_two_numbers,
};

// Appends what follows the word of an open.
fn push_open(text: &mut Vec<u8>, name: &[u8], mode: Mode, how: How) -> Result<(), OutOfMemory>
    ensures { let fields = before name.now (mode_and_how_text (mode, how)) in
        OnOk result (text.new.items ≡ text.old.items ++ fields) }
{
    push_field(text, name)?;
    push_mode_and_how(text, mode, how)
}

// Appends a name and a number.
fn push_named(text: &mut Vec<u8>, name: &[u8], number: u64) -> Result<(), OutOfMemory>
    ensures { OnOk result
        (text.new.items ≡ text.old.items ++ before name.now (number_text number)) }
{
    push_field(text, name)?;
    push_number(text, number)
}

// Appends two numbers, and bytes as runs.
fn push_placed(text: &mut Vec<u8>, a: u64, b: u64, bytes: &[u8]) -> Result<(), OutOfMemory>
    ensures { let fields = before (number_text a) (before (number_text b) (runs_text bytes.now)) in
        OnOk result (text.new.items ≡ text.old.items ++ fields) }
{
    push_number_field(text, a)?;
    push_number_field(text, b)?;
    push_runs(text, bytes)
}

// Appends a word with its space, and the number of a descriptor.
fn push_one(text: &mut Vec<u8>, word: &[u8], fd: u8) -> Result<(), OutOfMemory>
    ensures { OnOk result (text.new.items ≡ text.old.items ++ (word.now ++ number_text fd)) }
{
    push_bytes(text, word)?;
    push_number(text, u64::from(fd))
}

// Appends the line of a raw read.
fn push_raw_read(text: &mut Vec<u8>, vba: Vba, range: Range) -> Result<(), OutOfMemory>
    ensures { OnOk result (text.new.items ≡ text.old.items ++ call_text (RawRead vba range)) }
{
    push_bytes(text, b"raw-read ")?;
    push_three_numbers(text, vba.get(), u64::from(range.lo), range.count() as u64)
}

/// Appends the line of a call, without its LF.
pub fn push_call(text: &mut Vec<u8>, call: &Call) -> Result<(), OutOfMemory>
    ensures { OnOk result (text.new.items ≡ text.old.items ++ call_text call.now) }
{
    match call {
        Call::Enter { name, mode, how } => {
            push_bytes(text, b"open ")?;
            push_open(text, name.as_slice(), *mode, *how)
        }
        Call::Create { name, perms } => {
            push_bytes(text, b"create ")?;
            push_named(text, name.as_slice(), u64::from(*perms))
        }
        Call::Read { fd, off, len } => {
            push_bytes(text, b"read ")?;
            push_three_numbers(text, u64::from(*fd), *off, u64::from(*len))
        }
        Call::Write { fd, off, bytes } => {
            push_bytes(text, b"write ")?;
            push_placed(text, u64::from(*fd), *off, bytes.as_slice())
        }
        Call::Truncate { fd, size } => {
            push_bytes(text, b"truncate ")?;
            push_two_numbers(text, u64::from(*fd), *size)
        }
        Call::Unlink { name } => {
            push_bytes(text, b"unlink ")?;
            push_bytes(text, name.as_slice())
        }
        Call::Size { fd } => push_one(text, b"size ", *fd),
        Call::Map { fd } => push_one(text, b"map ", *fd),
        Call::Close { fd } => push_one(text, b"close ", *fd),
        Call::RawRead { vba, range } => push_raw_read(text, *vba, *range),
        Call::RawWrite { vba, lo, bytes } => {
            push_bytes(text, b"raw-write ")?;
            push_placed(text, vba.get(), u64::from(*lo), bytes.as_slice())
        }
    }
}
