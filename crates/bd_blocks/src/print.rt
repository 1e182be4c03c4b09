//! Writing bytes as runs.
ghost use Rattle.std.specs.Prelude.{◌≡◌, ◌<◌, ◌++◌, IfOk, OnOk, length};
ghost use Rattle.bd_blocks.specs.Runs.{IsRunAt, hex_digit, run_at_text, runs_text};

use crate::text::push_number;
use bd_base::{Bytes, List, OutOfMemory};
use std::alloc::Global;

/// The runs of these bytes, as text: `HH*N` items joined by commas, or `-` for no bytes.
pub fn runs(alloc: Global, bytes: &[u8]) -> Result<Bytes, OutOfMemory>
    ensures { IfOk result (λ text. text ≡ runs_text bytes.now) }
{
    let mut text = Vec::new(alloc);
    push_runs(&mut text, bytes)?;
    Ok(List::from_vec(text))
}

/// Appends bytes as runs: `HH*N` items joined by commas, or `-` for no bytes.
pub fn push_runs(text: &mut Vec<u8>, bytes: &[u8]) -> Result<(), OutOfMemory>
    ensures { OnOk result (text.new.items ≡ text.old.items ++ runs_text bytes.now) }
{
    if bytes.is_empty() {
        text.push(b'-')?;
        return Ok(());
    }
    let mut at = push_run(text, bytes, 0)?;
    while at < bytes.len() {
        text.push(b',')?;
        at = push_run(text, bytes, at)?;
    }
    Ok(())
}

// Appends the run that begins at a place, and answers where it ends.
fn push_run(text: &mut Vec<u8>, bytes: &[u8], at: usize) -> Result<usize, OutOfMemory>
    requires { at < length bytes.now }
    ensures run { IfOk result (IsRunAt bytes.now at) }
    ensures text { IfOk result (λ end.
        text.new.items ≡ text.old.items ++ run_at_text bytes.now at end) }
{
    let byte = bytes[at];
    let end = run_end(bytes, at);
    text.push(hex(byte / 16))?;
    text.push(hex(byte % 16))?;
    text.push(b'*')?;
    push_number(text, (end - at) as u64)?;
    Ok(end)
}

// Where the longest run of the byte at a place ends.
fn run_end(bytes: &[u8], at: usize) -> usize
    requires { at < length bytes.now }
    ensures { IsRunAt bytes.now at result }
{
    let byte = bytes[at];
    let mut end = at + 1;
    while end < bytes.len() && bytes[end] == byte {
        end += 1;
    }
    end
}

// An upper-case hexadecimal digit.
fn hex(digit: u8) -> u8
    requires { digit < 16 }
    ensures { result ≡ hex_digit digit }
{
    if digit < 10 {
        b'0' + digit
    } else {
        b'A' + (digit - 10)
    }
}
