//! Numbers with a name before them or with bytes after them.
ghost use Rattle.std.specs.Prelude.{◌≡◌, ◌≤◌, length, IfOk, IfErr};
ghost use Rattle.bd_base.specs.Names.{IsName};
ghost use Rattle.bd_blocks.specs.Runs.{runs_text};
ghost use Rattle.bd_blocks.specs.Texts.{IsWithin};
ghost use Rattle.bd_script.specs.Reading.{AreSome, FitsPlaced, RefusesBytes, RefusesNamed, RefusesPlaced, named_text, placed_text};

use crate::fault::Fault;
use bd_base::Bytes;
use bd_blocks::text::{Within, front_name, front_number, read_number};
use bd_blocks::{RunsError, read_runs};
use std::alloc::Global;

/// Two numbers, and bytes.
#[derive(Debug, Drop)]
pub struct Placed {
    pub first: u64,
    pub second: u64,
    pub bytes: Bytes,
}

/// Reads a name and a number.
pub fn name_and_number(text: &[u8], range: Within) -> Result<(&[u8], u64), Fault>
    ensures text { IfOk result (λ p. text.now ≡ named_text (p.0.now, p.1)) }
    ensures fits { IfOk result (λ p. IsName p.0.now × IsWithin range p.1) }
    ensures refused { IfErr result (RefusesNamed range text.now) }
{
    let Some((name, rest)) = front_name(text) else {
        return Err(Fault::Form);
    };
    let Some(n) = read_number(rest) else {
        return Err(Fault::Form);
    };
    let Some(n) = n.within(range) else {
        return Err(Fault::Range);
    };
    Ok((name, n))
}

/// Reads bytes: at least one.
pub fn some_bytes(alloc: Global, text: &[u8], most: usize) -> Result<Bytes, Fault>
    ensures text { IfOk result (λ bytes. text.now ≡ runs_text bytes) }
    ensures fits { IfOk result (λ bytes. AreSome bytes × (length bytes ≤ most)) }
    ensures refused { IfErr result (RefusesBytes most text.now) }
{
    match read_runs(alloc, text, most) {
        Ok(bytes) => {
            if bytes.is_empty() {
                return Err(Fault::Form);
            }
            Ok(bytes)
        }
        Err(RunsError::NotRuns) => Err(Fault::Form),
        Err(RunsError::TooMany) => Err(Fault::Range),
        Err(RunsError::OutOfMemory) => Err(Fault::OutOfMemory),
    }
}

/// Reads two numbers and bytes.
pub fn numbers_and_bytes(
    alloc: Global,
    text: &[u8],
    first: Within,
    second: Within,
    most: usize,
) -> Result<Placed, Fault>
    ensures text { IfOk result (λ p. text.now ≡ placed_text p) }
    ensures fits { IfOk result (λ p. AreSome p.bytes × FitsPlaced first second most p) }
    ensures refused { IfErr result (RefusesPlaced first second most text.now) }
{
    let Some((a, rest)) = front_number(text) else {
        return Err(Fault::Form);
    };
    let Some((b, rest)) = front_number(rest) else {
        return Err(Fault::Form);
    };
    let bytes = some_bytes(alloc, rest, most)?;
    let Some(a) = a.within(first) else {
        return Err(Fault::Range);
    };
    let Some(b) = b.within(second) else {
        return Err(Fault::Range);
    };
    Ok(Placed {
        first: a,
        second: b,
        bytes,
    })
}
