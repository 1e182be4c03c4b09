//! Numbers within ranges.
ghost use Rattle.std.specs.Prelude.{◌≡◌, IfOk, IfErr};
ghost use Rattle.bd_blocks.specs.Texts.{IsWithin, number_text, two_numbers_text};
ghost use Rattle.bd_script.specs.Reading.{FitsPair, FitsTriple, RefusesNumber, RefusesPair, RefusesTriple, triple_text};

use crate::fault::Fault;
use bd_blocks::text::{Within, front_number, read_number};

/// Three numbers.
#[derive(Clone, Copy, Debug, PartialEq, Eq)]
pub struct Triple {
    pub first: u64,
    pub second: u64,
    pub third: u64,
}

/// Reads a number.
pub fn one_number(text: &[u8], range: Within) -> Result<u64, Fault>
    ensures ok { IfOk result (λ n. (text.now ≡ number_text n) × IsWithin range n) }
    ensures refused { IfErr result (RefusesNumber range text.now) }
{
    let Some(n) = read_number(text) else {
        return Err(Fault::Form);
    };
    let Some(n) = n.within(range) else {
        return Err(Fault::Range);
    };
    Ok(n)
}

/// Reads two numbers.
pub fn two_numbers(text: &[u8], first: Within, second: Within) -> Result<(u64, u64), Fault>
    ensures ok { IfOk result (λ p. (text.now ≡ two_numbers_text p) × FitsPair first second p) }
    ensures refused { IfErr result (RefusesPair first second text.now) }
{
    let Some((a, rest)) = front_number(text) else {
        return Err(Fault::Form);
    };
    let Some(b) = read_number(rest) else {
        return Err(Fault::Form);
    };
    let Some(a) = a.within(first) else {
        return Err(Fault::Range);
    };
    let Some(b) = b.within(second) else {
        return Err(Fault::Range);
    };
    Ok((a, b))
}

/// Reads three numbers.
pub fn three_numbers(
    text: &[u8],
    first: Within,
    second: Within,
    third: Within,
) -> Result<Triple, Fault>
    ensures ok { IfOk result (λ t. (text.now ≡ triple_text t) × FitsTriple first second third t) }
    ensures refused { IfErr result (RefusesTriple first second third text.now) }
{
    let Some((a, rest)) = front_number(text) else {
        return Err(Fault::Form);
    };
    let Some((b, rest)) = front_number(rest) else {
        return Err(Fault::Form);
    };
    let Some(c) = read_number(rest) else {
        return Err(Fault::Form);
    };
    let Some(a) = a.within(first) else {
        return Err(Fault::Range);
    };
    let Some(b) = b.within(second) else {
        return Err(Fault::Range);
    };
    let Some(c) = c.within(third) else {
        return Err(Fault::Range);
    };
    Ok(Triple {
        first: a,
        second: b,
        third: c,
    })
}
