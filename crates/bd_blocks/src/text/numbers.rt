//! Numbers of any size in decimal digits.
ghost use Rattle.std.specs.Prelude.{◌≡◌, ℕ, ◌+◌, ◌*◌, ◌^◌, ◌<◌, ◌≤◌, MatchOption, IfSome, IfNone, IsTrue, ◌↔◌, slice_index};
ghost use Rattle.bd_blocks.specs.Texts.{IsNoNumber, IsNumber, IsNumberText, IsWithin, HasNoNumberFirst, HasNumberFirst};

use crate::text::{SPACE, split_at_byte};

/// A number that was read, whatever its size.
#[derive(Clone, Copy, Debug, PartialEq, Eq)]
pub enum Number {
    /// It has at most 64 bits.
    Small(u64),
    /// It is 2^64 or more.
    Large,
}

/// The numbers from `least` to `most`.
#[derive(Clone, Copy, Debug, PartialEq, Eq)]
pub struct Within {
    pub least: u64,
    pub most: u64,
}

impl Number {
    // The number with one more decimal digit.
    fn with_digit(self, digit: u8) -> Number
        ensures { (n : ℕ) → IsNumber self n → IsNumber result (n * 10 + digit) }
    {
        match self {
            Number::Small(value) => with_digit(value, digit),
            Number::Large => Number::Large,
        }
    }

    /// The number, where it is within the range.
    pub fn within(self, range: Within) -> Option<u64>
        ensures some { IfSome result (λ v. (n : ℕ) → IsNumber self n → n ≡ v) }
        ensures fits { IfSome result (IsWithin range) }
        ensures none { IfNone result ((n : ℕ) → IsNumber self n → ¬ IsWithin range n) }
    {
        match self {
            Number::Small(value) if range.least <= value && value <= range.most => Some(value),
            _ => None,
        }
    }
}

// A number of at most 64 bits with one more decimal digit.
fn with_digit(value: u64, digit: u8) -> Number
    ensures { IsNumber result (value * 10 + digit) }
{
    let Some(tenfold) = value.checked_mul(10) else {
        return Number::Large;
    };
    match tenfold.checked_add(u64::from(digit)) {
        Some(value) => Number::Small(value),
        None => Number::Large,
    }
}

// Whether a text begins with a decimal digit that is not 0.
fn begins_number(text: &[u8]) -> bool
    ensures { IsTrue result ↔ ((49 ≤ slice_index text.now 0) × (slice_index text.now 0 < 58)) }
{
    matches!(text, [b'1'..=b'9', ..])
}

/// The number that a text is: `0`, or digits of which the first is not 0.
pub fn read_number(text: &[u8]) -> Option<Number>
    ensures some { IfSome result (IsNumberText text.now) }
    ensures none { IfNone result (IsNoNumber text.now) }
{
    if text == b"0".as_slice() {
        return Some(Number::Small(0));
    }
    if !begins_number(text) {
        return None;
    }
    let mut number = Number::Small(0);
    for digit in text {
        if !digit.is_ascii_digit() {
            return None;
        }
        number = number.with_digit(*digit - b'0');
    }
    Some(number)
}

/// The number in the first field of a text, and what follows the field and its space.
pub fn front_number(text: &[u8]) -> Option<(Number, &[u8])>
    ensures some { IfSome result (λ front. HasNumberFirst text.now front.0 front.1.now) }
    ensures none { IfNone result (HasNoNumberFirst text.now) }
{
    let (field, rest) = split_at_byte(text, SPACE)?;
    Some((read_number(field)?, rest))
}
