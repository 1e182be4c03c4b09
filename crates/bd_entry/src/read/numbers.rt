//! Reading the numbers of a line, each at most so much.
ghost use Rattle.std.specs.Prelude.{IfSome, IfNone};
ghost use Rattle.bd_blocks.specs.Texts.{HasFirst, HasNoFirst, Reads, number_text, two_numbers_text};
ghost use Rattle.bd_entry.specs.Reading.{IsPairUpTo, IsUpTo};

use bd_blocks::text::{SPACE, Within, read_number, split_at_byte};

/// The number that a text is, where it is at most `most`.
pub fn one_number(text: &[u8], most: u64) -> Option<u64>
    ensures { Reads number_text (IsUpTo most) text.now result }
{
    read_number(text)?.within(Within { least: 0, most })
}

/// The number in the first field of a text, and what follows the field.
pub fn front_number(text: &[u8], most: u64) -> Option<(u64, &[u8])>
    ensures some { IfSome result (λ f. HasFirst number_text (IsUpTo most) text.now f.0 f.1.now) }
    ensures none { IfNone result (HasNoFirst number_text (IsUpTo most) text.now) }
{
    let (field, rest) = split_at_byte(text, SPACE)?;
    Some((one_number(field, most)?, rest))
}

/// The two numbers that a text is.
pub fn two_numbers(text: &[u8], a: u64, b: u64) -> Option<(u64, u64)>
    ensures { Reads two_numbers_text (IsPairUpTo a b) text.now result }
{
    let (m, rest) = front_number(text, a)?;
    Some((m, one_number(rest, b)?))
}
