//! Appending fields to a text. After an error the text is longer by what was appended before.
ghost use Rattle.std.specs.Prelude.{◌≡◌, ◌++◌, [], OnOk};
ghost use Rattle.bd_blocks.specs.Texts.{before, number_text};
ghost use Rattle.bd_blocks.specs.Words.{mode_and_how_text};

use crate::text::{SPACE, how_word, mode_word};
use bd_base::{How, Mode, OutOfMemory};

/// Appends bytes.
pub fn push_bytes(text: &mut Vec<u8>, bytes: &[u8]) -> Result<(), OutOfMemory>
    ensures { OnOk result (text.new.items ≡ text.old.items ++ bytes.now) }
{
    text.extend_from_slice(bytes)?;
    Ok(())
}

/// Appends a field and the space after it.
pub fn push_field(text: &mut Vec<u8>, field: &[u8]) -> Result<(), OutOfMemory>
    ensures { OnOk result (text.new.items ≡ text.old.items ++ before field.now []) }
{
    push_bytes(text, field)?;
    text.push(SPACE)?;
    Ok(())
}

/// Appends a number in decimal digits.
pub fn push_number(text: &mut Vec<u8>, number: u64) -> Result<(), OutOfMemory>
    ensures { OnOk result (text.new.items ≡ text.old.items ++ number_text number) }
{
    if number >= 10 {
        push_number(text, number / 10)?;
    }
    text.push(b'0' + (number % 10) as u8)?;
    Ok(())
}

/// Appends a number and the space after it.
pub fn push_number_field(text: &mut Vec<u8>, number: u64) -> Result<(), OutOfMemory>
    ensures { OnOk result (text.new.items ≡ text.old.items ++ before (number_text number) []) }
{
    push_number(text, number)?;
    text.push(SPACE)?;
    Ok(())
}

/// Appends two numbers.
pub fn push_two_numbers(text: &mut Vec<u8>, a: u64, b: u64) -> Result<(), OutOfMemory>
    ensures { OnOk result
        (text.new.items ≡ text.old.items ++ before (number_text a) (number_text b)) }
{
    push_number_field(text, a)?;
    push_number(text, b)
}

/// Appends three numbers.
pub fn push_three_numbers(text: &mut Vec<u8>, a: u64, b: u64, c: u64) -> Result<(), OutOfMemory>
    ensures { let numbers = before (number_text a) (before (number_text b) (number_text c)) in
        OnOk result (text.new.items ≡ text.old.items ++ numbers) }
{
    push_number_field(text, a)?;
    push_two_numbers(text, b, c)
}

/// Appends a mode and a way of an open.
pub fn push_mode_and_how(text: &mut Vec<u8>, mode: Mode, how: How) -> Result<(), OutOfMemory>
    ensures { OnOk result (text.new.items ≡ text.old.items ++ mode_and_how_text (mode, how)) }
{
    push_field(text, mode_word(mode))?;
    push_bytes(text, how_word(how))
}
