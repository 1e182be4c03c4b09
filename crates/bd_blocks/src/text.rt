//! Fields, numbers and lines of a text: what the texts of scripts and of journals have in common.
ghost use Rattle.std.specs.Prelude.{◌≡◌, ◌++◌, ◌∷◌, IfSome, IfNone, false};
ghost use Rattle.bd_base.specs.Names.{IsName};
ghost use Rattle.bd_blocks.specs.Texts.{HasFirst, HasNoFirst, has_byte, name_text};

mod numbers;
mod words;
mod writer;

use bd_base::is_name;
pub use numbers::{Number, Within, front_number, read_number};
pub use words::{
    direction_word, how_word, mode_word, read_direction, read_mode_and_how, read_way, way_word,
};
pub use writer::{
    push_bytes, push_field, push_mode_and_how, push_number, push_number_field, push_three_numbers,
    push_two_numbers,
};

/// The byte that ends a line.
pub const LF: u8 = b'\n';

/// The byte between two fields of a line.
pub const SPACE: u8 = b' ';

/// The bytes before the first of this kind, and those after it. None where there is none.
pub fn split_at_byte(text: &[u8], byte: u8) -> Option<(&[u8], &[u8])>
    ensures split { IfSome result (λ parts. text.now ≡ parts.0.now ++ byte ∷ parts.1.now) }
    ensures first { IfSome result (λ parts. has_byte byte parts.0.now ≡ false) }
    ensures none { IfNone result (has_byte byte text.now ≡ false) }
{
    for (i, b) in text.iter().enumerate() {
        if *b == byte {
            return Some((&text[..i], &text[i + 1..]));
        }
    }
    None
}

/// The name in the first field of a text, and what follows the field and its space.
pub fn front_name(text: &[u8]) -> Option<(&[u8], &[u8])>
    ensures some { IfSome result (λ f. HasFirst name_text IsName text.now f.0.now f.1.now) }
    ensures none { IfNone result (HasNoFirst name_text IsName text.now) }
{
    let (name, rest) = split_at_byte(text, SPACE)?;
    if !is_name(name) {
        return None;
    }
    Some((name, rest))
}
