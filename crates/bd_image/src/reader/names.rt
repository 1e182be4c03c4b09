//! The rules of names.
ghost use Rattle.std.specs.Prelude.{◌≡◌, ◌≢◌, ℕ, ◌+◌, ◌*◌, ◌<◌, ◌≤◌, ◌↔◌, length, slice_index, IsTrue, MatchOption};
ghost use Rattle.bd_base.specs.Names.{IsNameByte};
ghost use Rattle.bd_image.specs.Checks.{ZeroesFrom};
ghost use Rattle.bd_image.specs.Layout.{inode_count, used_mark};
ghost use Rattle.bd_image.specs.Rules.{HasRecords, TellsBreak, IsNameField, NameForm, Obeys};

use crate::layout::NAME_FIELD;
use crate::reader::fields::{inode_count, is_used, name_field, record_place};
use bd_base::{NAME_SIZE, is_name_byte};

/// How many bytes of names the field begins with.
fn name_length(field: &[u8]) -> usize
    ensures within { result ≤ length field.now }
    ensures bytes { (k : ℕ) → k < result → IsNameByte (slice_index field.now k) }
    ensures end { result < length field.now → ¬ IsNameByte (slice_index field.now result) }
{
    for (k, byte) in field.iter().enumerate() {
        if !is_name_byte(*byte) {
            return k;
        }
    }
    field.len()
}

/// Whether all bytes from `start` on are zero.
fn is_zero_from(field: &[u8], start: usize) -> bool
    requires { start ≤ length field.now }
    ensures { IsTrue result ↔ ZeroesFrom field.now start }
{
    for k in start..field.len() {
        if field[k] != 0 {
            return false;
        }
    }
    true
}

/// Whether the field is a name and zeros after it.
fn is_name_field(field: &[u8]) -> bool
    requires { length field.now ≡ 32 }
    ensures { IsTrue result ↔ IsNameField field.now }
{
    let length = name_length(field);
    if length == 0 || length as u64 > NAME_SIZE {
        return false;
    }
    is_zero_from(field, length)
}

/// Each file has a name of the form that names have.
pub(crate) fn check_name_forms(bytes: &[u8]) -> Option<u64>
    requires image { HasRecords bytes.now }
    ensures { TellsBreak bytes.now NameForm result }
{
    for j in 0..inode_count(bytes) {
        if is_used(bytes, j) {
            let field = name_field(bytes, j);
            if !is_name_field(field) {
                return Some(record_place(j) + NAME_FIELD);
            }
        }
    }
    None
}
