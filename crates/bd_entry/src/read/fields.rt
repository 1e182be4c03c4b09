//! Reading the fields of a line that are more than numbers.
ghost use Rattle.std.specs.Prelude.{IfSome, IfNone, IfOk};
ghost use Rattle.bd_base.specs.declared.limits.TheConstants.{BLOCKS, PIECES};
ghost use Rattle.bd_blocks.specs.Runs.{runs_text};
ghost use Rattle.bd_blocks.specs.Texts.{HasFirst, HasNoFirst, Reads, optional_text};
ghost use Rattle.bd_blocks.specs.Words.{direction_text, way_text};
ghost use Rattle.bd_entry.specs.Ranges.{IsBytes, IsOptional};
ghost use Rattle.bd_entry.specs.Reading.{HasNoRangeFirst, HasRangeFirst, bounds};

use crate::read::numbers::{front_number, one_number};
use bd_base::{BLOCK_SIZE, BLOCKS, BlockNo, Bytes, OutOfMemory, PIECES, Way};
use bd_blocks::text::{SPACE, read_direction, read_way, split_at_byte};
use bd_blocks::{RunsError, read_runs};
use std::alloc::Global;

// The number that a text is, None where it is `-`, where the number is below `end`.
fn read_optional(text: &[u8], end: u64) -> Option<Option<u64>>
    ensures { Reads optional_text (IsOptional end) text.now result }
{
    if text == b"-".as_slice() {
        return Some(None);
    }
    let number = one_number(text, u64::MAX)?;
    if number >= end {
        return None;
    }
    Some(Some(number))
}

/// The block that a text is, None where it is `-`.
pub fn read_block(text: &[u8]) -> Option<Option<BlockNo>>
    ensures { Reads optional_text (IsOptional BLOCKS) text.now result }
{
    match read_optional(text, BLOCKS)? {
        Some(number) => Some(Some(BlockNo::new(number)?)),
        None => Some(None),
    }
}

/// The block in the first field of a text, None where it is `-`, and what follows the field.
pub fn front_block(text: &[u8]) -> Option<(Option<BlockNo>, &[u8])>
    ensures some { IfSome result (λ f.
        HasFirst optional_text (IsOptional BLOCKS) text.now f.0 f.1.now) }
    ensures none { IfNone result (HasNoFirst optional_text (IsOptional BLOCKS) text.now) }
{
    let (field, rest) = split_at_byte(text, SPACE)?;
    Some((read_block(field)?, rest))
}

/// The number of a piece in the first field of a text, None where it is `-`, and what follows the field.
pub fn front_piece(text: &[u8]) -> Option<(Option<u8>, &[u8])>
    ensures some { IfSome result (λ f.
        HasFirst optional_text (IsOptional PIECES) text.now f.0 f.1.now) }
    ensures none { IfNone result (HasNoFirst optional_text (IsOptional PIECES) text.now) }
{
    let (field, rest) = split_at_byte(text, SPACE)?;
    match read_optional(field, PIECES)? {
        Some(number) => Some((Some(number as u8), rest)),
        None => Some((None, rest)),
    }
}

/// The bounds of a range in the first two fields of a text, and what follows them.
#[derive(Clone, Copy)]
pub struct FrontRange<'a> {
    pub lo: u64,
    pub hi: u64,
    pub rest: &'a [u8],
}

/// The range in the first two fields of a text.
pub fn front_range(text: &[u8]) -> Option<FrontRange<'_>>
    ensures some { IfSome result (λ f. HasRangeFirst text.now (bounds f.lo f.hi) f.rest.now) }
    ensures none { IfNone result (HasNoRangeFirst text.now) }
{
    let (lo, rest) = front_number(text, BLOCK_SIZE)?;
    let (hi, rest) = front_number(rest, BLOCK_SIZE)?;
    if lo >= hi {
        return None;
    }
    Some(FrontRange { lo, hi, rest })
}

/// The direction of an access in the first field of a text, and what follows the field.
pub fn front_direction(text: &[u8]) -> Option<(bool, &[u8])>
    ensures some { IfSome result (λ f.
        HasFirst direction_text (λ _. Unit {0}) text.now f.0 f.1.now) }
    ensures none { IfNone result (HasNoFirst direction_text (λ _. Unit {0}) text.now) }
{
    let (field, rest) = split_at_byte(text, SPACE)?;
    Some((read_direction(field)?, rest))
}

/// The way of an access in the first field of a text, and what follows the field.
pub fn front_way(text: &[u8]) -> Option<(Way, &[u8])>
    ensures some { IfSome result (λ f. HasFirst way_text (λ _. Unit {0}) text.now f.0 f.1.now) }
    ensures none { IfNone result (HasNoFirst way_text (λ _. Unit {0}) text.now) }
{
    let (field, rest) = split_at_byte(text, SPACE)?;
    Some((read_way(field)?, rest))
}

/// The bytes of which a text is the runs.
pub fn read_bytes(alloc: Global, text: &[u8]) -> Result<Option<Bytes>, OutOfMemory>
    ensures { IfOk result (Reads runs_text IsBytes text.now) }
{
    match read_runs(alloc, text, BLOCK_SIZE as usize) {
        Ok(bytes) => Ok(Some(bytes)),
        Err(RunsError::NotRuns) => Ok(None),
        Err(RunsError::TooMany) => Ok(None),
        Err(RunsError::OutOfMemory) => Err(OutOfMemory),
    }
}
