//! The checks of all rules in their order.
ghost use Rattle.std.specs.Prelude.{IfErr, IfOk, OnOk};
ghost use Rattle.bd_image.specs.Refusals.{RefusesBytesOfImage, ObeysBelow};
ghost use Rattle.bd_image.specs.Rules.{Accepted, TellsBreak, rule_number};

use crate::error::ImageError;
use crate::reader::bitmap::check_bitmap;
use crate::reader::extents::{check_extent_joins, check_extent_ranges, check_sizes};
use crate::reader::header::{
    check_block_count, check_header_rest, check_inode_count, check_length, check_magic,
    check_version,
};
use crate::reader::names::check_name_forms;
use crate::reader::records::{
    check_extent_counts, check_free_records, check_perms, check_record_rests, check_used_marks,
};
use crate::reader::seen::check_names_fresh;
use crate::reader::sharing::check_extent_shares;
use crate::reader::tails::check_tails;
use crate::rule::{RULES, Rule};
use bd_base::OutOfMemory;
use std::alloc::Global;

/// The least place where an image that meets the rules before this one breaks it; None where it meets it.
fn first_break(alloc: Global, bytes: &[u8], rule: Rule) -> Result<Option<u64>, OutOfMemory>
    requires { ObeysBelow bytes.now (rule_number rule) }
    ensures { IfOk result (TellsBreak bytes.now rule) }
{
    match rule {
        Rule::Length => Ok(check_length(bytes)),
        Rule::Magic => Ok(check_magic(bytes)),
        Rule::Version => Ok(check_version(bytes)),
        Rule::BlockCount => Ok(check_block_count(bytes)),
        Rule::InodeCount => Ok(check_inode_count(bytes)),
        Rule::HeaderRest => Ok(check_header_rest(bytes)),
        Rule::UsedMark => Ok(check_used_marks(bytes)),
        Rule::FreeRecord => Ok(check_free_records(bytes)),
        Rule::Perms => Ok(check_perms(bytes)),
        Rule::ExtentCount => Ok(check_extent_counts(bytes)),
        Rule::NameForm => Ok(check_name_forms(bytes)),
        Rule::NameFresh => check_names_fresh(alloc, bytes),
        Rule::RecordRest => Ok(check_record_rests(bytes)),
        Rule::ExtentRange => Ok(check_extent_ranges(bytes)),
        Rule::ExtentJoins => Ok(check_extent_joins(bytes)),
        Rule::ExtentShares => check_extent_shares(alloc, bytes),
        Rule::Size => Ok(check_sizes(bytes)),
        Rule::TailZero => Ok(check_tails(bytes)),
        Rule::Bitmap => check_bitmap(alloc, bytes),
    }
}

/// Checks all rules.
pub(crate) fn check_rules(alloc: Global, bytes: &[u8]) -> Result<(), ImageError>
    ensures ok { OnOk result (Accepted bytes.now) }
    ensures err { IfErr result (RefusesBytesOfImage bytes.now) }
{
    for rule in RULES {
        if let Some(place) = first_break(alloc, bytes, rule)? {
            return Err(ImageError::BadImage {
                rule: rule.number(),
                place,
            });
        }
    }
    Ok(())
}
