//! Reading an image into a volume: the checks of the rules in their order, and then the files.
ghost use Rattle.std.specs.Prelude.{◌≡◌, ℕ, ◌≤◌, ◌++◌, drop, length, map, replicate, IfErr, IfOk, OnOk};
ghost use Rattle.std.specs.List.{range_with_len};
ghost use Rattle.bd_base.specs.Bytes.{AreBytes};
ghost use Rattle.bd_image.specs.Layout.{inode_count};
ghost use Rattle.bd_image.specs.Refusals.{RefusesBytesOfImage};
ghost use Rattle.bd_image.specs.Rules.{Accepted};
ghost use Rattle.bd_image.specs.Volumes.{AcceptedVolume, inode_in_image, volume_of};

mod bitmap;
mod clearing;
mod extents;
mod fields;
mod files;
mod header;
mod names;
mod records;
mod rules;
mod seen;
mod sharing;
mod tails;
mod zeros;

use crate::error::ImageError;
use crate::reader::clearing::without_metadata;
use crate::reader::fields::block_count;
use crate::reader::files::read_files;
use crate::reader::rules::check_rules;
use bd_base::{Bytes, InodeList, Volume};
use std::alloc::Global;

/// The files of an image that meets all rules.
fn read_checked(alloc: Global, bytes: &[u8]) -> Result<InodeList, ImageError>
    ensures accepted { OnOk result (Accepted bytes.now) }
    ensures bytes { OnOk result (AreBytes bytes.now) }
    ensures files { IfOk result (λ files.
        files ≡ map (inode_in_image bytes.now) (range_with_len 0 (inode_count bytes.now))) }
    ensures refused { IfErr result (RefusesBytesOfImage bytes.now) }
{
    check_rules(alloc, bytes)?;
    let files = read_files(alloc, bytes)?;
    Ok(files)
}

/// The volume that an image says.
///
/// A refused image comes back as [`ImageError::BadImage`] with the least number of a rule that it
/// breaks, and the least byte where it breaks that rule.
#[tactic(auto, unfolding(crate::specs::Volumes::volume_of))]
pub fn parse(alloc: Global, bytes: Bytes) -> Result<Volume, ImageError>
    ensures accepted { OnOk result (Accepted bytes) }
    ensures volume { IfOk result (λ volume. volume ≡ volume_of bytes) }
    ensures accepted_volume { IfOk result (λ volume. AcceptedVolume volume) }
    ensures refused { IfErr result (RefusesBytesOfImage bytes) }
{
    let inodes = read_checked(alloc, bytes.as_slice())?;
    let total = block_count(bytes.as_slice());
    let bytes = without_metadata(bytes);
    Ok(Volume {
        total,
        inodes,
        bytes,
    })
}
