//! Writing a volume as an image.
mod bitmap;
mod header;
mod numbers;
mod records;

ghost use Rattle.std.specs.Prelude.{◌≡◌, List, IfOk, ℕ};
ghost use Rattle.bd_base.specs.Bytes.{AreBytes};
ghost use Rattle.bd_image.specs.Limits.{IsWithinLimits};
ghost use Rattle.bd_image.specs.Rules.{Accepted};
ghost use Rattle.bd_image.specs.Volumes.{AcceptedVolume, image_of, volume_of};

use crate::layout::{RECORD_BYTES, RECORDS_PLACE};
use bd_base::{Bytes, List, OutOfMemory, Volume};
use std::alloc::Global;

/// The image of a volume that is within the limits of one.
fn image_of(alloc: Global, volume: &Volume) -> Result<Bytes, OutOfMemory>
    requires { IsWithinLimits volume.now }
    ensures { IfOk result (λ image. image ≡ image_of volume.now) }
{
    let inodes = volume.inodes.as_slice();
    let bytes = volume.bytes.as_slice();
    let data_place = RECORDS_PLACE as usize + RECORD_BYTES as usize * inodes.len();
    let mut image = Vec::with_capacity(alloc, bytes.len())?;
    header::push_header(&mut image, volume.total, inodes.len() as u32)?;
    bitmap::push_bitmap(alloc, &mut image, inodes)?;
    records::push_records(alloc, &mut image, inodes)?;
    image.extend_from_slice(&bytes[data_place..])?;
    Ok(List::from_vec(image))
}

/// The image of a volume: its header, its bitmap, its records and its data, byte for byte.
///
/// The volume is one that some accepted image says; this gives that image back.
/// The error comes only where no memory is found.
pub fn render(alloc: Global, volume: &Volume) -> Result<Bytes, OutOfMemory>
    requires { AcceptedVolume volume.now }
    ensures image { IfOk result (λ image. image ≡ image_of volume.now) }
    ensures accepted { IfOk result (λ image. Accepted image) }
    ensures says { IfOk result (λ image. volume_of image ≡ volume.now) }
    ensures round_trip { (b : List ℕ) → AreBytes b → Accepted b → volume.now ≡ volume_of b →
        IfOk result (λ image. image ≡ b) }
{
    image_of(alloc, volume)
}

#[cfg(test)]
mod tests;
