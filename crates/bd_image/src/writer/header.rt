//! The first block of an image.
ghost use Rattle.std.specs.Prelude.{◌≡◌, ◌++◌, OnOk};
ghost use Rattle.bd_image.specs.Volumes.{header_bytes};

use crate::layout::{HEADER_BYTES, MAGIC, VERSION};
use crate::writer::numbers::{push_u32, push_zeros};
use bd_base::{BLOCK_SIZE, OutOfMemory};

/// Appends the first block of an image with these numbers of blocks and records.
pub(crate) fn push_header(out: &mut Vec<u8>, total: u32, inodes: u32) -> Result<(), OutOfMemory>
    ensures { OnOk result (out.new.items ≡ out.old.items ++ header_bytes total inodes) }
{
    out.extend_from_slice(&MAGIC)?;
    push_u32(out, VERSION as u32)?;
    push_u32(out, total)?;
    push_u32(out, inodes)?;
    push_zeros(out, (BLOCK_SIZE - HEADER_BYTES) as usize)
}
