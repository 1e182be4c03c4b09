//! The records of an image.
ghost use Rattle.std.specs.Prelude.{◌≡◌, ◌≤◌, ◌-◌, ◌++◌, length, replicate, All, OnOk, IfSome};
ghost use Rattle.std.specs.List.{flat_map};
ghost use Rattle.bd_image.specs.Volumes.{extent_bytes, file_bytes, record_bytes};
ghost use Rattle.bd_image.specs.Limits.{FitsRecord};

use crate::layout::{EXTENT_BYTES, RECORD_BYTES};
use crate::writer::numbers::{push_u16, push_u32, push_u64, push_zeros};
use bd_base::{EXTENTS, Extent, Inode, OutOfMemory};
use bd_extents::extents_of;
use std::alloc::Global;

/// Appends extents.
fn push_extents(out: &mut Vec<u8>, extents: &[Extent]) -> Result<(), OutOfMemory>
    ensures { OnOk result (out.new.items ≡ out.old.items ++ flat_map extent_bytes extents.now) }
{
    for extent in extents {
        push_u32(out, extent.start)?;
        push_u32(out, extent.length)?;
    }
    Ok(())
}

/// Appends a file's name and zeros up to 32 bytes.
fn push_name(out: &mut Vec<u8>, name: &[u8]) -> Result<(), OutOfMemory>
    requires { length name.now ≤ 32 }
    ensures { OnOk result
        (out.new.items ≡ out.old.items ++ name.now ++ replicate (32 - length name.now) 0) }
{
    out.extend_from_slice(name)?;
    push_zeros(out, 32 - name.len())
}

/// Appends the record of a file.
fn push_file(alloc: Global, out: &mut Vec<u8>, file: &Inode) -> Result<(), OutOfMemory>
    requires { FitsRecord file.now }
    ensures { OnOk result (out.new.items ≡ out.old.items ++ file_bytes file.now) }
{
    let extents = extents_of(alloc, file.blocks.as_slice())?;
    out.push(1)?;
    out.push(file.perms)?;
    push_u16(out, extents.len() as u16)?;
    push_u32(out, file.owner)?;
    push_u64(out, file.size)?;
    push_name(out, file.name.as_slice())?;
    push_extents(out, extents.as_slice())?;
    push_zeros(
        out,
        EXTENT_BYTES as usize * (EXTENTS as usize - extents.len()) + 16,
    )
}

/// Appends the record of a file, or a free one.
fn push_record(alloc: Global, out: &mut Vec<u8>, inode: &Option<Inode>) -> Result<(), OutOfMemory>
    requires { IfSome inode.now FitsRecord }
    ensures { OnOk result (out.new.items ≡ out.old.items ++ record_bytes inode.now) }
{
    match inode {
        Some(file) => push_file(alloc, out, file),
        None => push_zeros(out, RECORD_BYTES as usize),
    }
}

/// Appends all records.
pub(crate) fn push_records(
    alloc: Global,
    out: &mut Vec<u8>,
    inodes: &[Option<Inode>],
) -> Result<(), OutOfMemory>
    requires { All (λ inode. IfSome inode FitsRecord) inodes.now }
    ensures { OnOk result (out.new.items ≡ out.old.items ++ flat_map record_bytes inodes.now) }
{
    for inode in inodes {
        push_record(alloc, out, inode)?;
    }
    Ok(())
}
