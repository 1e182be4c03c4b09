//! The command `check`.
ghost use Rattle.std.specs.Prelude.{◌≡◌, ◌+◌, is_some, length, count_by, IfOk, IfErr};
ghost use Rattle.bd_base.specs.declared.limits.TheConstants.{IMAGE_SIZE};
ghost use Rattle.bd_base.specs.declared.volume.Volume.{Volume};
ghost use Rattle.bd_base.specs.Inodes.{AreFiles, blocks_of_slot};
ghost use Rattle.bd_image.specs.Volumes.{AcceptedVolume};
ghost use Rattle.bd_outside.specs.Around.{ReadAtMost, reading, writing};
ghost use Rattle.bd_top.specs.CheckLine.{check_line, free_count, owned_count};
ghost use Rattle.bd_top.specs.Ends.{Checks, LineWritten};
ghost use Rattle.bd_top.specs.Inputs.{IsImageRead, RefusesImage};

use crate::inputs::read_image;
use crate::status::{Status, To};
use bd_base::{Bytes, Inode, List, OutOfMemory, Volume, data_start};
use bd_blocks::text::{push_bytes, push_number};
use bd_image::{one_refusal, refused_is_not_accepted, sound_volumes};
use bd_outside::{Sink, Source, WriteError, write_all};
use std::alloc::Global;

/// How many files there are.
fn files_in(inodes: &[Option<Inode>]) -> u64
    ensures { result ≡ count_by is_some inodes.now }
{
    inodes.iter().filter(|slot| slot.is_some()).count() as u64
}

/// How many blocks the file has, none where there is no file.
fn blocks_in(slot: &Option<Inode>) -> u64
    ensures { result ≡ length (blocks_of_slot slot.now) }
{
    match slot {
        Some(file) => file.blocks.len() as u64,
        None => 0,
    }
}

/// How many blocks the files have.
fn owned_blocks(total: u32, inodes: &[Option<Inode>]) -> u64
    requires { AreFiles total inodes.now }
    ensures { result ≡ owned_count inodes.now }
{
    let mut owned = 0;
    for slot in inodes {
        owned += blocks_in(slot);
    }
    owned
}

/// How many data blocks no file owns. No block is owned twice, so it is a difference.
fn free_blocks(volume: &Volume) -> u64
    requires { AcceptedVolume volume.now }
    ensures { result ≡ free_count volume.now }
{
    sound_volumes();
    let inodes = volume.inodes.as_slice();
    let metadata = data_start(inodes.len() as u64);
    u64::from(volume.total) - metadata - owned_blocks(volume.total, inodes)
}

/// The line that tells of the volume of an accepted image.
fn line_of(alloc: Global, volume: &Volume) -> Result<Bytes, OutOfMemory>
    requires { AcceptedVolume volume.now }
    ensures { IfOk result (λ line. line ≡ check_line volume.now) }
{
    let mut text = Vec::new(alloc);
    push_bytes(&mut text, b"accepted blocks ")?;
    push_number(&mut text, u64::from(volume.total))?;
    push_bytes(&mut text, b" files ")?;
    push_number(&mut text, files_in(volume.inodes.as_slice()))?;
    push_bytes(&mut text, b" free ")?;
    push_number(&mut text, free_blocks(volume))?;
    push_bytes(&mut text, b"\n")?;
    Ok(List::from_vec(text))
}

/// Reads an image, and makes the line that tells of it. It takes no sink.
fn read_and_tell<I: Source>(alloc: Global, image: &mut I) -> Result<Bytes, Status>
    ensures ok { IfOk result (λ line. (v : Volume) ×
        IsImageRead (reading I.Source image.old image.new) v × (line ≡ check_line v)) }
    ensures err { IfErr result (RefusesImage (reading I.Source image.old image.new)) }
    ensures taken { ReadAtMost (IMAGE_SIZE + 1) (reading I.Source image.old image.new) }
{
    let volume = read_image(alloc, image)?;
    match line_of(alloc, &volume) {
        Ok(line) => Ok(line),
        Err(OutOfMemory) => Err(Status::OutOfMemory),
    }
}

/// Writes the line. It takes no allocator: the line is made before.
pub(crate) fn write_line<O: Sink>(out: &mut O, line: &[u8]) -> Status
    ensures { LineWritten (writing O.Sink out.old out.new) line.now result }
{
    match write_all(out, line) {
        Ok(()) => Status::Done,
        Err(WriteError::Fault) => Status::WriteFault(To::Out),
        Err(WriteError::OutOfMemory) => Status::OutOfMemory,
    }
}

/// Checks an image, and writes one line that tells how many blocks, files and free blocks it has.
///
/// An image that breaks a rule is `BadImage`, and nothing is written. `Checks` (specs/Ends.antt)
/// tells what each status means.
pub fn check_all<I: Source, O: Sink>(alloc: Global, image: &mut I, out: &mut O) -> Status
    ensures { Checks
        (reading I.Source image.old image.new) (writing O.Sink out.old out.new) result }
{
    refused_is_not_accepted();
    one_refusal();
    match read_and_tell(alloc, image) {
        Ok(line) => write_line(out, line.as_slice()),
        Err(status) => status,
    }
}
