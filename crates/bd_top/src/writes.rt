//! Writing a text and an image.
ghost use Rattle.bd_outside.specs.Around.{writing};
ghost use Rattle.bd_top.specs.Ends.{TextAndImageWritten};

use crate::status::{Status, To};
use bd_outside::{Sink, WriteError, write_all};

/// Writes the text, and then the image. It takes no allocator: both are made before.
pub(crate) fn write_both<O: Sink, D: Sink>(
    out: &mut O,
    disk: &mut D,
    text: &[u8],
    image: &[u8],
) -> Status
    ensures { TextAndImageWritten (writing O.Sink out.old out.new)
        (writing D.Sink disk.old disk.new) text.now image.now result }
{
    match write_all(out, text) {
        Ok(()) => {}
        Err(WriteError::Fault) => return Status::WriteFault(To::Out),
        Err(WriteError::OutOfMemory) => return Status::OutOfMemory,
    }
    match write_all(disk, image) {
        Ok(()) => Status::Done,
        Err(WriteError::Fault) => Status::WriteFault(To::Disk),
        Err(WriteError::OutOfMemory) => Status::OutOfMemory,
    }
}
