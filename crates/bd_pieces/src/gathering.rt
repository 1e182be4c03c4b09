//! The bytes of pieces, put together.
ghost use Rattle.std.specs.Prelude.{◌≡◌, ℕ, IfOk};
ghost use Rattle.bd_pieces.specs.Gathered.{AreFirstBytes, gathered_bytes};

use bd_base::{Bytes, List, OutOfMemory, Range};
use std::alloc::Global;

/// What an access to a piece gave.
#[derive(Debug, Drop)]
pub struct PieceBytes {
    /// The bytes of the block that were asked for.
    pub range: Range,
    /// The bytes that came, which may be fewer.
    pub bytes: Bytes,
}

/// What the accesses to the pieces of a range gave, in order.
pub type PartList = List<PieceBytes>;

/// The bytes of the parts in their order, up to and with the first part that has fewer bytes than its range.
fn bytes_of(alloc: Global, parts: &[PieceBytes]) -> Result<Vec<u8>, OutOfMemory>
    ensures { IfOk result (λ bytes. bytes.items ≡ gathered_bytes parts.now) }
{
    let mut bytes = Vec::new(alloc);
    for part in parts {
        bytes.extend_from_slice(part.bytes.as_slice())?;
        if part.bytes.len() < part.range.count() {
            break;
        }
    }
    Ok(bytes)
}

/// The bytes of the first n parts in their order: all before the n-th have as many bytes as their ranges, and n is all
/// of them or the n-th has fewer. The only error is want of memory.
pub fn gather(alloc: Global, parts: &PartList) -> Result<Bytes, OutOfMemory>
    ensures bytes { IfOk result (λ bytes. bytes ≡ gathered_bytes parts.now) }
    ensures first_parts { IfOk result (AreFirstBytes parts.now) }
{
    let bytes = bytes_of(alloc, parts.as_slice())?;
    Ok(Bytes::from_vec(bytes))
}
