//! Rule 12: the bytes.
ghost use Rattle.std.specs.Prelude.{◌≡◌, slice_get};
ghost use Rattle.bd_base.specs.Scripts.{IsCall};
ghost use Rattle.bd_entry.specs.RulesOfContents.{HasRightBytes, bytes_within};
ghost use Rattle.bd_entry.specs.Store.{blocks_in, limit_in};
ghost use Rattle.bd_store.specs.Kept.{Judges, bare};
ghost use Rattle.bd_store.specs.Kinds.{IsPieceWhereWrote, IsBlockOf};

use crate::store::PlainStore;
use bd_base::{Call, FileId, Range};
use bd_entry::Entry;
use bd_kernel::bytes_for_piece;
use bd_pieces::Piece;

impl PlainStore {
    /// Whether the entry keeps the rule of bytes.
    pub(crate) fn has_right_bytes(&self, call: &Call, entry: &Entry) -> bool
        requires call { IsCall call.now }
        requires piece { IsPieceWhereWrote call.now entry.now }
        requires block { IsBlockOf self.now.files entry.now }
        ensures { Judges HasRightBytes self.now call.now entry.now result }
    {
        match entry {
            Entry::Access {
                file,
                index,
                range,
                wrote,
                bytes,
                ..
            } => {
                if *wrote {
                    let piece = Piece {
                        index: *index,
                        range: *range,
                    };
                    bytes.as_slice() == bytes_for_piece(call, piece)
                } else {
                    bytes.as_slice() == self.bytes_within(*file, *index, *range)
                }
            }
            Entry::Opened { .. }
            | Entry::Created { .. }
            | Entry::Attached { .. }
            | Entry::Mapped { .. }
            | Entry::Cleared { .. }
            | Entry::Detached { .. }
            | Entry::Missed { .. }
            | Entry::Extended { .. }
            | Entry::Released { .. }
            | Entry::Sized { .. }
            | Entry::SizeRead { .. }
            | Entry::Closed { .. }
            | Entry::Unlinked { .. }
            | Entry::Refused { .. } => true,
        }
    }

    /// The bytes of the block of a file from lo to the lesser of hi and the limit, of an absent block none.
    fn bytes_within(&self, file: FileId, index: u32, range: Range) -> &[u8]
        ensures { result.now ≡ bytes_within self.now.bytes
            (slice_get (blocks_in (bare self.now) file) index) range
            (limit_in (bare self.now) file index) }
    {
        let Some(inode) = self.inode(file) else {
            return &[];
        };
        let Some(block) = inode.blocks.as_slice().get(index as usize) else {
            return &[];
        };
        let hi = u64::from(range.hi).min(self.limit_of(file, index));
        match Range::new(u64::from(range.lo), hi) {
            Some(part) => self.medium().slice(*block, part),
            None => &[],
        }
    }
}
