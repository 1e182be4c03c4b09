//! Rule 10: the block.
ghost use Rattle.std.specs.Prelude.{◌≡◌, ◌↔◌, true};
ghost use Rattle.bd_base.specs.Inodes.{growth_block};
ghost use Rattle.bd_entry.specs.RulesOfContents.{HasRightBlock, IsLastBlock, TheFile};
ghost use Rattle.bd_entry.specs.Store.{file_in};
ghost use Rattle.bd_store.specs.Kept.{JudgesAnywhere, bare};

use crate::store::PlainStore;
use bd_base::{BlockNo, FileId};
use bd_entry::Entry;

impl PlainStore {
    /// Whether the entry keeps the rule of blocks.
    pub(crate) fn has_right_block(&self, entry: &Entry) -> bool
        ensures { JudgesAnywhere HasRightBlock self.now entry.now result }
    {
        match entry {
            Entry::Access {
                file,
                index,
                block,
                ..
            } => self.block_at(*file, *index) == *block,
            Entry::Extended { file, block, .. } => self.takes_block(*file, *block),
            Entry::Released {
                file,
                index,
                block,
                ..
            } => self.is_last_block(*file, *index, *block),
            Entry::Opened { .. }
            | Entry::Created { .. }
            | Entry::Attached { .. }
            | Entry::Mapped { .. }
            | Entry::Cleared { .. }
            | Entry::Detached { .. }
            | Entry::Missed { .. }
            | Entry::Sized { .. }
            | Entry::SizeRead { .. }
            | Entry::Closed { .. }
            | Entry::Unlinked { .. }
            | Entry::Refused { .. } => true,
        }
    }

    /// Whether a growth of the file takes this block.
    fn takes_block(&self, file: FileId, block: Option<BlockNo>) -> bool
        ensures { (result ≡ true) ↔ TheFile (file_in (bare self.now) file) (λ f.
            growth_block self.now.total self.now.files f ≡ block) }
    {
        self.inode(file).is_some() && self.fs().next_block(file) == block
    }

    /// Whether the index and the block are those of the file's last block.
    fn is_last_block(&self, file: FileId, index: u32, block: BlockNo) -> bool
        ensures { (result ≡ true)
            ↔ TheFile (file_in (bare self.now) file) (λ f. IsLastBlock f index block) }
    {
        match self.inode(file) {
            Some(inode) => {
                inode.blocks.len() == index as usize + 1
                    && inode.blocks.as_slice().last().copied() == Some(block)
            }
            None => false,
        }
    }
}
