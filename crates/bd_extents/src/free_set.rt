//! The set of free blocks, a bitmap with a hint.
ghost use Rattle.std.specs.Prelude.{◌≡◌, ◌<◌, ◌≤◌, ◌↔◌, false, true, IfOk, IfSome, IfNone, IsNone};
ghost use Rattle.std.specs.FinSet as set;
ghost use Rattle.bd_base.specs.declared.limits.TheConstants.{BLOCKS};
ghost use Rattle.bd_base.specs.Allocation.{allocated_block, free_block_after, lowest_free};
ghost use Rattle.bd_extents.specs.FreeBlocks.{TakesLowest, TakesNext, without_block};

use crate::bitmap::{WORD_BITS, first_marked_word, has_mark, lowest_mark, mark, unmark};
use bd_base::{BlockNo, OutOfMemory};
use std::alloc::Global;
use std::marker::Model;

/// A set of free blocks, all below a total.
///
/// The next block costs the same always, the lowest free block at most a pass over the words of the bitmap.
#[derive(Debug, Drop)]
pub struct FreeSet {
    total: u32,
    words: Vec<u64>,
    // No word before this one has a mark.
    first_word: usize,
}

impl Model for FreeSet {
    ghost use Rattle.std.specs.Prelude.{◌≡◌, ℕ, ◌*◌, ◌<◌, ◌≤◌, false};
    ghost use Rattle.bd_extents.specs.FreeBlocks.{FreeBlocks, free_blocks_code};

    ghost Value = { FreeBlocks };

    ghost coded = { free_blocks_code };

    ghost use Rattle.bd_extents.specs.Bitmap.{marked_below, IsBitmap};

    ghost view = { λ a. record { total = a.total; free = marked_below a.total a.words.items } };

    ghost invariant = { λ a. IsBitmap a.total a.words.items a.first_word };
}

impl FreeSet {
    /// The empty set of blocks below `total`.
    ///
    /// The only error is that no memory is found.
    pub fn new(alloc: Global, total: u32) -> Result<FreeSet, OutOfMemory>
        requires { total ≤ BLOCKS }
        ensures { IfOk result (λ s. s ≡ record { total = total; free = set.empty }) }
    {
        let words = vec![in alloc; 0u64; (total as usize).div_ceil(WORD_BITS)]?;
        Ok(FreeSet {
            total,
            words,
            first_word: 0,
        })
    }

    /// Takes the block after `after` where that is free, else the lowest free block: None exactly
    /// where no block is free.
    pub fn take(&mut self, after: Option<BlockNo>) -> Option<BlockNo>
        ensures block { result ≡ allocated_block (set.contains self.old.free) self.old.total after }
        ensures next { TakesNext self.old after result }
        ensures lowest { TakesLowest self.old after result }
        ensures none { IsNone result ↔ (self.old.free ≡ set.empty) }
        ensures free { IfSome result (λ b. set.contains self.old.free b ≡ true) }
        ensures taken { IfSome result (λ b. self.new ≡ without_block self.old b) }
        ensures unchanged { IfNone result (self.new ≡ self.old) }
    {
        let block = self.peek(after)?;
        self.remove(block);
        Some(block)
    }

    /// What [`FreeSet::take`] would take.
    pub fn peek(&self, after: Option<BlockNo>) -> Option<BlockNo>
        ensures block { result ≡ allocated_block (set.contains self.now.free) self.now.total after }
        ensures next { TakesNext self.now after result }
        ensures lowest { TakesLowest self.now after result }
        ensures none { IsNone result ↔ (self.now.free ≡ set.empty) }
        ensures free { IfSome result (λ b. set.contains self.now.free b ≡ true) }
        ensures below_total { IfSome result (λ b. b < self.now.total) }
    {
        match self.next(after) {
            Some(block) => Some(block),
            None => self.lowest(),
        }
    }

    /// Makes `block` no longer free, where it is.
    pub fn remove(&mut self, block: BlockNo)
        requires { block < self.old.total }
        ensures { self.new ≡ without_block self.old block }
    {
        self.take_mark(block);
        self.skip_empty_words();
    }

    /// Makes `block` free.
    pub fn give_back(&mut self, block: BlockNo)
        requires below_total { block < self.old.total }
        requires not_free { set.contains self.old.free block ≡ false }
        ensures { self.new ≡ record self.old { free = set.insert self.old.free block } }
    {
        let number = block.get() as usize;
        mark(&mut self.words, number);
        self.first_word = self.first_word.min(number / WORD_BITS);
    }

    /// The block after `after`, where that is free.
    fn next(&self, after: Option<BlockNo>) -> Option<BlockNo>
        ensures value { result ≡ free_block_after (set.contains self.now.free) after }
        ensures free { IfSome result (λ b. set.contains self.now.free b ≡ true) }
        ensures below_total { IfSome result (λ b. b < self.now.total) }
    {
        let number = after?.get() + 1;
        if number < u64::from(self.total) && has_mark(&self.words, number as usize) {
            BlockNo::new(number)
        } else {
            None
        }
    }

    /// The lowest free block.
    fn lowest(&self) -> Option<BlockNo>
        ensures value { result ≡ lowest_free (set.contains self.now.free) self.now.total }
        ensures none { IsNone result ↔ (self.now.free ≡ set.empty) }
    {
        let number = lowest_mark(&self.words, self.first_word)?;
        BlockNo::new(number as u64)
    }

    /// Takes the mark of a block away.
    fn take_mark(&mut self, block: BlockNo)
        requires { block < self.old.total }
        ensures { self.new ≡ without_block self.old block }
    {
        unmark(&mut self.words, block.get() as usize);
    }

    /// Lets searches begin at the first word with a mark.
    fn skip_empty_words(&mut self)
        ensures { self.new ≡ self.old }
    {
        self.first_word = first_marked_word(&self.words, self.first_word);
    }
}

#[cfg(test)]
mod tests {
    use super::*;
    use std::test::Fail;

    #[test]
    fn takes_the_next_block_and_else_the_lowest(rt: HostRuntime) -> Result<(), Fail> {
        let mut set = FreeSet::new(rt.alloc(), 16_384)?;
        assert_eq!(rt; set.peek(None), None);
        set.give_back(BlockNo::new(3).ok_or("three")?);
        set.give_back(BlockNo::new(9).ok_or("nine")?);
        assert_eq!(rt; set.peek(BlockNo::new(8)), BlockNo::new(9));
        assert_eq!(rt; set.take(BlockNo::new(8)), BlockNo::new(9));
        assert_eq!(rt; set.take(BlockNo::new(8)), BlockNo::new(3));
        assert_eq!(rt; set.take(BlockNo::new(8)), None);
        Ok(())
    }
}
