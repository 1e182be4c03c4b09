//! A block of bytes.
ghost use Rattle.std.specs.Prelude.{◌≡◌, ℕ, ◌+◌, ◌-◌, ◌≤◌, ◌<◌, ◌++◌, All, IfOk, length, take, drop, slice_range};
ghost use Rattle.bd_base.specs.declared.limits.TheConstants.{BLOCK_SIZE};

use bd_base::{BLOCK_SIZE, OutOfMemory, Range};
use std::alloc::Global;
use std::marker::Model;

/// A block: 4096 bytes on the heap. Contracts see it as the list of its bytes.
#[derive(Debug, Drop)]
pub struct Block {
    bytes: Vec<u8>,
}

impl Model for Block {
    ghost use Rattle.std.specs.Prelude.{◌≡◌, ℕ, List, length};
    ghost use Rattle.bd_base.specs.declared.limits.TheConstants.{BLOCK_SIZE};

    ghost Value = { List ℕ };

    ghost view = { λ a. a.bytes.items };

    ghost invariant = { λ a. length a.bytes.items ≡ BLOCK_SIZE };
}

impl Block {
    /// A block of zeros.
    pub fn zero(alloc: Global) -> Result<Block, OutOfMemory>
        ensures length { IfOk result (λ b. length b ≡ BLOCK_SIZE) }
        ensures zero { IfOk result (All (λ x. x ≡ 0)) }
    {
        let bytes = vec![in alloc; 0u8; BLOCK_SIZE as usize]?;
        Ok(Block { bytes })
    }

    /// A block of the same bytes, made by the allocator of this one.
    pub fn copy(&self) -> Result<Block, OutOfMemory>
        ensures { IfOk result (λ b. b ≡ self.now) }
    {
        let bytes = Vec::from_slice(*self.bytes.allocator(), self.bytes.as_slice())?;
        Ok(Block { bytes })
    }

    /// The bytes of a range.
    pub fn slice(&self, r: Range) -> &[u8]
        ensures bytes { result.now ≡ slice_range self.now r.lo r.hi }
        ensures count { length result.now ≡ r.hi - r.lo }
        ensures length { length self.now ≡ BLOCK_SIZE }
    {
        &self.bytes.as_slice()[r.lo as usize..r.hi as usize]
    }

    /// Puts bytes into a range, of which there are as many as the range has. All other bytes stay.
    pub fn put(&mut self, r: Range, bytes: &[u8])
        requires { length bytes.now ≡ r.hi - r.lo }
        ensures bytes { self.new ≡ take r.lo self.old ++ bytes.now ++ drop r.hi self.old }
        ensures length { length self.new ≡ BLOCK_SIZE }
    {
        self.bytes[r.lo as usize..r.hi as usize].copy_from_slice(bytes);
    }
}

#[cfg(test)]
mod tests {
    use super::*;
    use std::test::Fail;

    #[test]
    fn keeps_what_is_put(rt: HostRuntime) -> Result<(), Fail> {
        let mut block = Block::zero(rt.alloc())?;
        let front = Range::new(0, 2).ok_or("a range")?;
        block.put(front, &[0x41, 0x42]);
        let copy = block.copy()?;
        let rest = Range::new(2, 4096).ok_or("a range")?;
        for block in [&block, &copy] {
            assert_eq!(rt; block.slice(front), [0x41, 0x42].as_slice());
            assert_eq!(rt; block.slice(rest).len(), 4094);
            assert!(rt; block.slice(rest).iter().all(|byte| *byte == 0));
        }
        Ok(())
    }
}
