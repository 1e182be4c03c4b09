//! What a device does to the bytes of its blocks.
ghost use Rattle.std.specs.Prelude.{◌≡◌, ℕ, ◌-◌, ◌*◌, ◌≤◌, List, IfOk, length};
ghost use Rattle.bd_base.specs.declared.limits.TheConstants.{BLOCK_SIZE, BLOCKS};
ghost use Rattle.bd_medium.specs.Contents.{HasBlock, range_bytes, with_range, with_block_zeroed};

use bd_base::{BlockNo, Bytes, OutOfMemory, Range};

/// A device of blocks, each of [`bd_base::BLOCK_SIZE`] bytes.
///
/// Contracts see the bytes of all its blocks as one list, in the order of the blocks.
pub trait Medium: Drop {
    // The bytes of all blocks: block b begins at place 4096 * b.
    ghost contents: { Self → List ℕ };

    /// How many blocks there are: at most [`bd_base::BLOCKS`].
    fn total(&self) -> u32
        ensures total { BLOCK_SIZE * result ≡ length (contents self.now) }
        ensures in_range { result ≤ BLOCKS };

    /// Puts as many bytes as the range has into the range of a block that is there. All else stays.
    fn move_in(&mut self, b: BlockNo, r: Range, bytes: &[u8])
        requires block { HasBlock (contents self.old) b }
        requires count { length bytes.now ≡ r.hi - r.lo }
        ensures bytes { contents self.new ≡ with_range (contents self.old) b r bytes.now }
        ensures length { length (contents self.new) ≡ length (contents self.old) };

    /// The bytes of the range of a block that is there.
    fn move_out(&self, b: BlockNo, r: Range) -> Result<Bytes, OutOfMemory>
        requires { HasBlock (contents self.now) b }
        ensures { IfOk result (λ bytes. bytes ≡ range_bytes (contents self.now) b r) };

    /// Makes all bytes of a block that is there 0. All else stays.
    fn zero(&mut self, b: BlockNo)
        requires { HasBlock (contents self.old) b }
        ensures bytes { contents self.new ≡ with_block_zeroed (contents self.old) b }
        ensures length { length (contents self.new) ≡ length (contents self.old) };
}
