//! A device whose blocks lie in memory, one after the other.
ghost use Rattle.std.specs.Prelude.{◌≡◌, ◌+◌, ◌≤◌, length};
ghost use Rattle.bd_medium.specs.Contents.{AreBlocks, HasBlock, range_bytes, with_bytes};

use crate::medium::Medium;
use bd_base::{BLOCK_SIZE, BlockNo, Bytes, List, OutOfMemory, Range};
use std::marker::Model;

/// Blocks in memory. Contracts see it as the list of the bytes of all blocks.
#[derive(Debug, Drop)]
pub struct Plain {
    bytes: Vec<u8>,
}

impl Model for Plain {
    ghost use Rattle.std.specs.Prelude.{ℕ, List};
    ghost use Rattle.bd_medium.specs.Contents.{AreBlocks};

    ghost Value = { List ℕ };

    ghost view = { λ a. a.bytes.items };

    ghost invariant = { λ a. AreBlocks a.bytes.items };
}

impl Plain {
    /// A device with these bytes, which are those of at most [`bd_base::BLOCKS`] whole blocks. It
    /// takes no memory.
    pub fn new(bytes: Bytes) -> Plain
        requires { AreBlocks bytes }
        ensures { result ≡ bytes }
    {
        Plain {
            bytes: bytes.into_vec(),
        }
    }

    /// The bytes of the range of a block that is there.
    pub fn slice(&self, b: BlockNo, r: Range) -> &[u8]
        requires { HasBlock self.now b }
        ensures { result.now ≡ range_bytes self.now b r }
    {
        let start = (BLOCK_SIZE * b.get()) as usize;
        &self.bytes.as_slice()[start + r.lo as usize..start + r.hi as usize]
    }

    /// The bytes of all blocks, in place of the device.
    pub fn into_bytes(self) -> Bytes
        ensures { result ≡ self }
    {
        let Plain { bytes } = self;
        List::from_vec(bytes)
    }

    // Puts these bytes at this place. All else stays.
    fn put(&mut self, place: usize, bytes: &[u8])
        requires { place + length bytes.now ≤ length self.old }
        ensures bytes { self.new ≡ with_bytes self.old place bytes.now }
        ensures length { length self.new ≡ length self.old }
    {
        self.bytes[place..place + bytes.len()].copy_from_slice(bytes);
    }
}

impl Medium for Plain {
    ghost contents = { λ plain. plain };

    fn total(&self) -> u32 {
        (self.bytes.len() / BLOCK_SIZE as usize) as u32
    }

    fn move_in(&mut self, b: BlockNo, r: Range, bytes: &[u8]) {
        let start = (BLOCK_SIZE * b.get()) as usize;
        self.put(start + r.lo as usize, bytes);
    }

    fn move_out(&self, b: BlockNo, r: Range) -> Result<Bytes, OutOfMemory> {
        List::from_slice(*self.bytes.allocator(), self.slice(b, r))
    }

    fn zero(&mut self, b: BlockNo) {
        let start = (BLOCK_SIZE * b.get()) as usize;
        self.put(start, &[0; BLOCK_SIZE as usize]);
    }
}
