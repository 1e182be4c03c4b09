//! What the rules ask of a call's descriptor, file and pieces, and of the sizes and blocks of files.
ghost use Rattle.std.specs.Prelude.{◌≡◌, ◌<◌, ◌≤◌, length, slice_get};
ghost use Rattle.std.specs.Option.{option_copied};
ghost use Rattle.bd_base.specs.declared.limits.TheConstants.{BLOCK_SIZE, FILE_BLOCKS, FILE_SIZE};
ghost use Rattle.bd_base.specs.Inodes.{blocks_of_slot, inode_at};
ghost use Rattle.bd_base.specs.Scripts.{IsCall};
ghost use Rattle.bd_entry.specs.Calls.{fd_of};
ghost use Rattle.bd_entry.specs.Refusals.{descriptor_of, file_of, goal_of};
ghost use Rattle.bd_entry.specs.RulesOfRights.{part_of};
ghost use Rattle.bd_entry.specs.Store.{limit_in, size_at};
ghost use Rattle.bd_store.specs.Kept.{AtPlace, bare};

use crate::store::PlainStore;
use bd_base::{At, BlockNo, Call, FileId, PART_BLOCKS};
use bd_kernel::{Descriptor, fd_of_call};

impl PlainStore {
    /// The number of the descriptor of the call.
    pub(crate) fn fd_of(&self, call: &Call, at: &At) -> Option<u8>
        requires { at.now.process < length self.now.uids }
        ensures { AtPlace self.now call.now at.now (λ s p. result ≡ fd_of p) }
    {
        fd_of_call(call, self.running(at.process).opened())
    }

    /// The descriptor of the call, where it is open.
    pub(crate) fn descriptor_of(&self, call: &Call, at: &At) -> Option<&Descriptor>
        requires { at.now.process < length self.now.uids }
        ensures { AtPlace self.now call.now at.now (λ s p.
            option_copied result ≡ descriptor_of s p) }
    {
        let running = self.running(at.process);
        bd_kernel::descriptor_of(self.descriptors(), call, at.process, running)
    }

    /// The file of the call: the one of its name, or else of its descriptor.
    pub(crate) fn file_of(&self, call: &Call, at: &At) -> Option<FileId>
        requires { at.now.process < length self.now.uids }
        ensures { AtPlace self.now call.now at.now (λ s p. result ≡ file_of s p) }
    {
        let running = self.running(at.process);
        bd_kernel::file_of(self.fs(), self.descriptors(), call, at.process, running)
    }

    /// The size to which the call lets its file grow.
    pub(crate) fn goal_of(&self, call: &Call, at: &At) -> Option<u64>
        requires process { at.now.process < length self.now.uids }
        requires call { IsCall call.now }
        ensures { AtPlace self.now call.now at.now (λ s p. result ≡ goal_of s p) }
    {
        let running = self.running(at.process);
        bd_kernel::goal_of(self.descriptors(), call, at.process, running)
    }

    /// The size of a file, 0 where there is none.
    pub(crate) fn size_of(&self, file: FileId) -> u64
        ensures size { result ≡ size_at self.now.files file }
        ensures in_range { result ≤ FILE_SIZE }
    {
        bd_kernel::size_of(self.fs(), file)
    }

    /// How many blocks a file has, none where there is none.
    pub(crate) fn block_count(&self, file: FileId) -> usize
        ensures count { result ≡ length (blocks_of_slot (inode_at self.now.files file)) }
        ensures in_range { result ≤ FILE_BLOCKS }
    {
        bd_kernel::block_count(self.fs(), file)
    }

    /// How many bytes of the block of this index belong to the file.
    pub(crate) fn limit_of(&self, file: FileId, index: u32) -> u64
        ensures limit { result ≡ limit_in (bare self.now) file index }
        ensures in_block { result ≤ BLOCK_SIZE }
    {
        bd_kernel::limit_of(self.fs(), file, index)
    }

    /// The block of a file that has this index.
    pub(crate) fn block_at(&self, file: FileId, index: u32) -> Option<BlockNo>
        ensures { result ≡ slice_get (blocks_of_slot (inode_at self.now.files file)) index }
    {
        let inode = self.inode(file)?;
        inode.blocks.as_slice().get(index as usize).copied()
    }
}

/// The part of a block of a file.
pub(crate) fn part_of(index: u32) -> u64
    ensures { result ≡ part_of index }
{
    u64::from(index) / PART_BLOCKS
}
