//! Rule 11: limits and sizes.
ghost use Rattle.std.specs.Prelude.{◌≡◌, ◌<◌, ◌↔◌, Some, true, length};
ghost use Rattle.std.specs.Option.{option_and_then};
ghost use Rattle.bd_base.specs.Scripts.{IsCall};
ghost use Rattle.bd_base.specs.Files.{blocks_for};
ghost use Rattle.bd_entry.specs.Calls.{at_of};
ghost use Rattle.bd_entry.specs.Refusals.{goal_of, next_size};
ghost use Rattle.bd_entry.specs.RulesOfContents.{AsksForSize, IsWithinLimit, NeedsNoLastBlock, TheFile};
ghost use Rattle.bd_entry.specs.RulesOfRights.{TheDescriptor};
ghost use Rattle.bd_entry.specs.Store.{blocks_in, descriptor_at, file_in, size_in};
ghost use Rattle.bd_store.specs.Kept.{AtPlace, Judges, bare};

use crate::store::PlainStore;
use bd_base::{At, BLOCK_SIZE, Call, Fd, FileId, Pid, Way};
use bd_entry::Entry;
use bd_kernel::next_size;

impl PlainStore {
    /// Whether the entry keeps the rule of limits.
    pub(crate) fn is_within_limit(&self, call: &Call, entry: &Entry) -> bool
        requires process { (at_of entry.now).process < length self.now.uids }
        requires call { IsCall call.now }
        ensures { Judges IsWithinLimit self.now call.now entry.now result }
    {
        match entry {
            Entry::Access {
                file,
                index,
                range,
                wrote,
                way,
                ..
            } => {
                (*way != Way::Direct && !*wrote)
                    || u64::from(range.hi) <= self.limit_of(*file, *index)
            }
            Entry::Extended { at, file, to, .. } => self.is_next_size(call, at, *file, *to),
            Entry::Released { file, .. } => self.needs_no_last_block(call, *file),
            Entry::Sized { at, fd, size } => self.asks_for_size(call, at.process, *fd, *size),
            Entry::SizeRead { at, fd, size } => self.is_size(at.process, *fd, *size),
            Entry::Unlinked { file, .. } => {
                self.block_count(*file) == 0 && self.descriptors().first_open(*file).is_none()
            }
            Entry::Opened { .. }
            | Entry::Created { .. }
            | Entry::Attached { .. }
            | Entry::Mapped { .. }
            | Entry::Cleared { .. }
            | Entry::Detached { .. }
            | Entry::Missed { .. }
            | Entry::Closed { .. }
            | Entry::Refused { .. } => true,
        }
    }

    /// Whether this is the next size of the file towards the goal of the call.
    fn is_next_size(&self, call: &Call, at: &At, file: FileId, to: u64) -> bool
        requires process { at.now.process < length self.now.uids }
        requires call { IsCall call.now }
        ensures { AtPlace self.now call.now at.now (λ s p.
            (result ≡ true)
            ↔ (option_and_then (next_size (size_in s file)) (goal_of s p) ≡ Some to)) }
    {
        let size = self.size_of(file);
        match self.goal_of(call, at) {
            Some(goal) => size < goal && next_size(size, goal) == to,
            None => false,
        }
    }

    /// Whether the file is there, and its last block is not needed by a truncation.
    fn needs_no_last_block(&self, call: &Call, file: FileId) -> bool
        requires { IsCall call.now }
        ensures { (result ≡ true)
            ↔ TheFile (file_in (bare self.now) file) (NeedsNoLastBlock call.now) }
    {
        let Some(inode) = self.inode(file) else {
            return false;
        };
        match call {
            Call::Truncate { size, .. } => size.div_ceil(BLOCK_SIZE) < inode.blocks.len() as u64,
            Call::Enter { .. }
            | Call::Create { .. }
            | Call::Read { .. }
            | Call::Write { .. }
            | Call::Unlink { .. }
            | Call::Size { .. }
            | Call::Map { .. }
            | Call::Close { .. }
            | Call::RawRead { .. }
            | Call::RawWrite { .. } => true,
        }
    }

    /// Whether the size is the one that the truncation asks for, and the file has as many blocks as it needs.
    fn asks_for_size(&self, call: &Call, process: Pid, fd: Fd, told: u64) -> bool
        requires { IsCall call.now }
        ensures { (result ≡ true) ↔ TheDescriptor (descriptor_at (bare self.now) process fd) (λ d.
            AsksForSize call.now told
            × (length (blocks_in (bare self.now) d.file) ≡ blocks_for told)) }
    {
        let Some(descriptor) = self.descriptors().get(process, fd.get() as u8) else {
            return false;
        };
        match call {
            Call::Truncate { size, .. } => {
                told == *size
                    && self.block_count(descriptor.file) as u64 == told.div_ceil(BLOCK_SIZE)
            }
            Call::Enter { .. }
            | Call::Create { .. }
            | Call::Read { .. }
            | Call::Write { .. }
            | Call::Unlink { .. }
            | Call::Size { .. }
            | Call::Map { .. }
            | Call::Close { .. }
            | Call::RawRead { .. }
            | Call::RawWrite { .. } => false,
        }
    }

    /// Whether this is the size of the descriptor's file.
    fn is_size(&self, process: Pid, fd: Fd, size: u64) -> bool
        ensures { (result ≡ true) ↔ TheDescriptor (descriptor_at (bare self.now) process fd) (λ d.
            size ≡ size_in (bare self.now) d.file) }
    {
        match self.descriptors().get(process, fd.get() as u8) {
            Some(descriptor) => size == self.size_of(descriptor.file),
            None => false,
        }
    }
}
