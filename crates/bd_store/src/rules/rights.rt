//! Rule 8: the attached rights allow the entry.
ghost use Rattle.std.specs.Prelude.{◌≡◌, ◌<◌, ◌↔◌, [], None, Some, true, length};
ghost use Rattle.bd_base.specs.declared.script.Call.{Call};
ghost use Rattle.bd_base.specs.Scripts.{IsCall};
ghost use Rattle.bd_entry.specs.Calls.{at_of, does_write, has_cleared};
ghost use Rattle.bd_entry.specs.Refusals.{descriptor_of};
ghost use Rattle.bd_entry.specs.RulesOfRights.{HasNoRights, HasRights, LowersWhereTruncates, MayMiss, Stands, TheDescriptor, ThePiece, part_of};
ghost use Rattle.bd_entry.specs.Store.{descriptor_at, has_fragment, has_part, lowest_unattached, next_part, size_in};
ghost use Rattle.bd_store.specs.Kept.{AtPlace, Judges, bare};

use crate::place::part_of;
use crate::store::PlainStore;
use bd_base::{At, Call, Fd, FileId, Found, How, Part, Pid, Way};
use bd_entry::Entry;
use bd_kernel::{Descriptor, lowest_unattached, may_miss, next_part, stands};

impl PlainStore {
    /// Whether the entry keeps the rule of rights.
    pub(crate) fn has_rights(&self, call: &Call, entry: &Entry) -> bool
        requires process { (at_of entry.now).process < length self.now.uids }
        requires call { IsCall call.now }
        ensures { Judges HasRights self.now call.now entry.now result }
    {
        match entry {
            Entry::Opened { file, how, .. } => match how {
                How::Plain => self.has_no_rights(*file),
                How::Direct => true,
            },
            Entry::Attached { at, fd, part } => self.may_attach(at.process, *fd, *part),
            Entry::Mapped { at, fd, count } => self.is_mapped(at.process, *fd, *count),
            Entry::Cleared {
                owner,
                fd,
                part,
                ..
            } => self.may_clear(call, *owner, *fd, *part),
            Entry::Detached {
                at,
                owner,
                fd,
                part,
            } => self.may_detach(at, *owner, *fd, *part),
            Entry::Access {
                at,
                fd,
                index,
                way,
                ..
            } => *way != Way::Direct || self.has_right_to(at.process, *fd, *index),
            Entry::Missed { at, piece, found } => self.may_miss(call, at, *piece, *found),
            Entry::Released { file, .. } | Entry::Unlinked { file, .. } => {
                self.has_no_rights(*file)
            }
            Entry::Sized { at, fd, size } => self.may_size(at.process, *fd, *size),
            Entry::Closed { at, fd } => self.has_none_attached(at.process, *fd),
            Entry::Created { .. }
            | Entry::Extended { .. }
            | Entry::SizeRead { .. }
            | Entry::Refused { .. } => true,
        }
    }

    /// Whether no right on the file is attached.
    fn has_no_rights(&self, file: FileId) -> bool
        ensures { (result ≡ true) ↔ HasNoRights (bare self.now) file }
    {
        !self.descriptors().has_rights_on(file)
    }

    /// The lowest part of its file that a descriptor has no right on.
    fn lowest_unattached(&self, descriptor: &Descriptor) -> Option<Part>
        ensures { result ≡ lowest_unattached (bare self.now) descriptor.now }
    {
        lowest_unattached(self.fs(), descriptor)
    }

    /// Whether a descriptor gets its next right on this part.
    fn may_attach(&self, process: Pid, fd: Fd, part: Part) -> bool
        ensures { (result ≡ true) ↔ TheDescriptor (descriptor_at (bare self.now) process fd) (λ d.
            (lowest_unattached (bare self.now) d ≡ Some part)
            × (has_fragment (bare self.now) d.file part ≡ true)) }
    {
        match self.descriptors().get(process, fd.get() as u8) {
            Some(descriptor) => {
                self.lowest_unattached(descriptor) == Some(part)
                    && self.descriptors().has_fragment(descriptor.file, part)
            }
            None => false,
        }
    }

    /// Whether a descriptor can be given no further right.
    fn is_complete(&self, descriptor: &Descriptor) -> bool
        ensures { (result ≡ true) ↔ (next_part (bare self.now) descriptor.now ≡ None) }
    {
        next_part(self.fs(), self.descriptors(), descriptor).is_none()
    }

    /// Whether a descriptor has so many rights, and can be given no further one.
    fn is_mapped(&self, process: Pid, fd: Fd, count: u8) -> bool
        ensures { (result ≡ true) ↔ TheDescriptor (descriptor_at (bare self.now) process fd) (λ d.
            (count ≡ length d.attached) × (next_part (bare self.now) d ≡ None)) }
    {
        match self.descriptors().get(process, fd.get() as u8) {
            Some(descriptor) => {
                usize::from(count) == descriptor.attached.count() && self.is_complete(descriptor)
            }
            None => false,
        }
    }

    /// Whether the right stands, and, where the call is a truncation, it lowers the size.
    fn may_clear(&self, call: &Call, owner: Pid, fd: Fd, part: Part) -> bool
        ensures { (result ≡ true) ↔ TheDescriptor (descriptor_at (bare self.now) owner fd) (λ d.
            Stands part d × LowersWhereTruncates (bare self.now) call.now d.file) }
    {
        match self.descriptors().get(owner, fd.get() as u8) {
            Some(descriptor) => {
                stands(descriptor, part.get())
                    && match call {
                        Call::Truncate { size, .. } => *size < self.size_of(descriptor.file),
                        Call::Enter { .. }
                        | Call::Create { .. }
                        | Call::Read { .. }
                        | Call::Write { .. }
                        | Call::Unlink { .. }
                        | Call::Size { .. }
                        | Call::Map { .. }
                        | Call::Close { .. }
                        | Call::RawRead { .. }
                        | Call::RawWrite { .. } => true,
                    }
            }
            None => false,
        }
    }

    /// Whether the right is attached, and the call has its Cleared.
    fn may_detach(&self, at: &At, owner: Pid, fd: Fd, part: Part) -> bool
        requires { at.now.process < length self.now.uids }
        ensures { (call : Call) → AtPlace self.now call at.now (λ s p. (result ≡ true)
            ↔ TheDescriptor (descriptor_at s owner fd) (λ d.
            (has_part part d.attached ≡ true) × (has_cleared owner fd part p.before ≡ true))) }
    {
        match self.descriptors().get(owner, fd.get() as u8) {
            Some(descriptor) => {
                descriptor.attached.contains(part.get())
                    && self.running(at.process).has_cleared(owner, fd, part)
            }
            None => false,
        }
    }

    /// Whether a descriptor has a right on the part of a block.
    fn has_right_to(&self, process: Pid, fd: Fd, index: u32) -> bool
        ensures { (result ≡ true) ↔ TheDescriptor (descriptor_at (bare self.now) process fd) (λ d.
            has_part (part_of index) d.attached ≡ true) }
    {
        match self.descriptors().get(process, fd.get() as u8) {
            Some(descriptor) => descriptor.attached.contains(part_of(index)),
            None => false,
        }
    }

    /// Whether the walk of a piece may have found this.
    fn may_miss(&self, call: &Call, at: &At, number: u8, found: Found) -> bool
        requires process { at.now.process < length self.now.uids }
        requires call { IsCall call.now }
        ensures { AtPlace self.now call.now at.now (λ s p. (result ≡ true)
            ↔ ThePiece p number (MayMiss s (does_write p.call) (descriptor_of s p) found)) }
    {
        may_miss(
            self.fs(),
            self.descriptors(),
            call,
            at.process,
            self.running(at.process),
            number,
            found,
        )
    }

    /// Whether a size that lowers that of the descriptor's file meets no right on it.
    fn may_size(&self, process: Pid, fd: Fd, size: u64) -> bool
        ensures { (result ≡ true) ↔ TheDescriptor (descriptor_at (bare self.now) process fd) (λ d.
            size < size_in (bare self.now) d.file → HasNoRights (bare self.now) d.file) }
    {
        match self.descriptors().get(process, fd.get() as u8) {
            Some(descriptor) => {
                size >= self.size_of(descriptor.file) || self.has_no_rights(descriptor.file)
            }
            None => false,
        }
    }

    /// Whether the descriptor has no right.
    fn has_none_attached(&self, process: Pid, fd: Fd) -> bool
        ensures { (result ≡ true)
            ↔ TheDescriptor (descriptor_at (bare self.now) process fd) (λ d. d.attached ≡ []) }
    {
        match self.descriptors().get(process, fd.get() as u8) {
            Some(descriptor) => descriptor.attached.count() == 0,
            None => false,
        }
    }
}
