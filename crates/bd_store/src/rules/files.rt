//! Rule 6: the file is the call's.
ghost use Rattle.std.specs.Prelude.{◌≡◌, ◌<◌, ◌↔◌, Some, true, length};
ghost use Rattle.bd_entry.specs.Calls.{at_of};
ghost use Rattle.bd_entry.specs.RulesOfRights.{HasRightFile, IsOfFile};
ghost use Rattle.bd_store.specs.Kept.{AtPlace, Judges};

use crate::store::PlainStore;
use bd_base::{At, Call, Fd, FileId, Pid};
use bd_entry::Entry;

impl PlainStore {
    /// Whether the entry keeps the rule of files.
    pub(crate) fn has_right_file(&self, call: &Call, entry: &Entry) -> bool
        requires { (at_of entry.now).process < length self.now.uids }
        ensures { Judges HasRightFile self.now call.now entry.now result }
    {
        match entry {
            Entry::Opened { at, file, .. }
            | Entry::Extended { at, file, .. }
            | Entry::Released { at, file, .. }
            | Entry::Unlinked { at, file } => self.file_of(call, at) == Some(*file),
            Entry::Created { file, .. } => self.fs().free_id() == Some(*file),
            Entry::Cleared { at, owner, fd, .. } | Entry::Detached { at, owner, fd, .. } => {
                self.is_of_file(call, at, *owner, *fd)
            }
            Entry::Access { at, fd, file, .. } => {
                match self.descriptors().get(at.process, fd.get() as u8) {
                    Some(descriptor) => descriptor.file == *file,
                    None => false,
                }
            }
            Entry::Attached { .. }
            | Entry::Mapped { .. }
            | Entry::Missed { .. }
            | Entry::Sized { .. }
            | Entry::SizeRead { .. }
            | Entry::Closed { .. }
            | Entry::Refused { .. } => true,
        }
    }

    /// Whether the descriptor is of the call's file.
    fn is_of_file(&self, call: &Call, at: &At, owner: Pid, fd: Fd) -> bool
        requires { at.now.process < length self.now.uids }
        ensures { AtPlace self.now call.now at.now (λ s p.
            (result ≡ true) ↔ IsOfFile s p owner fd) }
    {
        match self.descriptors().get(owner, fd.get() as u8) {
            Some(descriptor) => self.file_of(call, at) == Some(descriptor.file),
            None => false,
        }
    }
}
