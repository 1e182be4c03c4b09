//! Rule 5: the descriptor is open.
ghost use Rattle.std.specs.Prelude.{◌≡◌, ◌<◌, ◌↔◌, true, length};
ghost use Rattle.bd_entry.specs.Calls.{at_of, named_fd};
ghost use Rattle.bd_entry.specs.RulesOfRights.{HasRightDescriptor, IsOpenAt, NamedIsOpen};
ghost use Rattle.bd_store.specs.Kept.{Judges, bare};

use crate::store::PlainStore;
use bd_base::{At, Call, Fd, Pid};
use bd_entry::Entry;
use bd_kernel::named_fd;

impl PlainStore {
    /// Whether the entry keeps the rule of descriptors.
    pub(crate) fn has_right_descriptor(&self, call: &Call, entry: &Entry) -> bool
        ensures { Judges HasRightDescriptor self.now call.now entry.now result }
    {
        match entry {
            Entry::Opened { at, fd, .. } => {
                self.descriptors().lowest_free(at.process) == Some(*fd)
            }
            Entry::Attached { at, fd, .. }
            | Entry::Mapped { at, fd, .. }
            | Entry::Access { at, fd, .. }
            | Entry::Sized { at, fd, .. }
            | Entry::SizeRead { at, fd, .. }
            | Entry::Closed { at, fd } => self.is_open(at.process, *fd),
            Entry::Cleared { owner, fd, .. } | Entry::Detached { owner, fd, .. } => {
                self.is_open(*owner, *fd)
            }
            Entry::Missed { at, .. } | Entry::Extended { at, .. } | Entry::Released { at, .. } =>
                self.named_is_open(call, at),
            Entry::Created { .. } | Entry::Unlinked { .. } | Entry::Refused { .. } => true,
        }
    }

    /// Whether the descriptor of a process is open.
    fn is_open(&self, process: Pid, fd: Fd) -> bool
        ensures { (result ≡ true) ↔ IsOpenAt (bare self.now) process fd }
    {
        self.descriptors().get(process, fd.get() as u8).is_some()
    }

    /// Whether the descriptor that the call names, if it names one, is open.
    fn named_is_open(&self, call: &Call, at: &At) -> bool
        ensures { (result ≡ true) ↔ NamedIsOpen (bare self.now) at.now.process (named_fd call.now) }
    {
        match named_fd(call) {
            Some(fd) => self.descriptors().get(at.process, fd).is_some(),
            None => true,
        }
    }
}
