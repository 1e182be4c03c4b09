//! Rule 7: the policy and the mode.
ghost use Rattle.std.specs.Prelude.{◌≡◌, ◌<◌, length};
ghost use Rattle.bd_base.specs.declared.script.Call.{Call};
ghost use Rattle.bd_entry.specs.Calls.{at_of};
ghost use Rattle.bd_entry.specs.RulesOfRights.{IsAllowed};
ghost use Rattle.bd_store.specs.Kept.{Judges};

use crate::store::PlainStore;
use bd_base::Mode;
use bd_entry::Entry;

impl PlainStore {
    /// Whether the entry keeps the rule of who may.
    pub(crate) fn is_allowed(&self, entry: &Entry) -> bool
        requires { (at_of entry.now).process < length self.now.uids }
        ensures { (call : Call) → Judges IsAllowed self.now call entry.now result }
    {
        match entry {
            Entry::Opened { at, file, mode, .. } => self
                .open_denial(at.process, *mode, *file)
                .is_none(),
            Entry::Access { at, fd, wrote, .. } => {
                match self.descriptors().get(at.process, fd.get() as u8) {
                    Some(descriptor) => !*wrote || descriptor.mode == Mode::Rw,
                    None => false,
                }
            }
            Entry::Created { .. }
            | Entry::Attached { .. }
            | Entry::Mapped { .. }
            | Entry::Cleared { .. }
            | Entry::Detached { .. }
            | Entry::Missed { .. }
            | Entry::Extended { .. }
            | Entry::Released { .. }
            | Entry::Sized { .. }
            | Entry::SizeRead { .. }
            | Entry::Closed { .. }
            | Entry::Unlinked { .. }
            | Entry::Refused { .. } => true,
        }
    }
}
