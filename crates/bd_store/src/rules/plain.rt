//! Rule 9: no right is given beside a plain descriptor.
ghost use Rattle.std.specs.Prelude.{◌≡◌};
ghost use Rattle.bd_base.specs.declared.script.Call.{Call};
ghost use Rattle.bd_entry.specs.RulesOfRights.{HasNoPlain};
ghost use Rattle.bd_store.specs.Kept.{Judges};

use crate::store::PlainStore;
use bd_entry::Entry;

impl PlainStore {
    /// Whether the entry keeps the rule of plain descriptors.
    pub(crate) fn has_no_plain(&self, entry: &Entry) -> bool
        ensures { (call : Call) → Judges HasNoPlain self.now call entry.now result }
    {
        match entry {
            Entry::Attached { at, fd, .. } => {
                match self.descriptors().get(at.process, fd.get() as u8) {
                    Some(descriptor) => self.descriptors().first_plain(descriptor.file).is_none(),
                    None => false,
                }
            }
            Entry::Opened { .. }
            | Entry::Created { .. }
            | Entry::Mapped { .. }
            | Entry::Cleared { .. }
            | Entry::Detached { .. }
            | Entry::Access { .. }
            | Entry::Missed { .. }
            | Entry::Extended { .. }
            | Entry::Released { .. }
            | Entry::Sized { .. }
            | Entry::SizeRead { .. }
            | Entry::Closed { .. }
            | Entry::Unlinked { .. }
            | Entry::Refused { .. } => true,
        }
    }
}
