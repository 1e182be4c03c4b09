//! The rules that look at the store, 4 to 13, in their order.
ghost use Rattle.std.specs.Prelude.{◌≡◌, ◌<◌, length};
ghost use Rattle.bd_base.specs.Scripts.{IsCall};
ghost use Rattle.bd_entry.specs.Calls.{at_of};
ghost use Rattle.bd_store.specs.Kept.{AtPlace, IsBroken};
ghost use Rattle.bd_store.specs.Kinds.{IsPieceWhereWrote};

mod blocks;
mod contents;
mod files;
mod limits;
mod opened;
mod plain;
mod policy;
mod reasons;
mod rights;
mod ways;

use crate::store::PlainStore;
use bd_base::Call;
use bd_entry::Entry;

impl PlainStore {
    /// The number of the least rule that the entry breaks.
    pub(crate) fn broken_rule(&self, call: &Call, entry: &Entry) -> Option<u8>
        requires process { (at_of entry.now).process < length self.now.uids }
        requires call { IsCall call.now }
        requires piece { IsPieceWhereWrote call.now entry.now }
        ensures { AtPlace self.now call.now (at_of entry.now) (λ s p.
            IsBroken s p entry.now result) }
    {
        if !self.has_right_way(call, entry) {
            return Some(4);
        }
        if !self.has_right_descriptor(call, entry) {
            return Some(5);
        }
        if !self.has_right_file(call, entry) {
            return Some(6);
        }
        if !self.is_allowed(entry) {
            return Some(7);
        }
        if !self.has_rights(call, entry) {
            return Some(8);
        }
        if !self.has_no_plain(entry) {
            return Some(9);
        }
        if !self.has_right_block(entry) {
            return Some(10);
        }
        if !self.is_within_limit(call, entry) {
            return Some(11);
        }
        if !self.has_right_bytes(call, entry) {
            return Some(12);
        }
        if !self.has_right_reason(call, entry) {
            return Some(13);
        }
        None
    }
}
