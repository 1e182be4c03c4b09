//! Rule 4: the way of a piece.
ghost use Rattle.std.specs.Prelude.{◌≡◌, ◌<◌, ◌↔◌, true, length};
ghost use Rattle.bd_base.specs.Scripts.{IsCall};
ghost use Rattle.bd_entry.specs.Calls.{at_of, has_missed};
ghost use Rattle.bd_entry.specs.Refusals.{descriptor_of};
ghost use Rattle.bd_entry.specs.RulesOfRights.{HasRightWay, IsWay, IsWayOf, ThePiece, WentDirect, WentToKernel};
ghost use Rattle.bd_store.specs.Kept.{AtPlace, Judges};

use crate::store::PlainStore;
use bd_base::{At, Call, How, Way};
use bd_entry::Entry;
use bd_kernel::{is_direct, is_raw, piece_of};

/// Whether the way is that of a piece of a direct descriptor, which goes to the device or not.
fn is_way_of(direct: bool, missed: bool, way: Way) -> bool
    ensures { (result ≡ true) ↔ IsWayOf direct missed way }
{
    match way {
        Way::Direct => direct,
        Way::AfterMiss => direct && missed,
        Way::PastKnown => !direct,
        Way::Plain => false,
    }
}

impl PlainStore {
    /// Whether the entry keeps the rule of ways.
    pub(crate) fn has_right_way(&self, call: &Call, entry: &Entry) -> bool
        requires process { (at_of entry.now).process < length self.now.uids }
        requires call { IsCall call.now }
        ensures { Judges HasRightWay self.now call.now entry.now result }
    {
        match entry {
            Entry::Access { at, piece, way, .. } => {
                if is_raw(call) {
                    *way == Way::Direct
                } else {
                    self.is_way(call, at, *piece, *way)
                }
            }
            Entry::Missed { at, piece, .. } => {
                is_raw(call) || self.went_direct(call, at, *piece)
            }
            Entry::Refused { piece: None, .. } => !is_raw(call),
            Entry::Refused {
                at,
                piece: Some(piece),
                ..
            } => self.went_to_kernel(call, at, *piece),
            Entry::Opened { .. }
            | Entry::Created { .. }
            | Entry::Attached { .. }
            | Entry::Mapped { .. }
            | Entry::Cleared { .. }
            | Entry::Detached { .. }
            | Entry::Extended { .. }
            | Entry::Released { .. }
            | Entry::Sized { .. }
            | Entry::SizeRead { .. }
            | Entry::Closed { .. }
            | Entry::Unlinked { .. } => true,
        }
    }

    /// Whether the way is that of a piece of a read or a write.
    fn is_way(&self, call: &Call, at: &At, number: u8, way: Way) -> bool
        requires process { at.now.process < length self.now.uids }
        requires call { IsCall call.now }
        ensures { AtPlace self.now call.now at.now (λ s p. (result ≡ true)
            ↔ ThePiece p number (λ piece.
            IsWay (descriptor_of s p) piece (has_missed number p.before) way)) }
    {
        let Some(piece) = piece_of(call, number) else {
            return false;
        };
        let missed = self.running(at.process).has_missed(number);
        match self.descriptor_of(call, at) {
            Some(descriptor) => match descriptor.how {
                How::Plain => way == Way::Plain,
                How::Direct => is_way_of(is_direct(descriptor, piece), missed, way),
            },
            None => is_way_of(true, missed, way),
        }
    }

    /// Whether a piece whose walk missed goes to the device.
    fn went_direct(&self, call: &Call, at: &At, number: u8) -> bool
        requires process { at.now.process < length self.now.uids }
        requires call { IsCall call.now }
        ensures { AtPlace self.now call.now at.now (λ s p.
            (result ≡ true) ↔ ThePiece p number (WentDirect (descriptor_of s p))) }
    {
        match (piece_of(call, number), self.descriptor_of(call, at)) {
            (Some(piece), Some(descriptor)) => is_direct(descriptor, piece),
            _ => false,
        }
    }

    /// Whether a piece that is refused goes to the kernel.
    fn went_to_kernel(&self, call: &Call, at: &At, number: u8) -> bool
        requires process { at.now.process < length self.now.uids }
        requires call { IsCall call.now }
        ensures { AtPlace self.now call.now at.now (λ s p. (result ≡ true)
            ↔ ThePiece p number (λ piece.
            WentToKernel (descriptor_of s p) piece (has_missed number p.before))) }
    {
        let Some(piece) = piece_of(call, number) else {
            return false;
        };
        match self.descriptor_of(call, at) {
            Some(descriptor) => {
                !is_direct(descriptor, piece) || self.running(at.process).has_missed(number)
            }
            None => true,
        }
    }
}
