//! Rule 13: refusals.
ghost use Rattle.std.specs.Prelude.{◌≡◌, ◌<◌, ◌↔◌, true, Some, length};
ghost use Rattle.bd_base.specs.Scripts.{IsCall};
ghost use Rattle.bd_entry.specs.Calls.{at_of};
ghost use Rattle.bd_entry.specs.Refusals.{goal_of};
ghost use Rattle.bd_entry.specs.RulesOfContents.{HasRightReason, IsOfGrowth, IsPieceRefusedFor, IsRefusedFor, MayBegin, MayGrowToGoal};
ghost use Rattle.bd_store.specs.Kept.{AtPlace, Judges};

use crate::store::PlainStore;
use bd_base::{At, Call, FILE_SIZE, FileId, Reason};
use bd_entry::{Entry, at_of};

impl PlainStore {
    /// Whether the entry keeps the rule of refusals.
    pub(crate) fn has_right_reason(&self, call: &Call, entry: &Entry) -> bool
        requires process { (at_of entry.now).process < length self.now.uids }
        requires call { IsCall call.now }
        ensures { Judges HasRightReason self.now call.now entry.now result }
    {
        match entry {
            Entry::Refused {
                at,
                piece: None,
                reason,
            } => self.is_refused_for(call, at, reason),
            Entry::Refused {
                at,
                piece: Some(piece),
                reason,
            } => self.is_piece_refused_for(call, at, *piece, reason),
            Entry::Extended { at, file, .. } => {
                self.may_begin(call, at) && self.may_grow(call, at, *file)
            }
            Entry::Opened { .. }
            | Entry::Created { .. }
            | Entry::Attached { .. }
            | Entry::Mapped { .. }
            | Entry::Cleared { .. }
            | Entry::Detached { .. }
            | Entry::Access { .. }
            | Entry::Missed { .. }
            | Entry::Released { .. }
            | Entry::Sized { .. }
            | Entry::SizeRead { .. }
            | Entry::Closed { .. }
            | Entry::Unlinked { .. } => self.may_begin(call, &at_of(entry)),
        }
    }

    /// Whether the call has begun, or is not refused as it begins.
    fn may_begin(&self, call: &Call, at: &At) -> bool
        requires { at.now.process < length self.now.uids }
        ensures { AtPlace self.now call.now at.now (λ s p. (result ≡ true) ↔ MayBegin s p) }
    {
        self.running(at.process).has_begun() || self.first_refusal(at.process, call).is_none()
    }

    /// Whether the file may grow towards the goal of the call, where it has one.
    fn may_grow(&self, call: &Call, at: &At, file: FileId) -> bool
        requires process { at.now.process < length self.now.uids }
        requires call { IsCall call.now }
        ensures { AtPlace self.now call.now at.now (λ s p.
            (result ≡ true) ↔ MayGrowToGoal s file (goal_of s p)) }
    {
        match self.goal_of(call, at) {
            Some(goal) => goal <= FILE_SIZE && self.growth_reason(file, goal).is_none(),
            None => true,
        }
    }

    /// Whether the whole call is refused for this reason, which comes in its middle where it has begun.
    fn is_refused_for(&self, call: &Call, at: &At, reason: &Reason) -> bool
        requires { at.now.process < length self.now.uids }
        ensures { AtPlace self.now call.now at.now (λ s p.
            (result ≡ true) ↔ IsRefusedFor s p reason.now) }
    {
        is_reason(&self.refusal_of(call, at), reason)
            && (!self.running(at.process).has_begun() || is_of_growth(reason))
    }

    /// Whether the piece is refused for this reason, and the whole call is not refused.
    fn is_piece_refused_for(&self, call: &Call, at: &At, number: u8, reason: &Reason) -> bool
        requires process { at.now.process < length self.now.uids }
        requires call { IsCall call.now }
        ensures { AtPlace self.now call.now at.now (λ s p.
            (result ≡ true) ↔ IsPieceRefusedFor s p number reason.now) }
    {
        self.first_refusal(at.process, call).is_none()
            && is_reason(&self.piece_refusal(call, at, number), reason)
    }
}

/// Whether the reason is one that comes in the middle of a call.
fn is_of_growth(reason: &Reason) -> bool
    ensures { (result ≡ true) ↔ IsOfGrowth reason.now }
{
    match reason {
        Reason::NoSpace | Reason::Extents => true,
        Reason::NoFile
        | Reason::Exists
        | Reason::Denied(_)
        | Reason::Inodes
        | Reason::TooBig
        | Reason::OpenBy(_, _)
        | Reason::BadFd
        | Reason::ReadOnly
        | Reason::FdsFull
        | Reason::KernelOpen(_) => false,
    }
}

/// Whether this reason was found.
fn is_reason(found: &Option<Reason>, reason: &Reason) -> bool
    ensures { (result ≡ true) ↔ (found.now ≡ Some reason.now) }
{
    match found {
        Some(other) => *other == *reason,
        None => false,
    }
}
