//! Why a call, or a piece of it, is refused.
ghost use Rattle.std.specs.Prelude.{◌≡◌, ◌<◌, length};
ghost use Rattle.bd_base.specs.Scripts.{IsCall};
ghost use Rattle.bd_entry.specs.Refusals.{denial, first_refusal, growth_reason, growth_reason_of, piece_refusal, refusal_of};
ghost use Rattle.bd_store.specs.Kept.{AtPlace, bare};

use crate::store::PlainStore;
use bd_base::{At, Call, FileId, Mode, Pid, Reason};
use bd_kernel::{piece_end, piece_of};

impl PlainStore {
    /// Why the process may not open a file in this mode.
    pub(crate) fn open_denial(&self, process: Pid, mode: Mode, file: FileId) -> Option<Reason>
        requires { process < length self.now.uids }
        ensures { result ≡ denial (bare self.now) process mode file }
    {
        bd_kernel::open_denial(self.fs(), self.uid(process), mode, file)
    }

    /// Why the process's call is refused as it begins.
    pub(crate) fn first_refusal(&self, process: Pid, call: &Call) -> Option<Reason>
        requires { process < length self.now.uids }
        ensures { result ≡ first_refusal (bare self.now) process call.now }
    {
        let uid = self.uid(process);
        bd_kernel::first_refusal(self.fs(), self.descriptors(), process, uid, call)
    }

    /// Why a file does not grow towards a goal.
    pub(crate) fn growth_reason(&self, file: FileId, goal: u64) -> Option<Reason>
        ensures { result ≡ growth_reason (bare self.now) file goal }
    {
        bd_kernel::growth_reason(self.fs(), file, goal)
    }

    /// Why the file of the call does not grow towards a goal.
    fn growth_reason_of(&self, call: &Call, at: &At, goal: u64) -> Option<Reason>
        requires { at.now.process < length self.now.uids }
        ensures { AtPlace self.now call.now at.now (λ s p. result ≡ growth_reason_of s p goal) }
    {
        let file = self.file_of(call, at)?;
        self.growth_reason(file, goal)
    }

    /// Why the call is refused here.
    pub(crate) fn refusal_of(&self, call: &Call, at: &At) -> Option<Reason>
        requires { at.now.process < length self.now.uids }
        ensures { AtPlace self.now call.now at.now (λ s p. result ≡ refusal_of s p) }
    {
        if let Some(reason) = self.first_refusal(at.process, call) {
            return Some(reason);
        }
        match call {
            Call::Truncate { size, .. } => self.growth_reason_of(call, at, *size),
            Call::Enter { .. }
            | Call::Create { .. }
            | Call::Read { .. }
            | Call::Write { .. }
            | Call::Unlink { .. }
            | Call::Size { .. }
            | Call::Map { .. }
            | Call::Close { .. }
            | Call::RawRead { .. }
            | Call::RawWrite { .. } => None,
        }
    }

    /// Why the piece of this number is refused.
    pub(crate) fn piece_refusal(&self, call: &Call, at: &At, number: u8) -> Option<Reason>
        requires process { at.now.process < length self.now.uids }
        requires call { IsCall call.now }
        ensures { AtPlace self.now call.now at.now (λ s p. result ≡ piece_refusal s p number) }
    {
        let piece = piece_of(call, number)?;
        self.growth_reason_of(call, at, piece_end(piece))
    }
}
