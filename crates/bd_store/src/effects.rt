//! What an entry that keeps the rules changes.
ghost use Rattle.std.specs.Prelude.{◌≡◌, ◌≢◌, ◌<◌, ◌++◌, ◌∷◌, ℕ, List, Option, OnErr, OnOk, [], false, length, true};
ghost use Rattle.bd_base.specs.Scripts.{IsCall};
ghost use Rattle.bd_entry.specs.declared.entry.Entry.{Entry};
ghost use Rattle.bd_entry.specs.Calls.{at_of, fd_of, is_ended_by};
ghost use Rattle.bd_entry.specs.Effects.{after_change, after_telling, effect_of, tells_size, with_descriptor_of_call, with_known_size, with_told_size};
ghost use Rattle.bd_entry.specs.Rules.{place_in};
ghost use Rattle.bd_entry.specs.Store.{Store, with_descriptor};
ghost use Rattle.bd_kernel.specs.Disks.{CanChange};
ghost use Rattle.bd_kernel.specs.Marks.{AreMarksOf, HasKeyOf, HasPieceOf, HasRoom};
ghost use Rattle.bd_store.specs.Kept.{AtPlace, Represents, bare, disk_of, marks_at};
ghost use Rattle.bd_store.specs.Steps.{IsReady, kept_after, kept_as, with_noted};

use crate::store::PlainStore;
use bd_base::{At, Call, OutOfMemory, Pid};
use bd_entry::{Entry, at_of};
use bd_kernel::tells_size;

impl PlainStore {
    /// Applies an entry that keeps the rules. After an error the store is as before.
    pub(crate) fn change(&mut self, call: &Call, entry: &Entry) -> Result<(), OutOfMemory>
        ghost s: { Store }
        requires store { Represents self.old s }
        requires call { IsCall call.now }
        requires process { (at_of entry.now).process < length self.old.uids }
        requires ready { IsReady s call.now entry.now }
        ensures effect { OnOk result
            (Represents self.new (effect_of s (place_in s call.now (at_of entry.now)) entry.now)) }
        ensures err { OnErr result (self.new ≡ self.old) }
    {
        self.change_by(entry)?;
        self.note(entry);
        self.tell_by(call, entry);
        if self.is_ended(call, entry) {
            self.end(call, &at_of(entry));
        }
        Ok(())
    }

    /// The entry joins those of its call.
    fn note(&mut self, entry: &Entry)
        requires process { (at_of entry.now).process < length self.old.uids }
        requires piece { HasPieceOf entry.now }
        ensures noted { self.new ≡ with_noted self.old entry.now }
        ensures key { HasKeyOf entry.now }
        ensures room { HasRoom (marks_at self.old (at_of entry.now).process) }
    {
        let running = &mut self.calls[at_of(entry).process.get() as usize];
        running.note(entry);
    }

    /// The entry's own change.
    fn change_by(&mut self, entry: &Entry) -> Result<(), OutOfMemory>
        requires process { (at_of entry.now).process < length self.old.uids }
        requires fit { (held : List (Option ℕ)) → CanChange (disk_of self.old held) entry.now }
        ensures change { OnOk result
            (self.new ≡ kept_after self.old (λ s. after_change s entry.now)) }
        ensures err { OnErr result (self.new ≡ self.old) }
    {
        let uid = self.uid(at_of(entry).process);
        self.disk.change(entry, uid)
    }

    /// The process is told the size of the file of its call's descriptor, by an entry that tells it.
    fn tell_by(&mut self, call: &Call, entry: &Entry)
        requires { (at_of entry.now).process < length self.old.uids }
        ensures { AtPlace self.old call.now (at_of entry.now) (λ s p. self.new
            ≡ kept_as self.old (after_telling (tells_size entry.now) s p.at.process (fd_of p))) }
    {
        if tells_size(entry) {
            self.tell(call, &at_of(entry));
        }
    }

    /// The process is told the size of the file of its call's descriptor.
    fn tell(&mut self, call: &Call, at: &At)
        requires { at.now.process < length self.old.uids }
        ensures { AtPlace self.old call.now at.now (λ s p.
            self.new ≡ kept_as self.old (after_telling true s p.at.process (fd_of p))) }
    {
        if let Some(fd) = self.fd_of(call, at) {
            self.tell_descriptor(at.process, fd);
        }
    }

    /// The process is told the size of the file of this descriptor, if that is open.
    fn tell_descriptor(&mut self, process: Pid, fd: u8)
        ensures { self.new
            ≡ kept_after self.old (λ s. with_descriptor s process fd (with_told_size s)) }
    {
        self.disk.tell(process, fd);
    }

    /// The process knows the size that it was told by this descriptor, if that is open.
    fn know_descriptor(&mut self, process: Pid, fd: u8)
        ensures { self.new
            ≡ kept_after self.old (λ s. with_descriptor s process fd with_known_size) }
    {
        self.disk.know(process, fd);
    }

    /// Whether the entries of the call, of which this is the last, end it.
    fn is_ended(&self, call: &Call, last: &Entry) -> bool
        requires process { (at_of last.now).process < length self.now.uids }
        requires call { IsCall call.now }
        ensures { (before : List Entry)
            → AreMarksOf (marks_at self.now (at_of last.now).process) (before ++ last.now ∷ [])
            → is_ended_by call.now before ≡ false
            → result ≡ is_ended_by call.now (before ++ last.now ∷ []) }
    {
        self.running(at_of(last).process).is_ended_by(call, last)
    }

    /// The call ends: its entries are forgotten, and its process knows the size that it was told.
    fn end(&mut self, call: &Call, at: &At)
        requires { at.now.process < length self.old.uids }
        ensures rights { AtPlace self.old call.now at.now (λ s p.
            bare self.new ≡ bare (kept_as self.old
            (with_descriptor_of_call s p.at.process (fd_of p) with_known_size))) }
        ensures here { AreMarksOf (marks_at self.new at.now.process) [] }
        ensures others { (process : ℕ) → process ≢ at.now.process
            → marks_at self.new process ≡ marks_at self.old process }
    {
        if let Some(fd) = self.fd_of(call, at) {
            self.know_descriptor(at.process, fd);
        }
        self.calls[at.process.get() as usize].reset();
    }
}
