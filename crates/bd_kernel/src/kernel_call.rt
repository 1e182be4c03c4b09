//! A running call of a process, and the action that it needs next.
ghost use Rattle.std.specs.Prelude.{◌≡◌, ◌≢◌, ℕ, ◌<◌, ◌≤◌, ◌++◌, ◌∷◌, ◌&&◌, [], None, cond, true, false, All, Contains, IfOk, List, Some, drop, length, nat_eq};
ghost use Rattle.std.specs.Option.{option_or};
ghost use Rattle.bd_entry.specs.declared.entry.Entry.{Entry};
ghost use Rattle.bd_base.specs.Scripts.{IsCall};
ghost use Rattle.bd_base.specs.declared.limits.TheConstants.{PIECES};
ghost use Rattle.bd_entry.specs.Actions.{before_beginning, keys_to_revoke, kernel_part, own_act, revoke, submit_or_poll};
ghost use Rattle.bd_entry.specs.Refusals.{first_refusal};
ghost use Rattle.bd_entry.specs.Store.{user_of};
ghost use Rattle.bd_kernel.specs.Holders.{holder_in};
ghost use Rattle.bd_kernel.specs.Marks.{AreMarksOf, HasPieceOf};
ghost use Rattle.bd_kernel.specs.Sights.{AtPlace, place_of};
ghost use Rattle.bd_entry.specs.Calls.{Place, fd_of_call};
ghost use Rattle.bd_kernel.specs.Turns.{ArePieceMarksOf, AreEntriesOf, IsBlocker, IsFileOf, IsFirstBlocker, IsNextAct, IsNextActOf, IsSameCall, MayMissAt, Takes};
ghost use Rattle.bd_kernel.specs.declared.blocker.Blocker.TheVariants.{Completion};

use crate::beginning::{before_beginning, has_begun};
use crate::blocker::{Blocker, next_blocker};
use crate::calls::fd_of_call;
use crate::descriptors::Descriptors;
use crate::files::{attach_by, open_directly, open_file, tell_size, truncate, unlink};
use crate::misses::may_miss;
use crate::outstanding::Outstanding;
use crate::pieces::{kernel_part, submit_or_poll};
use crate::place::file_of;
use crate::refusals::first_refusal;
use crate::revocation::{keys_to_revoke, revoke};
use crate::running_call::RunningCall;
use bd_base::{Call, FileId, Found, How, OutOfMemory, Pid};
use bd_entry::{Act, Entry};
use bd_fs::Fs;
use std::alloc::Global;
use std::marker::Model;

/// A call of a process that was begun, and how far it is.
#[derive(Drop)]
pub struct KernelCall {
    call: Call,
    process: Pid,
    uid: u32,
    running: RunningCall,
    // The pieces whose commands are submitted and not polled.
    outstanding: Outstanding,
    // Whether its entries end it.
    finished: bool,
}

impl Model for KernelCall {
    ghost use Rattle.bd_kernel.specs.Turns.{IsProgress, Progress};

    ghost Value = { Progress };

    ghost view = { λ a. record {
      call = a.call;
      process = a.process;
      uid = a.uid;
      marks = a.running;
      outstanding = a.outstanding;
      finished = a.finished;
    } };

    ghost invariant = { λ a. IsProgress (record {
      call = a.call;
      process = a.process;
      uid = a.uid;
      marks = a.running;
      outstanding = a.outstanding;
      finished = a.finished;
    }) };
}

/// A call with the same values.
fn copy_call(alloc: Global, call: &Call) -> Result<Call, OutOfMemory>
    ensures { IfOk result (λ copy. copy ≡ call.now) }
{
    Ok(match call {
        Call::Enter { name, mode, how } => Call::Enter {
            name: name.copy()?,
            mode: *mode,
            how: *how,
        },
        Call::Create { name, perms } => Call::Create {
            name: name.copy()?,
            perms: *perms,
        },
        Call::Read { fd, off, len } => Call::Read {
            fd: *fd,
            off: *off,
            len: *len,
        },
        Call::Write { fd, off, bytes } => Call::Write {
            fd: *fd,
            off: *off,
            bytes: bytes.copy()?,
        },
        Call::Truncate { fd, size } => Call::Truncate {
            fd: *fd,
            size: *size,
        },
        Call::Unlink { name } => Call::Unlink { name: name.copy()? },
        Call::Size { fd } => Call::Size { fd: *fd },
        Call::Map { fd } => Call::Map { fd: *fd },
        Call::Close { fd } => Call::Close { fd: *fd },
        Call::RawRead { vba, range } => Call::RawRead {
            vba: *vba,
            range: *range,
        },
        Call::RawWrite { vba, lo, bytes } => Call::RawWrite {
            vba: *vba,
            lo: *lo,
            bytes: bytes.copy()?,
        },
    })
}

/// The call's own next action, once it may begin and has nothing to revoke.
fn own_act(
    fs: &Fs,
    descriptors: &Descriptors,
    call: &Call,
    process: Pid,
    running: &RunningCall,
    outstanding: &[u8],
) -> Option<Act>
    requires { IsCall call.now }
    ensures { AtPlace fs.now descriptors.now.rows call.now process running.now.opened
        (λ s p. ArePieceMarksOf running.now outstanding.now p.before → result ≡ own_act s
        (holder_in descriptors.now.held) (record { place = p; outstanding = outstanding.now }) call.now) }
{
    let table = descriptors.table();
    match call {
        Call::Enter {
            how: How::Plain,
            ..
        } => open_file(fs, table, call, process, running),
        Call::Enter {
            how: How::Direct,
            ..
        } => open_directly(fs, table, call, process, running),
        Call::Create { .. } => Some(Act::Created),
        Call::Read { .. } | Call::Write { .. } => {
            pieces_act(fs, descriptors, call, process, running, outstanding)
        }
        Call::Truncate { size, .. } => truncate(fs, table, call, process, running, *size),
        Call::Unlink { .. } => unlink(fs, table, call, process, running),
        Call::Size { .. } => tell_size(fs, table, call, process, running),
        Call::Map { fd } => attach_by(fs, table, process, *fd),
        Call::Close { .. } => Some(Act::Closed),
        Call::RawRead { .. } | Call::RawWrite { .. } => {
            Some(submit_or_poll(table, call, process, running, outstanding)?.act())
        }
    }
}

/// The next action of a read or a write.
fn pieces_act(
    fs: &Fs,
    descriptors: &Descriptors,
    call: &Call,
    process: Pid,
    running: &RunningCall,
    outstanding: &[u8],
) -> Option<Act>
    requires { IsCall call.now }
    ensures { AtPlace fs.now descriptors.now.rows call.now process running.now.opened
        (λ s p. ArePieceMarksOf running.now outstanding.now p.before → result
        ≡ option_or (submit_or_poll s (record { place = p; outstanding = outstanding.now }))
        (kernel_part s (holder_in descriptors.now.held) p)) }
{
    match submit_or_poll(descriptors.table(), call, process, running, outstanding) {
        Some(act) => Some(act.act()),
        None => kernel_part(fs, descriptors, call, process, running),
    }
}

/// What keeps the call of a process of this user from beginning, where it has not begun.
fn first_act(
    fs: &Fs,
    descriptors: &Descriptors,
    call: &Call,
    process: Pid,
    uid: u32,
    running: &RunningCall,
    begun: bool,
) -> Option<Act>
    ensures { AtPlace fs.now descriptors.now.rows call.now process running.now.opened
        (λ s p. user_of s process ≡ uid → result ≡ cond begun None
        (before_beginning s (holder_in descriptors.now.held) p (first_refusal s process call.now))) }
{
    if begun {
        return None;
    }
    let reason = first_refusal(fs, descriptors.table(), process, uid, call);
    before_beginning(fs, descriptors, call, process, running, reason)
}

/// What a call does that has begun, or may begin: first it revokes the rights that it has to.
fn act_in_course(
    fs: &Fs,
    descriptors: &Descriptors,
    call: &Call,
    process: Pid,
    running: &RunningCall,
    outstanding: &[u8],
) -> Option<Act>
    requires { IsCall call.now }
    ensures { AtPlace fs.now descriptors.now.rows call.now process running.now.opened
        (λ s p. ArePieceMarksOf running.now outstanding.now p.before → result
        ≡ option_or (revoke (keys_to_revoke s p call.now)) (own_act s (holder_in descriptors.now.held)
        (record { place = p; outstanding = outstanding.now }) call.now)) }
{
    let keys = keys_to_revoke(fs, descriptors.table(), call, process, running);
    let act = revoke(keys);
    if act.is_some() {
        return act;
    }
    own_act(fs, descriptors, call, process, running, outstanding)
}

/// The first action that a call of a process of this user still needs, with these marks of its entries so far and
/// these pieces outstanding.
fn next_act(
    fs: &Fs,
    descriptors: &Descriptors,
    call: &Call,
    process: Pid,
    uid: u32,
    running: &RunningCall,
    outstanding: &[u8],
) -> Option<Act>
    requires { IsCall call.now }
    ensures { IsNextActOf fs.now descriptors.now call.now process uid running.now outstanding.now result }
{
    let begun = has_begun(running, outstanding);
    let act = first_act(fs, descriptors, call, process, uid, running, begun);
    if act.is_some() {
        return act;
    }
    act_in_course(fs, descriptors, call, process, running, outstanding)
}

impl KernelCall {
    /// A call that has done nothing yet. The only error is that no memory is found.
    pub fn begin(
        alloc: Global,
        call: &Call,
        process: Pid,
        uid: u32,
    ) -> Result<KernelCall, OutOfMemory>
        requires { IsCall call.now }
        ensures call { IfOk result (λ c. c.call ≡ call.now) }
        ensures process { IfOk result (λ c. c.process ≡ process) }
        ensures user { IfOk result (λ c. c.uid ≡ uid) }
        ensures entries { IfOk result (λ c. AreEntriesOf c []) }
        ensures outstanding { IfOk result (λ c. c.outstanding ≡ []) }
        ensures runs { IfOk result (λ c. c.finished ≡ false) }
    {
        let copy = copy_call(alloc, call)?;
        Ok(KernelCall {
            call: copy,
            process,
            uid,
            running: RunningCall::new(),
            outstanding: Outstanding::new(),
            finished: false,
        })
    }

    /// The first action of the call that is still needed; None where there is none.
    ///
    /// Busy tells the file and the process that holds it; Refuse has the reason, and the piece where one alone is
    /// refused.
    pub fn next(&self, fs: &Fs, descriptors: &Descriptors) -> Option<Act>
        ensures { IsNextAct fs.now descriptors.now self.now result }
    {
        next_act(
            fs,
            descriptors,
            &self.call,
            self.process,
            self.uid,
            &self.running,
            self.outstanding.as_slice(),
        )
    }

    /// What the call waits for: that which [`KernelCall::next`] would wait for, if it would. No action is made for
    /// this, so that a turn that waits copies nothing.
    pub fn blocker(&self, fs: &Fs, descriptors: &Descriptors) -> Option<Blocker>
        ensures blocker { IsBlocker fs.now descriptors.now self.now result }
        ensures outstanding { result ≡ Some Completion → 0 < length self.now.outstanding }
    {
        next_blocker(
            fs,
            descriptors,
            &self.call,
            self.process,
            self.uid,
            &self.running,
            self.outstanding.as_slice(),
        )
    }

    /// What [`KernelCall::blocker`] answers of this call of a process of this user as soon as it is begun.
    pub fn first_blocker(
        fs: &Fs,
        descriptors: &Descriptors,
        call: &Call,
        process: Pid,
        uid: u32,
    ) -> Option<Blocker>
        requires { IsCall call.now }
        ensures blocker { IsFirstBlocker fs.now descriptors.now call.now process uid result }
        ensures outstanding { result ≢ Some Completion }
    {
        let running = RunningCall::new();
        next_blocker(fs, descriptors, call, process, uid, &running, &[])
    }

    /// Takes note of an entry that was added in its name: by its processor, by its device engine, or by the invalidation
    /// engine.
    pub fn note(&mut self, entry: &Entry)
        requires { HasPieceOf entry.now }
        ensures same { IsSameCall self.old self.new }
        ensures commands { self.new.outstanding ≡ self.old.outstanding }
        ensures entry { Takes self.old entry.now self.new }
    {
        self.running.note(entry);
        self.finished = self.running.is_ended_by(&self.call, entry);
    }

    /// The command of this piece was submitted.
    pub fn submitted(&mut self, piece: u8)
        requires { length self.old.outstanding < PIECES }
        ensures { self.new ≡ record self.old { outstanding = self.old.outstanding ++ piece ∷ [] } }
    {
        self.outstanding.push(piece);
    }

    /// The completion of the oldest command was taken.
    pub fn polled(&mut self)
        requires { 0 < length self.old.outstanding }
        ensures { self.new ≡ record self.old { outstanding = drop 1 self.old.outstanding } }
    {
        self.outstanding.pop_front();
    }

    /// Whether the entries of the call end it.
    pub fn finished(&self) -> bool
        ensures { result ≡ self.now.finished }
    {
        self.finished
    }

    /// Whether the call's last action was carried out: its entries end it, and no command of it is outstanding.
    pub fn ended(&self) -> bool
        ensures { result ≡ (self.now.finished && nat_eq (length self.now.outstanding) 0) }
    {
        self.finished && self.outstanding.is_empty()
    }

    /// The descriptor of the call: the one that an open opened, that of a raw command's address, or the one named.
    pub fn fd(&self) -> Option<u8>
        ensures { (before : List Entry) → AreEntriesOf self.now before
            → result ≡ fd_of_call self.now.call before }
    {
        fd_of_call(&self.call, self.running.opened())
    }

    /// The file of the call: the one of its name, or else of its descriptor.
    pub fn file(&self, fs: &Fs, descriptors: &Descriptors) -> Option<FileId>
        ensures { IsFileOf fs.now descriptors.now self.now result }
    {
        file_of(
            fs,
            descriptors.table(),
            &self.call,
            self.process,
            &self.running,
        )
    }

    /// Whether the walk of this piece may have found this: the entry that notes it would keep the rule of rights.
    pub fn may_miss(&self, fs: &Fs, descriptors: &Descriptors, piece: u8, found: Found) -> bool
        ensures { MayMissAt fs.now descriptors.now self.now piece found result }
    {
        may_miss(
            fs,
            descriptors.table(),
            &self.call,
            self.process,
            &self.running,
            piece,
            found,
        )
    }

    /// The least piece whose command is outstanding; there is one.
    pub fn least_outstanding(&self) -> u8
        requires { 0 < length self.now.outstanding }
        ensures outstanding { Contains self.now.outstanding result }
        ensures least { All (λ piece. result ≤ piece) self.now.outstanding }
    {
        least_of(self.outstanding.as_slice())
    }
}

/// The least of these numbers; there is one.
fn least_of(numbers: &[u8]) -> u8
    requires { 0 < length numbers.now }
    ensures among { Contains numbers.now result }
    ensures least { All (λ number. result ≤ number) numbers.now }
{
    *numbers.iter().min().unwrap()
}
