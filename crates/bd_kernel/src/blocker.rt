//! What a call waits for.
ghost use Rattle.std.specs.Prelude.{◌≡◌, ◌≢◌, ◌<◌, [], Some, length};
ghost use Rattle.std.specs.Option.{option_map, option_or};
ghost use Rattle.bd_base.specs.Scripts.{IsCall};
ghost use Rattle.bd_entry.specs.Actions.{before_beginning, keys_to_revoke, kernel_part, own_act, revoke, submit_or_poll};
ghost use Rattle.bd_entry.specs.Store.{user_of};
ghost use Rattle.bd_fs.specs.Files.{Files};
ghost use Rattle.bd_kernel.specs.Blockers.{blocker_in, busy_by};
ghost use Rattle.bd_kernel.specs.declared.blocker.Blocker.TheVariants.{Completion};
ghost use Rattle.bd_kernel.specs.Holders.{holder_in};
ghost use Rattle.bd_kernel.specs.Sights.{AtPlace};
ghost use Rattle.bd_kernel.specs.Turns.{ArePieceMarksOf, IsBlockerOf};

use crate::beginning::{busy, busy_at_first, comes_before_holder, has_begun};
use crate::descriptors::Descriptors;
use crate::pieces::{DeviceAct, submit_or_poll};
use crate::place::kernel_number;
use crate::refusals::first_refusal;
use crate::running_call::RunningCall;
use crate::table::DescriptorTable;
use bd_base::{Call, FileId, Pid, Reason};
use bd_fs::Fs;

/// What a call waits for before it does anything else.
#[derive(Clone, Copy, Debug, PartialEq, Eq)]
pub enum Blocker {
    /// Another process, this one, holds the file.
    Holder(FileId, Pid),
    /// Commands of it are outstanding: it takes the next completion, once that has come.
    Completion,
}

/// The holder of a file, if there is one, as what is waited for.
fn holder_of(busy: Option<(FileId, Pid)>) -> Option<Blocker>
    ensures blocker { result ≡ blocker_in (option_map busy_by busy) }
    ensures holder { result ≢ Some Completion }
{
    let (file, holder) = busy?;
    Some(Blocker::Holder(file, holder))
}

/// The holder of the file, if the kernel has a piece of the call left to do.
fn blocker_of_kernel_part(
    fs: &Fs,
    descriptors: &Descriptors,
    call: &Call,
    process: Pid,
    running: &RunningCall,
) -> Option<Blocker>
    requires { IsCall call.now }
    ensures blocker { AtPlace fs.now descriptors.now.rows call.now process running.now.opened
        (λ s p. ArePieceMarksOf running.now [] p.before
        → result ≡ blocker_in (kernel_part s (holder_in descriptors.now.held) p)) }
    ensures holder { result ≢ Some Completion }
{
    kernel_number(descriptors.table(), call, process, running)?;
    holder_of(busy(fs, descriptors, call, process, running))
}

/// What a read or a write waits for.
fn blocker_of_pieces(
    fs: &Fs,
    descriptors: &Descriptors,
    call: &Call,
    process: Pid,
    running: &RunningCall,
    outstanding: &[u8],
) -> Option<Blocker>
    requires { IsCall call.now }
    ensures blocker { AtPlace fs.now descriptors.now.rows call.now process running.now.opened
        (λ s p. ArePieceMarksOf running.now outstanding.now p.before → result
        ≡ blocker_in (option_or (submit_or_poll s (record { place = p; outstanding = outstanding.now }))
        (kernel_part s (holder_in descriptors.now.held) p))) }
    ensures outstanding { result ≡ Some Completion → 0 < length outstanding.now }
{
    match submit_or_poll(descriptors.table(), call, process, running, outstanding) {
        Some(DeviceAct::Submit(_)) => None,
        Some(DeviceAct::Poll) => Some(Blocker::Completion),
        None => blocker_of_kernel_part(fs, descriptors, call, process, running),
    }
}

/// What a raw command waits for.
fn blocker_of_command(
    table: &DescriptorTable,
    call: &Call,
    process: Pid,
    running: &RunningCall,
    outstanding: &[u8],
) -> Option<Blocker>
    requires { IsCall call.now }
    ensures blocker { (fs : Files) → AtPlace fs table.now call.now process running.now.opened
        (λ s p. ArePieceMarksOf running.now outstanding.now p.before → result
        ≡ blocker_in (submit_or_poll s (record { place = p; outstanding = outstanding.now }))) }
    ensures outstanding { result ≡ Some Completion → 0 < length outstanding.now }
{
    match submit_or_poll(table, call, process, running, outstanding)? {
        DeviceAct::Submit(_) => None,
        DeviceAct::Poll => Some(Blocker::Completion),
    }
}

/// What a call waits for that has begun, or may begin.
fn blocker_in_course(
    fs: &Fs,
    descriptors: &Descriptors,
    call: &Call,
    process: Pid,
    running: &RunningCall,
    outstanding: &[u8],
) -> Option<Blocker>
    requires { IsCall call.now }
    ensures blocker { AtPlace fs.now descriptors.now.rows call.now process running.now.opened
        (λ s p. ArePieceMarksOf running.now outstanding.now p.before → result
        ≡ blocker_in (option_or (revoke (keys_to_revoke s p call.now)) (own_act s (holder_in descriptors.now.held)
        (record { place = p; outstanding = outstanding.now }) call.now))) }
    ensures outstanding { result ≡ Some Completion → 0 < length outstanding.now }
{
    match call {
        Call::Read { .. } | Call::Write { .. } => {
            blocker_of_pieces(fs, descriptors, call, process, running, outstanding)
        }
        Call::RawRead { .. } | Call::RawWrite { .. } => {
            blocker_of_command(descriptors.table(), call, process, running, outstanding)
        }
        Call::Enter { .. }
        | Call::Create { .. }
        | Call::Truncate { .. }
        | Call::Unlink { .. }
        | Call::Size { .. }
        | Call::Map { .. }
        | Call::Close { .. } => None,
    }
}

/// What a call that this reason refuses waits for before it is: the holder of its file, unless the reason comes before
/// that.
fn blocker_of_refused(
    fs: &Fs,
    descriptors: &Descriptors,
    call: &Call,
    process: Pid,
    running: &RunningCall,
    reason: &Reason,
) -> Option<Blocker>
    ensures blocker { AtPlace fs.now descriptors.now.rows call.now process running.now.opened
        (λ s p. result ≡ blocker_in (before_beginning s (holder_in descriptors.now.held) p (Some reason.now))) }
    ensures holder { result ≢ Some Completion }
{
    if comes_before_holder(reason) {
        return None;
    }
    holder_of(busy_at_first(fs, descriptors, call, process, running))
}

/// What a call of a process of this user waits for, with these marks of its entries so far and these pieces
/// outstanding.
pub fn next_blocker(
    fs: &Fs,
    descriptors: &Descriptors,
    call: &Call,
    process: Pid,
    uid: u32,
    running: &RunningCall,
    outstanding: &[u8],
) -> Option<Blocker>
    requires { IsCall call.now }
    ensures blocker { IsBlockerOf fs.now descriptors.now call.now process uid running.now outstanding.now result }
    ensures outstanding { result ≡ Some Completion → 0 < length outstanding.now }
{
    if has_begun(running, outstanding) {
        return blocker_in_course(fs, descriptors, call, process, running, outstanding);
    }
    if let Some(reason) = first_refusal(fs, descriptors.table(), process, uid, call) {
        return blocker_of_refused(fs, descriptors, call, process, running, &reason);
    }
    let holder = holder_of(busy_at_first(fs, descriptors, call, process, running));
    if holder.is_some() {
        return holder;
    }
    blocker_in_course(fs, descriptors, call, process, running, outstanding)
}
