//! What keeps a call from beginning: a reason, or the holder of its file.
ghost use Rattle.std.specs.Prelude.{◌≡◌, ℕ, Some};
ghost use Rattle.std.specs.Option.{option_map};
ghost use Rattle.bd_entry.specs.Actions.{before_beginning, busy, busy_at_first, comes_before_holder, has_begun, tests_for_holder, wait_for};
ghost use Rattle.bd_entry.specs.Calls.{Place};
ghost use Rattle.bd_kernel.specs.Blockers.{busy_by};
ghost use Rattle.bd_kernel.specs.Holders.{holder_in};
ghost use Rattle.bd_kernel.specs.Marks.{AreMarksOf};
ghost use Rattle.bd_kernel.specs.Sights.{AtPlace};

use crate::descriptors::Descriptors;
use crate::place::file_of;
use crate::running_call::RunningCall;
use bd_base::{Call, FileId, Pid, Reason};
use bd_entry::Act;
use bd_fs::Fs;

/// Whether a call with these marks of its entries has begun: it has one, or a command of it is outstanding.
pub fn has_begun(running: &RunningCall, outstanding: &[u8]) -> bool
    ensures { (p : Place) → AreMarksOf running.now p.before → result
        ≡ has_begun (record { place = p; outstanding = outstanding.now }) }
{
    !outstanding.is_empty() || running.has_begun()
}

/// Whether the reason is tested before the file's holder is.
pub fn comes_before_holder(reason: &Reason) -> bool
    ensures { result ≡ comes_before_holder reason.now }
{
    match reason {
        Reason::NoFile | Reason::BadFd | Reason::ReadOnly | Reason::TooBig => true,
        Reason::Exists
        | Reason::Denied(_)
        | Reason::Inodes
        | Reason::NoSpace
        | Reason::Extents
        | Reason::OpenBy(_, _)
        | Reason::FdsFull
        | Reason::KernelOpen(_) => false,
    }
}

/// Whether the call waits, as it begins, while another process holds its file.
fn tests_for_holder(call: &Call) -> bool
    ensures { result ≡ tests_for_holder call.now }
{
    match call {
        Call::Enter { .. }
        | Call::Truncate { .. }
        | Call::Unlink { .. }
        | Call::Size { .. }
        | Call::Map { .. }
        | Call::Close { .. } => true,
        Call::Create { .. }
        | Call::Read { .. }
        | Call::Write { .. }
        | Call::RawRead { .. }
        | Call::RawWrite { .. } => false,
    }
}

/// The file and its holder, where that is another process than this one, which then waits.
fn wait_for(process: Pid, file: FileId, holder: Option<Pid>) -> Option<(FileId, Pid)>
    ensures { option_map busy_by result ≡ wait_for process file holder }
{
    match holder {
        Some(holder) => {
            if holder == process {
                None
            } else {
                Some((file, holder))
            }
        }
        None => None,
    }
}

/// The call's file and its holder, where that is another process: the call waits for it.
pub fn busy(
    fs: &Fs,
    descriptors: &Descriptors,
    call: &Call,
    process: Pid,
    running: &RunningCall,
) -> Option<(FileId, Pid)>
    ensures { AtPlace fs.now descriptors.now.rows call.now process running.now.opened
        (λ s p. option_map busy_by result ≡ busy s (holder_in descriptors.now.held) p) }
{
    let file = file_of(fs, descriptors.table(), call, process, running)?;
    wait_for(process, file, descriptors.holder(file))
}

/// The same as the call begins, where it tests that.
pub fn busy_at_first(
    fs: &Fs,
    descriptors: &Descriptors,
    call: &Call,
    process: Pid,
    running: &RunningCall,
) -> Option<(FileId, Pid)>
    ensures { AtPlace fs.now descriptors.now.rows call.now process running.now.opened
        (λ s p. option_map busy_by result ≡ busy_at_first s (holder_in descriptors.now.held) p) }
{
    if tests_for_holder(call) {
        busy(fs, descriptors, call, process, running)
    } else {
        None
    }
}

/// What keeps the call from beginning, where this reason does, if any.
pub fn before_beginning(
    fs: &Fs,
    descriptors: &Descriptors,
    call: &Call,
    process: Pid,
    running: &RunningCall,
    reason: Option<Reason>,
) -> Option<Act>
    ensures { AtPlace fs.now descriptors.now.rows call.now process running.now.opened
        (λ s p. result ≡ before_beginning s (holder_in descriptors.now.held) p reason) }
{
    let Some(reason) = reason else {
        let (file, holder) = busy_at_first(fs, descriptors, call, process, running)?;
        return Some(Act::Busy(file, holder));
    };
    if comes_before_holder(&reason) {
        return Some(Act::Refuse(None, reason));
    }
    match busy_at_first(fs, descriptors, call, process, running) {
        Some((file, holder)) => Some(Act::Busy(file, holder)),
        None => Some(Act::Refuse(None, reason)),
    }
}
