//! The rules that look at the script and at the entries before, 1 to 3.
ghost use Rattle.std.specs.Prelude.{◌≡◌, ◌↔◌, true, List, Some};
ghost use Rattle.bd_base.specs.Scripts.{IsCall};
ghost use Rattle.std.specs.Option.{option_copied};
ghost use Rattle.bd_entry.specs.declared.entry.Entry.{Entry};
ghost use Rattle.bd_entry.specs.Calls.{at_of, call_at, fd_of_call};
ghost use Rattle.bd_entry.specs.RulesOfCalls.{CreatesAs, HasFieldsOf, IsFirstOfKind, IsOfCall, MayClear, OpensAs};
ghost use Rattle.bd_kernel.specs.Marks.{AreMarksOf};

use crate::calls::is_made_by;
use bd_base::{At, Call, Fd, How, Mode, Name, Pid, Script};
use bd_entry::{Entry, at_of};
use bd_kernel::{RunningCall, does_write, fd_of_call, piece_of};
use bd_pieces::Piece;

/// The call of this number of this process.
pub(crate) fn call_at<'a>(script: &'a Script, at: &At) -> Option<&'a Call>
    ensures { option_copied result ≡ call_at script.now at.now }
{
    let process = script.processes.as_slice().get(at.process.get() as usize)?;
    process.calls.as_slice().get(usize::from(at.call))
}

/// Whether the entry fits its call, of which this is kept: rule 2.
pub(crate) fn fits_call(running: &RunningCall, call: &Call, entry: &Entry) -> bool
    requires { IsCall call.now }
    ensures { (entries : List Entry) → AreMarksOf running.now entries →
        (result ≡ true)
        ↔ IsOfCall (record { call = call.now; at = at_of entry.now; before = entries }) entry.now }
{
    is_made_by(call, entry) && has_fields_of(running, call, entry)
}

/// Whether the fields of the entry are those of its call.
fn has_fields_of(running: &RunningCall, call: &Call, entry: &Entry) -> bool
    requires { IsCall call.now }
    ensures { (entries : List Entry) → AreMarksOf running.now entries →
        (result ≡ true)
        ↔ HasFieldsOf (record { call = call.now; at = at_of entry.now; before = entries }) entry.now }
{
    match entry {
        Entry::Opened { mode, how, .. } => opens_as(call, *mode, *how),
        Entry::Created { name, perms, .. } => creates_as(call, name, *perms),
        Entry::Attached { fd, .. }
        | Entry::Mapped { fd, .. }
        | Entry::Sized { fd, .. }
        | Entry::SizeRead { fd, .. }
        | Entry::Closed { fd, .. } => is_fd_of(running, call, *fd),
        Entry::Cleared { owner, fd, .. } | Entry::Detached { owner, fd, .. } => {
            may_clear(call, at_of(entry).process, *owner, *fd)
        }
        Entry::Access {
            piece,
            fd,
            index,
            range,
            wrote,
            ..
        } => {
            let told = Piece {
                index: *index,
                range: *range,
            };
            is_fd_of(running, call, *fd)
                && piece_of(call, *piece) == Some(told)
                && *wrote == does_write(call)
        }
        Entry::Missed { piece, .. }
        | Entry::Refused {
            piece: Some(piece),
            ..
        } => piece_of(call, *piece).is_some(),
        Entry::Extended { .. }
        | Entry::Released { .. }
        | Entry::Unlinked { .. }
        | Entry::Refused { piece: None, .. } => true,
    }
}

/// Whether this is the descriptor of the call.
fn is_fd_of(running: &RunningCall, call: &Call, fd: Fd) -> bool
    ensures { (entries : List Entry) → AreMarksOf running.now entries →
        (result ≡ true) ↔ (fd_of_call call.now entries ≡ Some fd) }
{
    fd_of_call(call, running.opened()) == Some(fd.get() as u8)
}

/// Whether the call is an open of this mode and in this way.
fn opens_as(call: &Call, entry_mode: Mode, entry_how: How) -> bool
    ensures { (result ≡ true) ↔ OpensAs call.now entry_mode entry_how }
{
    match call {
        Call::Enter { mode, how, .. } => *mode == entry_mode && *how == entry_how,
        Call::Create { .. }
        | Call::Read { .. }
        | Call::Write { .. }
        | Call::Truncate { .. }
        | Call::Unlink { .. }
        | Call::Size { .. }
        | Call::Map { .. }
        | Call::Close { .. }
        | Call::RawRead { .. }
        | Call::RawWrite { .. } => false,
    }
}

/// Whether the call makes a file of this name and these perms.
fn creates_as(call: &Call, entry_name: &Name, entry_perms: u8) -> bool
    ensures { (result ≡ true) ↔ CreatesAs call.now entry_name.now entry_perms }
{
    match call {
        Call::Create { name, perms } => {
            name.as_slice() == entry_name.as_slice() && *perms == entry_perms
        }
        Call::Enter { .. }
        | Call::Read { .. }
        | Call::Write { .. }
        | Call::Truncate { .. }
        | Call::Unlink { .. }
        | Call::Size { .. }
        | Call::Map { .. }
        | Call::Close { .. }
        | Call::RawRead { .. }
        | Call::RawWrite { .. } => false,
    }
}

/// Whether the call may take away the right of this descriptor: a close that of its own alone.
fn may_clear(call: &Call, process: Pid, owner: Pid, fd: Fd) -> bool
    ensures { (result ≡ true) ↔ MayClear call.now process owner fd }
{
    match call {
        Call::Close { fd: named } => owner == process && fd.get() == u64::from(*named),
        Call::Enter { .. }
        | Call::Create { .. }
        | Call::Read { .. }
        | Call::Write { .. }
        | Call::Truncate { .. }
        | Call::Unlink { .. }
        | Call::Size { .. }
        | Call::Map { .. }
        | Call::RawRead { .. }
        | Call::RawWrite { .. } => true,
    }
}

/// Whether nothing is done twice by the entry after those of its call, of which this is kept: rule 3.
pub(crate) fn is_first_of_kind(running: &RunningCall, entry: &Entry) -> bool
    ensures { (entries : List Entry) → AreMarksOf running.now entries →
        (result ≡ true) ↔ IsFirstOfKind entries entry.now }
{
    match entry {
        Entry::Opened { .. } => running.opened().is_none(),
        Entry::Access { piece, .. } => !running.is_answered(*piece),
        Entry::Refused {
            piece: Some(piece),
            ..
        } => !running.is_answered(*piece),
        Entry::Missed { piece, .. } => !running.is_answered(*piece) && !running.has_missed(*piece),
        Entry::Created { .. }
        | Entry::Attached { .. }
        | Entry::Mapped { .. }
        | Entry::Cleared { .. }
        | Entry::Detached { .. }
        | Entry::Extended { .. }
        | Entry::Released { .. }
        | Entry::Sized { .. }
        | Entry::SizeRead { .. }
        | Entry::Closed { .. }
        | Entry::Unlinked { .. }
        | Entry::Refused { piece: None, .. } => true,
    }
}
