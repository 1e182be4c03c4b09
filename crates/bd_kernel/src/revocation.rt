//! Which rights a call revokes.
ghost use Rattle.std.specs.Prelude.{◌≡◌, [], cond, nat_lt};
ghost use Rattle.std.specs.Option.{option_map_or};
ghost use Rattle.bd_entry.specs.Store.{size_at, size_in};
ghost use Rattle.bd_entry.specs.Refusals.{file_of};
ghost use Rattle.bd_entry.specs.Actions.{keys_by, keys_on, keys_to_revoke, revoke};
ghost use Rattle.bd_kernel.specs.Sights.{AtPlace, bare, no_files};

use crate::place::{file_of, size_of};
use crate::running_call::RunningCall;
use crate::table::DescriptorTable;
use bd_base::{Call, FileId, How, KeyList, Pid};
use bd_entry::Act;
use bd_fs::Fs;

/// The keys of the rights on the file, if there is one.
fn keys_on_file(table: &DescriptorTable, file: Option<FileId>) -> KeyList
    ensures { result ≡ option_map_or (keys_on (bare no_files table.now)) file [] }
{
    match file {
        Some(file) => table.keys_on(file),
        None => KeyList::new(),
    }
}

/// The keys of the rights on the file, if there is one and this size is below its own.
fn keys_above(fs: &Fs, table: &DescriptorTable, file: Option<FileId>, size: u64) -> KeyList
    ensures { result ≡ option_map_or (λ file. cond (nat_lt size (size_at fs.now.files file))
        (keys_on (bare no_files table.now) file) []) file [] }
{
    let Some(file) = file else {
        return KeyList::new();
    };
    if size < size_of(fs, file) {
        table.keys_on(file)
    } else {
        KeyList::new()
    }
}

/// The keys of the rights on the call's file.
fn keys_of_file(
    fs: &Fs,
    table: &DescriptorTable,
    call: &Call,
    process: Pid,
    running: &RunningCall,
) -> KeyList
    ensures { AtPlace fs.now table.now call.now process running.now.opened
        (λ s p. result ≡ option_map_or (keys_on s) (file_of s p) []) }
{
    keys_on_file(table, file_of(fs, table, call, process, running))
}

/// The keys of the rights on the call's file, where this size is below its own.
fn keys_of_longer(
    fs: &Fs,
    table: &DescriptorTable,
    call: &Call,
    process: Pid,
    running: &RunningCall,
    size: u64,
) -> KeyList
    ensures { AtPlace fs.now table.now call.now process running.now.opened
        (λ s p. result ≡ option_map_or (λ file. cond (nat_lt size (size_in s file)) (keys_on s file) [])
        (file_of s p) []) }
{
    keys_above(fs, table, file_of(fs, table, call, process, running), size)
}

/// The keys that the call has to revoke before its end: a plain open and a truncation that lowers the size those on the
/// file, a close those of its descriptor.
pub fn keys_to_revoke(
    fs: &Fs,
    table: &DescriptorTable,
    call: &Call,
    process: Pid,
    running: &RunningCall,
) -> KeyList
    ensures { AtPlace fs.now table.now call.now process running.now.opened
        (λ s p. result ≡ keys_to_revoke s p call.now) }
{
    match call {
        Call::Enter { how, .. } => match how {
            How::Plain => keys_of_file(fs, table, call, process, running),
            How::Direct => KeyList::new(),
        },
        Call::Truncate { size, .. } => { keys_of_longer(fs, table, call, process, running, *size) }
        Call::Close { fd } => table.keys_by(process, *fd),
        Call::Create { .. }
        | Call::Read { .. }
        | Call::Write { .. }
        | Call::Unlink { .. }
        | Call::Size { .. }
        | Call::Map { .. }
        | Call::RawRead { .. }
        | Call::RawWrite { .. } => KeyList::new(),
    }
}

/// The keys are revoked, if there are any.
pub fn revoke(keys: KeyList) -> Option<Act>
    ensures { result ≡ revoke keys }
{
    if keys.as_slice().is_empty() {
        None
    } else {
        Some(Act::Revoke(keys))
    }
}
