//! The descriptors of all processes, and how many pairs of a file and a part have a right.
ghost use Rattle.std.specs.Prelude.{◌≡◌, ◌<◌, ◌≤◌, ◌||◌, ℕ, true, [], None, IfOk, IsSome, is_some, length, nat_lt, position, replicate, slice_index_or};
ghost use Rattle.std.specs.List.{list_any};
ghost use Rattle.std.specs.Option.{option_copied, option_map};
ghost use Rattle.bd_base.specs.declared.limits.TheConstants.{DESCRIPTORS, FRAGMENTS, PROCESSES};
ghost use Rattle.bd_entry.specs.Actions.{keys_by, keys_of_slot, keys_on};
ghost use Rattle.bd_entry.specs.Effects.{attach, clear, detach};
ghost use Rattle.bd_kernel.specs.Sights.{bare, no_files};
ghost use Rattle.bd_entry.specs.Store.{first_holder, has_part, is_attached_of, is_empty_slot, is_open_of, is_plain_of, pairs_of_slot, same_pair};
ghost use Rattle.bd_kernel.specs.Changes.{CanFollow, changed, changed_rows, has_right, pairs_of_rows, rows_after, rows_with_slot, slot_at, uses_pair};
ghost use Rattle.bd_kernel.specs.declared.descriptor.Change.TheVariants.{Know, Tell};

use crate::descriptor::{Change, Descriptor};
use crate::row::Row;
use bd_base::{FILES, FRAGMENTS, Fd, FileId, KeyList, OutOfMemory, PARTS, Part, Pid};
use bd_entry::Entry;
use std::alloc::Global;
use std::marker::Model;

/// A process and the number of one of its descriptors.
#[derive(Clone, Copy, Debug, PartialEq, Eq)]
pub struct Holder {
    pub process: Pid,
    pub fd: Fd,
}

impl Model for Holder {
    ghost use Rattle.bd_entry.specs.Store.{Holder};

    ghost Value = { Holder };

    ghost view = { λ a. record { process = a.process; fd = a.fd } };

    ghost inverse = { λ h. record { process = h.process; fd = h.fd } };
}

/// The descriptors of each process.
#[derive(Drop)]
pub struct DescriptorTable {
    rows: Vec<Row>,
    // How many pairs of a file and a part have a right.
    pairs: usize,
}

impl Model for DescriptorTable {
    ghost use Rattle.std.specs.Prelude.{List, Option};
    ghost use Rattle.bd_entry.specs.Store.{Descriptor};
    ghost use Rattle.bd_kernel.specs.Changes.{AreCounted};

    ghost Value = { List (List (Option Descriptor)) };

    ghost view = { λ a. a.rows.items };

    ghost invariant = { λ a. AreCounted a.pairs a.rows.items };
}

impl DescriptorTable {
    /// No open descriptor of so many processes.
    pub fn new(alloc: Global, processes: usize) -> Result<DescriptorTable, OutOfMemory>
        requires { processes ≤ PROCESSES }
        ensures { IfOk result (λ rows. rows ≡ replicate processes (replicate DESCRIPTORS None)) }
    {
        let mut rows = Vec::with_capacity(alloc, processes)?;
        for _process in 0..processes {
            rows.push(Row::new(alloc)?)?;
        }
        Ok(DescriptorTable { rows, pairs: 0 })
    }

    /// The descriptor of a process with this number.
    pub fn get(&self, process: Pid, fd: u8) -> Option<&Descriptor>
        ensures { option_copied result ≡ slot_at self.now process fd }
    {
        self.rows.get(process.get() as usize)?.get(fd)
    }

    /// This number, where the process has it open.
    pub fn open_number(&self, process: Pid, fd: u8) -> Option<Fd>
        ensures { result ≡ option_map (λ d. fd) (slot_at self.now process fd) }
    {
        self.rows.get(process.get() as usize)?.open_number(fd)
    }

    /// The lowest descriptor number that the process has not open.
    pub fn lowest_free(&self, process: Pid) -> Option<Fd>
        ensures { result ≡ position is_empty_slot (slice_index_or self.now process []) }
    {
        self.rows.get(process.get() as usize)?.lowest_free()
    }

    /// The least process, and then its least descriptor, that has the file open.
    pub fn first_open(&self, file: FileId) -> Option<Holder>
        ensures { result ≡ first_holder (is_open_of file) 0 self.now }
    {
        for (process, row) in self.rows.iter().enumerate() {
            if let Some(fd) = row.first_open(file) {
                let process = Pid::new(process as u64).unwrap();
                return Some(Holder { process, fd });
            }
        }
        None
    }

    /// The least process, and then its least descriptor, that has the file open by the kernel alone.
    pub fn first_plain(&self, file: FileId) -> Option<Holder>
        ensures { result ≡ first_holder (is_plain_of file) 0 self.now }
    {
        for (process, row) in self.rows.iter().enumerate() {
            if let Some(fd) = row.first_plain(file) {
                let process = Pid::new(process as u64).unwrap();
                return Some(Holder { process, fd });
            }
        }
        None
    }

    /// Whether some process has the file open by the kernel alone.
    pub fn has_plain(&self, file: FileId) -> bool
        ensures { result ≡ is_some (first_holder (is_plain_of file) 0 self.now) }
    {
        self.first_plain(file).is_some()
    }

    /// Whether some right on the file is attached.
    pub fn has_rights_on(&self, file: FileId) -> bool
        ensures { result ≡ list_any (list_any (is_attached_of file)) self.now }
    {
        self.rows.iter().any(|row| row.has_rights_on(file))
    }

    /// Whether a right can be given on the part of the file: some right stands on it already, or fewer pairs than
    /// fragments have one.
    pub fn has_fragment(&self, file: FileId, part: Part) -> bool
        ensures { result ≡ (list_any (same_pair (file, part)) (pairs_of_rows self.now)
            || nat_lt (length (pairs_of_rows self.now)) FRAGMENTS) }
    {
        has_pair(&self.rows, file, part) || (self.pairs as u64) < FRAGMENTS
    }

    /// The keys of all rights on the file, by process, descriptor and part.
    pub fn keys_on(&self, file: FileId) -> KeyList
        ensures { result ≡ keys_on (bare no_files self.now) file }
    {
        keys_on(&self.rows, file)
    }

    /// The keys of the rights of one descriptor, by part.
    pub fn keys_by(&self, process: Pid, fd: u8) -> KeyList
        ensures { result ≡ keys_by (bare no_files self.now) process fd }
    {
        match self.open_number(process, fd) {
            Some(number) => keys_of(self.get(process, fd), process, number),
            None => KeyList::new(),
        }
    }

    /// A descriptor without rights is opened under a number that is not open, or one without rights is closed.
    pub fn put(&mut self, process: Pid, fd: Fd, slot: Option<Descriptor>)
        requires process { process < length self.old }
        requires old { pairs_of_slot (slot_at self.old process fd) ≡ [] }
        requires new { pairs_of_slot slot ≡ [] }
        ensures { self.new ≡ rows_with_slot self.old process fd slot }
    {
        self.rows[process.get() as usize].put(fd, slot);
    }

    /// An entry's own change of the descriptors.
    pub fn follow(&mut self, entry: &Entry)
        requires { CanFollow self.old entry.now }
        ensures { self.new ≡ rows_after self.old entry.now }
    {
        match entry {
            Entry::Opened {
                at,
                file,
                fd,
                mode,
                how,
            } => self.put(at.process, *fd, Some(Descriptor::new(*file, *mode, *how))),
            Entry::Attached { at, fd, part } => self.attach(at.process, *fd, *part),
            Entry::Cleared {
                owner,
                fd,
                part,
                ..
            } => self.clear(*owner, *fd, *part),
            Entry::Detached {
                owner,
                fd,
                part,
                ..
            } => self.detach(*owner, *fd, *part),
            Entry::Closed { at, fd } => self.put(at.process, *fd, None),
            Entry::Created { .. }
            | Entry::Mapped { .. }
            | Entry::Access { .. }
            | Entry::Missed { .. }
            | Entry::Extended { .. }
            | Entry::Released { .. }
            | Entry::Sized { .. }
            | Entry::SizeRead { .. }
            | Entry::Unlinked { .. }
            | Entry::Refused { .. } => {}
        }
    }

    /// The descriptor, which is open, gets a right on the part.
    pub fn attach(&mut self, process: Pid, fd: Fd, part: Part)
        requires { IsSome (slot_at self.old process fd) }
        ensures { self.new ≡ changed_rows self.old process fd (attach part) }
    {
        let file = self.get(process, fd.get() as u8).unwrap().file;
        // So there are no more pairs than parts of all files.
        prove!(file.get() < FILES);
        prove!(part.get() < PARTS);
        if !has_pair(&self.rows, file, part) {
            self.pairs += 1;
        }
        change_row(
            &mut self.rows,
            process,
            fd.get() as u8,
            Change::Attach(part),
        );
    }

    /// The descriptor loses its right on the part.
    pub fn detach(&mut self, process: Pid, fd: Fd, part: Part)
        requires open { IsSome (slot_at self.old process fd) }
        requires attached { has_right part (slot_at self.old process fd) ≡ true }
        ensures { self.new ≡ changed_rows self.old process fd (detach part) }
    {
        let file = self.get(process, fd.get() as u8).unwrap().file;
        change_row(
            &mut self.rows,
            process,
            fd.get() as u8,
            Change::Detach(part),
        );
        if !has_pair(&self.rows, file, part) {
            self.pairs -= 1;
        }
    }

    /// The right of the descriptor on the part is cleared.
    pub fn clear(&mut self, process: Pid, fd: Fd, part: Part)
        ensures { self.new ≡ changed_rows self.old process fd (clear part) }
    {
        change_row(&mut self.rows, process, fd.get() as u8, Change::Clear(part));
    }

    /// The process of the descriptor, if it is open, is told this size.
    pub fn tell(&mut self, process: Pid, fd: u8, size: u64)
        ensures { self.new ≡ changed_rows self.old process fd (changed (Tell size)) }
    {
        change_row(&mut self.rows, process, fd, Change::Tell(size));
    }

    /// The process of the descriptor, if it is open, knows the size that it was told.
    pub fn know(&mut self, process: Pid, fd: u8)
        ensures { self.new ≡ changed_rows self.old process fd (changed Know) }
    {
        change_row(&mut self.rows, process, fd, Change::Know);
    }
}

/// Whether some right on the part of the file is attached.
fn has_pair(rows: &[Row], file: FileId, part: Part) -> bool
    ensures { result ≡ list_any (list_any (uses_pair (file, part))) rows.now }
{
    rows.iter().any(|row| row.has_pair(file, part))
}

/// The descriptor, if it is open, takes a change.
fn change_row(rows: &mut [Row], process: Pid, fd: u8, change: Change)
    ensures { rows.new ≡ changed_rows rows.old process fd (changed change) }
{
    let index = process.get() as usize;
    if index < rows.len() {
        rows[index].change(fd, change);
    }
}

/// The keys of the rights of a descriptor, if there is one.
fn keys_of(descriptor: Option<&Descriptor>, process: Pid, fd: Fd) -> KeyList
    ensures { result ≡ keys_of_slot (λ d. true) process fd (option_copied descriptor.entry) }
{
    let mut keys = KeyList::new();
    if let Some(descriptor) = descriptor {
        descriptor.attached.push_keys(&mut keys, process, fd);
    }
    keys
}

/// The keys of all rights on the file.
fn keys_on(rows: &[Row], file: FileId) -> KeyList
    requires { length rows.now ≤ PROCESSES }
    ensures { result ≡ keys_on (bare no_files rows.now) file }
{
    let mut keys = KeyList::new();
    for (number, row) in rows.iter().enumerate() {
        let process = Pid::new(number as u64).unwrap();
        row.push_keys(&mut keys, process, file);
    }
    keys
}
