//! The descriptors of all processes, and the files that processes hold.
ghost use Rattle.std.specs.Prelude.{◌≡◌, ◌<◌, ◌≤◌, ℕ, None, Some, IfOk, IfSome, length, position, replicate, slice_set};
ghost use Rattle.std.specs.Option.{option_copied};
ghost use Rattle.bd_base.specs.declared.limits.TheConstants.{DESCRIPTORS, PROCESSES};
ghost use Rattle.bd_kernel.specs.Changes.{CanFollow, changed, changed_rows, rows_after, slot_at};
ghost use Rattle.bd_kernel.specs.declared.descriptor.Change.TheVariants.{Know, Tell};
ghost use Rattle.bd_kernel.specs.Holders.{does_hold, holder_in};

use crate::descriptor::Descriptor;
use crate::table::DescriptorTable;
use bd_base::{FileId, OutOfMemory, Pid};
use bd_entry::Entry;
use std::alloc::Global;
use std::marker::Model;

/// The descriptors of each process, and the file that each process holds, if any.
#[derive(Drop)]
pub struct Descriptors {
    table: DescriptorTable,
    held: Vec<Option<FileId>>,
}

impl Model for Descriptors {
    ghost use Rattle.bd_kernel.specs.Holders.{HaveHolds, Table};

    ghost Value = { Table };

    ghost view = { λ a. record { rows = a.table; held = a.held.items } };

    ghost invariant = { λ a. HaveHolds a.table a.held.items };
}

impl Descriptors {
    /// Nothing open and nothing held, by so many processes. The only error is that no memory is found.
    pub fn new(alloc: Global, processes: usize) -> Result<Descriptors, OutOfMemory>
        requires { processes ≤ PROCESSES }
        ensures { IfOk result (λ d. d ≡ record {
          rows = replicate processes (replicate DESCRIPTORS None);
          held = replicate processes None;
        }) }
    {
        let table = DescriptorTable::new(alloc, processes)?;
        let mut held = Vec::with_capacity(alloc, processes)?;
        for _process in 0..processes {
            held.push(None)?;
        }
        Ok(Descriptors { table, held })
    }

    /// The descriptors alone.
    pub fn table(&self) -> &DescriptorTable
        ensures { result.now ≡ self.now.rows }
    {
        &self.table
    }

    /// The descriptor of a process with this number.
    pub fn get(&self, process: Pid, fd: u8) -> Option<&Descriptor>
        ensures { option_copied result ≡ slot_at self.now.rows process fd }
    {
        self.table.get(process, fd)
    }

    /// An entry's own change of the descriptors.
    pub fn follow(&mut self, entry: &Entry)
        requires { CanFollow self.old.rows entry.now }
        ensures { self.new ≡ record self.old { rows = rows_after self.old.rows entry.now } }
    {
        self.table.follow(entry);
    }

    /// The process of the descriptor, if it is open, is told this size.
    pub fn tell(&mut self, process: Pid, fd: u8, size: u64)
        ensures { self.new ≡ record self.old { rows = changed_rows self.old.rows process fd (changed (Tell size)) } }
    {
        self.table.tell(process, fd, size);
    }

    /// The process of the descriptor, if it is open, knows the size that it was told.
    pub fn know(&mut self, process: Pid, fd: u8)
        ensures { self.new ≡ record self.old { rows = changed_rows self.old.rows process fd (changed Know) } }
    {
        self.table.know(process, fd);
    }

    /// Who holds the file.
    pub fn holder(&self, file: FileId) -> Option<Pid>
        ensures { result ≡ holder_in self.now.held file }
    {
        let process = first_holder(file, &self.held)?;
        Pid::new(process as u64)
    }

    /// The process holds the file.
    pub fn hold(&mut self, process: Pid, file: FileId)
        requires there { process < length self.old.held }
        requires free { holder_in self.old.held file ≡ None }
        ensures { self.new ≡ record self.old { held = slice_set self.old.held process (Some file) } }
    {
        self.held[process.get() as usize] = Some(file);
    }

    /// The process holds nothing.
    pub fn give_up(&mut self, process: Pid)
        requires { process < length self.old.held }
        ensures { self.new ≡ record self.old { held = slice_set self.old.held process None } }
    {
        self.held[process.get() as usize] = None;
    }
}

/// The least process that holds the file.
fn first_holder(file: FileId, held: &[Option<FileId>]) -> Option<usize>
    ensures place { result ≡ position (does_hold file) held.now }
    ensures within { IfSome result (λ process. process < length held.now) }
{
    held.iter().position(|other| does_hold(file, other))
}

/// Whether this is the file that is held.
fn does_hold(file: FileId, held: &Option<FileId>) -> bool
    ensures { result ≡ does_hold file held.now }
{
    match held {
        Some(other) => file == *other,
        None => false,
    }
}
