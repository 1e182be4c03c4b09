//! The plain store, and what it shows to the rules.
ghost use Rattle.std.specs.Prelude.{◌≡◌, ◌*◌, ◌<◌, ◌≤◌, ◌↔◌, ℕ, Err, All, IfOk, OnErr, OnOk, length, slice_index_or};
ghost use Rattle.std.specs.Option.{option_copied};
ghost use Rattle.bd_base.specs.declared.limits.TheConstants.{BLOCK_SIZE, PROCESSES, USERS};
ghost use Rattle.bd_base.specs.Inodes.{AreValidFiles, id_of, inode_at};
ghost use Rattle.bd_base.specs.Scripts.{IsCall};
ghost use Rattle.bd_base.specs.Volumes.{IsSoundVolume};
ghost use Rattle.bd_entry.specs.Calls.{at_of};
ghost use Rattle.bd_entry.specs.Effects.{effect_of};
ghost use Rattle.bd_entry.specs.Laws.{IsNextEntry};
ghost use Rattle.bd_entry.specs.Rules.{EntryRule, FitsStore, place_in};
ghost use Rattle.bd_entry.specs.Store.{Store, in_slot};
ghost use Rattle.bd_store.specs.Kept.{AreIdle, Represents, BreaksAt, files_of, marks_at, start_of};

use bd_base::{Call, FileId, Inode, List, Name, OutOfMemory, Pid, Volume};
use bd_entry::Entry;
use bd_fs::Fs;
use bd_kernel::{DescriptorTable, Disk, RunningCall};
use bd_medium::Plain;
use std::alloc::Global;
use std::marker::Model;

/// The users of processes, by the numbers of these.
pub type UidList = List<u32>;

/// Why an entry is not applied.
#[derive(Clone, Copy, Debug, PartialEq, Eq)]
pub enum ApplyError {
    /// Of the rules that it breaks, the least has this number, 4 to 13.
    Broken(u8),
    /// No memory was found.
    OutOfMemory,
}

impl From<OutOfMemory> for ApplyError {
    ghost use Rattle.std.specs.Prelude.{◌≡◌};
    ghost use Rattle.bd_store.specs.declared.store.ApplyError.TheVariants.{OutOfMemory};

    ghost from_gives = { λ _ e. e ≡ OutOfMemory };

    fn from(_error: OutOfMemory) -> ApplyError {
        ApplyError::OutOfMemory
    }
}

/// Files, the bytes of all blocks, open descriptors, and what is kept of running calls: all that the rules of entries
/// ask about. An entry is decided, and applied, at the same cost however many came before it.
#[derive(Drop)]
pub struct PlainStore {
    pub(crate) disk: Disk<Plain>,
    pub(crate) uids: UidList,
    pub(crate) calls: Vec<RunningCall>,
}

impl Model for PlainStore {
    ghost use Rattle.bd_store.specs.Kept.{IsKept, Kept};

    ghost Value = { Kept };

    ghost view = { λ a. record {
      total = a.disk.total;
      uids = a.uids;
      files = a.disk.files;
      bytes = a.disk.bytes;
      opens = a.disk.rows;
      marks = a.calls.items;
    } };

    ghost invariant = { λ a. IsKept (record {
      total = a.disk.total;
      uids = a.uids;
      files = a.disk.files;
      bytes = a.disk.bytes;
      opens = a.disk.rows;
      marks = a.calls.items;
    }) };
}

impl PlainStore {
    /// The store of a volume with nothing open, and a process for each of these users.
    ///
    /// The only error is that no memory is found.
    pub fn start(alloc: Global, volume: Volume, uids: UidList) -> Result<PlainStore, OutOfMemory>
        requires sound { IsSoundVolume volume }
        requires few { length uids ≤ PROCESSES }
        requires users { All (λ uid. uid < USERS) uids }
        ensures { IfOk result (λ store. Represents store (start_of volume uids)) }
    {
        let Volume {
            total,
            inodes,
            bytes,
        } = volume;
        let medium = Plain::new(bytes);
        let disk = Disk::new(alloc, total, inodes, medium, uids.len())?;
        let calls = idle_calls(alloc, uids.len())?;
        Ok(PlainStore { disk, uids, calls })
    }

    /// Decides the next entry of its process's running call, and applies it.
    ///
    /// Broken tells the least of the rules 4 to 13 that it breaks in the store; where it breaks none, the only error is
    /// that no memory is found. After an error the store is as before.
    pub fn apply(&mut self, call: &Call, entry: &Entry) -> Result<(), ApplyError>
        ghost s: { Store }
        requires store { Represents self.old s }
        requires call { IsCall call.now }
        requires process { (at_of entry.now).process < length self.old.uids }
        requires next { IsNextEntry s call.now entry.now }
        ensures keeps { OnOk result
            ((rule : EntryRule) →
            FitsStore s (place_in s call.now (at_of entry.now)) entry.now rule) }
        ensures effect { OnOk result
            (Represents self.new (effect_of s (place_in s call.now (at_of entry.now)) entry.now)) }
        ensures broken { (number : ℕ) → (result ≡ Err (ApplyError.Broken number))
            ↔ BreaksAt s (place_in s call.now (at_of entry.now)) entry.now number }
        ensures err { OnErr result (self.new ≡ self.old) }
    {
        if let Some(rule) = self.broken_rule(call, entry) {
            return Err(ApplyError::Broken(rule));
        }
        self.change(call, entry)?;
        Ok(())
    }

    /// Whether the process has a running call.
    pub(crate) fn is_running(&self, process: Pid) -> bool
        requires { process < length self.now.uids }
        ensures { result ≡ (marks_at self.now process).begun }
    {
        self.running(process).has_begun()
    }

    /// The file with this id.
    pub(crate) fn inode(&self, file: FileId) -> Option<&Inode>
        ensures found { option_copied result ≡ inode_at self.now.files file }
        ensures valid { AreValidFiles self.now.total self.now.files }
    {
        self.disk.fs().inode(file)
    }

    /// The id of the file with this name.
    pub(crate) fn find(&self, name: &Name) -> Option<FileId>
        ensures { result ≡ id_of name.now self.now.files }
    {
        self.disk.fs().lookup(name)
    }

    /// The user of a process.
    pub(crate) fn uid(&self, process: Pid) -> u32
        requires { process < length self.now.uids }
        ensures { result ≡ slice_index_or self.now.uids process 0 }
    {
        self.uids.as_slice()[process.get() as usize]
    }

    /// The files.
    pub(crate) fn fs(&self) -> &Fs
        ensures { result.now ≡ files_of self.now }
    {
        self.disk.fs()
    }

    /// The descriptors of all processes.
    pub(crate) fn descriptors(&self) -> &DescriptorTable
        ensures { result.now ≡ self.now.opens }
    {
        self.disk.descriptors().table()
    }

    /// The bytes of all blocks.
    pub(crate) fn medium(&self) -> &Plain
        ensures bytes { result.now ≡ self.now.bytes }
        ensures whole { length self.now.bytes ≡ BLOCK_SIZE * self.now.total }
    {
        self.disk.medium()
    }

    /// What is kept of the running call of a process.
    pub(crate) fn running(&self, process: Pid) -> &RunningCall
        requires { process < length self.now.uids }
        ensures { result.now ≡ marks_at self.now process }
    {
        &self.calls[process.get() as usize]
    }
}

/// No entry of any call of so many processes.
fn idle_calls(alloc: Global, processes: usize) -> Result<Vec<RunningCall>, OutOfMemory>
    ensures { IfOk result (λ calls. AreIdle processes calls.items) }
{
    let mut calls = Vec::with_capacity(alloc, processes)?;
    for _process in 0..processes {
        calls.push(RunningCall::new())?;
    }
    Ok(calls)
}
