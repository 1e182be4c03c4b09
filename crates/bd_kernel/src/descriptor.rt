//! One open descriptor, and its changes.
ghost use Rattle.std.specs.List.{list_any};
ghost use Rattle.bd_entry.specs.Store.{is_empty_slot};
ghost use Rattle.bd_kernel.specs.Changes.{uses_pair};
ghost use Rattle.std.specs.Prelude.{◌≡◌, ◌+◌, ◌≤◌, ◌++◌, None, Some, [], length, nat_eq};
ghost use Rattle.bd_base.specs.declared.key_list.TheConstants.{MOST_KEYS};
ghost use Rattle.bd_base.specs.declared.limits.TheConstants.{PARTS};
ghost use Rattle.bd_entry.specs.Actions.{keys_of_slot};
ghost use Rattle.std.specs.Option.{option_map};
ghost use Rattle.bd_entry.specs.Store.{has_part, has_rights, is_attached_of, is_open_of, is_plain, is_plain_of};
ghost use Rattle.bd_kernel.specs.Changes.{changed};

use crate::part_set::PartSet;
use bd_base::{Fd, FileId, How, KeyList, Mode, Part, Pid};
use std::marker::Model;

/// An open descriptor.
#[derive(Debug, Drop)]
pub struct Descriptor {
    pub file: FileId,
    pub mode: Mode,
    pub how: How,
    /// The parts that it has rights on.
    pub attached: PartSet,
    /// Those of them whose right is cleared.
    pub cleared: PartSet,
    /// The size in bytes by which its process chooses how it reaches a piece.
    pub known: u64,
    /// The size in bytes that its process was told last.
    pub told: u64,
}

impl Model for Descriptor {
    ghost use Rattle.bd_entry.specs.Store.{Descriptor};

    ghost Value = { Descriptor };

    ghost view = { λ a. record {
      file = a.file;
      mode = a.mode;
      how = a.how;
      attached = a.attached;
      cleared = a.cleared;
      known = a.known;
      told = a.told;
    } };
}

/// What changes in a descriptor.
#[derive(Clone, Copy, Debug)]
pub enum Change {
    /// It gets a right on the part.
    Attach(Part),
    /// It loses the right on the part.
    Detach(Part),
    /// The right on the part is cleared.
    Clear(Part),
    /// Its process is told this size.
    Tell(u64),
    /// Its process knows the size that it was told.
    Know,
}

impl Descriptor {
    /// A descriptor without rights, and of known size 0.
    pub fn new(file: FileId, mode: Mode, how: How) -> Descriptor
        ensures { result ≡ record {
          file = file;
          mode = mode;
          how = how;
          attached = [];
          cleared = [];
          known = 0;
          told = 0;
        } }
    {
        Descriptor {
            file,
            mode,
            how,
            attached: PartSet::new(),
            cleared: PartSet::new(),
            known: 0,
            told: 0,
        }
    }

    /// Takes a change.
    pub fn change(&mut self, change: Change)
        ensures { self.new ≡ changed change self.old }
    {
        match change {
            Change::Attach(part) => {
                self.attached.insert(part);
                self.cleared.remove(part);
            }
            Change::Detach(part) => {
                self.attached.remove(part);
                self.cleared.remove(part);
            }
            Change::Clear(part) => self.cleared.insert(part),
            Change::Tell(size) => self.told = size,
            Change::Know => self.known = self.told,
        }
    }
}

/// The descriptor in a slot, if there is one, takes a change.
pub fn change_slot(slot: &mut Option<Descriptor>, change: Change)
    ensures { slot.new ≡ option_map (changed change) slot.old }
{
    if let Some(descriptor) = slot {
        descriptor.change(change);
    }
}

/// Whether a slot holds no descriptor.
pub fn is_empty(slot: &Option<Descriptor>) -> bool
    ensures { result ≡ is_empty_slot slot.now }
{
    match slot {
        Some(_) => false,
        None => true,
    }
}

/// Whether a slot has a descriptor of the file.
pub fn is_open_of(file: FileId, slot: &Option<Descriptor>) -> bool
    ensures { result ≡ is_open_of file slot.now }
{
    match slot {
        Some(descriptor) => descriptor.file == file,
        None => false,
    }
}

/// Whether a slot has a plain descriptor of the file.
pub fn is_plain_of(file: FileId, slot: &Option<Descriptor>) -> bool
    ensures { result ≡ is_plain_of file slot.now }
{
    match slot {
        Some(descriptor) => descriptor.file == file && descriptor.how == How::Plain,
        None => false,
    }
}

/// Whether a slot has a descriptor of the file with a right.
pub fn is_attached_of(file: FileId, slot: &Option<Descriptor>) -> bool
    ensures { result ≡ is_attached_of file slot.now }
{
    match slot {
        Some(descriptor) => descriptor.file == file && descriptor.attached.count() > 0,
        None => false,
    }
}

/// Whether a slot has a descriptor of the file with a right on the part.
pub fn has_pair(file: FileId, part: Part, slot: &Option<Descriptor>) -> bool
    ensures { result ≡ uses_pair (file, part) slot.now }
{
    match slot {
        Some(descriptor) => descriptor.file == file && descriptor.attached.contains(part.get()),
        None => false,
    }
}

/// Appends the keys of the rights of the descriptor in a slot, where it is one of the file.
pub fn push_slot_keys(
    slot: &Option<Descriptor>,
    keys: &mut KeyList,
    process: Pid,
    fd: Fd,
    file: FileId,
)
    requires { length keys.old + PARTS ≤ MOST_KEYS }
    ensures keys { keys.new ≡ keys.old ++ keys_of_slot (λ d. nat_eq d.file file) process fd slot.now }
    ensures few { length keys.new ≤ length keys.old + PARTS }
{
    if let Some(descriptor) = slot
        && descriptor.file == file
    {
        descriptor.attached.push_keys(keys, process, fd);
    }
}
