//! The descriptors of one process.
ghost use Rattle.std.specs.Prelude.{◌≡◌, ◌+◌, ◌*◌, ◌<◌, ◌≤◌, ◌++◌, ℕ, nat_eq, None, Some, IfOk, IfSome, length, position, replicate, slice_set};
ghost use Rattle.std.specs.List.{enumerate_from, flat_map, list_any};
ghost use Rattle.bd_base.specs.declared.key_list.TheConstants.{MOST_KEYS};
ghost use Rattle.bd_entry.specs.Actions.{keys_of_slot};
ghost use Rattle.std.specs.Option.{option_copied, option_map};
ghost use Rattle.bd_base.specs.declared.limits.TheConstants.{DESCRIPTORS, PARTS};
ghost use Rattle.bd_entry.specs.Store.{in_slot, is_attached_of, is_empty_slot, is_open_of, is_plain_of};
ghost use Rattle.bd_kernel.specs.Changes.{changed, uses_pair};

use crate::descriptor::{
    Change, Descriptor, change_slot, has_pair, is_attached_of, is_empty, is_open_of, is_plain_of,
    push_slot_keys,
};
use bd_base::{DESCRIPTORS, Fd, FileId, KeyList, OutOfMemory, Part, Pid};
use std::alloc::Global;
use std::marker::Model;

/// The descriptors of a process by their numbers; None where a number is not open.
#[derive(Drop)]
pub struct Row {
    slots: Vec<Option<Descriptor>>,
}

impl Model for Row {
    ghost use Rattle.std.specs.Prelude.{◌≡◌, List, Option, length};
    ghost use Rattle.bd_base.specs.declared.limits.TheConstants.{DESCRIPTORS};
    ghost use Rattle.bd_entry.specs.Store.{Descriptor};

    ghost Value = { List (Option Descriptor) };

    ghost view = { λ a. a.slots.items };

    ghost invariant = { λ a. length a.slots.items ≡ DESCRIPTORS };
}

impl Row {
    /// No open descriptor.
    pub fn new(alloc: Global) -> Result<Row, OutOfMemory>
        ensures { IfOk result (λ row. row ≡ replicate DESCRIPTORS None) }
    {
        let mut slots = Vec::with_capacity(alloc, DESCRIPTORS as usize)?;
        for _number in 0..DESCRIPTORS {
            slots.push(None)?;
        }
        Ok(Row { slots })
    }

    /// The descriptor of this number.
    pub fn get(&self, fd: u8) -> Option<&Descriptor>
        ensures { option_copied result ≡ in_slot self.now fd }
    {
        self.slots.get(fd as usize)?.as_ref()
    }

    /// This number, where it is open.
    pub fn open_number(&self, fd: u8) -> Option<Fd>
        ensures { result ≡ option_map (λ d. fd) (in_slot self.now fd) }
    {
        match self.get(fd) {
            Some(_) => {
                let count = self.slots.len() as u64;
                prove!(count == DESCRIPTORS);
                Fd::new(u64::from(fd))
            }
            None => None,
        }
    }

    /// The lowest number that is not open.
    pub fn lowest_free(&self) -> Option<Fd>
        ensures { result ≡ position is_empty_slot self.now }
    {
        let number = first_empty(&self.slots)?;
        Fd::new(number as u64)
    }

    /// The lowest number of a descriptor of the file.
    pub fn first_open(&self, file: FileId) -> Option<Fd>
        ensures { result ≡ position (is_open_of file) self.now }
    {
        let number = first_open(file, &self.slots)?;
        Fd::new(number as u64)
    }

    /// The lowest number of a plain descriptor of the file.
    pub fn first_plain(&self, file: FileId) -> Option<Fd>
        ensures { result ≡ position (is_plain_of file) self.now }
    {
        let number = first_plain(file, &self.slots)?;
        Fd::new(number as u64)
    }

    /// Whether some descriptor of the file has a right.
    pub fn has_rights_on(&self, file: FileId) -> bool
        ensures { result ≡ list_any (is_attached_of file) self.now }
    {
        self.slots.iter().any(|slot| is_attached_of(file, slot))
    }

    /// Whether some descriptor of the file has a right on the part.
    pub fn has_pair(&self, file: FileId, part: Part) -> bool
        ensures { result ≡ list_any (uses_pair (file, part)) self.now }
    {
        self.slots.iter().any(|slot| has_pair(file, part, slot))
    }

    /// Appends the keys of the rights of the process's descriptors of the file to a list with room for them.
    pub fn push_keys(&self, keys: &mut KeyList, process: Pid, file: FileId)
        requires { length keys.old + DESCRIPTORS * PARTS ≤ MOST_KEYS }
        ensures keys { keys.new ≡ keys.old ++ flat_map
            (λ slot. keys_of_slot (λ d. nat_eq d.file file) process slot.0 slot.1) (enumerate_from 0 self.now) }
        ensures few { length keys.new ≤ length keys.old + DESCRIPTORS * PARTS }
    {
        push_keys_of(&self.slots, keys, process, file);
    }

    /// Puts this into the slot of a number.
    pub fn put(&mut self, fd: Fd, slot: Option<Descriptor>)
        ensures { self.new ≡ slice_set self.old fd slot }
    {
        self.slots[fd.get() as usize] = slot;
    }

    /// The descriptor of this number, if it is open, takes a change.
    pub fn change(&mut self, fd: u8, change: Change)
        ensures { self.new
            ≡ slice_set self.old fd (option_map (changed change) (in_slot self.old fd)) }
    {
        if let Some(slot) = self.slots.get_mut(fd as usize) {
            change_slot(slot, change);
        }
    }
}

/// The lowest number of an empty slot.
fn first_empty(slots: &[Option<Descriptor>]) -> Option<usize>
    ensures place { result ≡ position is_empty_slot slots.now }
    ensures within { IfSome result (λ number. number < length slots.now) }
{
    slots.iter().position(|slot| is_empty(slot))
}

/// The lowest number of a slot that has a descriptor of the file.
fn first_open(file: FileId, slots: &[Option<Descriptor>]) -> Option<usize>
    ensures place { result ≡ position (is_open_of file) slots.now }
    ensures within { IfSome result (λ number. number < length slots.now) }
{
    slots.iter().position(|slot| is_open_of(file, slot))
}

/// The lowest number of a slot that has a plain descriptor of the file.
fn first_plain(file: FileId, slots: &[Option<Descriptor>]) -> Option<usize>
    ensures place { result ≡ position (is_plain_of file) slots.now }
    ensures within { IfSome result (λ number. number < length slots.now) }
{
    slots.iter().position(|slot| is_plain_of(file, slot))
}

/// Appends the keys of the rights of the descriptors of the file in slots.
fn push_keys_of(slots: &[Option<Descriptor>], keys: &mut KeyList, process: Pid, file: FileId)
    requires slots { length slots.now ≤ DESCRIPTORS }
    requires room { length keys.old + DESCRIPTORS * PARTS ≤ MOST_KEYS }
    ensures keys { keys.new ≡ keys.old ++ flat_map
        (λ slot. keys_of_slot (λ d. nat_eq d.file file) process slot.0 slot.1) (enumerate_from 0 slots.now) }
    ensures few { length keys.new ≤ length keys.old + DESCRIPTORS * PARTS }
{
    for (number, slot) in slots.iter().enumerate() {
        let fd = Fd::new(number as u64).unwrap();
        push_slot_keys(slot, keys, process, fd, file);
    }
}
