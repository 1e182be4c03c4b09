//! A set of parts of a file.
ghost use Rattle.std.specs.Prelude.{◌≡◌, ◌+◌, ◌<◌, ◌≤◌, [], ◌∷◌, ◌++◌, cond, find, length, map, not};
ghost use Rattle.std.specs.List.{range_with_len};
ghost use Rattle.bd_base.specs.declared.key_list.TheConstants.{MOST_KEYS};
ghost use Rattle.bd_base.specs.declared.limits.TheConstants.{PARTS};
ghost use Rattle.bd_kernel.specs.PartMarks.{marked_from};
ghost use Rattle.bd_entry.specs.Store.{has_part, with_part, without_part};

use crate::marks::{count_marks, is_marked};
use bd_base::{Fd, Key, KeyList, PARTS, Part, Pid};
use std::marker::Model;

/// How many parts there are.
const PART_COUNT: usize = PARTS as usize;

/// Parts of a file, as a mark for each. Contracts see their numbers in ascending order.
#[derive(Debug, Drop)]
pub struct PartSet {
    marks: [bool; PART_COUNT],
}

impl Model for PartSet {
    ghost use Rattle.std.specs.Prelude.{List, ℕ};
    ghost use Rattle.bd_kernel.specs.PartMarks.{marked_from};

    ghost Value = { List ℕ };

    ghost view = { λ a. marked_from 0 a.marks };
}

impl PartSet {
    /// No part.
    pub fn new() -> PartSet
        ensures { result ≡ [] }
    {
        PartSet {
            marks: [false; PART_COUNT],
        }
    }

    /// Whether the part of this number is among these.
    pub fn contains(&self, part: u64) -> bool
        ensures { result ≡ has_part part self.now }
    {
        is_marked(&self.marks, part as usize)
    }

    /// The part joins these.
    pub fn insert(&mut self, part: Part)
        ensures { self.new ≡ with_part part self.old }
    {
        self.marks[part.get() as usize] = true;
    }

    /// The part leaves these.
    pub fn remove(&mut self, part: Part)
        ensures { self.new ≡ without_part part self.old }
    {
        self.marks[part.get() as usize] = false;
    }

    /// How many these are.
    pub fn count(&self) -> usize
        ensures count { result ≡ length self.now }
        ensures few { result ≤ PARTS }
    {
        count_marks(&self.marks)
    }

    /// Appends the keys of a descriptor's rights on these parts to a list with room for them.
    pub fn push_keys(&self, keys: &mut KeyList, process: Pid, fd: Fd)
        requires { length keys.old + PARTS ≤ MOST_KEYS }
        ensures keys { keys.new ≡ keys.old
            ++ map (λ part. record { process = process; fd = fd; part = part }) self.now }
        ensures few { length keys.new ≤ length keys.old + PARTS }
    {
        push_marked(&self.marks, keys, process, fd);
    }

    /// The lowest part below this number that is not among these.
    pub fn lowest_missing(&self, end: u64) -> Option<Part>
        requires { end ≤ PARTS }
        ensures { result ≡ find (λ part. not (has_part part self.now)) (range_with_len 0 end) }
    {
        for number in 0..end {
            if !self.contains(number) {
                return Part::new(number);
            }
        }
        None
    }
}

/// Appends the keys of a descriptor's rights on the parts whose marks are set.
fn push_marked(marks: &[bool], keys: &mut KeyList, process: Pid, fd: Fd)
    requires parts { length marks.now ≤ PARTS }
    requires room { length keys.old + length marks.now ≤ MOST_KEYS }
    ensures keys { keys.new ≡ keys.old
        ++ map (λ part. record { process = process; fd = fd; part = part }) (marked_from 0 marks.now) }
    ensures few { length keys.new ≤ length keys.old + length marks.now }
{
    for (number, mark) in marks.iter().enumerate() {
        push_where(keys, *mark, process, fd, number);
    }
}

/// Appends the key of a descriptor's right on the part of this number, where it is marked.
fn push_where(keys: &mut KeyList, marked: bool, process: Pid, fd: Fd, number: usize)
    requires part { number < PARTS }
    requires room { length keys.old < MOST_KEYS }
    ensures keys { keys.new ≡ keys.old
        ++ map (λ part. record { process = process; fd = fd; part = part }) (cond marked (number ∷ []) []) }
    ensures few { length keys.new ≤ length keys.old + 1 }
{
    if marked {
        let part = Part::new(number as u64).unwrap();
        keys.push(Key { process, fd, part });
    }
}
