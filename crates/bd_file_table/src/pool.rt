//! The pool of fragments.
ghost use Rattle.std.specs.Prelude.{◌≡◌, ◌↔◌, ℕ, ◌+◌, ◌*◌, ◌<◌, ◌≤◌, None, Some, length, count_by, IsErr, IfNone, IfOk, IfSome, OnErr, false, true};
ghost use Rattle.std.specs.FinMap as fin;
ghost use Rattle.std.specs.Option.{option_map};
ghost use Rattle.bd_base.specs.declared.limits.TheConstants.{FILES, FRAGMENTS, PARTS, PART_BLOCKS};
ghost use Rattle.bd_base.specs.Keys.{Pair, pair_number};
ghost use Rattle.bd_file_table.specs.Fragments.{Fragment, HasNumber, IsLowestUnused, IsUnused, cell_at, fragment_with, number_of, padded, pair_with, refilled};
ghost use Rattle.bd_file_table.specs.Slots.{is_owned, slot_at};

use bd_base::{Cell, FILES, FRAGMENTS, FileId, OutOfMemory, PART_BLOCKS, PARTS, Part};
use std::alloc::Global;
use std::marker::Model;

/// All fragments are in use.
#[derive(Clone, Copy, Debug, PartialEq, Eq)]
pub struct Full;

/// How many cells a fragment has.
pub const CELLS: usize = PART_BLOCKS as usize;

// Whose fragment it is.
#[derive(Clone, Copy, Debug, PartialEq, Eq)]
pub struct Owner {
    pub file: FileId,
    pub part: Part,
}

// The place of a fragment. Where nobody owns it, its cells are of no interest.
#[derive(Clone, Copy, Debug)]
pub struct Slot {
    pub owner: Option<Owner>,
    pub cells: [Option<Cell>; CELLS],
}

/// 64 fragments of 512 cells each. Contracts see those in use, as a finite map from pairs of a file and a part.
///
/// Only [`Pool::new`] takes memory. What a call costs does not depend on how many fragments are in use, but for the
/// search of one that is not, which looks at 64 places at most and at no cell.
#[derive(Drop)]
pub struct Pool {
    slots: Vec<Slot>,
    // By file and part, the number of the fragment.
    numbers: Vec<Option<u8>>,
    used: u32,
}

impl Model for Pool {
    ghost use Rattle.std.specs.Prelude.{ℕ};
    ghost use Rattle.std.specs.FinMap as fin;
    ghost use Rattle.bd_base.specs.Keys.{pair_cmp, pair_code};
    ghost use Rattle.bd_file_table.specs.Fragments.{Fragment, fragment_code};

    ghost Value = { fin.FinMap pair_cmp Fragment };

    ghost coded = { fin.code pair_code fragment_code };

    ghost use Rattle.bd_file_table.specs.Kept.{IsPool, book_of};

    ghost view = { λ a. book_of a.slots.items a.numbers.items };

    ghost invariant = { λ a. IsPool a.slots.items a.numbers.items a.used };
}

/// The number of a pair of a file and a part among all pairs.
pub fn pair_number(file: FileId, part: Part) -> usize
    ensures number { result ≡ pair_number (pair_with file part) }
    ensures within { result < FILES * PARTS }
    ensures part { part < PARTS }
{
    (file.get() * PARTS + part.get()) as usize
}

/// The number of the first place that nobody owns: None exactly where each has an owner.
fn first_free(slots: &[Slot]) -> Option<usize>
    ensures none { IfNone result
        ((n : ℕ) → n < length slots.now → is_owned (slot_at slots.now n) ≡ true) }
    ensures free { IfSome result (λ n. is_owned (slot_at slots.now n) ≡ false) }
    ensures first { IfSome result (λ n. (k : ℕ) → k < n → is_owned (slot_at slots.now k) ≡ true) }
    ensures within { IfSome result (λ n. n < length slots.now) }
{
    slots.iter().position(|slot| slot.owner.is_none())
}

/// These cells, and empty ones behind them.
fn fill_up(cells: &[Cell]) -> [Option<Cell>; CELLS]
    ensures { result ≡ padded cells.now }
{
    let mut all = [None; CELLS];
    for i in 0..CELLS {
        all[i] = cells.get(i).copied();
    }
    all
}

impl Pool {
    /// A pool with no fragment in use.
    ///
    /// The only error is that no memory is found.
    pub fn new(alloc: Global) -> Result<Pool, OutOfMemory>
        ensures { IfOk result (λ pool. pool ≡ fin.empty) }
    {
        let slot = Slot {
            owner: None,
            cells: [None; CELLS],
        };
        let slots = vec![in alloc; slot; FRAGMENTS as usize]?;
        let numbers = vec![in alloc; None; (FILES * PARTS) as usize]?;
        Ok(Pool {
            slots,
            numbers,
            used: 0,
        })
    }

    /// Gives a fragment with these cells, at most 512, to a pair that has none: the lowest one that is not in use.
    ///
    /// Full exactly where all 64 are in use.
    pub fn build(&mut self, file: FileId, part: Part, cells: &[Cell]) -> Result<u8, Full>
        requires room { length cells.now ≤ PART_BLOCKS }
        requires new { fin.get self.old (pair_with file part) ≡ None }
        ensures full { IsErr result ↔ (fin.len self.old ≡ FRAGMENTS) }
        ensures lowest { IfOk result (λ number. IsLowestUnused self.old number) }
        ensures built { IfOk result (λ number. self.new
            ≡ fin.insert self.old (pair_with file part) (fragment_with number (padded cells.now))) }
        ensures err { OnErr result (self.new ≡ self.old) }
    {
        let Some(free) = first_free(&self.slots) else {
            return Err(Full);
        };
        let pair = pair_number(file, part);
        self.slots[free] = Slot {
            owner: Some(Owner { file, part }),
            cells: fill_up(cells),
        };
        self.numbers[pair] = Some(free as u8);
        self.used += 1;
        Ok(free as u8)
    }

    /// The number of the fragment of a pair, from 0 to 63: None exactly where it has none.
    pub fn of(&self, file: FileId, part: Part) -> Option<u8>
        ensures number { result ≡ option_map number_of (fin.get self.now (pair_with file part)) }
        ensures within { IfSome result (λ number. number < FRAGMENTS) }
    {
        self.numbers[pair_number(file, part)]
    }

    /// The cell of this index, below 512, of a fragment in use: None exactly where it is empty.
    pub fn cell(&self, fragment: u8, index: u16) -> Option<Cell>
        requires in_use { ¬ (IsUnused self.now fragment) }
        requires within { index < PART_BLOCKS }
        ensures { (pair : Pair) (its : Fragment) → fin.get self.now pair ≡ Some its
            → its.number ≡ fragment → result ≡ cell_at its.cells index }
    {
        self.slots[usize::from(fragment)].cells[usize::from(index)]
    }

    /// Fills the cell of this index, below 512, of a fragment in use.
    pub fn set(&mut self, fragment: u8, index: u16, cell: Cell)
        requires in_use { ¬ (IsUnused self.old fragment) }
        requires within { index < PART_BLOCKS }
        ensures { (pair : Pair) (its : Fragment) → fin.get self.old pair ≡ Some its
            → its.number ≡ fragment → self.new ≡ fin.insert self.old pair (refilled index cell its) }
    {
        let slot = &mut self.slots[usize::from(fragment)];
        slot.cells[usize::from(index)] = Some(cell);
    }

    /// Takes a fragment in use from its pair.
    pub fn drop_fragment(&mut self, fragment: u8)
        requires { ¬ (IsUnused self.old fragment) }
        ensures { (pair : Pair)
            → HasNumber self.old pair fragment → self.new ≡ fin.remove self.old pair }
    {
        let place = usize::from(fragment);
        let owner = self.slots[place].owner.unwrap();
        let pair = pair_number(owner.file, owner.part);
        self.slots[place].owner = None;
        self.numbers[pair] = None;
        self.used -= 1;
    }

    /// How many fragments are in use, at most 64.
    pub fn in_use(&self) -> u32
        ensures count { result ≡ fin.len self.now }
        ensures most { result ≤ FRAGMENTS }
    {
        self.used
    }
}
