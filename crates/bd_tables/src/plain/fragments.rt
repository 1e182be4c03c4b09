//! What the tables do with the fragments of a part of a file.
ghost use Rattle.std.specs.Prelude.{◌≡◌, ◌↔◌, ◌%◌, ◌/◌, ◌≤◌, nat_eq, cond, None, Some, length, IsErr, IfOk, OnOk, OnErr};
ghost use Rattle.std.specs.FinMap as fin;
ghost use Rattle.std.specs.Option.{IsSome};
ghost use Rattle.bd_base.specs.declared.limits.TheConstants.{PARTS, PART_BLOCKS};
ghost use Rattle.bd_file_table.specs.Fragments.{pair_with, with_cell};
ghost use Rattle.bd_tables.specs.Effects.{change, with_limit};
ghost use Rattle.bd_tables.specs.Kernel.{IsEntryUpTo, IsFullFor, SharesOrBuilds, with_cells};
ghost use Rattle.bd_tables.specs.Kept.{fragment_of};
ghost use Rattle.bd_tables.specs.State.{block_pair};

use bd_base::{Cell, FileId, PART_BLOCKS, Part};
use bd_file_table::{Full, Pool};

/// The fragment of a part of a file: the one that it has, or a new one with these cells.
///
/// Full exactly where it has none and 64 are in use.
pub fn share_or_build(pool: &mut Pool, file: FileId, part: Part, cells: &[Cell]) -> Result<u8, Full>
    requires { length cells.now ≤ PART_BLOCKS }
    ensures book { OnOk result
        (SharesOrBuilds pool.old (pair_with file part) cells.now pool.new) }
    ensures number { IfOk result
        (λ fragment. fragment_of pool.new (pair_with file part) ≡ Some fragment) }
    ensures full { IsErr result ↔ IsFullFor pool.old (pair_with file part) }
    ensures err { OnErr result (pool.new ≡ pool.old) }
{
    match pool.of(file, part) {
        Some(fragment) => Ok(fragment),
        None => pool.build(file, part, cells),
    }
}

/// Drops the fragment of a part of a file, which has one, where nobody uses it.
pub fn drop_unused(pool: &mut Pool, file: FileId, part: Part, users: u8)
    requires { IsSome (fin.get pool.old (pair_with file part)) }
    ensures { pool.new ≡ cond (nat_eq users 0)
        (fin.remove pool.old (pair_with file part)) pool.old }
{
    if users == 0 {
        let fragment = pool.of(file, part).unwrap();
        pool.drop_fragment(fragment);
    }
}

/// Fills the entry of block `index` of a file, where its part has a fragment.
pub fn fill_entry(pool: &mut Pool, file: FileId, index: u32, cell: Cell)
    requires { PARTS ≤ index / PART_BLOCKS → fin.get pool.old (block_pair file index) ≡ None }
    ensures { pool.new ≡ change pool.old (block_pair file index)
        (with_cells (with_cell (index % PART_BLOCKS) cell)) }
{
    let index = u64::from(index);
    if let Some(part) = Part::new(index / PART_BLOCKS)
        && let Some(fragment) = pool.of(file, part)
    {
        pool.set(fragment, (index % PART_BLOCKS) as u16, cell);
    }
}

/// Raises the limit of the entry of block `index` of a file, which is filled, where its part has a fragment.
pub fn raise_entry(pool: &mut Pool, file: FileId, index: u32, limit: u16)
    requires parts { PARTS ≤ index / PART_BLOCKS
        → fin.get pool.old (block_pair file index) ≡ None }
    requires filled { IsEntryUpTo pool.old file index limit }
    ensures { pool.new ≡ change pool.old (block_pair file index)
        (with_cells (with_limit (index % PART_BLOCKS) limit)) }
{
    let index = u64::from(index);
    if let Some(part) = Part::new(index / PART_BLOCKS)
        && let Some(fragment) = pool.of(file, part)
    {
        let place = (index % PART_BLOCKS) as u16;
        let cell = pool.cell(fragment, place).unwrap();
        pool.set(fragment, place, Cell { limit, ..cell });
    }
}
