//! Fragments that are built, read, filled and dropped.
ghost use Rattle.std.specs.Prelude.{◌<◌};
ghost use Rattle.bd_base.specs.declared.limits.TheConstants.{PART_BLOCKS};

use crate::{Cell, Full, Pool};
use bd_base::{BlockNo, FileId, Part};
use std::process::Abort;
use std::test::Fail;

fn cell(block: u64, limit: u16) -> Result<Cell, Fail> {
    Ok(Cell {
        block: BlockNo::new(block).ok_or("a block")?,
        limit,
    })
}

// Builds a fragment with no filled cell for part 0 of a file that has none.
fn build(rt: &impl Abort, pool: &mut Pool, file: u64) -> Result<Result<u8, Full>, Fail> {
    let file = FileId::new(file).ok_or("a file")?;
    let part = Part::new(0).ok_or("a part")?;
    assert_eq!(rt; pool.of(file, part), None);
    Ok(pool.build(file, part, &[]))
}

// The number of the fragment of part 0 of a file, which is then dropped.
fn dropped(pool: &mut Pool, file: u64) -> Result<Option<u8>, Fail> {
    let file = FileId::new(file).ok_or("a file")?;
    let part = Part::new(0).ok_or("a part")?;
    let number = pool.of(file, part);
    if let Some(fragment) = number {
        pool.drop_fragment(fragment);
    }
    Ok(number)
}

// The cell of this index in the fragment of a pair.
fn cell_of(pool: &Pool, file: FileId, part: Part, index: u16) -> Option<Cell>
    requires { index < PART_BLOCKS }
{
    let fragment = pool.of(file, part)?;
    pool.cell(fragment, index)
}

// Fills the cell of this index in the fragment of a pair, where it has one.
fn fill(pool: &mut Pool, file: FileId, part: Part, index: u16, cell: Cell)
    requires { index < PART_BLOCKS }
{
    if let Some(fragment) = pool.of(file, part) {
        pool.set(fragment, index, cell);
    }
}

#[test]
fn a_pair_gets_the_lowest_fragment(rt: HostRuntime) -> Result<(), Fail> {
    let mut pool = Pool::new(rt.alloc())?;
    let file = FileId::new(255).ok_or("a file")?;
    let part = Part::new(7).ok_or("a part")?;
    assert_eq!(rt; pool.of(file, part), None);
    assert_eq!(rt; pool.in_use(), 0);
    let number = pool.build(file, part, &[cell(9, 5)?]).ok().ok_or("full")?;
    assert_eq!(rt; number, 0);
    assert_eq!(rt; pool.of(file, part), Some(0));
    assert_eq!(rt; pool.in_use(), 1);
    assert_eq!(rt; cell_of(&pool, file, part, 0), Some(cell(9, 5)?));
    assert_eq!(rt; cell_of(&pool, file, part, 511), None);
    fill(&mut pool, file, part, 511, cell(16_383, 4096)?);
    assert_eq!(rt; cell_of(&pool, file, part, 511), Some(cell(16_383, 4096)?));
    Ok(())
}

#[test]
fn a_sixty_fifth_pair_waits_for_a_dropped_fragment(rt: HostRuntime) -> Result<(), Fail> {
    let mut pool = Pool::new(rt.alloc())?;
    for file in 0..64 {
        assert_eq!(rt; build(&rt, &mut pool, file)?, Ok(file as u8));
    }
    assert_eq!(rt; pool.in_use(), 64);
    assert_eq!(rt; build(&rt, &mut pool, 64)?, Err(Full));
    assert_eq!(rt; pool.in_use(), 64);
    assert_eq!(rt; dropped(&mut pool, 5)?, Some(5));
    assert_eq!(rt; pool.in_use(), 63);
    assert_eq!(rt; build(&rt, &mut pool, 64)?, Ok(5));
    Ok(())
}
