//! The cells of a part of a file.
ghost use Rattle.std.specs.Prelude.{◌≡◌, ◌-◌, ◌*◌, ◌≤◌, min, IfOk};
ghost use Rattle.bd_base.specs.declared.limits.TheConstants.{BLOCK_SIZE};
ghost use Rattle.bd_entry.specs.Store.{Store, Valid};
ghost use Rattle.bd_kernel.specs.Disks.{IsDiskOf};
ghost use Rattle.bd_turns.specs.Turns.{cells_of_part};

use bd_base::{BLOCK_SIZE, BlockNo, Cell, FileId, OutOfMemory, PART_BLOCKS, Part};
use bd_kernel::Disk;
use bd_medium::Medium;
use std::alloc::Global;

/// The cell of a block of a file with this size.
fn cell_of(size: u64, index: usize, block: BlockNo) -> Cell
    requires { BLOCK_SIZE * index ≤ size }
    ensures { result ≡ record { block = block; limit = min BLOCK_SIZE (size - BLOCK_SIZE * index) } }
{
    let left = size - BLOCK_SIZE * index as u64;
    Cell {
        block,
        limit: left.min(BLOCK_SIZE) as u16,
    }
}

/// The cells of the blocks of a part of a file: those are at most 512, whatever the size of the file.
pub(crate) fn cells_of_part<M: Medium>(
    alloc: Global,
    disk: &Disk<M>,
    file: FileId,
    part: Part,
) -> Result<Vec<Cell>, OutOfMemory>
    ensures { IfOk result (λ cells. (s : Store) → Valid s → IsDiskOf disk.now s
        → cells.items ≡ cells_of_part s file part) }
{
    let mut cells = Vec::new(alloc);
    if let Some(inode) = disk.fs().inode(file) {
        let blocks = inode.blocks.as_slice();
        let first = blocks.len().min((PART_BLOCKS * part.get()) as usize);
        let end = blocks.len().min(first + PART_BLOCKS as usize);
        for index in first..end {
            cells.push(cell_of(inode.size, index, blocks[index]))?;
        }
    }
    Ok(cells)
}
