//! From lists of blocks to extents and back.
ghost use Rattle.std.specs.Prelude.{◌≡◌, ℕ, ◌+◌, ◌≤◌, List, ◌++◌, All, IfOk, OnOk};
ghost use Rattle.std.specs.List.{range_with_len};
ghost use Rattle.bd_base.specs.declared.limits.TheConstants.{BLOCKS};
ghost use Rattle.bd_base.specs.declared.volume.Extent.{Extent};
ghost use Rattle.bd_base.specs.Extents.{AreMaximal, blocks_of, extents_of};

use bd_base::{BlockList, BlockNo, Extent, ExtentList, List, OutOfMemory};
use std::alloc::Global;

/// The extents of `blocks` in order, each as long as can be.
///
/// The only error is that no memory is found.
pub fn extents_of(alloc: Global, blocks: &[BlockNo]) -> Result<ExtentList, OutOfMemory>
    ensures { IfOk result (λ extents. extents ≡ extents_of blocks.now) }
{
    let mut extents: ExtentList = List::new(alloc);
    let Some((first, rest)) = blocks.split_first() else {
        return Ok(extents);
    };
    let first = *first;
    let mut last = Extent {
        start: first.get() as u32,
        length: 1,
    };
    for block in rest {
        let block = *block;
        let number = block.get() as u32;
        if number == last.start + last.length {
            last.length += 1;
        } else {
            extents.push(last)?;
            last = Extent {
                start: number,
                length: 1,
            };
        }
    }
    extents.push(last)?;
    Ok(extents)
}

/// The blocks of `extents`, in order.
///
/// The only error is that no memory is found.
pub fn blocks_of(alloc: Global, extents: &[Extent]) -> Result<BlockList, OutOfMemory>
    requires { All (λ e. e.start + e.length ≤ BLOCKS) extents.now }
    ensures { IfOk result (λ blocks. blocks ≡ blocks_of extents.now) }
{
    let mut blocks: BlockList = List::new(alloc);
    for extent in extents {
        push_blocks(&mut blocks, *extent)?;
    }
    Ok(blocks)
}

/// Appends the blocks of `extent`.
fn push_blocks(blocks: &mut BlockList, extent: Extent) -> Result<(), OutOfMemory>
    requires { extent.start + extent.length ≤ BLOCKS }
    ensures { OnOk result (blocks.new ≡ blocks.old ++ range_with_len extent.start extent.length) }
{
    for number in extent.start..extent.start + extent.length {
        let block = BlockNo::new(u64::from(number)).unwrap();
        blocks.push(block)?;
    }
    Ok(())
}

/// Extents and blocks say the same: each list of blocks comes back from its extents, and each list of extents that are
/// as long as can be from its blocks. It does nothing.
pub fn extents_are_inverse()
    ensures blocks_come_back { (blocks : List ℕ) → blocks_of (extents_of blocks) ≡ blocks }
    ensures extents_are_maximal { (blocks : List ℕ) → AreMaximal (extents_of blocks) }
    ensures extents_come_back { (extents : List Extent) → AreMaximal extents →
        extents_of (blocks_of extents) ≡ extents }
{}

#[cfg(test)]
mod tests {
    use super::*;
    use std::test::Fail;

    #[test]
    fn join_blocks_that_follow_each_other(rt: HostRuntime) -> Result<(), Fail> {
        let mut blocks: BlockList = List::new(rt.alloc());
        for number in [3, 4, 7] {
            blocks.push(BlockNo::new(number).ok_or("no block")?)?;
        }
        let extents = extents_of(rt.alloc(), blocks.as_slice())?;
        let wanted = [
            Extent {
                start: 3,
                length: 2,
            },
            Extent {
                start: 7,
                length: 1,
            },
        ];
        assert_eq!(rt; extents.as_slice(), wanted.as_slice());
        let back = blocks_of(rt.alloc(), wanted.as_slice())?;
        assert_eq!(rt; back.as_slice(), blocks.as_slice());
        Ok(())
    }
}
