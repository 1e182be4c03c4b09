//! Bitmaps: a bit for each block.
ghost use Rattle.std.specs.Prelude.{◌≡◌, ℕ, ◌+◌, ◌*◌, ◌^◌, ◌<◌, ◌≤◌, ◌||◌, nat_eq, length};
ghost use Rattle.bd_base.specs.declared.limits.TheConstants.{BLOCKS};
ghost use Rattle.std.specs.List.{list_any, range_with_len};
ghost use Rattle.bd_base.specs.Bytes.{AreBytes};
ghost use Rattle.bd_image.specs.Bits.{is_set};

use bd_base::BlockNo;

/// Sets the bit of block `x`.
fn mark(bits: &mut [u8], x: u64)
    requires { x < 8 * length bits.old }
    ensures marks { (y : ℕ) → is_set bits.new y ≡ (is_set bits.old y || nat_eq y x) }
    ensures bytes { AreBytes bits.old → AreBytes bits.new }
{
    bits[(x / 8) as usize] |= 1 << (x % 8);
}

/// Sets the bits of blocks in a row.
pub(crate) fn mark_range(bits: &mut [u8], start: u64, count: u64)
    requires small { start + count < 2 ^ 64 }
    requires within { start + count ≤ 8 * length bits.old }
    ensures marks { (y : ℕ) →
        is_set bits.new y ≡ (is_set bits.old y || list_any (nat_eq y) (range_with_len start count)) }
    ensures bytes { AreBytes bits.old → AreBytes bits.new }
{
    for x in start..start + count {
        mark(bits, x);
    }
}

/// Sets the bits of blocks.
pub(crate) fn mark_blocks(bits: &mut [u8], blocks: &[BlockNo])
    requires { BLOCKS ≤ 8 * length bits.old }
    ensures marks { (y : ℕ) →
        is_set bits.new y ≡ (is_set bits.old y || list_any (nat_eq y) blocks.now) }
    ensures bytes { AreBytes bits.old → AreBytes bits.new }
{
    for block in blocks {
        mark(bits, block.get());
    }
}
