//! The bytes of a volume: those of its image, with zeros for the metadata.
ghost use Rattle.std.specs.Prelude.{◌≡◌, ℕ, ◌*◌, ◌≤◌, ◌++◌, drop, length, replicate};
ghost use Rattle.bd_base.specs.Files.{data_start};
ghost use Rattle.bd_image.specs.Layout.{inode_count};
ghost use Rattle.bd_image.specs.Rules.{HasRecords};

use crate::reader::extents::data_start;
use bd_base::{BLOCK_SIZE, Bytes, List};

/// Writes zeros over the first `count` bytes.
fn clear_front(bytes: &mut [u8], count: usize)
    requires { count ≤ length bytes.old }
    ensures { bytes.new ≡ replicate count 0 ++ drop count bytes.old }
{
    for place in 0..count {
        bytes[place] = 0;
    }
}

/// These bytes with zeros for the metadata. It takes no memory.
pub(crate) fn without_metadata(bytes: Bytes) -> Bytes
    requires { HasRecords bytes }
    ensures { let metadata = BLOCK_SIZE * data_start (inode_count bytes) in
        result ≡ replicate metadata 0 ++ drop metadata bytes }
{
    let metadata = BLOCK_SIZE * data_start(bytes.as_slice());
    let mut all = bytes.into_vec();
    clear_front(&mut all, metadata as usize);
    List::from_vec(all)
}
