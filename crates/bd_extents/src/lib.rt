//! Extents, which say a list of blocks in few words, and the set of free blocks.
#![tactic(auto)]

mod bitmap;
mod extents;
mod free_set;

pub use bd_base::{Extent, ExtentList, Inode, Volume};
pub use extents::{blocks_of, extents_are_inverse, extents_of};
pub use free_set::FreeSet;
