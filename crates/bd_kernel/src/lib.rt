//! What the calls of processes do next, and the descriptors that they work on.
#![tactic(auto)]

mod beginning;
mod blocker;
mod calls;
mod descriptor;
mod descriptors;
mod disk;
mod ends;
mod files;
mod kernel_call;
mod marks;
mod misses;
mod outstanding;
mod part_set;
mod pieces;
mod place;
mod refusals;
mod revocation;
mod rights;
mod row;
mod running_call;
mod table;

pub use blocker::Blocker;
pub use calls::{
    bytes_for_piece, does_write, fd_of_call, is_raw, named_fd, piece_end, piece_of, pieces_of,
};
pub use descriptor::{Change, Descriptor};
pub use descriptors::Descriptors;
pub use disk::{Disk, sound_entries_can_change};
pub use ends::{is_end_of, is_of_piece, is_whole_refusal, tells_size};
pub use kernel_call::KernelCall;
pub use misses::{limit_of, may_miss, stands};
pub use part_set::PartSet;
pub use place::{
    block_count, descriptor_of, file_of, goal_of, is_direct, kernel_number, kernel_piece,
    next_size, part_count, size_of,
};
pub use refusals::{first_refusal, growth_reason, open_denial};
pub use rights::{lowest_unattached, next_part};
pub use running_call::RunningCall;
pub use table::{DescriptorTable, Holder};

#[cfg(test)]
mod disk_tests;
#[cfg(test)]
mod tests;
