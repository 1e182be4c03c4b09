//! What every other crate names: wrapped numbers, limits, lists, and the plain data of files and scripts.
#![tactic(auto)]

mod journal;
mod key;
mod key_list;
mod laws;
mod limits;
mod list;
mod names;
mod numbers;
mod range;
mod reason;
mod script;
mod steps;
mod volume;

pub use journal::{At, Found, Way};
pub use key::{Cell, Key};
pub use key_list::{KeyList, MOST_KEYS};
pub use laws::{growth_is_refused_in_order, limits_are};
pub use limits::{
    ACTORS, ADDRESSES, BLOCK_RECORDS, BLOCK_SIZE, BLOCKS, CALL_BYTES, CALLS, DESCRIPTORS, EXTENTS,
    FILE_BLOCKS, FILE_SIZE, FILES, FRAGMENTS, IMAGE_SIZE, ITEMS, JOURNAL_SIZE, LAST_INDEX,
    LAST_PLACE, LEAST_BLOCKS, NAME_SIZE, NAMED_FDS, PART_BLOCKS, PARTS, PERMS, PIECES,
    POLICY_RULES, POSTS, PROCESSES, SCHEDULES, SCRIPT_SIZE, TURNS, USERS,
};
pub use list::{Bytes, List, OutOfMemory};
pub use names::{is_name, is_name_byte};
pub use numbers::{Actor, BlockNo, Fd, FileId, Part, Pid, Vba};
pub use range::Range;
pub use reason::Reason;
pub use script::{
    Call, CallList, How, Item, ItemList, Mode, Process, ProcessList, ScheduleLine, ScheduleList,
    Script,
};
pub use steps::Steps;
pub use volume::{
    BlockList, Extent, ExtentList, Inode, InodeList, Name, Volume, copy_inodes, data_start,
};

#[cfg(test)]
mod tests;
