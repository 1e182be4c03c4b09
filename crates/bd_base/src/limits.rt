//! The limits of the machine. Every contract that speaks of one names it.

/// How many processes a script may have.
pub const PROCESSES: u64 = 16;

/// How many calls a process may have.
pub const CALLS: u64 = 256;

/// How many descriptors a process may have open.
pub const DESCRIPTORS: u64 = 8;

/// How many files an image may have.
pub const FILES: u64 = 256;

/// How many blocks an image may have.
pub const BLOCKS: u64 = 16_384;

/// How many blocks an image has at least.
pub const LEAST_BLOCKS: u64 = 20;

/// How many records of files fill a block of an image, which has room for a multiple of that many files.
pub const BLOCK_RECORDS: u64 = 16;

/// How many block addresses a process has: one for each block that one of its descriptors may reach.
pub const ADDRESSES: u64 = 32_768;

/// How many actors take turns: a processor and a device engine a process, and the invalidation engine.
pub const ACTORS: u64 = 33;

/// How many parts a file may have.
pub const PARTS: u64 = 8;

/// How many blocks a part of a file has.
pub const PART_BLOCKS: u64 = 512;

/// How many invalidations may be posted at one time.
pub const POSTS: usize = 32;

/// How many pairs of a file and a part may have a translation fragment at one time.
pub const FRAGMENTS: u64 = 64;

/// How many bytes a block has.
pub const BLOCK_SIZE: u64 = 4096;

/// How many bytes a file may have.
pub const FILE_SIZE: u64 = 16_777_216;

/// How many blocks a file may have.
pub const FILE_BLOCKS: u64 = 4096;

/// How many extents a file may have.
pub const EXTENTS: u64 = 24;

/// How many bytes an image may have.
pub const IMAGE_SIZE: u64 = 67_108_864;

/// How many bytes a script may have.
pub const SCRIPT_SIZE: u64 = 8_388_608;

/// How many bytes the text of a journal may have.
pub const JOURNAL_SIZE: u64 = 1_073_741_824;

/// How many bytes a call may read or write.
pub const CALL_BYTES: u64 = 16_384;

/// The greatest place in a file, and the greatest size, that a call may name.
pub const LAST_PLACE: u64 = 1_099_511_627_776;

/// How many bytes a file's name may have.
pub const NAME_SIZE: u64 = 31;

/// The permission bits of a file are below this number.
pub const PERMS: u64 = 16;

/// The descriptors that a call may name are below this number, whatever is open.
pub const NAMED_FDS: u64 = 256;

/// How many schedule lines a script may have.
pub const SCHEDULES: u64 = 4096;

/// How many items a schedule line may have.
pub const ITEMS: u64 = 64;

/// How many turns an item may have, and all items together.
pub const TURNS: u64 = 1_000_000;

/// The rules of the policy are numbered from 1 to this one.
pub const POLICY_RULES: u64 = 5;

/// Each user's number is below this one.
pub const USERS: u64 = 4_294_967_296;

/// How many pieces a read or a write may have: one for each block that its bytes touch.
pub const PIECES: u64 = 5;

/// The greatest index that a block of a piece has in its file.
pub const LAST_INDEX: u64 = 268_435_459;
