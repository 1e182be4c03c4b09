//! Where the fields of an image stand. All numbers are little-endian; docs/FORMATS.md has the table.

/// An image begins with these bytes.
pub const MAGIC: [u8; 8] = *b"BYPDFS01";

/// The place of the version, four bytes.
pub const VERSION_PLACE: u64 = 8;

/// The version of the format.
pub const VERSION: u64 = 1;

/// The place of the number of blocks, four bytes.
pub const LENGTH_PLACE: u64 = 12;

/// The place of the number of records, four bytes.
pub const INODES_PLACE: u64 = 16;

/// Bytes of the first block from here on are zero.
pub const HEADER_BYTES: u64 = 20;

/// The bitmap takes the second block.
pub const BITMAP_PLACE: u64 = 4096;

/// The records begin at the third block.
pub const RECORDS_PLACE: u64 = 8192;

/// How many bytes a record has.
pub const RECORD_BYTES: u64 = 256;

/// The place of the owner in a record, four bytes.
pub const OWNER_FIELD: u64 = 4;

/// The place of the size in a record, eight bytes.
pub const SIZE_FIELD: u64 = 8;

/// The place of the name in a record, 32 bytes.
pub const NAME_FIELD: u64 = 16;

/// The place of the extents in a record, eight bytes each: the start, then the length.
pub const EXTENTS_FIELD: u64 = 48;

/// How many bytes an extent has.
pub const EXTENT_BYTES: u64 = 8;

/// How many records an image has at least, and it has a multiple of this.
pub const LEAST_INODES: u64 = bd_base::BLOCK_RECORDS;

/// How many bytes an image has at least.
pub const LEAST_LENGTH: u64 = bd_base::LEAST_BLOCKS * bd_base::BLOCK_SIZE;
