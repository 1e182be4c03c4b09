//! The fields of an image, read from its bytes. All numbers are little-endian.
ghost use Rattle.std.specs.Prelude.{◌≡◌, ℕ, ◌+◌, ◌*◌, ◌<◌, ◌≤◌, ◌↔◌, IsTrue, length};
ghost use Rattle.bd_base.specs.declared.limits.TheConstants.{EXTENTS, FILES};
ghost use Rattle.bd_image.specs.Layout.{block_count, byte_at, extent_at, extent_count, extent_place, inode_count, name_field, number_at, owner_at, perms_at, record_place, size_in_image, used_mark, version};
ghost use Rattle.bd_image.specs.Rules.{HasRecords};

use crate::layout::{
    EXTENT_BYTES, EXTENTS_FIELD, INODES_PLACE, LENGTH_PLACE, NAME_FIELD, OWNER_FIELD, RECORD_BYTES,
    RECORDS_PLACE, SIZE_FIELD, VERSION_PLACE,
};
use bd_base::Extent;
use byteorder::{ByteOrder, LittleEndian};

/// The byte at a place.
pub(crate) fn byte_at(bytes: &[u8], place: u64) -> u8
    requires { place < length bytes.now }
    ensures { result ≡ byte_at bytes.now place }
{
    bytes[place as usize]
}

/// The number of two bytes at a place.
fn read_u16(bytes: &[u8], place: u64) -> u16
    requires { place + 2 ≤ length bytes.now }
    ensures { result ≡ number_at 2 bytes.now place }
{
    LittleEndian::read_u16(&bytes[place as usize..])
}

/// The number of four bytes at a place.
fn read_u32(bytes: &[u8], place: u64) -> u32
    requires { place + 4 ≤ length bytes.now }
    ensures { result ≡ number_at 4 bytes.now place }
{
    LittleEndian::read_u32(&bytes[place as usize..])
}

/// The number of eight bytes at a place.
fn read_u64(bytes: &[u8], place: u64) -> u64
    requires { place + 8 ≤ length bytes.now }
    ensures { result ≡ number_at 8 bytes.now place }
{
    LittleEndian::read_u64(&bytes[place as usize..])
}

/// The version of the format.
pub(crate) fn version(bytes: &[u8]) -> u64
    requires { VERSION_PLACE + 4 ≤ length bytes.now }
    ensures { result ≡ version bytes.now }
{
    u64::from(read_u32(bytes, VERSION_PLACE))
}

/// How many blocks the image says that it has.
pub(crate) fn block_count(bytes: &[u8]) -> u32
    requires { LENGTH_PLACE + 4 ≤ length bytes.now }
    ensures { result ≡ block_count bytes.now }
{
    read_u32(bytes, LENGTH_PLACE)
}

/// How many records the image says that it has.
pub(crate) fn inode_count(bytes: &[u8]) -> u64
    requires { INODES_PLACE + 4 ≤ length bytes.now }
    ensures { result ≡ inode_count bytes.now }
{
    u64::from(read_u32(bytes, INODES_PLACE))
}

/// The place of record `j`.
pub(crate) fn record_place(j: u64) -> u64
    requires { j < FILES }
    ensures { result ≡ record_place j }
{
    RECORDS_PLACE + RECORD_BYTES * j
}

/// The first byte of record `j`.
pub(crate) fn used_mark(bytes: &[u8], j: u64) -> u8
    requires image { HasRecords bytes.now }
    requires record { j < inode_count bytes.now }
    ensures { result ≡ used_mark bytes.now j }
{
    byte_at(bytes, record_place(j))
}

/// Whether record `j` is used.
pub(crate) fn is_used(bytes: &[u8], j: u64) -> bool
    requires image { HasRecords bytes.now }
    requires record { j < inode_count bytes.now }
    ensures { IsTrue result ↔ (used_mark bytes.now j ≡ 1) }
{
    used_mark(bytes, j) == 1
}

/// The permissions of record `j`.
pub(crate) fn perms_at(bytes: &[u8], j: u64) -> u8
    requires image { HasRecords bytes.now }
    requires record { j < inode_count bytes.now }
    ensures { result ≡ perms_at bytes.now j }
{
    byte_at(bytes, record_place(j) + 1)
}

/// How many extents record `j` has.
pub(crate) fn extent_count(bytes: &[u8], j: u64) -> u64
    requires image { HasRecords bytes.now }
    requires record { j < inode_count bytes.now }
    ensures { result ≡ extent_count bytes.now j }
{
    u64::from(read_u16(bytes, record_place(j) + 2))
}

/// The owner of record `j`.
pub(crate) fn owner_at(bytes: &[u8], j: u64) -> u32
    requires image { HasRecords bytes.now }
    requires record { j < inode_count bytes.now }
    ensures { result ≡ owner_at bytes.now j }
{
    read_u32(bytes, record_place(j) + OWNER_FIELD)
}

/// The size of record `j` in bytes.
pub(crate) fn size_in_image(bytes: &[u8], j: u64) -> u64
    requires image { HasRecords bytes.now }
    requires record { j < inode_count bytes.now }
    ensures { result ≡ size_in_image bytes.now j }
{
    read_u64(bytes, record_place(j) + SIZE_FIELD)
}

/// The 32 bytes of the name of record `j`.
pub(crate) fn name_field(bytes: &[u8], j: u64) -> &[u8]
    requires image { HasRecords bytes.now }
    requires record { j < inode_count bytes.now }
    ensures field { result.now ≡ name_field bytes.now j }
    ensures long { length result.now ≡ 32 }
{
    let start = (record_place(j) + NAME_FIELD) as usize;
    &bytes[start..start + 32]
}

/// The place of extent `e` of record `j`.
pub(crate) fn extent_place(j: u64, e: u64) -> u64
    requires record { j < FILES }
    requires extent { e < EXTENTS }
    ensures { result ≡ extent_place j e }
{
    record_place(j) + EXTENTS_FIELD + EXTENT_BYTES * e
}

/// Extent `e` of record `j`.
pub(crate) fn extent_at(bytes: &[u8], j: u64, e: u64) -> Extent
    requires image { HasRecords bytes.now }
    requires record { j < inode_count bytes.now }
    requires extent { e < EXTENTS }
    ensures { result ≡ extent_at bytes.now j e }
{
    let place = extent_place(j, e);
    Extent {
        start: read_u32(bytes, place),
        length: read_u32(bytes, place + 4),
    }
}
