//! Disk images: what an image must hold, reading one into a volume, and writing a volume as an image.
#![tactic(auto)]

mod bits;
mod error;
mod laws;
mod layout;
mod reader;
mod refusals;
mod rule;
mod writer;

pub use error::ImageError;
pub use laws::{layout_is, number_gives_back_its_bytes, one_image, one_volume, sound_volumes};
pub use layout::{
    BITMAP_PLACE, EXTENT_BYTES, EXTENTS_FIELD, HEADER_BYTES, INODES_PLACE, LEAST_INODES,
    LEAST_LENGTH, LENGTH_PLACE, MAGIC, NAME_FIELD, OWNER_FIELD, RECORD_BYTES, RECORDS_PLACE,
    SIZE_FIELD, VERSION, VERSION_PLACE,
};
pub use reader::parse;
pub use refusals::{long_images_are_refused, one_refusal, refused_is_not_accepted};
pub use rule::Rule;
pub use writer::render;

#[cfg(test)]
mod tests;
