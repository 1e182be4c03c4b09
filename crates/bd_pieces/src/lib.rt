//! How a range of bytes is cut into pieces of blocks, and how the bytes of pieces are put together.
#![tactic(auto)]

mod cutting;
mod gathering;
mod laws;
mod piece;
mod piece_list;

pub use cutting::pieces;
pub use gathering::{PartList, PieceBytes, gather};
pub use laws::{most_pieces_are_five, pieces_are_the_range};
pub use piece::{Piece, goes_direct};
pub use piece_list::{MOST_PIECES, PieceList};

#[cfg(test)]
mod tests;
