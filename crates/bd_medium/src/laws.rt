//! What holds of bytes that are put among those of all blocks.
ghost use Rattle.bd_medium.specs.Laws.{PutIsThere, OthersStay};

/// A range of a block has the bytes that were put there. The call does nothing: its contract is the
/// law.
pub fn what_is_put_is_there()
    ensures { PutIsThere }
{}

/// Where bytes are put, each byte before and after them stays, and so does the number of bytes. The
/// call does nothing: its contract is the law.
pub fn other_bytes_stay()
    ensures { OthersStay }
{}
