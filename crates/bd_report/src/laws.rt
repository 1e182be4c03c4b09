//! What holds of replies. Each call does nothing: its contract is the law.
ghost use Rattle.bd_report.specs.Laws.{OtherCallsDoNotMatter, PiecesComeInAnyOrder, ReadsTellFirstPieces, WritesTellFirstRefusal};

/// The reply of a call is the same whatever the entries of other calls are.
pub fn other_calls_do_not_matter()
    ensures { OtherCallsDoNotMatter }
{}

/// The reply of a read or a write is the same in whichever order its pieces were answered.
pub fn pieces_come_in_any_order()
    ensures { PiecesComeInAnyOrder }
{}

/// A read tells the bytes of its first pieces, in their order: all of them, or up to the first that gave fewer than asked.
pub fn reads_tell_first_pieces()
    ensures { ReadsTellFirstPieces }
{}

/// A write of which pieces were refused tells why the first of these was.
pub fn writes_tell_first_refusal()
    ensures { WritesTellFirstRefusal }
{}
