//! What legal journals promise, in plain words. Each is the contract of a function that does nothing.
ghost use Rattle.bd_entry.specs.Promises.{AfterMissHasMissed, CallsAreInOrder, DetachedIsCleared, DirectAccessIsUnderRight, EachPieceOnce, KnownChangesAtEnd, KnownIsTold, NextPartIsLegal, NoDirectoryIsNoRight, PairsAreFew, PastKnownEndsAbove, PiecesMissNothingElse, RawCommandOnce, ReadsGiveContent, RightsKeepFiles, WritesGoToContent};

/// Each direct access is on the file's current block, inside its limit, under a right that is attached there and that the
/// mode allows.
pub fn direct_accesses_are_under_rights()
    ensures { DirectAccessIsUnderRight }
{}

/// Each access reads just the bytes of the file's content, or writes just the call's bytes into it.
pub fn accesses_are_of_content()
    ensures reads { ReadsGiveContent }
    ensures writes { WritesGoToContent }
{}

/// Each access of the kernel by a direct descriptor comes after a miss of its piece, or ends above the known size.
pub fn fallbacks_have_causes()
    ensures after_miss { AfterMissHasMissed }
    ensures past_known { PastKnownEndsAbove }
{}

/// A walk finds no right only where none stands, and the walk of a piece below the known size finds nothing else.
pub fn misses_have_causes()
    ensures no_directory { NoDirectoryIsNoRight }
    ensures nothing_else { PiecesMissNothingElse }
{}

/// While a right on a file is attached, no block of it is released, it neither shrinks nor goes, and no plain descriptor of it
/// is opened.
pub fn rights_keep_files()
    ensures { RightsKeepFiles }
{}

/// A right is detached only after the same call cleared it.
pub fn detached_rights_were_cleared()
    ensures { DetachedIsCleared }
{}

/// The part that can be attached next is the one of which an Attached is legal, and no more pairs are in use than there are
/// fragments.
pub fn rights_are_attached_in_order()
    ensures next { NextPartIsLegal }
    ensures few { PairsAreFew }
{}

/// The known size of a descriptor is the one that its process was last told by a finished call.
pub fn known_sizes_were_told()
    ensures between_calls { KnownIsTold }
    ensures at_the_end { KnownChangesAtEnd }
{}

/// Each piece of a finished read or write is answered once, and each finished raw command has one access or one miss.
pub fn pieces_are_answered_once()
    ensures pieces { EachPieceOnce }
    ensures raw_commands { RawCommandOnce }
{}

/// The entries of a call all stand before those of its process's later calls.
pub fn calls_are_in_order()
    ensures { CallsAreInOrder }
{}
