//! What holds of the machine at every moment. Each law is the contract of a function that does nothing.
ghost use Rattle.bd_turns.specs.Reached.{BootIsReached, TurnsAddLegally, TurnsKeepIt};

/// A machine begins with an empty history, and sound.
pub fn boot_is_reached()
    ensures { BootIsReached }
{}

/// Each entry that a turn adds is the next one of the journal, and legal there.
pub fn turns_add_legally()
    ensures { TurnsAddLegally }
{}

/// After each turn of any actor the journal is a history of the script, which leads to the store, the state is sound, and no
/// call took more turns than it may.
pub fn turns_keep_it()
    ensures { TurnsKeepIt }
{}
