//! What the machine promises of translations, in plain words. Each is the contract of a function that does nothing.
ghost use Rattle.bd_turns.specs.Names.{HeldTranslationsAreCurrent, ReleasedBlocksAreUnnamed};

/// Each translation that an engine holds or that a line of the cache has names the block that the file of an open descriptor
/// has at that index now, no further than its limit, and the descriptor's right on that part is attached.
pub fn held_translations_are_current()
    ensures { HeldTranslationsAreCurrent }
{}

/// When a block is released, no engine holds a translation that names it, and no line of the cache has one.
pub fn released_blocks_are_unnamed()
    ensures { ReleasedBlocksAreUnnamed }
{}
