//! The limit of the cache by its number, as the contract of a function that does nothing.
ghost use Rattle.std.specs.Prelude.{◌≡◌};
ghost use Rattle.bd_lines.specs.declared.lines.TheConstants.{LINES};

/// The cache has sixteen lines.
pub fn lines_are_sixteen()
    ensures { LINES ≡ 16 }
{}
