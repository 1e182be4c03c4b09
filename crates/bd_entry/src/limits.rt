//! The limit of what an entry tells, beside those of the machine.
ghost use Rattle.std.specs.Prelude.{◌≡◌};

/// Where the permissions of a created file end, as a line of a journal may tell them.
pub const ASKED_PERMS: u64 = 256;

/// What this limit is. The call does nothing: its contract is the law.
pub fn entry_limits()
    ensures perms { ASKED_PERMS ≡ 256 }
{}
