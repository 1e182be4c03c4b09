//! The length of the queue.
ghost use Rattle.std.specs.Prelude.{◌≡◌};
ghost use Rattle.bd_base.specs.declared.limits.TheConstants.{POSTS};

/// At most 32 requests are posted. The call does nothing: its contract is the law.
pub fn posts_are_thirty_two()
    ensures { POSTS ≡ 32 }
{}
