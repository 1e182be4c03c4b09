//! The depth of the queues.
ghost use Rattle.std.specs.Prelude.{◌≡◌};
ghost use Rattle.bd_queue_pair.specs.declared.queue_pair.TheConstants.{DEPTH};

/// At most 8 commands are outstanding. The call does nothing: its contract is the law.
pub fn depth_is_eight()
    ensures { DEPTH ≡ 8 }
{}
