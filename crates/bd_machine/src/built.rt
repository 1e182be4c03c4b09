//! Which calls the machine runs.
ghost use Rattle.std.specs.Prelude.{◌≡◌};
ghost use Rattle.bd_machine.specs.Turns.{is_built};

use bd_base::{Call, How};

/// Whether the machine runs calls of this form: direct opens, creates, reads, writes and sizes.
pub fn is_built(call: &Call) -> bool
    ensures { result ≡ is_built call.now }
{
    match call {
        Call::Enter {
            how: How::Direct,
            ..
        }
        | Call::Create { .. }
        | Call::Read { .. }
        | Call::Write { .. }
        | Call::Size { .. } => true,
        Call::Enter {
            how: How::Plain,
            ..
        }
        | Call::Truncate { .. }
        | Call::Unlink { .. }
        | Call::Map { .. }
        | Call::Close { .. }
        | Call::RawRead { .. }
        | Call::RawWrite { .. } => false,
    }
}
