//! The pieces of a call whose commands are submitted and not polled.
ghost use Rattle.std.specs.Prelude.{◌≡◌, ◌<◌, [], ◌∷◌, ◌++◌, drop, length, nat_eq};
ghost use Rattle.bd_base.specs.declared.limits.TheConstants.{PIECES};

use bd_base::PIECES;
use std::marker::Model;

/// How many pieces a call may have.
const PIECE_COUNT: usize = PIECES as usize;

/// Numbers of pieces in the order in which their commands were submitted, in an array. Contracts see
/// them as a list.
#[derive(Debug, Drop)]
pub(crate) struct Outstanding {
    numbers: [u8; PIECE_COUNT],
    count: usize,
}

impl Model for Outstanding {
    ghost use Rattle.std.specs.Prelude.{List, ℕ, ◌≤◌, take};
    ghost use Rattle.bd_base.specs.declared.limits.TheConstants.{PIECES};

    ghost Value = { List ℕ };

    ghost view = { λ a. take a.count a.numbers };

    ghost invariant = { λ a. a.count ≤ PIECES };
}

impl Outstanding {
    /// No piece.
    pub(crate) fn new() -> Outstanding
        ensures { result ≡ [] }
    {
        Outstanding {
            numbers: [0; PIECE_COUNT],
            count: 0,
        }
    }

    /// The command of this piece is submitted.
    pub(crate) fn push(&mut self, piece: u8)
        requires { length self.old < PIECES }
        ensures { self.new ≡ self.old ++ piece ∷ [] }
    {
        self.numbers[self.count] = piece;
        self.count += 1;
    }

    /// The completion of the oldest command is polled.
    pub(crate) fn pop_front(&mut self)
        requires { 0 < length self.old }
        ensures { self.new ≡ drop 1 self.old }
    {
        self.numbers.copy_within(1..self.count, 0);
        self.count -= 1;
    }

    /// Whether there is none.
    pub(crate) fn is_empty(&self) -> bool
        ensures { result ≡ nat_eq (length self.now) 0 }
    {
        self.count == 0
    }

    /// The numbers in their order.
    pub(crate) fn as_slice(&self) -> &[u8]
        ensures { result.now ≡ self.now }
    {
        &self.numbers[..self.count]
    }
}
