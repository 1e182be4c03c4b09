//! A sink of bytes: what a write answers, and what it does to what is held.
ghost use Rattle.std.specs.Prelude.{ℕ, ◌<◌, ◌≤◌, List, Option, length};
ghost use Rattle.std.specs.Io.KnownBytes.{Appends};
ghost use Rattle.bd_outside.specs.Faults.{Rose};
ghost use Rattle.bd_outside.specs.Sink.{bytes_taken, IfTook, OnFailedWrite};

/// What a write answered.
#[derive(Clone, Copy, Debug, PartialEq, Eq)]
pub enum Took {
    /// So many bytes, at least one, from the front of the piece. They were appended.
    Bytes(usize),
    /// The write failed, and nothing was appended.
    Failed,
    /// The sink found no memory, and nothing was appended.
    OutOfMemory,
}

/// A place to which bytes are appended piece by piece.
///
/// Contracts see what it holds, where it tells that, and a count of its faults.
pub trait Sink {
    // The bytes that the sink holds, where it tells them.
    ghost held: { Self → Option (List ℕ) };

    // How many faults there were so far. The count never falls.
    ghost faults: { Self → ℕ };

    // The last value that the count can have. None: it has no last value.
    ghost last_fault: { Option ℕ };

    /// Appends the first bytes of a piece, which is not empty.
    fn write(&mut self, piece: &[u8]) -> Took
        requires { 0 < length piece.now }
        ensures in_piece { IfTook result (λ n. (1 ≤ n) × (n ≤ length piece.now)) }
        ensures appended { Appends (held self.old) (held self.new) (bytes_taken result piece.now) }
        ensures failed { OnFailedWrite result
            (Rose last_fault (faults self.old) (faults self.new)) }
        ensures faults { faults self.old ≤ faults self.new };
}
