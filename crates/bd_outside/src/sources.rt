//! A source of bytes: what a read answers, and what it does to what is left.
ghost use Rattle.std.specs.Prelude.{ℕ, ◌<◌, ◌≤◌, List, Option, length};
ghost use Rattle.std.specs.Io.KnownBytes.{Consumes, IsAtEnd};
ghost use Rattle.bd_outside.specs.Faults.{Rose};
ghost use Rattle.bd_outside.specs.Source.{bytes_got, IfGot, OnEnd, OnFailedRead};

/// What a read answered.
#[derive(Clone, Copy, Debug, PartialEq, Eq)]
pub enum Got {
    /// So many bytes, at least one. They stand at the front of the buffer.
    Bytes(usize),
    /// There is no byte left.
    End,
    /// The read failed, and took no byte.
    Failed,
}

/// Bytes that are read piece by piece.
///
/// Contracts see what is left of it, where it tells that, and a count of its faults.
pub trait Source {
    // The bytes that are left, where the source tells them.
    ghost left: { Self → Option (List ℕ) };

    // How many faults there were so far. The count never falls.
    ghost faults: { Self → ℕ };

    // The last value that the count can have. None: it has no last value.
    ghost last_fault: { Option ℕ };

    /// Reads the next bytes into the front of the buffer, which is not empty.
    fn read(&mut self, buf: &mut [u8]) -> Got
        requires { 0 < length buf.old }
        ensures in_buffer { IfGot result (λ n. (1 ≤ n) × (n ≤ length buf.new)) }
        ensures taken { Consumes (left self.old) (left self.new) (bytes_got result buf.new) }
        ensures end { OnEnd result (IsAtEnd (left self.old)) }
        ensures failed { OnFailedRead result (Rose last_fault (faults self.old) (faults self.new)) }
        ensures faults { faults self.old ≤ faults self.new };
}
