//! Numbers that name processes, descriptors, files, blocks, addresses, actors and parts.
//!
//! Each type wraps a number of its own range, so that no two kinds are mistaken for each other.
ghost use Rattle.std.specs.Prelude.{◌≡◌, ℕ, ◌<◌};
ghost use Rattle.std.specs.Option.{SomeIff};
ghost use Rattle.bd_base.specs.declared.limits.TheConstants.{ACTORS, ADDRESSES, BLOCKS, DESCRIPTORS, FILES, PARTS, PROCESSES};

use crate::limits::{ACTORS, ADDRESSES, BLOCKS, DESCRIPTORS, FILES, PARTS, PROCESSES};
use std::marker::Model;

/// A process.
///
/// The field is private, so each value is below [`PROCESSES`]. Contracts see the number.
#[derive(Clone, Copy, Debug, PartialEq, Eq, PartialOrd, Ord, Hash)]
pub struct Pid {
    number: u8,
}

impl Model for Pid {
    ghost Value = { ℕ };

    ghost view = { λ a. a.number };

    ghost invariant = { λ a. a.number < PROCESSES };

    ghost inverse = { λ n. record { number = n } };
}

impl Pid {
    /// Wraps `n`: None exactly where it is out of range.
    pub fn new(n: u64) -> Option<Self>
        ensures { SomeIff result (n < PROCESSES) n }
    {
        if n < PROCESSES {
            Some(Pid { number: n as u8 })
        } else {
            None
        }
    }

    /// The number.
    pub fn get(self) -> u64
        ensures value { result ≡ self }
        ensures in_range { result < PROCESSES }
    {
        u64::from(self.number)
    }
}

/// A descriptor of a process.
///
/// The field is private, so each value is below [`DESCRIPTORS`]. Contracts see the number.
#[derive(Clone, Copy, Debug, PartialEq, Eq, PartialOrd, Ord, Hash)]
pub struct Fd {
    number: u8,
}

impl Model for Fd {
    ghost Value = { ℕ };

    ghost view = { λ a. a.number };

    ghost invariant = { λ a. a.number < DESCRIPTORS };

    ghost inverse = { λ n. record { number = n } };
}

impl Fd {
    /// Wraps `n`: None exactly where it is out of range.
    pub fn new(n: u64) -> Option<Self>
        ensures { SomeIff result (n < DESCRIPTORS) n }
    {
        if n < DESCRIPTORS {
            Some(Fd { number: n as u8 })
        } else {
            None
        }
    }

    /// The number.
    pub fn get(self) -> u64
        ensures value { result ≡ self }
        ensures in_range { result < DESCRIPTORS }
    {
        u64::from(self.number)
    }
}

/// A file: the number of its record in the image.
///
/// The field is private, so each value is below [`FILES`]. Contracts see the number.
#[derive(Clone, Copy, Debug, PartialEq, Eq, PartialOrd, Ord, Hash)]
pub struct FileId {
    number: u8,
}

impl Model for FileId {
    ghost Value = { ℕ };

    ghost view = { λ a. a.number };

    ghost invariant = { λ a. a.number < FILES };

    ghost inverse = { λ n. record { number = n } };
}

impl FileId {
    /// Wraps `n`: None exactly where it is out of range.
    pub fn new(n: u64) -> Option<Self>
        ensures { SomeIff result (n < FILES) n }
    {
        if n < FILES {
            Some(FileId { number: n as u8 })
        } else {
            None
        }
    }

    /// The number.
    pub fn get(self) -> u64
        ensures value { result ≡ self }
        ensures in_range { result < FILES }
    {
        u64::from(self.number)
    }
}

/// A block of the device.
///
/// The field is private, so each value is below [`BLOCKS`]. Contracts see the number.
#[derive(Clone, Copy, Debug, PartialEq, Eq, PartialOrd, Ord, Hash)]
pub struct BlockNo {
    number: u16,
}

impl Model for BlockNo {
    ghost Value = { ℕ };

    ghost view = { λ a. a.number };

    ghost invariant = { λ a. a.number < BLOCKS };

    ghost inverse = { λ n. record { number = n } };
}

impl BlockNo {
    /// Wraps `n`: None exactly where it is out of range.
    pub fn new(n: u64) -> Option<Self>
        ensures { SomeIff result (n < BLOCKS) n }
    {
        if n < BLOCKS {
            Some(BlockNo { number: n as u16 })
        } else {
            None
        }
    }

    /// The number.
    pub fn get(self) -> u64
        ensures value { result ≡ self }
        ensures in_range { result < BLOCKS }
    {
        u64::from(self.number)
    }
}

/// A block address of a process: 4096 times the descriptor, plus the block's index in the file.
///
/// The field is private, so each value is below [`ADDRESSES`]. Contracts see the number.
#[derive(Clone, Copy, Debug, PartialEq, Eq, PartialOrd, Ord, Hash)]
pub struct Vba {
    number: u16,
}

impl Model for Vba {
    ghost Value = { ℕ };

    ghost view = { λ a. a.number };

    ghost invariant = { λ a. a.number < ADDRESSES };

    ghost inverse = { λ n. record { number = n } };
}

impl Vba {
    /// Wraps `n`: None exactly where it is out of range.
    pub fn new(n: u64) -> Option<Self>
        ensures { SomeIff result (n < ADDRESSES) n }
    {
        if n < ADDRESSES {
            Some(Vba { number: n as u16 })
        } else {
            None
        }
    }

    /// The number.
    pub fn get(self) -> u64
        ensures value { result ≡ self }
        ensures in_range { result < ADDRESSES }
    {
        u64::from(self.number)
    }
}

/// An actor that takes turns. With P processes, 0 to P-1 are the processors, P to 2P-1 the device engines in the same
/// order, and 2P is the invalidation engine.
///
/// The field is private, so each value is below [`ACTORS`]. Contracts see the number.
#[derive(Clone, Copy, Debug, PartialEq, Eq, PartialOrd, Ord, Hash)]
pub struct Actor {
    number: u8,
}

impl Model for Actor {
    ghost Value = { ℕ };

    ghost view = { λ a. a.number };

    ghost invariant = { λ a. a.number < ACTORS };

    ghost inverse = { λ n. record { number = n } };
}

impl Actor {
    /// Wraps `n`: None exactly where it is out of range.
    pub fn new(n: u64) -> Option<Self>
        ensures { SomeIff result (n < ACTORS) n }
    {
        if n < ACTORS {
            Some(Actor { number: n as u8 })
        } else {
            None
        }
    }

    /// The number.
    pub fn get(self) -> u64
        ensures value { result ≡ self }
        ensures in_range { result < ACTORS }
    {
        u64::from(self.number)
    }
}

/// A part of a file: 512 blocks in a row.
///
/// The field is private, so each value is below [`PARTS`]. Contracts see the number.
#[derive(Clone, Copy, Debug, PartialEq, Eq, PartialOrd, Ord, Hash)]
pub struct Part {
    number: u8,
}

impl Model for Part {
    ghost Value = { ℕ };

    ghost view = { λ a. a.number };

    ghost invariant = { λ a. a.number < PARTS };

    ghost inverse = { λ n. record { number = n } };
}

impl Part {
    /// Wraps `n`: None exactly where it is out of range.
    pub fn new(n: u64) -> Option<Self>
        ensures { SomeIff result (n < PARTS) n }
    {
        if n < PARTS {
            Some(Part { number: n as u8 })
        } else {
            None
        }
    }

    /// The number.
    pub fn get(self) -> u64
        ensures value { result ≡ self }
        ensures in_range { result < PARTS }
    {
        u64::from(self.number)
    }
}

#[cfg(test)]
mod tests {
    use super::*;

    #[test]
    fn have_ranges_of_their_own(rt: HostRuntime) {
        assert!(rt; Pid::new(15).is_some() && Pid::new(16).is_none());
        assert!(rt; Fd::new(7).is_some() && Fd::new(8).is_none());
        assert!(rt; FileId::new(255).is_some() && FileId::new(256).is_none());
        assert!(rt; BlockNo::new(16_383).is_some() && BlockNo::new(16_384).is_none());
        assert!(rt; Vba::new(32_767).is_some() && Vba::new(32_768).is_none());
        assert!(rt; Actor::new(32).is_some() && Actor::new(33).is_none());
        assert!(rt; Part::new(7).is_some() && Part::new(8).is_none());
    }
}
