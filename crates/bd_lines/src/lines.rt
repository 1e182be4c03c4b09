//! The lines of the cache.
ghost use Rattle.std.specs.Prelude.{◌≡◌, ℕ, ◌<◌, None};
ghost use Rattle.std.proofs.Common.{replicate};
ghost use Rattle.bd_lines.specs.declared.lines.TheConstants.{LINES};
ghost use Rattle.bd_lines.specs.Lines.{filled, hit, line_of, swept};

use bd_base::{Cell, Key};
use std::marker::Model;

/// How many lines the cache has.
pub const LINES: usize = 16;

/// A translation in the cache.
#[derive(Clone, Copy, Debug, PartialEq, Eq)]
pub struct Line {
    pub key: Key,
    /// Which block of the file, from 0.
    pub index: u32,
    pub cell: Cell,
}

/// The cache of translations. It takes no memory. Contracts see its lines by their numbers.
///
/// The line of an address is the sum of process, descriptor and index in the file, modulo 16.
#[derive(Debug, Drop)]
pub struct Lines {
    lines: [Option<Line>; LINES],
}

impl Model for Lines {
    ghost use Rattle.std.specs.Prelude.{◌≡◌, ℕ, List, Option, length};
    ghost use Rattle.bd_lines.specs.declared.lines.Line.{Line};
    ghost use Rattle.bd_lines.specs.declared.lines.TheConstants.{LINES};

    ghost Value = { List (Option Line) };

    ghost view = { λ a. a.lines };

    ghost invariant = { λ a. length a.lines ≡ LINES };
}

impl Lines {
    /// Sixteen empty lines.
    pub fn new() -> Lines
        ensures { result ≡ replicate LINES None }
    {
        Lines {
            lines: [None; LINES],
        }
    }

    /// The number of the line of an address.
    fn line_of(key: &Key, index: u32) -> usize
        ensures { result ≡ line_of key.now index }
    {
        let sum = key.process.get() + key.fd.get() + u64::from(index);
        (sum % LINES as u64) as usize
    }

    /// The cell of the address: Some exactly where its line names this key and index with a limit of at least `hi`.
    pub fn look(&self, key: Key, index: u32, hi: u16) -> Option<Cell>
        ensures { result ≡ hit self.now key index hi }
    {
        let c = Lines::line_of(&key, index);
        let line = self.lines[c]?;
        if line.key == key && line.index == index && hi <= line.cell.limit {
            Some(line.cell)
        } else {
            None
        }
    }

    /// Puts a translation into the line of its address, in place of what stood there.
    pub fn fill(&mut self, key: Key, index: u32, cell: Cell)
        ensures { self.new ≡ filled self.old key index cell }
    {
        let c = Lines::line_of(&key, index);
        self.lines[c] = Some(Line { key, index, cell });
    }

    /// Empties line `c`, from 0 to 15, exactly where it names this key.
    pub fn sweep(&mut self, c: u8, key: Key)
        requires { c < LINES }
        ensures { self.new ≡ swept self.old c key }
    {
        let c = usize::from(c);
        if let Some(line) = self.lines[c]
            && line.key == key
        {
            self.lines[c] = None;
        }
    }
}
