//! What is kept of a running call in place of its entries.
ghost use Rattle.std.specs.Prelude.{slice_set, true};
ghost use Rattle.std.specs.Option.{option_or};
ghost use Rattle.std.specs.List.{list_all, range_with_len};
ghost use Rattle.bd_base.specs.declared.limits.TheConstants.{PIECES};
ghost use Rattle.bd_base.specs.declared.key_list.TheConstants.{MOST_KEYS};
ghost use Rattle.bd_kernel.specs.Marks.{number_of_key};
ghost use Rattle.std.specs.Prelude.{◌≡◌, ℕ, ◌<◌, ◌++◌, ◌∷◌, [], None, Some, List, length};
ghost use Rattle.bd_entry.specs.declared.entry.Entry.{Entry};
ghost use Rattle.bd_kernel.specs.Marks.{AreMarksOf, HasKeyOf, HasPieceOf, HasRoom, IsKey, is_marked, noted};

use crate::marks::is_marked;
use bd_base::{DESCRIPTORS, Fd, MOST_KEYS, PARTS, PIECES, Part, Pid};
use bd_entry::Entry;
use std::marker::Model;

/// How many pieces a call may have.
const PIECE_COUNT: usize = PIECES as usize;

/// What the rules ask about the entries of a call so far.
#[derive(Debug, Drop)]
pub struct RunningCall {
    // Whether there is an entry.
    begun: bool,
    // The descriptor of its Opened.
    opened: Option<Fd>,
    // Which pieces have their Access or Refused.
    answered: [bool; PIECE_COUNT],
    // Which pieces have their Missed.
    missed: [bool; PIECE_COUNT],
    // Which keys have their Cleared, by their numbers.
    cleared: [bool; MOST_KEYS],
    // Whether any has: only then is there something to reset.
    has_cleared: bool,
}

impl Model for RunningCall {
    ghost use Rattle.std.specs.Prelude.{◌≡◌, ℕ, false, length, slice_index_or};
    ghost use Rattle.bd_base.specs.declared.key_list.TheConstants.{MOST_KEYS};
    ghost use Rattle.bd_kernel.specs.Marks.{Marks, HasSpareMarks};

    ghost Value = { Marks };

    ghost view = { λ a. record {
      begun = a.begun;
      opened = a.opened;
      answered = a.answered;
      missed = a.missed;
      cleared = a.cleared;
    } };

    ghost invariant = { λ a. HasSpareMarks a.has_cleared a.cleared };
}

/// The number of a key among all keys.
fn key_number(process: Pid, fd: Fd, part: Part) -> usize
    ensures number { result ≡ number_of_key process fd part }
    ensures within { result < MOST_KEYS }
    ensures key { IsKey process fd part }
{
    let descriptor = process.get() * DESCRIPTORS + fd.get();
    (descriptor * PARTS + part.get()) as usize
}

impl RunningCall {
    /// No entry. This takes no memory.
    pub fn new() -> RunningCall
        ensures { AreMarksOf result [] }
    {
        RunningCall {
            begun: false,
            opened: None,
            answered: [false; PIECE_COUNT],
            missed: [false; PIECE_COUNT],
            cleared: [false; MOST_KEYS],
            has_cleared: false,
        }
    }

    /// Whether there is an entry.
    pub fn has_begun(&self) -> bool
        ensures { result ≡ self.now.begun }
    {
        self.begun
    }

    /// The descriptor of its Opened.
    pub fn opened(&self) -> Option<Fd>
        ensures { result ≡ self.now.opened }
    {
        self.opened
    }

    /// Whether the piece of this number has its Access or Refused.
    pub fn is_answered(&self, piece: u8) -> bool
        ensures { result ≡ is_marked self.now.answered piece }
    {
        is_marked(&self.answered, usize::from(piece))
    }

    /// Whether the first pieces, so many, all have their Access or Refused.
    pub fn are_answered(&self, count: usize) -> bool
        ensures { result ≡ list_all (is_marked self.now.answered) (range_with_len 0 count) }
    {
        for piece in 0..count {
            if !is_marked(&self.answered, piece) {
                return false;
            }
        }
        true
    }

    /// Whether the piece of this number has its Missed.
    pub fn has_missed(&self, piece: u8) -> bool
        ensures { result ≡ is_marked self.now.missed piece }
    {
        is_marked(&self.missed, usize::from(piece))
    }

    /// Whether the right of the descriptor on the part has its Cleared.
    pub fn has_cleared(&self, process: Pid, fd: Fd, part: Part) -> bool
        ensures { result ≡ is_marked self.now.cleared (number_of_key process fd part) }
    {
        is_marked(&self.cleared, key_number(process, fd, part))
    }

    /// Takes note of the next entry.
    pub fn note(&mut self, entry: &Entry)
        requires { HasPieceOf entry.now }
        ensures noted { self.new ≡ noted entry.now self.old }
        ensures key { HasKeyOf entry.now }
        ensures room { HasRoom self.old }
    {
        self.begun = true;
        match entry {
            Entry::Opened { fd, .. } => self.note_opened(*fd),
            Entry::Access { piece, .. } => self.answered[*piece as usize] = true,
            Entry::Refused {
                piece: Some(piece),
                ..
            } => self.answered[*piece as usize] = true,
            Entry::Missed { piece, .. } => self.missed[*piece as usize] = true,
            Entry::Cleared {
                owner,
                fd,
                part,
                ..
            } => self.note_cleared(*owner, *fd, *part),
            Entry::Created { .. }
            | Entry::Attached { .. }
            | Entry::Mapped { .. }
            | Entry::Detached { .. }
            | Entry::Extended { .. }
            | Entry::Released { .. }
            | Entry::Sized { .. }
            | Entry::SizeRead { .. }
            | Entry::Closed { .. }
            | Entry::Unlinked { .. }
            | Entry::Refused { piece: None, .. } => {}
        }
    }

    fn note_opened(&mut self, fd: Fd)
        ensures { self.new ≡ record self.old { opened = option_or self.old.opened (Some fd) } }
    {
        if self.opened.is_none() {
            self.opened = Some(fd);
        }
    }

    fn note_cleared(&mut self, process: Pid, fd: Fd, part: Part)
        ensures cleared { self.new ≡ record self.old {
          cleared = slice_set self.old.cleared (number_of_key process fd part) true;
        } }
        ensures key { IsKey process fd part }
    {
        self.cleared[key_number(process, fd, part)] = true;
        self.has_cleared = true;
    }

    /// Forgets all entries.
    pub fn reset(&mut self)
        ensures { AreMarksOf self.new [] }
    {
        self.begun = false;
        self.opened = None;
        self.answered = [false; PIECE_COUNT];
        self.missed = [false; PIECE_COUNT];
        if self.has_cleared {
            self.cleared.fill(false);
            self.has_cleared = false;
        }
    }
}
