//! Calls that are numbered from 0, and the numbers of those that are to fail.
ghost use Rattle.std.specs.Prelude.{◌≡◌, ◌<◌, ◌≤◌, Some};
ghost use Rattle.std.specs.Bool.{OnTrue};
ghost use Rattle.bd_outside.specs.Numbered.{fails_now, next_number, faults_before};

use bd_base::List;
use std::marker::Model;

/// A list of numbers.
pub type NumberList = List<u64>;

// The calls of a source or sink that fail by plan. After call 2^64 - 1 no call has a number, and
// none fails.
#[derive(Debug, Drop)]
pub(crate) struct Numbered {
    next: Option<u64>,
    fails: NumberList,
}

impl Model for Numbered {
    ghost use Rattle.bd_outside.specs.Numbered.{Calls};

    ghost Value = { Calls };

    ghost view = { λ a. record { next = a.next; fails = a.fails } };
}

impl Numbered {
    // The next call is number 0, and these calls fail.
    pub(crate) fn new(fails: NumberList) -> Numbered
        ensures next { result.next ≡ Some 0 }
        ensures fails { result.fails ≡ fails }
    {
        Numbered {
            next: Some(0),
            fails,
        }
    }

    // Counts one call, and says whether it is one that fails.
    pub(crate) fn count(&mut self) -> bool
        ensures fails { result ≡ fails_now self.old }
        ensures next { self.new.next ≡ next_number self.old.next }
        ensures plan { self.new.fails ≡ self.old.fails }
        ensures rose { OnTrue result (faults_before self.old < faults_before self.new) }
        ensures never_falls { faults_before self.old ≤ faults_before self.new }
    {
        let Some(number) = self.next else {
            return false;
        };
        self.next = number.checked_add(1);
        self.fails.as_slice().contains(&number)
    }
}
