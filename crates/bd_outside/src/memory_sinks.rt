//! Sinks that hold their bytes in memory.
ghost use Rattle.std.specs.Prelude.{◌≡◌, ℕ, ◌<◌, ◌≤◌, ◌↔◌, ◌++◌, true, List, [], Option, None, Some, length, min};
ghost use Rattle.bd_outside.specs.Sink.{bytes_taken, IfTook, OnFailedWrite};
ghost use Rattle.bd_outside.specs.Numbered.{fails_now, next_number, faults_before};

use crate::numbered::{NumberList, Numbered};
use crate::sinks::{Sink, Took};
use std::alloc::Global;
use std::marker::Model;

/// A sink in memory that never fails.
#[derive(Debug, Drop)]
pub struct SureSink {
    bytes: Vec<u8>,
    most: usize,
}

impl Model for SureSink {
    ghost use Rattle.std.specs.Prelude.{◌≤◌};
    ghost use Rattle.bd_outside.specs.Memory.{SinkState};

    ghost Value = { SinkState };

    ghost view = { λ a. record { held = a.bytes.items; most = a.most } };

    ghost invariant = { λ a. 1 ≤ a.most };
}

impl SureSink {
    /// An empty sink. A write takes at most `most` bytes, which is at least 1.
    pub fn new(alloc: Global, most: usize) -> SureSink
        requires { 1 ≤ most }
        ensures held { result.held ≡ [] }
        ensures most { result.most ≡ most }
    {
        SureSink {
            bytes: Vec::new(alloc),
            most,
        }
    }

    /// The bytes that were written.
    pub fn held(&self) -> &[u8]
        ensures { result.now ≡ self.now.held }
    {
        self.bytes.as_slice()
    }
}

impl Sink for SureSink {
    ghost held = { λ s. Some s.held };

    ghost faults = { λ _. 0 };

    ghost last_fault = { None };

    /// Takes the lesser of `most` and the piece's length, where there is memory for that.
    /// It never fails.
    fn write(&mut self, piece: &[u8]) -> Took
        requires { 0 < length piece.now }
        ensures count { IfTook result (λ n. n ≡ min self.old.most (length piece.now)) }
        ensures sure { OnFailedWrite result ⊥ }
        ensures most { self.new.most ≡ self.old.most }
        ensures in_piece { IfTook result (λ n. (1 ≤ n) × (n ≤ length piece.now)) }
        ensures appended { self.new.held ≡ self.old.held ++ bytes_taken result piece.now }
    {
        let count = self.most.min(piece.len());
        match self.bytes.extend_from_slice(&piece[..count]) {
            Ok(()) => Took::Bytes(count),
            Err(_) => Took::OutOfMemory,
        }
    }
}

/// A sink in memory of which some writes fail.
#[derive(Debug, Drop)]
pub struct MemSink {
    sink: SureSink,
    calls: Numbered,
}

impl Model for MemSink {
    ghost use Rattle.bd_outside.specs.Memory.{MemSinkState};

    ghost Value = { MemSinkState };

    ghost view = { λ a. record { held = a.sink.held; most = a.sink.most; calls = a.calls } };
}

impl MemSink {
    /// An empty sink. A write takes at most `most` bytes, which is at least 1. The writes whose
    /// numbers, from 0, stand in `fails` fail.
    pub fn new(alloc: Global, most: usize, fails: NumberList) -> MemSink
        requires { 1 ≤ most }
        ensures held { result.held ≡ [] }
        ensures most { result.most ≡ most }
        ensures calls { result.calls ≡ record { next = Some 0; fails = fails } }
    {
        MemSink {
            sink: SureSink::new(alloc, most),
            calls: Numbered::new(fails),
        }
    }

    /// The bytes that were written.
    pub fn held(&self) -> &[u8]
        ensures { result.now ≡ self.now.held }
    {
        self.sink.held()
    }
}

impl Sink for MemSink {
    ghost held = { λ s. Some s.held };

    ghost faults = { λ s. faults_before s.calls };

    ghost last_fault = { None };

    /// Fails where the number of this write stands in `fails`. Otherwise it takes the lesser of
    /// `most` and the piece's length, where there is memory for that.
    fn write(&mut self, piece: &[u8]) -> Took
        requires { 0 < length piece.now }
        ensures fails { (result ≡ Took.Failed) ↔ (fails_now self.old.calls ≡ true) }
        ensures count { IfTook result (λ n. n ≡ min self.old.most (length piece.now)) }
        ensures most { self.new.most ≡ self.old.most }
        ensures next { self.new.calls.next ≡ next_number self.old.calls.next }
        ensures named { self.new.calls.fails ≡ self.old.calls.fails }
        ensures in_piece { IfTook result (λ n. (1 ≤ n) × (n ≤ length piece.now)) }
        ensures appended { self.new.held ≡ self.old.held ++ bytes_taken result piece.now }
        ensures failed { OnFailedWrite result
            (faults_before self.old.calls < faults_before self.new.calls) }
        ensures faults { faults_before self.old.calls ≤ faults_before self.new.calls }
    {
        if self.calls.count() {
            return Took::Failed;
        }
        self.sink.write(piece)
    }
}
