//! Sources over bytes in memory.
ghost use Rattle.std.specs.Prelude.{◌≡◌, ℕ, ◌<◌, ◌≤◌, ◌++◌, List, [], Option, None, Some, length};
ghost use Rattle.bd_outside.specs.Source.{bytes_got, IfGot, OnEnd, OnFailedRead};
ghost use Rattle.bd_outside.specs.Numbered.{next_number, faults_before};
ghost use Rattle.bd_outside.specs.Memory.{got_of_call, next_got};

use crate::numbered::{NumberList, Numbered};
use crate::sources::{Got, Source};
use bd_base::Bytes;
use std::marker::Model;

/// A source over bytes in memory that never fails.
#[derive(Debug, Drop)]
pub struct SureSource {
    bytes: Bytes,
    at: usize,
    most: usize,
}

impl Model for SureSource {
    ghost use Rattle.std.specs.Prelude.{◌≤◌, length, drop};
    ghost use Rattle.bd_outside.specs.Memory.{SourceState};

    ghost Value = { SourceState };

    ghost view = { λ a. record { left = drop a.at a.bytes; most = a.most } };

    ghost invariant = { λ a. (a.at ≤ length a.bytes) × (1 ≤ a.most) };
}

impl SureSource {
    /// A source of these bytes. A read gives at most `most` of them, which is at least 1.
    pub fn new(bytes: Bytes, most: usize) -> SureSource
        requires { 1 ≤ most }
        ensures left { result.left ≡ bytes }
        ensures most { result.most ≡ most }
    {
        SureSource { bytes, at: 0, most }
    }
}

impl Source for SureSource {
    ghost left = { λ s. Some s.left };

    ghost faults = { λ _. 0 };

    ghost last_fault = { None };

    /// Gives as many bytes as the least of `most`, the length of the buffer and what is left.
    /// It never fails.
    fn read(&mut self, buf: &mut [u8]) -> Got
        requires { 0 < length buf.old }
        ensures answer { result ≡ next_got self.old.most (length buf.old) self.old.left }
        ensures most { self.new.most ≡ self.old.most }
        ensures in_buffer { IfGot result (λ n. (1 ≤ n) × (n ≤ length buf.new)) }
        ensures taken { self.old.left ≡ bytes_got result buf.new ++ self.new.left }
        ensures end { OnEnd result (self.old.left ≡ []) }
        ensures failed { OnFailedRead result ⊥ }
    {
        let rest = &self.bytes.as_slice()[self.at..];
        let count = self.most.min(buf.len()).min(rest.len());
        if count == 0 {
            return Got::End;
        }
        buf[..count].copy_from_slice(&rest[..count]);
        self.at += count;
        Got::Bytes(count)
    }
}

/// A source over bytes in memory of which some reads fail, at its end too.
#[derive(Debug, Drop)]
pub struct MemSource {
    source: SureSource,
    calls: Numbered,
}

impl Model for MemSource {
    ghost use Rattle.bd_outside.specs.Memory.{MemSourceState};

    ghost Value = { MemSourceState };

    ghost view = { λ a. record { left = a.source.left; most = a.source.most; calls = a.calls } };
}

impl MemSource {
    /// A source of these bytes. A read gives at most `most` of them, which is at least 1. The
    /// reads whose numbers, from 0, stand in `fails` fail.
    pub fn new(bytes: Bytes, most: usize, fails: NumberList) -> MemSource
        requires { 1 ≤ most }
        ensures left { result.left ≡ bytes }
        ensures most { result.most ≡ most }
        ensures calls { result.calls ≡ record { next = Some 0; fails = fails } }
    {
        MemSource {
            source: SureSource::new(bytes, most),
            calls: Numbered::new(fails),
        }
    }
}

impl Source for MemSource {
    ghost left = { λ s. Some s.left };

    ghost faults = { λ s. faults_before s.calls };

    ghost last_fault = { None };

    /// Fails where the number of this read stands in `fails`. Otherwise it gives as many bytes as
    /// the least of `most`, the length of the buffer and what is left.
    fn read(&mut self, buf: &mut [u8]) -> Got
        requires { 0 < length buf.old }
        ensures answer { result ≡ got_of_call self.old (length buf.old) }
        ensures most { self.new.most ≡ self.old.most }
        ensures next { self.new.calls.next ≡ next_number self.old.calls.next }
        ensures fails { self.new.calls.fails ≡ self.old.calls.fails }
        ensures in_buffer { IfGot result (λ n. (1 ≤ n) × (n ≤ length buf.new)) }
        ensures taken { self.old.left ≡ bytes_got result buf.new ++ self.new.left }
        ensures end { OnEnd result (self.old.left ≡ []) }
        ensures failed { OnFailedRead result
            (faults_before self.old.calls < faults_before self.new.calls) }
        ensures faults { faults_before self.old.calls ≤ faults_before self.new.calls }
    {
        if self.calls.count() {
            return Got::Failed;
        }
        self.source.read(buf)
    }
}
