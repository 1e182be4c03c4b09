//! Sources and sinks over std's readers and writers.
ghost use Rattle.std.specs.Prelude.{◌≡◌, ◌≢◌, ℕ, ◌-◌, ◌^◌, ◌<◌, ◌≤◌, Option, Some, length};
ghost use Rattle.std.specs.Io.KnownBytes.{Appends, Consumes, IsAtEnd};
ghost use Rattle.bd_outside.specs.Faults.{Rose};
ghost use Rattle.bd_outside.specs.Sink.{bytes_taken, faults_after_write, IfTook, OnFailedWrite};
ghost use Rattle.bd_outside.specs.Source.{bytes_got, faults_after_read, IfGot, OnEnd, OnFailedRead};

use crate::sinks::{Sink, Took};
use crate::sources::{Got, Source};
use std::io::{Read, Write};
use std::marker::Model;

/// A source over a reader. Each error of the reader is a fault.
#[derive(Drop)]
pub struct ReadSource<R: Read> {
    reader: R,
    faults: u64,
}

impl<R: Read> Model for ReadSource<R> {
    ghost use Rattle.bd_outside.specs.Adapters.{SourceCount};

    ghost Value = { SourceCount };

    ghost view = { λ a. record { left = R.remaining a.reader; faults = a.faults } };
}

impl<R: Read> ReadSource<R> {
    /// A source of what this reader gives, with no fault so far.
    pub fn new(r: R) -> ReadSource<R>
        ensures left { result.left ≡ R.remaining r }
        ensures faults { result.faults ≡ 0 }
    {
        ReadSource {
            reader: r,
            faults: 0,
        }
    }
}

impl<R: Read> Source for ReadSource<R> {
    ghost left = { λ s. s.left };

    ghost faults = { λ s. s.faults };

    ghost last_fault = { Some (2 ^ 64 - 1) };

    /// Reads once. A read that gives nothing is the end.
    fn read(&mut self, buf: &mut [u8]) -> Got
        requires { 0 < length buf.old }
        ensures counted { self.new.faults ≡ faults_after_read result self.old.faults }
        ensures in_buffer { IfGot result (λ n. (1 ≤ n) × (n ≤ length buf.new)) }
        ensures taken { Consumes self.old.left self.new.left (bytes_got result buf.new) }
        ensures end { OnEnd result (IsAtEnd self.old.left) }
        ensures failed { OnFailedRead result
            (Rose (Some (2 ^ 64 - 1)) self.old.faults self.new.faults) }
        ensures faults { self.old.faults ≤ self.new.faults }
    {
        match self.reader.read(buf) {
            Ok(0) => Got::End,
            Ok(count) => Got::Bytes(count),
            Err(_) => {
                self.faults = self.faults.saturating_add(1);
                Got::Failed
            }
        }
    }
}

/// A sink over a writer. Each error of the writer is a fault, and so is a write that takes nothing.
#[derive(Drop)]
pub struct WriteSink<W: Write> {
    writer: W,
    faults: u64,
}

impl<W: Write> Model for WriteSink<W> {
    ghost use Rattle.bd_outside.specs.Adapters.{SinkCount};

    ghost Value = { SinkCount };

    ghost view = { λ a. record { held = W.contents a.writer; faults = a.faults } };
}

impl<W: Write> WriteSink<W> {
    /// A sink that appends to what this writer holds, with no fault so far.
    pub fn new(w: W) -> WriteSink<W>
        ensures held { result.held ≡ W.contents w }
        ensures faults { result.faults ≡ 0 }
    {
        WriteSink {
            writer: w,
            faults: 0,
        }
    }
}

impl<W: Write> Sink for WriteSink<W> {
    ghost held = { λ s. s.held };

    ghost faults = { λ s. s.faults };

    ghost last_fault = { Some (2 ^ 64 - 1) };

    /// Writes once. It needs no memory of its own.
    fn write(&mut self, piece: &[u8]) -> Took
        requires { 0 < length piece.now }
        ensures counted { self.new.faults ≡ faults_after_write result self.old.faults }
        ensures finds_memory { result ≢ Took.OutOfMemory }
        ensures in_piece { IfTook result (λ n. (1 ≤ n) × (n ≤ length piece.now)) }
        ensures appended { Appends self.old.held self.new.held (bytes_taken result piece.now) }
        ensures failed { OnFailedWrite result
            (Rose (Some (2 ^ 64 - 1)) self.old.faults self.new.faults) }
        ensures faults { self.old.faults ≤ self.new.faults }
    {
        match self.writer.write(piece) {
            Ok(count) if count > 0 => Took::Bytes(count),
            _ => {
                self.faults = self.faults.saturating_add(1);
                Took::Failed
            }
        }
    }
}
