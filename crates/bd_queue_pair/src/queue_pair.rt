//! A submission queue and a completion queue, of one process and its device engine.
ghost use Rattle.std.specs.Prelude.{◌≡◌, ◌<◌, ◌≤◌, ◌↔◌, [], ◌∷◌, ◌++◌, false, IfOk, IsNone, IsSome, length, vec_len, vec_capacity};
ghost use Rattle.std.specs.Option.{option_to_list};
ghost use Rattle.bd_queue_pair.specs.declared.queue_pair.TheConstants.{DEPTH};
ghost use Rattle.bd_queue_pair.specs.Queues.{no_commands, in_hand_of, others_in_hand, without_piece, outstanding, outstanding_of, AreApart};

use crate::command::{Command, Done};
use bd_base::OutOfMemory;
use circular_buffer::HeapCircularBuffer;
use std::alloc::Global;
use std::marker::Model;

/// How many commands of a process may be outstanding.
pub const DEPTH: usize = 8;

/// The commands that are submitted, those that the engine has in hand, and the completions that are
/// not polled.
///
/// A command is outstanding from its submission until its completion is polled. At most [`DEPTH`]
/// commands are outstanding, and no two of them have the same piece number. Contracts see the three
/// lists, each in order.
#[derive(Debug, Drop)]
pub struct QueuePair {
    submitted: HeapCircularBuffer<Command>,
    in_hand: Vec<Command>,
    completed: HeapCircularBuffer<Done>,
}

impl Model for QueuePair {
    ghost use Rattle.bd_queue_pair.specs.Queues.{Queues};

    ghost Value = { Queues };

    ghost use Rattle.bd_queue_pair.specs.Rings.{queues, HaveRoom};

    ghost view = { queues };

    ghost invariant = { HaveRoom };
}

impl QueuePair {
    /// A pair of queues with no command. No other call takes memory.
    pub fn new(alloc: Global) -> Result<QueuePair, OutOfMemory>
        ensures { IfOk result (λ pair. pair ≡ no_commands) }
    {
        Ok(QueuePair {
            submitted: HeapCircularBuffer::with_capacity(alloc, DEPTH)?,
            in_hand: Vec::with_capacity(alloc, DEPTH)?,
            completed: HeapCircularBuffer::with_capacity(alloc, DEPTH)?,
        })
    }

    /// Submits a command, of whose piece number none is outstanding, while fewer than [`DEPTH`]
    /// are.
    pub fn submit(&mut self, c: Command)
        requires room { outstanding self.old < DEPTH }
        requires piece { outstanding_of self.old c.piece ≡ 0 }
        ensures queues { self.new ≡ record self.old { submitted = self.old.submitted ++ c ∷ [] } }
        ensures apart { AreApart self.new }
    {
        put_back(&mut self.submitted, c);
    }

    /// Takes the oldest submitted command in hand: None exactly where none is submitted.
    pub fn take(&mut self) -> Option<Command>
        ensures none { IsNone result ↔ (self.old.submitted ≡ []) }
        ensures submitted { self.old.submitted ≡ option_to_list result ++ self.new.submitted }
        ensures in_hand { self.new.in_hand ≡ self.old.in_hand ++ option_to_list result }
        ensures completed { self.new.completed ≡ self.old.completed }
        ensures apart { AreApart self.new }
    {
        let taken = take_front(&mut self.submitted);
        let held = taken;
        push_within(&mut self.in_hand, held);
        taken
    }

    /// Completes the command in hand that has the piece number of `d`.
    pub fn complete(&mut self, d: Done)
        requires { in_hand_of self.old d.piece ≡ 1 }
        ensures submitted { self.new.submitted ≡ self.old.submitted }
        ensures in_hand { self.new.in_hand ≡ others_in_hand self.old d.piece }
        ensures completed { self.new.completed ≡ self.old.completed ++ d ∷ [] }
        ensures apart { AreApart self.new }
    {
        drop_piece(&mut self.in_hand, d.piece);
        put_back(&mut self.completed, d);
    }

    /// Gives the oldest completion that was not polled: None exactly where there is none.
    pub fn poll(&mut self) -> Option<Done>
        ensures none { IsNone result ↔ (self.old.completed ≡ []) }
        ensures submitted { self.new.submitted ≡ self.old.submitted }
        ensures in_hand { self.new.in_hand ≡ self.old.in_hand }
        ensures completed { self.old.completed ≡ option_to_list result ++ self.new.completed }
        ensures apart { AreApart self.new }
    {
        take_front(&mut self.completed)
    }

    /// Whether a command is submitted and not taken.
    pub fn has_submitted(&self) -> bool
        ensures { (result ≡ false) ↔ (self.now.submitted ≡ []) }
    {
        !self.submitted.is_empty()
    }

    /// Whether a completion has come that was not polled.
    pub fn has_completed(&self) -> bool
        ensures { (result ≡ false) ↔ (self.now.completed ≡ []) }
    {
        !self.completed.is_empty()
    }
}

// Appends an item to a ring with room for it.
fn put_back<T: Drop>(ring: &mut HeapCircularBuffer<T>, item: T)
    requires { length ring.old.items < ring.old.capacity }
    ensures items { ring.new.items ≡ ring.old.items ++ item ∷ [] }
    ensures capacity { ring.new.capacity ≡ ring.old.capacity }
{
    match ring.try_push_back(item) {
        Ok(()) => {}
        Err(_) => unreachable!(),
    }
}

// Takes the first item of a ring, if there is one.
fn take_front<T>(ring: &mut HeapCircularBuffer<T>) -> Option<T>
    ensures none { IsNone result ↔ (ring.old.items ≡ []) }
    ensures items { ring.old.items ≡ option_to_list result ++ ring.new.items }
    ensures capacity { ring.new.capacity ≡ ring.old.capacity }
{
    ring.pop_front()
}

// Appends the command, if there is one, to a list with room for it.
fn push_within(commands: &mut Vec<Command>, taken: Option<Command>)
    requires { IsSome taken → vec_len commands.old < vec_capacity commands.old }
    ensures items { commands.new.items ≡ commands.old.items ++ option_to_list taken }
    ensures capacity { vec_capacity commands.old ≤ vec_capacity commands.new }
{
    if let Some(command) = taken {
        match commands.push(command) {
            Ok(()) => {}
            Err(_) => unreachable!(),
        }
    }
}

// Drops the commands with this piece number.
fn drop_piece(commands: &mut Vec<Command>, piece: u8)
    ensures items { commands.new.items ≡ without_piece piece commands.old.items }
    ensures capacity { vec_capacity commands.new ≡ vec_capacity commands.old }
{
    commands.retain(|c| c.piece != piece);
}
