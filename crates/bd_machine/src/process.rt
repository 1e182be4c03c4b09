//! How far a process is in its script, and what its device engine has in hand.
ghost use Rattle.std.specs.Prelude.{◌≡◌, IfOk, None};
ghost use Rattle.bd_queue_pair.specs.Queues.{no_commands};
ghost use Rattle.bd_machine.specs.declared.process.Process.{Process};

use bd_base::OutOfMemory;
use bd_kernel::KernelCall;
use bd_queue_pair::{Command, DoneKind, QueuePair};
use std::alloc::Global;

/// A command in hand, with what became of it.
#[derive(Clone, Copy, Debug, PartialEq, Eq)]
pub(crate) struct Hand {
    pub(crate) command: Command,
    pub(crate) outcome: Option<DoneKind>,
}

/// What an engine does next with the command in its hand.
#[derive(Clone, Copy, Debug, PartialEq, Eq)]
pub(crate) enum Phase {
    /// It enters the key: the command was taken and nothing else.
    Taken,
    Looking,
    Reading,
    Filling,
    Moving,
    Missing,
    Retiring,
    Completing,
}

/// A process and its engine.
#[derive(Drop)]
pub(crate) struct Process<P: Drop> {
    /// How many of its calls have ended.
    pub(crate) ended: u16,
    /// How many effective turns were taken in the name of its running call.
    pub(crate) used: u32,
    /// Its running call, once it was begun.
    pub(crate) call: Option<KernelCall>,
    pub(crate) queue: QueuePair,
    pub(crate) hand: Option<Hand>,
    /// What its engine does next with the command in its hand.
    pub(crate) phase: Phase,
    /// The pass with which its engine walks, where it does not go its own way.
    pub(crate) pass: Option<P>,
}

impl<P: Drop> Process<P> {
    /// Before the first turn. The only error is that no memory is found.
    pub(crate) fn new(alloc: Global) -> Result<Process<P>, OutOfMemory>
        ensures ended { IfOk result (λ x. x.ended ≡ 0) }
        ensures used { IfOk result (λ x. x.used ≡ 0) }
        ensures call { IfOk result (λ x. x.call ≡ None) }
        ensures queue { IfOk result (λ x. x.queue ≡ no_commands) }
        ensures hand { IfOk result (λ x. x.hand ≡ None) }
        ensures pass { IfOk result (λ x. x.pass ≡ None) }
    {
        Ok(Process {
            ended: 0,
            used: 0,
            call: None,
            queue: QueuePair::new(alloc)?,
            hand: None,
            phase: Phase::Taken,
            pass: None,
        })
    }
}
