//! The queue of the invalidation engine.
ghost use Rattle.std.specs.Prelude.{◌≡◌, ◌<◌, ◌≤◌, ◌↔◌, [], ◌∷◌, ◌++◌, IfOk, OnOk, OnErr, IsErr, drop, length, slice_get};
ghost use Rattle.bd_base.specs.declared.limits.TheConstants.{POSTS};

use bd_base::{At, Key, OutOfMemory, POSTS};
use circular_buffer::HeapCircularBuffer;
use std::alloc::Global;
use std::marker::Model;

/// An Invalidate Request: the right of a key is to be revoked, by a call. The name is that of PCIe
/// Address Translation Services.
#[derive(Clone, Copy, Debug, PartialEq, Eq)]
pub struct Post {
    pub key: Key,
    /// The call that revokes the right.
    pub by: At,
}

/// [`POSTS`] requests are posted.
#[derive(Clone, Copy, Debug, PartialEq, Eq)]
pub struct Full;

/// The requests that are posted and not done, at most [`POSTS`]. Contracts see them as a list, the
/// oldest first.
#[derive(Debug, Drop)]
pub struct Inval {
    posted: HeapCircularBuffer<Post>,
}

impl Model for Inval {
    ghost use Rattle.std.specs.Prelude.{◌≡◌, List};
    ghost use Rattle.bd_inval.specs.declared.inval.Post.{Post};
    ghost use Rattle.bd_base.specs.declared.limits.TheConstants.{POSTS};

    ghost Value = { List Post };

    ghost view = { λ a. a.posted.items };

    ghost invariant = { λ a. a.posted.capacity ≡ POSTS };
}

impl Inval {
    /// A queue with no request. No other call takes memory.
    pub fn new(alloc: Global) -> Result<Inval, OutOfMemory>
        ensures { IfOk result (λ inval. inval ≡ []) }
    {
        let posted = HeapCircularBuffer::with_capacity(alloc, POSTS)?;
        Ok(Inval { posted })
    }

    /// Posts a request after the others: Full exactly where [`POSTS`] are posted. Where it is
    /// refused the queue is as before.
    pub fn post(&mut self, p: Post) -> Result<(), Full>
        ensures full { IsErr result ↔ (length self.old ≡ POSTS) }
        ensures ok { OnOk result (self.new ≡ self.old ++ p ∷ []) }
        ensures err { OnErr result (self.new ≡ self.old) }
        ensures room { length self.new ≤ POSTS }
    {
        if self.posted.len() == POSTS {
            return Err(Full);
        }
        self.posted.push_back(p);
        Ok(())
    }

    /// The oldest request: None exactly where none is posted.
    pub fn front(&self) -> Option<Post>
        ensures { result ≡ slice_get self.now 0 }
    {
        self.posted.front().copied()
    }

    /// Drops the oldest request, which there is.
    pub fn done(&mut self)
        requires { 0 < length self.old }
        ensures { self.new ≡ drop 1 self.old }
    {
        self.posted.pop_front();
    }
}
