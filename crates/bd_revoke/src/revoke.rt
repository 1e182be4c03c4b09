//! The revocation of the rights of a list of keys.
ghost use Rattle.std.specs.Prelude.{◌≡◌, ◌<◌, ◌↔◌, ◌++◌, Contains, IsSome, IsTrue, IfSome, drop, length, position};
ghost use Rattle.std.specs.List.Sorted.{IsStrictlySortedBy};
ghost use Rattle.bd_base.specs.Keys.{key_cmp, same_key};
ghost use Rattle.bd_tables.specs.Answers.{AllStay};
ghost use Rattle.bd_tables.specs.Kernel.{IsOn, KeyIs};
ghost use Rattle.bd_revoke.specs.Revocation.{beginning, counted_off, key_to_clear, left_of, without};
ghost use Rattle.bd_revoke.specs.Turns.{next_turn, after_turn, posts_of, kernel_after};

use crate::turn::RevokeTurn;
use bd_base::{At, Fd, Key, KeyList, MOST_KEYS, Part, Pid};
use bd_inval::{Inval, POSTS, Post};
use bd_tables::KernelSide;
use std::marker::Model;

/// A revocation in progress, by a call that it is for.
///
/// Each key is cleared, then posted, and then waits until it is counted off as detached; the next
/// key is cleared once the one before it is posted. It takes no memory. Contracts see the keys that
/// are to be cleared, the key that is to be posted, those that wait, and the call.
#[derive(Debug, Drop)]
pub struct Revoke {
    by: At,
    // In this order: keys that were detached, those that wait, the one that is cleared and not
    // posted, and those to be cleared.
    keys: [Key; MOST_KEYS],
    detached: usize,
    posted: usize,
    cleared: usize,
    count: usize,
}

impl Model for Revoke {
    ghost use Rattle.bd_revoke.specs.Revocation.{Revocation};

    ghost Value = { Revocation };

    ghost use Rattle.bd_revoke.specs.Stages.{revocation, AreInOrder};

    ghost view = { revocation };

    ghost invariant = { AreInOrder };
}

impl Revoke {
    /// A revocation of these keys, which are different and in order of process, descriptor and
    /// part.
    pub fn begin(keys: KeyList, by: At) -> Revoke
        requires { IsStrictlySortedBy key_cmp keys }
        ensures { result ≡ beginning keys by }
    {
        let unused = Key {
            process: Pid::new(0).unwrap(),
            fd: Fd::new(0).unwrap(),
            part: Part::new(0).unwrap(),
        };
        let mut items = [unused; MOST_KEYS];
        let given = keys.as_slice();
        let count = given.len();
        items[..count].copy_from_slice(given);
        Revoke {
            by,
            keys: items,
            detached: 0,
            posted: 0,
            cleared: 0,
            count,
        }
    }

    /// Takes the next step of a revocation that is not finished. Where a clear is next, its key is
    /// On in these tables.
    ///
    /// QueueFull exactly where a post is next and [`POSTS`] requests are posted; Detaching exactly
    /// where all keys are posted. Both change nothing.
    pub fn step<T: KernelSide>(&mut self, tables: &mut T, inval: &mut Inval) -> RevokeTurn
        requires open { 0 < left_of self.old }
        requires on { IfSome (key_to_clear self.old) (KeyIs IsOn (T.kernel tables.old)) }
        ensures turn { result ≡ next_turn self.old (length inval.old) }
        ensures revocation { self.new ≡ after_turn self.old result }
        ensures posts { inval.new ≡ inval.old ++ posts_of result self.old.by }
        ensures kernel { T.kernel tables.new ≡ kernel_after result (T.kernel tables.old) }
        ensures passes { AllStay T.is_of tables.old tables.new }
    {
        if self.posted < self.cleared {
            return self.post(inval);
        }
        if self.cleared < self.count {
            let key = self.keys[self.cleared];
            let cleared = key;
            tables.clear(cleared);
            self.cleared += 1;
            return RevokeTurn::Cleared(key);
        }
        RevokeTurn::Detaching((self.count - self.detached) as u32)
    }

    // Posts the key that is cleared and not posted, where there is room.
    fn post(&mut self, inval: &mut Inval) -> RevokeTurn
        requires { IsSome self.old.to_post }
        ensures turn { result ≡ next_turn self.old (length inval.old) }
        ensures revocation { self.new ≡ after_turn self.old result }
        ensures posts { inval.new ≡ inval.old ++ posts_of result self.old.by }
    {
        let key = self.keys[self.posted];
        let posted = key;
        let by = self.by;
        match inval.post(Post { key: posted, by }) {
            Ok(()) => {
                self.posted += 1;
                RevokeTurn::Posted(key)
            }
            Err(_) => RevokeTurn::QueueFull(POSTS as u32),
        }
    }

    /// Counts off a key, which was posted and not counted off, as detached.
    pub fn detached(&mut self, key: Key)
        requires { Contains self.old.waiting key }
        ensures { self.new ≡ counted_off self.old key }
    {
        let (from, to) = (self.detached, self.posted);
        let keys = &mut self.keys[..];
        move_to_front(&mut keys[from..to], key);
        self.detached += 1;
    }

    /// Whether each key was counted off.
    pub fn finished(&self) -> bool
        ensures { IsTrue result ↔ (left_of self.now ≡ 0) }
    {
        self.detached == self.count
    }
}

// Moves a key, which is among these, in front of the others, whose order stays.
fn move_to_front(keys: &mut [Key], key: Key)
    requires { Contains keys.old key }
    ensures others { drop 1 keys.new ≡ without key keys.old }
    ensures count { length keys.new ≡ length keys.old }
{
    let place = place_of(keys, key).unwrap();
    keys[..place + 1].rotate_right(1);
}

// The first place of a key.
fn place_of(keys: &[Key], key: Key) -> Option<usize>
    ensures place { result ≡ position (λ other. same_key other key) keys.now }
    ensures within { IfSome result (λ place. place < length keys.now) }
{
    keys.iter().position(|other| *other == key)
}
