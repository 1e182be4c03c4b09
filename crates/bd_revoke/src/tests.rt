//! Revocations of rights in tables for one thread, by functions that know only the traits.
ghost use Rattle.std.specs.Prelude.{◌≡◌, ◌+◌, ◌<◌, None, Some, [], ◌∷◌, ◌++◌, drop, length, IfOk, slice_get};
ghost use Rattle.bd_base.specs.declared.limits.TheConstants.{POSTS};
ghost use Rattle.bd_tables.specs.declared.state.RightState.TheVariants.{Cleared as IsInCleared};
ghost use Rattle.bd_tables.specs.Kernel.{IsCleared, IsDrained, IsOn, KeyIs, key_detached, key_in_state};
ghost use Rattle.bd_tables.specs.Plain.{kernel_of};
ghost use Rattle.bd_tables.specs.Sweeps.{lines_swept};
ghost use Rattle.bd_revoke.specs.Revocation.{beginning};

use crate::{Revoke, RevokeTurn};
use bd_base::{At, Fd, FileId, Key, KeyList, Part, Pid};
use bd_inval::{Inval, POSTS, Post};
use bd_tables::{Drained, KernelSide, PlainTables};
use std::alloc::Global;
use std::process::Abort;
use std::test::Fail;

fn key(process: u64) -> Result<Key, Fail>
    ensures { IfOk result (λ key. key.process ≡ process) }
{
    Ok(Key {
        process: Pid::new(process).ok_or("a process")?,
        fd: Fd::new(7).ok_or("a descriptor")?,
        part: Part::new(0).ok_or("a part")?,
    })
}

// The revocation of no right.
fn of_none(by: At) -> Revoke
    ensures { result ≡ beginning [] by }
{
    Revoke::begin(KeyList::new(), by)
}

// The revocation of one right.
fn of_one(key: &Key, by: At) -> Revoke
    ensures { result ≡ beginning (key.now ∷ []) by }
{
    let mut keys = KeyList::new();
    keys.push(*key);
    Revoke::begin(keys, by)
}

// The revocation of a right of each of two processes.
fn of_two(first: &Key, second: &Key, by: At) -> Revoke
    requires { first.now.process < second.now.process }
    ensures { result ≡ beginning (first.now ∷ second.now ∷ []) by }
{
    let mut keys = KeyList::new();
    keys.push(*first);
    keys.push(*second);
    Revoke::begin(keys, by)
}

// Tables with a right of each of two processes to one part of a file.
fn two_rights(alloc: Global, first: &Key, second: &Key) -> Result<PlainTables, Fail>
    requires { first.now.process < second.now.process }
    ensures first { IfOk result (λ tables. KeyIs IsOn (kernel_of tables) first.now) }
    ensures second { IfOk result (λ tables. KeyIs IsOn (kernel_of tables) second.now) }
{
    let mut tables = PlainTables::new(alloc, 16)?;
    let file = FileId::new(0).ok_or("a file")?;
    tables.attach(*first, file, false, &[])?;
    tables.attach(*second, file, true, &[])?;
    Ok(tables)
}

// Clears the next key and posts it.
fn clear_and_post<T: KernelSide>(
    revoke: &mut Revoke,
    tables: &mut T,
    inval: &mut Inval,
    key: &Key,
) -> (RevokeTurn, RevokeTurn)
    requires next { slice_get revoke.old.to_clear 0 ≡ Some key.now }
    requires none { revoke.old.to_post ≡ None }
    requires room { length inval.old < POSTS }
    requires on { KeyIs IsOn (T.kernel tables.old) key.now }
    ensures cleared { result.0 ≡ RevokeTurn.Cleared key.now }
    ensures posted { result.1 ≡ RevokeTurn.Posted key.now }
    ensures to_clear { revoke.new.to_clear ≡ drop 1 revoke.old.to_clear }
    ensures to_post { revoke.new.to_post ≡ None }
    ensures waiting { revoke.new.waiting ≡ revoke.old.waiting ++ key.now ∷ [] }
    ensures posts { length inval.new ≡ length inval.old + 1 }
    ensures kernel { T.kernel tables.new
        ≡ key_in_state (T.kernel tables.old) key.now IsInCleared }
{
    let cleared = revoke.step(tables, inval);
    let posted = revoke.step(tables, inval);
    (cleared, posted)
}

// Sweeps all lines for a key that is drained.
fn sweep_all<T: KernelSide>(tables: &mut T, key: &Key)
    requires { KeyIs IsDrained (T.kernel tables.old) key.now }
    ensures { T.kernel tables.new ≡ lines_swept (T.kernel tables.old) 16 key.now }
{
    for line in 0..16 {
        tables.sweep(line, *key);
    }
}

// Detaches a key that is cleared, unless an engine is in it.
fn invalidate<T: KernelSide>(tables: &mut T, key: &Key) -> Drained
    requires { KeyIs IsCleared (T.kernel tables.old) key.now }
    ensures { result ≡ Drained.Yes
        → T.kernel tables.new ≡ key_detached (T.kernel tables.old) key.now }
{
    match tables.drained(*key) {
        Drained::NotYet(count) => Drained::NotYet(count),
        Drained::Yes => {
            sweep_all(tables, key);
            tables.detach(*key);
            Drained::Yes
        }
    }
}

// Takes a step of a revocation whose keys are all posted.
fn wait<T: KernelSide>(revoke: &mut Revoke, tables: &mut T, inval: &mut Inval) -> RevokeTurn
    requires to_clear { revoke.old.to_clear ≡ [] }
    requires to_post { revoke.old.to_post ≡ None }
    requires some { 0 < length revoke.old.waiting }
    ensures revocation { revoke.new ≡ revoke.old }
    ensures kernel { T.kernel tables.new ≡ T.kernel tables.old }
{
    revoke.step(tables, inval)
}

// Clears and posts two keys, and takes the next step.
fn post_both<T: KernelSide>(
    revoke: &mut Revoke,
    tables: &mut T,
    inval: &mut Inval,
    first: &Key,
    second: &Key,
) -> RevokeTurn
    requires differ { first.now.process < second.now.process }
    requires keys { revoke.old ≡ beginning (first.now ∷ second.now ∷ []) revoke.old.by }
    requires room { inval.old ≡ [] }
    requires first { KeyIs IsOn (T.kernel tables.old) first.now }
    requires second { KeyIs IsOn (T.kernel tables.old) second.now }
    ensures waiting { revoke.new.waiting ≡ first.now ∷ second.now ∷ [] }
    ensures first { KeyIs IsCleared (T.kernel tables.new) first.now }
    ensures second { KeyIs IsCleared (T.kernel tables.new) second.now }
{
    let _first = clear_and_post(revoke, tables, inval, first);
    let _second = clear_and_post(revoke, tables, inval, second);
    wait(revoke, tables, inval)
}

// Detaches two keys and counts them off, and tells whether the revocation is finished after each.
fn detach_both<T: KernelSide>(
    revoke: &mut Revoke,
    tables: &mut T,
    first: &Key,
    second: &Key,
) -> Option<(bool, bool)>
    requires differ { first.now.process < second.now.process }
    requires waiting { revoke.old.waiting ≡ first.now ∷ second.now ∷ [] }
    requires first { KeyIs IsCleared (T.kernel tables.old) first.now }
    requires second { KeyIs IsCleared (T.kernel tables.old) second.now }
{
    match invalidate(tables, first) {
        Drained::NotYet(_) => None,
        Drained::Yes => {
            revoke.detached(*first);
            let before = revoke.finished();
            let _drained = invalidate(tables, second);
            revoke.detached(*second);
            Some((before, revoke.finished()))
        }
    }
}

#[test]
fn two_rights_are_revoked(rt: HostRuntime) -> Result<(), Fail> {
    let (first, second) = (key(3)?, key(15)?);
    let by = At {
        process: first.process,
        call: 1,
    };
    let mut tables = two_rights(rt.alloc(), &first, &second)?;
    let mut inval = Inval::new(rt.alloc())?;
    let mut revoke = of_two(&first, &second, by);
    assert!(rt; !revoke.finished());
    let turn = post_both(&mut revoke, &mut tables, &mut inval, &first, &second);
    assert_eq!(rt; turn, RevokeTurn::Detaching(2));
    assert_eq!(rt; inval.front(), Some(Post { key: first, by }));
    let finished = detach_both(&mut revoke, &mut tables, &first, &second);
    assert_eq!(rt; finished, Some((false, true)));
    assert_eq!(rt; tables.in_use(), 0);
    Ok(())
}

// Clears a key, and posts it once a request of the full queue is done.
fn wait_for_room<T: KernelSide>(
    revoke: &mut Revoke,
    tables: &mut T,
    inval: &mut Inval,
    key: &Key,
) -> Option<(u32, RevokeTurn)>
    requires key { revoke.old ≡ beginning (key.now ∷ []) revoke.old.by }
    requires on { KeyIs IsOn (T.kernel tables.old) key.now }
{
    let _cleared = revoke.step(tables, inval);
    match revoke.step(tables, inval) {
        RevokeTurn::QueueFull(count) => {
            if inval.front().is_some() {
                inval.done();
            }
            Some((count, revoke.step(tables, inval)))
        }
        RevokeTurn::Cleared(_) | RevokeTurn::Posted(_) | RevokeTurn::Detaching(_) => None,
    }
}

// Posts as many requests as there may be.
fn fill_up(rt: &impl Abort, inval: &mut Inval, post: &Post) {
    for _ in 0..POSTS {
        assert_eq!(rt; inval.post(*post), Ok(()));
    }
}

#[test]
fn a_post_waits_for_room(rt: HostRuntime) -> Result<(), Fail> {
    let (first, second) = (key(0)?, key(1)?);
    let by = At {
        process: first.process,
        call: 7,
    };
    let mut tables = two_rights(rt.alloc(), &first, &second)?;
    let mut inval = Inval::new(rt.alloc())?;
    fill_up(&rt, &mut inval, &Post { key: first, by });
    let mut revoke = of_one(&second, by);
    let turns = wait_for_room(&mut revoke, &mut tables, &mut inval, &second);
    assert_eq!(rt; turns, Some((32, RevokeTurn::Posted(second))));
    assert!(rt; !revoke.finished());
    Ok(())
}

#[test]
fn is_finished_where_no_key_is_left(rt: HostRuntime) -> Result<(), Fail> {
    let by = At {
        process: Pid::new(3).ok_or("a process")?,
        call: 1,
    };
    assert!(rt; of_none(by).finished());
    assert!(rt; !of_one(&key(0)?, by).finished());
    Ok(())
}
