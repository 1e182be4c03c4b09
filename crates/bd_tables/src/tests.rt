//! Walks and revocations over tables for one thread, by functions that know only the traits.
ghost use Rattle.std.specs.Prelude.{◌≡◌, ◌/◌, ◌<◌, ◌≤◌, IfOk};
ghost use Rattle.bd_base.specs.declared.limits.TheConstants.{PART_BLOCKS, PROCESSES};
ghost use Rattle.bd_lines.specs.declared.lines.TheConstants.{LINES};
ghost use Rattle.bd_tables.specs.declared.state.Walk.TheVariants.{Idle};
ghost use Rattle.bd_tables.specs.Answers.{AllStay, GivesBack, IsAnswered, IsEntered};
ghost use Rattle.bd_tables.specs.Kernel.{HasLimit, IsDrained, IsEmptyEntry, IsEntryUpTo, IsLimit, IsOn, KeyIs, key_detached};
ghost use Rattle.bd_tables.specs.Passes.{IsLent};
ghost use Rattle.bd_tables.specs.Plain.{kernel_of};
ghost use Rattle.bd_tables.specs.Sweeps.{lines_swept};

mod fragments;

use crate::{
    Cell, Completion, Drained, EngineSide, KernelSide, Key, LINES, Looked, PlainPass, PlainTables,
    Request, Walked,
};
use bd_base::{BlockNo, Fd, FileId, Found, Part, Pid, Steps};
use std::alloc::Global;
use std::marker::Brand;
use std::process::Abort;
use std::sync::ledger::{Blank, Ledger};
use std::test::Fail;

/// What a walk came to.
#[derive(Clone, Copy, Debug, PartialEq, Eq)]
struct Outcome {
    told: Option<Completion>,
    found: Option<Found>,
    hit: bool,
}

/// Reads the entry, and fills the line where there is one.
fn read_and_fill<T: EngineSide, L: Ledger>(
    tables: &mut T,
    pass: T::Pass,
    steps: &mut Steps<L>,
) -> T::Pass
    requires is_of { T.is_of tables.old pass }
    requires entered { IsEntered (T.walk pass) }
    ensures answered { IsAnswered (T.walk result) }
    ensures given_back { GivesBack T.is_of T.process tables.old tables.new pass result }
{
    let (pass, walked) = tables.read_entry(pass, steps);
    match walked {
        Walked::Granted => tables.fill(pass, steps),
        Walked::Missed(_) => pass,
    }
}

/// Looks into the line, and reads the entry where that misses.
fn look_up<T: EngineSide, L: Ledger>(
    tables: &mut T,
    pass: T::Pass,
    steps: &mut Steps<L>,
) -> (T::Pass, bool)
    requires is_of { T.is_of tables.old pass }
    requires entered { IsEntered (T.walk pass) }
    ensures answered { IsAnswered (T.walk result.0) }
    ensures given_back { GivesBack T.is_of T.process tables.old tables.new pass result.0 }
{
    let (pass, looked) = tables.look(pass, steps);
    match looked {
        Looked::Hit => (pass, true),
        Looked::Miss => (read_and_fill(tables, pass, steps), false),
    }
}

/// A walk from the enter to its answer.
fn ask<T: EngineSide, L: Ledger>(
    tables: &mut T,
    pass: T::Pass,
    request: Request,
    steps: &mut Steps<L>,
) -> (T::Pass, bool)
    requires is_of { T.is_of tables.old pass }
    requires idle { T.walk pass ≡ Idle }
    requires own { T.process pass ≡ request.key.process }
    requires part { request.key.part ≡ request.index / PART_BLOCKS }
    requires hi { IsLimit request.hi }
    ensures answered { IsAnswered (T.walk result.0) }
    ensures given_back { GivesBack T.is_of T.process tables.old tables.new pass result.0 }
{
    let (pass, walked) = tables.enter(pass, request, steps);
    match walked {
        Walked::Granted => look_up(tables, pass, steps),
        Walked::Missed(_) => (pass, false),
    }
}

/// A whole walk, from the enter to the retirement.
fn walk<T: EngineSide, L: Ledger>(
    tables: &mut T,
    pass: T::Pass,
    request: Request,
    steps: &mut Steps<L>,
) -> (T::Pass, Outcome)
    requires is_of { T.is_of tables.old pass }
    requires idle { T.walk pass ≡ Idle }
    requires own { T.process pass ≡ request.key.process }
    requires part { request.key.part ≡ request.index / PART_BLOCKS }
    requires hi { IsLimit request.hi }
    ensures idle { T.walk result.0 ≡ Idle }
    ensures given_back { GivesBack T.is_of T.process tables.old tables.new pass result.0 }
{
    let (pass, hit) = ask(tables, pass, request, steps);
    let told = tables.told(&pass);
    let found = tables.found(&pass);
    let pass = tables.retire(pass, steps);
    (pass, Outcome { told, found, hit })
}

/// Sweeps all lines for a key that is drained.
fn sweep_all<T: KernelSide>(tables: &mut T, key: &Key)
    requires { KeyIs IsDrained (T.kernel tables.old) key.now }
    ensures swept { T.kernel tables.new ≡ lines_swept (T.kernel tables.old) LINES key.now }
    ensures passes { AllStay T.is_of tables.old tables.new }
{
    for line in 0..LINES as u8 {
        tables.sweep(line, *key);
    }
}

/// Revokes a right, unless an engine is in its key.
fn revoke<T: KernelSide>(tables: &mut T, key: &Key) -> Drained
    requires { KeyIs IsOn (T.kernel tables.old) key.now }
    ensures revoked { result ≡ Drained.Yes
        → T.kernel tables.new ≡ key_detached (T.kernel tables.old) key.now }
    ensures passes { AllStay T.is_of tables.old tables.new }
{
    tables.clear(*key);
    let drained = tables.drained(*key);
    match drained {
        Drained::Yes => {
            sweep_all(tables, key);
            tables.detach(*key);
            Drained::Yes
        }
        Drained::NotYet(count) => Drained::NotYet(count),
    }
}

/// Asks for bytes of a block of part 0, and comes back.
fn visit<T: EngineSide, L: Ledger>(
    tables: &mut T,
    pass: T::Pass,
    key: &Key,
    asked: (u32, u16, bool),
    steps: &mut Steps<L>,
) -> (T::Pass, Outcome)
    requires is_of { T.is_of tables.old pass }
    requires idle { T.walk pass ≡ Idle }
    requires own { T.process pass ≡ key.now.process }
    requires part { key.now.part ≡ 0 }
    requires index { asked.0 < PART_BLOCKS }
    requires hi { IsLimit asked.1 }
    ensures is_of { T.is_of tables.new result.0 }
    ensures idle { T.walk result.0 ≡ Idle }
    ensures own { T.process result.0 ≡ key.now.process }
{
    let (index, hi, write) = asked;
    let request = Request {
        key: *key,
        index,
        hi,
        write,
    };
    walk(tables, pass, request, steps)
}

fn key(process: u64, fd: u64) -> Result<Key, Fail>
    ensures { IfOk result (λ key. (key.process ≡ process) × (key.part ≡ 0)) }
{
    Ok(Key {
        process: Pid::new(process).ok_or("a process")?,
        fd: Fd::new(fd).ok_or("a descriptor")?,
        part: Part::new(0).ok_or("a part")?,
    })
}

fn cell(block: u64, limit: u16) -> Result<Cell, Fail>
    ensures { IfOk result (λ cell. cell.limit ≡ limit) }
{
    Ok(Cell {
        block: BlockNo::new(block).ok_or("a block")?,
        limit,
    })
}

/// The file that tests have rights to.
fn file() -> Result<FileId, Fail>
    ensures { IfOk result (λ file. file ≡ 255) }
{
    Ok(FileId::new(255).ok_or("a file")?)
}

/// Tables with one right, to two blocks of a file, and the pass of its process.
fn start(alloc: Global, key: &Key) -> Result<(PlainTables, PlainPass), Fail>
    requires process { key.now.process < PROCESSES }
    requires part { key.now.part ≡ 0 }
    ensures lent { IfOk result (λ both. IsLent both.0 both.1) }
    ensures idle { IfOk result (λ both. both.1.walk ≡ Idle) }
    ensures own { IfOk result (λ both. both.1.process ≡ key.now.process) }
    ensures on { IfOk result (λ both. KeyIs IsOn (kernel_of both.0) key.now) }
    ensures empty { IfOk result (λ both. IsEmptyEntry both.0.book 255 2) }
    ensures filled { IfOk result (λ both. IsEntryUpTo both.0.book 255 1 200) }
{
    let mut tables = PlainTables::new(alloc, 16)?;
    let file = file()?;
    let cells = [cell(9, 4096)?, cell(7, 100)?];
    tables.attach(*key, file, false, &cells)?;
    let pass = tables.lend(key.process);
    Ok((tables, pass))
}

fn told(block: u64, limit: u16, hit: bool) -> Result<Outcome, Fail> {
    let completion = Completion {
        read: true,
        write: false,
        block: BlockNo::new(block).ok_or("a block")?,
        limit,
    };
    Ok(Outcome {
        told: Some(completion),
        found: None,
        hit,
    })
}

fn refused(found: Found) -> Outcome {
    Outcome {
        told: None,
        found: Some(found),
        hit: false,
    }
}

fn some_walks<L: Ledger>(rt: &impl Abort, alloc: Global, blank: Blank) -> Result<(), Fail>
    requires name { blank.name ≡ L.name }
    requires parts { blank.parts ≡ L.parts }
    requires some { 0 < blank.parts }
{
    let mut steps = Steps::<L>::open(blank);
    let ours = key(15, 7)?;
    let (mut tables, pass) = start(alloc, &ours)?;
    let (pass, outcome) = visit(&mut tables, pass, &ours, (1, 100, false), &mut steps);
    assert_eq!(rt; outcome, told(7, 100, false)?);
    let (pass, outcome) = visit(&mut tables, pass, &ours, (1, 5, false), &mut steps);
    assert_eq!(rt; outcome, told(7, 100, true)?);
    let (pass, outcome) = visit(&mut tables, pass, &ours, (1, 101, false), &mut steps);
    assert_eq!(rt; outcome, refused(Found::Beyond(100)));
    let (pass, outcome) = visit(&mut tables, pass, &ours, (2, 1, false), &mut steps);
    assert_eq!(rt; outcome, refused(Found::NoEntry));
    let (pass, outcome) = visit(&mut tables, pass, &ours, (0, 1, true), &mut steps);
    assert_eq!(rt; outcome, refused(Found::NoRight));
    let other = key(15, 6)?;
    let (pass, outcome) = visit(&mut tables, pass, &other, (0, 1, true), &mut steps);
    assert_eq!(rt; outcome, refused(Found::NoDirectory));
    tables.take_back(pass);
    Ok(())
}

#[test]
fn walks_hit_and_miss(rt: HostRuntime) -> Result<(), Fail> {
    some_walks::<Brand>(&rt, rt.alloc(), Blank::new(1))
}

#[test]
fn a_right_is_revoked(rt: HostRuntime) -> Result<(), Fail> {
    let ours = key(0, 3)?;
    let (mut tables, pass) = start(rt.alloc(), &ours)?;
    tables.take_back(pass);
    assert!(rt; tables.attached(key(0, 3)?));
    assert_eq!(rt; tables.in_use(), 1);
    let drained = revoke(&mut tables, &ours);
    assert_eq!(rt; drained, Drained::Yes);
    assert!(rt; !tables.attached(key(0, 3)?));
    assert_eq!(rt; tables.in_use(), 0);
    Ok(())
}

/// Reads the entry, and fills the line where there is one. The kernel side stays.
fn read_through<L: Ledger>(
    tables: &mut PlainTables,
    pass: PlainPass,
    steps: &mut Steps<L>,
) -> (PlainPass, Walked)
    requires is_of { IsLent tables.old pass }
    requires entered { IsEntered pass.walk }
    ensures is_of { IsLent tables.new result.0 }
    ensures answered { IsAnswered result.0.walk }
    ensures own { result.0.process ≡ pass.process }
    ensures kernel { kernel_of tables.new ≡ kernel_of tables.old }
{
    let (pass, walked) = tables.read_entry(pass, steps);
    match walked {
        Walked::Granted => (tables.fill(pass, steps), Walked::Granted),
        Walked::Missed(found) => (pass, Walked::Missed(found)),
    }
}

/// A walk that does not look into the cache, from the enter to its answer. The kernel side stays.
fn go_in<L: Ledger>(
    tables: &mut PlainTables,
    pass: PlainPass,
    request: Request,
    steps: &mut Steps<L>,
) -> (PlainPass, Walked)
    requires is_of { IsLent tables.old pass }
    requires idle { pass.walk ≡ Idle }
    requires own { pass.process ≡ request.key.process }
    requires part { request.key.part ≡ request.index / PART_BLOCKS }
    requires hi { IsLimit request.hi }
    ensures is_of { IsLent tables.new result.0 }
    ensures answered { IsAnswered result.0.walk }
    ensures own { result.0.process ≡ pass.process }
    ensures kernel { kernel_of tables.new ≡ kernel_of tables.old }
{
    let (pass, walked) = tables.enter(pass, request, steps);
    match walked {
        Walked::Granted => read_through(tables, pass, steps),
        Walked::Missed(found) => (pass, Walked::Missed(found)),
    }
}

/// A whole walk that does not look into the cache. The kernel side stays.
fn peek<L: Ledger>(
    tables: &mut PlainTables,
    pass: PlainPass,
    request: Request,
    steps: &mut Steps<L>,
) -> (PlainPass, Walked)
    requires is_of { IsLent tables.old pass }
    requires idle { pass.walk ≡ Idle }
    requires own { pass.process ≡ request.key.process }
    requires part { request.key.part ≡ request.index / PART_BLOCKS }
    requires hi { IsLimit request.hi }
    ensures is_of { IsLent tables.new result.0 }
    ensures idle { result.0.walk ≡ Idle }
    ensures own { result.0.process ≡ pass.process }
    ensures kernel { kernel_of tables.new ≡ kernel_of tables.old }
{
    let (pass, walked) = go_in(tables, pass, request, steps);
    (tables.retire(pass, steps), walked)
}

/// Clears a key that an engine is in, and asks whether it is drained, before and after the engine leaves it.
fn drain_around<L: Ledger>(
    tables: &mut PlainTables,
    pass: PlainPass,
    key: &Key,
    steps: &mut Steps<L>,
) -> (Drained, Drained)
    requires is_of { IsLent tables.old pass }
    requires answered { IsAnswered pass.walk }
    requires on { KeyIs IsOn (kernel_of tables.old) key.now }
{
    tables.clear(*key);
    let before = tables.drained(*key);
    let pass = tables.retire(pass, steps);
    tables.take_back(pass);
    match before {
        Drained::Yes => (Drained::Yes, Drained::Yes),
        Drained::NotYet(count) => (Drained::NotYet(count), tables.drained(*key)),
    }
}

fn some_drains<L: Ledger>(rt: &impl Abort, alloc: Global, blank: Blank) -> Result<(), Fail>
    requires name { blank.name ≡ L.name }
    requires parts { blank.parts ≡ L.parts }
    requires some { 0 < blank.parts }
{
    let mut steps = Steps::<L>::open(blank);
    let ours = key(3, 2)?;
    let (mut tables, pass) = start(alloc, &ours)?;
    let request = Request {
        key: key(3, 2)?,
        index: 1,
        hi: 100,
        write: false,
    };
    let (pass, walked) = go_in(&mut tables, pass, request, &mut steps);
    assert_eq!(rt; walked, Walked::Granted);
    let (before, after) = drain_around(&mut tables, pass, &ours, &mut steps);
    assert_eq!(rt; before, Drained::NotYet(1));
    assert_eq!(rt; after, Drained::Yes);
    Ok(())
}

#[test]
fn a_drain_waits_for_the_engine_inside(rt: HostRuntime) -> Result<(), Fail> {
    some_drains::<Brand>(&rt, rt.alloc(), Blank::new(1))
}

/// Fills the entry of block 2 of file 255, and raises the limit of that of block 1.
fn grow(tables: &mut PlainTables) -> Result<(), Fail>
    requires empty { IsEmptyEntry tables.old.book 255 2 }
    requires filled { IsEntryUpTo tables.old.book 255 1 200 }
    ensures passes { AllStay IsLent tables.old tables.new }
{
    let file = file()?;
    tables.put_entry(file, 2, cell(5, 50)?);
    tables.raise_limit(file, 1, 200);
    Ok(())
}

fn some_growth<L: Ledger>(rt: &impl Abort, alloc: Global, blank: Blank) -> Result<(), Fail>
    requires name { blank.name ≡ L.name }
    requires parts { blank.parts ≡ L.parts }
    requires some { 0 < blank.parts }
{
    let mut steps = Steps::<L>::open(blank);
    let ours = key(2, 1)?;
    let (mut tables, pass) = start(alloc, &ours)?;
    let request = Request {
        key: key(2, 1)?,
        index: 1,
        hi: 100,
        write: false,
    };
    let (pass, walked) = peek(&mut tables, pass, request, &mut steps);
    assert_eq!(rt; walked, Walked::Granted);
    grow(&mut tables)?;
    let (pass, outcome) = visit(&mut tables, pass, &ours, (1, 100, false), &mut steps);
    assert_eq!(rt; outcome, told(7, 100, true)?);
    let (pass, outcome) = visit(&mut tables, pass, &ours, (1, 200, false), &mut steps);
    assert_eq!(rt; outcome, told(7, 200, false)?);
    let (pass, outcome) = visit(&mut tables, pass, &ours, (2, 50, false), &mut steps);
    assert_eq!(rt; outcome, told(5, 50, false)?);
    tables.take_back(pass);
    Ok(())
}

#[test]
fn the_next_walk_sees_what_was_filled_and_raised(rt: HostRuntime) -> Result<(), Fail> {
    some_growth::<Brand>(&rt, rt.alloc(), Blank::new(1))
}
