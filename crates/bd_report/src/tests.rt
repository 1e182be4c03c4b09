//! A run of two processes with each kind of reply: its report, and replies taken alone.
ghost use Rattle.std.specs.Prelude.{◌≡◌, IfSome, length};
ghost use Rattle.bd_base.specs.Scripts.{IsWithinLimits};
ghost use Rattle.bd_entry.specs.Calls.{calls_of};
ghost use Rattle.bd_entry.specs.History.{InOrder};

use crate::{counts, reply, report};
use bd_base::{Actor, At, Pid, Script};
use bd_entry::{EntryList, one_journal, read_journal};
use bd_script::{one_script, read_script};
use bd_tables::Looked;
use bd_turns::{Event, Row};
use std::alloc::Global;
use std::test::Fail;

/// The script of the example.
const SCRIPT: &[u8] = b"bypassd-script 1
proc 100
open a rw direct
write 0 4090 41*10
read 0 4094 5000
size 0
map 0
raw-read 0 5 1
close 0
proc 101
create a 7
open a rw plain
write 0 0 41*3
truncate 0 9
raw-write 0 0 41*2
raw-read 0 0 2
unlink a
open a r direct
read 0 0 2
";

/// Its journal. Both pieces of a write are refused, the second one first; the pieces of a read come in another order,
/// one of them after a miss, and one gives less than it was asked for.
const JOURNAL: &[u8] = b"bypassd-journal 1
0 0 opened 0 0 rw direct
1 0 created 1 a 7
0 0 attached 0 0
0 0 mapped 0 1
1 1 opened 1 0 rw plain
0 1 refused 1 extents
0 1 refused 0 no-space
1 2 access 0 0 1 0 4 0 3 wrote plain 41*3
0 2 missed 0 no-directory
0 2 access 1 0 0 1 - 0 4096 read past-known 43*3
0 2 access 2 0 0 2 - 0 902 read past-known 44*1
1 3 cleared 0 0 0
1 3 detached 0 0 0
0 2 access 0 0 0 0 3 4094 4096 read after-miss 41*1,42*1
1 3 sized 0 9
0 3 size 0 4100
1 4 access 0 0 1 0 4 0 2 wrote direct 41*2
0 4 mapped 0 2
1 5 access 0 0 1 0 4 0 2 read direct 41*2
0 5 missed 0 beyond 5
0 6 closed 0
1 6 unlinked 1
1 7 refused - no-file
1 8 access 0 0 1 0 - 0 2 read plain -
";

/// Its report.
const REPORT: &[u8] = b"bypassd-report 1
proc 0
0 ok 0 mapped 1
1 no-space
2 ok 5 41*1,42*1,43*3
3 ok 4100
4 ok mapped 2
5 fault beyond 5
6 ok
proc 1
0 ok
1 ok 0
2 ok 3
3 ok
4 ok 2
5 ok 2 41*2
6 ok
7 no-file
8 ok 0 -
total direct 2 kernel 5 missed 2 detached 1
";

/// Reads the example.
fn read_example(alloc: Global) -> Option<(Script, EntryList)>
    ensures limits { IfSome result (λ e. IsWithinLimits e.0) }
    ensures in_order { IfSome result (λ e. InOrder e.0 e.1) }
    ensures calls { IfSome result (λ e. length (calls_of e.0 0) ≡ 7) }
{
    one_script();
    one_journal();
    let Ok(script) = read_script(alloc, SCRIPT) else {
        return None;
    };
    let Ok(journal) = read_journal(alloc, JOURNAL) else {
        return None;
    };
    Some((script, journal))
}

#[test]
fn reports_each_kind_of_reply(rt: HostRuntime) -> Result<(), Fail> {
    let alloc = rt.alloc();
    let (script, journal) = read_example(alloc).ok_or("no example")?;
    let text = report(alloc, &script, journal.as_slice())?;
    assert_eq!(rt; text.as_slice(), REPORT);
    Ok(())
}

#[test]
fn replies_alone(rt: HostRuntime) -> Result<(), Fail> {
    let alloc = rt.alloc();
    let (script, journal) = read_example(alloc).ok_or("no example")?;
    let process = Pid::new(0).unwrap();
    let journal = journal.as_slice();
    let write = reply(alloc, &script, journal, At { process, call: 1 })?;
    assert_eq!(rt; write.as_slice(), b"no-space".as_slice());
    let read = reply(alloc, &script, journal, At { process, call: 2 })?;
    assert_eq!(rt; read.as_slice(), b"ok 5 41*1,42*1,43*3".as_slice());
    Ok(())
}

/// The line of the cache after one hit and two misses.
const ONE_HIT: &[u8] = b"cache hits 1 misses 2\n";

/// The line of the cache where no engine looked into it.
const NO_LOOK: &[u8] = b"cache hits 0 misses 0\n";

/// The event of a turn of an engine.
fn event(turn: u64, row: Row) -> Result<Event, Fail> {
    let actor = Actor::new(1).ok_or("an actor")?;
    Ok(Event { turn, actor, row })
}

#[test]
fn the_line_of_the_cache(rt: HostRuntime) -> Result<(), Fail> {
    let alloc = rt.alloc();
    let trace = [
        event(3, Row::Look(Looked::Miss))?,
        event(4, Row::ReadEntry(None))?,
        event(9, Row::Look(Looked::Hit))?,
        event(10, Row::Move)?,
        event(12, Row::Look(Looked::Miss))?,
    ];
    let line = counts(alloc, &trace)?;
    assert_eq!(rt; line.as_slice(), ONE_HIT);
    let none = counts(alloc, &[])?;
    assert_eq!(rt; none.as_slice(), NO_LOOK);
    Ok(())
}
