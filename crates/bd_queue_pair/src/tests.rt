//! Commands on their way out, and completions on their way back.
ghost use Rattle.std.specs.Prelude.{◌≡◌, [], ◌∷◌, IfOk};
ghost use Rattle.bd_queue_pair.specs.declared.command.Command.{Command};
ghost use Rattle.bd_queue_pair.specs.Queues.{Queues, no_commands};

use crate::{Command, Done, DoneKind, QueuePair};
use bd_base::{Found, OutOfMemory, Range, Vba};
use std::alloc::Global;
use std::test::Fail;

fn command(piece: u8, vba: u64) -> Result<Command, Fail>
    ensures { IfOk result (λ c. c.piece ≡ piece) }
{
    Ok(Command {
        piece,
        vba: Vba::new(vba).ok_or("an address")?,
        range: Range::new(0, 5).ok_or("a range")?,
        wrote: false,
    })
}

// A pair of queues to which two commands were submitted.
fn submitted(alloc: Global, first: Command, second: Command) -> Result<QueuePair, OutOfMemory>
    requires first { first.piece ≡ 4 }
    requires second { second.piece ≡ 1 }
    ensures { IfOk result (λ pair. pair ≡ record no_commands { submitted = first ∷ second ∷ [] }) }
{
    let mut pair = QueuePair::new(alloc)?;
    pair.submit(first);
    pair.submit(second);
    Ok(pair)
}

#[test]
fn keeps_their_order(rt: HostRuntime) -> Result<(), Fail> {
    let (first, second) = (command(4, 4096)?, command(1, 4097)?);
    let mut pair = submitted(rt.alloc(), first, second)?;
    assert!(rt; pair.has_submitted() && !pair.has_completed());
    assert_eq!(rt; pair.poll(), None);
    assert_eq!(rt; pair.take(), Some(first));
    assert_eq!(rt; pair.take(), Some(second));
    assert_eq!(rt; pair.take(), None);
    assert!(rt; !pair.has_submitted());
    let missed = Done {
        piece: 1,
        outcome: DoneKind::Missed(Found::Beyond(7)),
    };
    let moved = Done {
        piece: 4,
        outcome: DoneKind::Moved,
    };
    pair.complete(missed);
    pair.complete(moved);
    assert!(rt; pair.has_completed());
    assert_eq!(rt; pair.poll(), Some(missed));
    assert_eq!(rt; pair.poll(), Some(moved));
    assert_eq!(rt; pair.poll(), None);
    Ok(())
}
