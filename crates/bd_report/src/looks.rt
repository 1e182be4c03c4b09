//! The line that tells how often the cache of translations served.
ghost use Rattle.std.specs.Prelude.{◌≡◌, IfOk, OnOk, ◌++◌};
ghost use Rattle.bd_report.specs.Counts.{AreLooks, cache_line, looks_line};

use crate::totals::push_total;
use bd_base::{Bytes, OutOfMemory};
use bd_blocks::text::LF;
use bd_tables::Looked;
use bd_turns::{Event, Row};
use std::alloc::Global;

/// How many looks of engines into the cache a trace has.
#[derive(Clone, Copy, Debug, PartialEq, Eq)]
pub(crate) struct Looks {
    /// Those that found their translation.
    pub(crate) hits: u64,
    /// The others.
    pub(crate) misses: u64,
}

/// The looks of the trace.
fn looks_of(trace: &[Event]) -> Looks
    ensures { AreLooks trace.now result }
{
    let mut looks = Looks { hits: 0, misses: 0 };
    for event in trace {
        match event.row {
            Row::Look(Looked::Hit) => looks.hits += 1,
            Row::Look(Looked::Miss) => looks.misses += 1,
            _ => {}
        }
    }
    looks
}

/// Appends the line of the cache.
fn push_looks(text: &mut Vec<u8>, looks: Looks) -> Result<(), OutOfMemory>
    ensures { OnOk result (text.new.items ≡ text.old.items ++ looks_line looks.hits looks.misses) }
{
    push_total(text, b"cache hits ", looks.hits)?;
    push_total(text, b" misses ", looks.misses)?;
    text.push(LF)?;
    Ok(())
}

/// The line of the cache of a run with this trace: how many looks of engines hit, and how many missed. It comes after
/// the report. The only error is that no memory is found.
pub fn counts(alloc: Global, trace: &[Event]) -> Result<Bytes, OutOfMemory>
    ensures { IfOk result (λ text. text ≡ cache_line trace.now) }
{
    let mut text = Vec::new(alloc);
    push_looks(&mut text, looks_of(trace))?;
    Ok(Bytes::from_vec(text))
}
