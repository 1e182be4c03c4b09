//! The totals of a journal.
ghost use Rattle.std.specs.Prelude.{◌≡◌, ◌++◌, OnOk};
ghost use Rattle.bd_report.specs.Reports.{total_text, totals_line};
ghost use Rattle.bd_report.specs.Totals.{AreTotals};

use bd_base::{OutOfMemory, Way};
use bd_blocks::text::{LF, push_bytes, push_number};
use bd_entry::Entry;

/// How many entries of some kinds a journal has.
#[derive(Clone, Copy, Debug, PartialEq, Eq)]
pub(crate) struct Totals {
    /// Accesses from the device.
    pub(crate) direct: u64,
    /// Accesses by the kernel.
    pub(crate) kernel: u64,
    /// Walks that found no translation.
    pub(crate) missed: u64,
    /// Rights that were taken away.
    pub(crate) detached: u64,
}

/// The totals of the journal.
pub(crate) fn totals_of(journal: &[Entry]) -> Totals
    ensures { AreTotals journal.now result }
{
    let mut totals = Totals {
        direct: 0,
        kernel: 0,
        missed: 0,
        detached: 0,
    };
    for entry in journal {
        match entry {
            Entry::Access {
                way: Way::Direct,
                ..
            } => totals.direct += 1,
            Entry::Access { .. } => totals.kernel += 1,
            Entry::Missed { .. } => totals.missed += 1,
            Entry::Detached { .. } => totals.detached += 1,
            _ => {}
        }
    }
    totals
}

/// Appends a number after its name.
pub(crate) fn push_total(text: &mut Vec<u8>, name: &[u8], number: u64) -> Result<(), OutOfMemory>
    ensures { OnOk result (text.new.items ≡ text.old.items ++ total_text name.now number) }
{
    push_bytes(text, name)?;
    push_number(text, number)
}

/// Appends the last line of a report.
pub(crate) fn push_totals(text: &mut Vec<u8>, totals: Totals) -> Result<(), OutOfMemory>
    ensures { OnOk result (text.new.items ≡ text.old.items
        ++ totals_line totals.direct totals.kernel totals.missed totals.detached) }
{
    push_total(text, b"total direct ", totals.direct)?;
    push_total(text, b" kernel ", totals.kernel)?;
    push_total(text, b" missed ", totals.missed)?;
    push_total(text, b" detached ", totals.detached)?;
    text.push(LF)?;
    Ok(())
}
