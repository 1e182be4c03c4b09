//! Laws of stores, journals and rules. Each is the contract of a function that does nothing.
ghost use Rattle.bd_entry.specs.Laws.{HistoriesHaveReadings, HistoriesKeepValid, InOrderInParts, KeepsOrBreaks, LeadsToOneStore, LegalInParts, NumbersDiffer, OneLeastRule, StartIsValid, StepKeepsValid, WorkIsOfRunningCall};

/// A journal may be followed in two parts.
pub fn journals_in_parts()
    ensures legal { LegalInParts }
    ensures in_order { InOrderInParts }
{}

/// A journal that is legal from a store leads to one store only.
pub fn one_end()
    ensures { LeadsToOneStore }
{}

/// The least rule that an entry breaks is determined.
pub fn one_least_rule()
    ensures numbers { NumbersDiffer }
    ensures least { OneLeastRule }
{}

/// An entry keeps all rules, or breaks a least one.
pub fn each_entry_keeps_or_breaks()
    ensures { KeepsOrBreaks }
{}

/// A step of a running call leads from a valid store to a valid one.
pub fn steps_keep_valid()
    ensures { StepKeepsValid }
{}

/// A store of a sound volume with nothing open is valid.
pub fn start_is_valid()
    ensures { StartIsValid }
{}

/// Every store that a legal journal in order leads to, from a sound volume with nothing open, is valid; so is its volume.
pub fn histories_keep_valid()
    ensures { HistoriesKeepValid }
{}

/// The store keeps of a process's running call just the entries that the journal has of it.
pub fn work_is_of_the_running_call()
    ensures { WorkIsOfRunningCall }
{}

/// Every entry of a legal journal in order is that of a line: what is printed of it can be read again.
pub fn histories_have_readings()
    ensures { HistoriesHaveReadings }
{}
