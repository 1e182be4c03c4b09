//! That what a call does next is legal. Each law is the contract of a function that does nothing.
ghost use Rattle.bd_entry.specs.NextEntries.{NextEntriesAreLegal, NextEntriesLeadOn, RunningCallsAreReady};

/// Whatever a call does next, the entry that it adds is one that the call makes, and keeps every rule at its place.
pub fn next_entries_are_legal()
    ensures { NextEntriesAreLegal }
{}

/// The entry that a call adds next is the next one of its process, and the step that it takes leads to a valid store.
pub fn next_entries_lead_on()
    ensures { NextEntriesLeadOn }
{}

/// The running calls of legal journals are ready for what they do next.
pub fn running_calls_are_ready()
    ensures { RunningCallsAreReady }
{}
