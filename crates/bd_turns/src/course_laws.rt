//! Laws of whole runs. Each is the contract of a function that does nothing.
ghost use Rattle.bd_turns.specs.CourseLaws.{EndsAreInOrder, EventsLeadThere, EventsShowJournals, RunsAreReached, RunsAreShort, RunsEnd, RunsKeepScripts, TurnsAreOfActors};

/// A run of a script from a sound volume comes to states alone that a machine can come to: each turn is that of one of the
/// script's actors, and the script stays.
pub fn runs_are_reached()
    ensures actors { TurnsAreOfActors }
    ensures script { RunsKeepScripts }
    ensures reached { RunsAreReached }
{}

/// The events of a run lead to its state, and show its journal.
pub fn events_show_journals()
    ensures state { EventsLeadThere }
    ensures journal { EventsShowJournals }
{}

/// Each run ends, before a turn that is known beforehand.
pub fn runs_end()
    ensures ends { RunsEnd }
    ensures bound { RunsAreShort }
{}

/// Where all calls have ended, each of them is finished in the journal, which is in order.
pub fn ends_are_in_order()
    ensures { EndsAreInOrder }
{}
