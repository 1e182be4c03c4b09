//! The laws of progress and of waiting. Each is the contract of a function that does nothing.
ghost use Rattle.bd_turns.specs.Progress.{NeverStuck, RestFalls};
ghost use Rattle.bd_turns.specs.Waiting.{BusyNamesTheHolder};

/// As long as a call has not ended, some actor's turn has an effect.
pub fn never_stuck()
    ensures { NeverStuck }
{}

/// Each effective turn lowers the rest, and a turn that has nothing to do or waits changes nothing.
pub fn rest_falls()
    ensures { RestFalls }
{}

/// A process that waits for the holder of a file waits for another process, which holds the file of its running call.
pub fn busy_names_the_holder()
    ensures { BusyNamesTheHolder }
{}
