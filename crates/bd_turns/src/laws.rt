//! Laws of turns and runs. Each is the contract of a function that does nothing.
ghost use Rattle.bd_turns.specs.Laws.{HasOneCourse, OtherTurnsChangeNothing, RunsOnlyAdd, ScriptsStay, TurnsOnlyAdd};

/// A turn that has nothing to do, or waits, changes nothing, and no turn changes the script.
pub fn turns_without_effect()
    ensures nothing { OtherTurnsChangeNothing }
    ensures script { ScriptsStay }
{}

/// Turns add entries at the end of the journal, and change none.
pub fn journal_grows()
    ensures turn { TurnsOnlyAdd }
    ensures run { RunsOnlyAdd }
{}

/// The trace of a course and its last state are determined by the first store and the script.
pub fn one_course()
    ensures { HasOneCourse }
{}
