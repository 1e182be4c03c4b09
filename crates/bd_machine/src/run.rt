//! What a machine leaves of a run.
use bd_base::Volume;
use bd_entry::EntryList;
use bd_turns::EventList;

/// What a machine leaves: the volume after its last turn, and all that led there.
#[derive(Debug, Drop)]
pub struct Run {
    pub volume: Volume,
    pub journal: EntryList,
    pub trace: EventList,
}
