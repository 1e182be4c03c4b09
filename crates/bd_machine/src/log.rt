//! What a machine keeps of its turns: the journal and the trace.
ghost use Rattle.std.specs.Prelude.{◌≡◌, ◌+◌, ◌-◌, ◌^◌, ◌<◌, [], min, IfOk, OnOk, OnErr};
ghost use Rattle.bd_machine.specs.Logs.{AppendsEntry, AppendsEvent, HasRoom, TellsSame};

use bd_base::{List, OutOfMemory};
use bd_entry::{Entry, EntryList};
use bd_turns::{Event, EventList};
use std::alloc::Global;
use std::marker::Model;

/// The journal, the trace, and how many turns were taken. Contracts see for how many entries and events more there is
/// room, too.
#[derive(Debug, Drop)]
pub(crate) struct Log {
    entries: Vec<Entry>,
    events: Vec<Event>,
    turns: u64,
}

impl Model for Log {
    ghost use Rattle.std.specs.Prelude.{◌-◌, vec_capacity, vec_len};
    ghost use Rattle.bd_machine.specs.Logs.{LogState};

    ghost Value = { LogState };

    ghost view = { λ a. record {
      entries = a.entries.items;
      events = a.events.items;
      turns = a.turns;
      entry_room = vec_capacity a.entries - vec_len a.entries;
      event_room = vec_capacity a.events - vec_len a.events;
    } };
}

impl Log {
    /// No turn so far.
    pub(crate) fn new(alloc: Global) -> Log
        ensures entries { result.entries ≡ [] }
        ensures events { result.events ≡ [] }
        ensures turns { result.turns ≡ 0 }
    {
        Log {
            entries: Vec::new(alloc),
            events: Vec::new(alloc),
            turns: 0,
        }
    }

    /// Makes room for one entry and one event. Each time that there is none it doubles it.
    pub(crate) fn reserve(&mut self) -> Result<(), OutOfMemory>
        ensures same { TellsSame self.old self.new }
        ensures room { OnOk result (HasRoom self.new) }
    {
        self.entries.reserve(1)?;
        self.events.reserve(1)?;
        Ok(())
    }

    /// Appends an entry, for which there is room.
    pub(crate) fn add(&mut self, entry: Entry)
        requires { 0 < self.old.entry_room }
        ensures { AppendsEntry self.old entry self.new }
    {
        match self.entries.push(entry) {
            Ok(()) => {}
            Err(_) => unreachable!(),
        }
    }

    /// Appends the event of this turn, for which there is room.
    pub(crate) fn tell(&mut self, event: Event)
        requires { 0 < self.old.event_room }
        ensures { AppendsEvent self.old event self.new }
    {
        match self.events.push(event) {
            Ok(()) => {}
            Err(_) => unreachable!(),
        }
    }

    /// How many turns were taken.
    pub(crate) fn turns(&self) -> u64
        ensures { result ≡ self.now.turns }
    {
        self.turns
    }

    /// One turn more was taken.
    pub(crate) fn pass(&mut self)
        ensures { self.new ≡ record self.old { turns = min (self.old.turns + 1) (2 ^ 64 - 1) } }
    {
        self.turns = self.turns.saturating_add(1);
    }

    /// The entries so far.
    pub(crate) fn entries(&self) -> &[Entry]
        ensures { result.now ≡ self.now.entries }
    {
        self.entries.as_slice()
    }

    /// The events so far.
    pub(crate) fn events(&self) -> &[Event]
        ensures { result.now ≡ self.now.events }
    {
        self.events.as_slice()
    }

    /// The journal and the trace.
    pub(crate) fn into_lists(self) -> (EntryList, EventList)
        ensures journal { result.0 ≡ self.entries }
        ensures trace { result.1 ≡ self.events }
    {
        let Log {
            entries,
            events,
            ..
        } = self;
        (List::from_vec(entries), List::from_vec(events))
    }
}
