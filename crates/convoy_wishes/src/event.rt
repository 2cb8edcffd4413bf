ghost use Rattle.std.specs.Prelude.{◌<◌};
ghost use Rattle.convoy_draft.specs.declared.limits.TheConstants.{MOST_GROUPS, MOST_MULTICASTS};
ghost use Rattle.convoy_wishes.specs.declared.event.TheConstants.{EVENTS};

use convoy_packets::{PLACES, place};
use convoy_scenario::{MOST_GROUPS, MOST_MULTICASTS};

/// How many events there may be.
pub(crate) const EVENTS: usize = 1 + MOST_MULTICASTS + PLACES;

/// An event of which wishes speak: the start of time, at tick 0, the issue of a message, or its arrival at a
/// group.
#[derive(Clone, Copy)]
pub(crate) struct Event {
    place: usize,
    ghost known: { place < EVENTS },
}

impl Event {
    /// The start of time.
    pub(crate) fn start() -> Event {
        Event { place: 0 }
    }

    /// The issue of a message.
    pub(crate) fn issue(message: usize) -> Event
        requires { message < MOST_MULTICASTS }
    {
        Event { place: 1 + message }
    }

    /// The arrival of a message at a group.
    pub(crate) fn arrival(message: usize, group: usize) -> Event
        requires message { message < MOST_MULTICASTS }
        requires group { group < MOST_GROUPS }
    {
        Event {
            place: 1 + MOST_MULTICASTS + place(message, group),
        }
    }

    /// Its place in a table of all events.
    pub(crate) fn place(self) -> usize
        ensures { result < EVENTS }
    {
        self.place
    }
}

/// Two events, the later of which comes so many ticks after the earlier one, or more. Where the ticks are below
/// 0 it may come before it, by at most so many.
#[derive(Clone, Copy)]
pub(crate) struct Gap {
    pub earlier: Event,
    pub later: Event,
    pub ticks: i64,
}

impl Gap {
    /// That an event comes at that tick or later.
    pub(crate) fn from(event: Event, tick: i64) -> Gap {
        Gap {
            earlier: Event::start(),
            later: event,
            ticks: tick,
        }
    }

    /// That an event comes by that tick.
    pub(crate) fn by(event: Event, tick: i64) -> Gap {
        Gap::within(event, Event::start(), tick)
    }

    /// That an event comes at most so many ticks after another one.
    pub(crate) fn within(event: Event, after: Event, ticks: i64) -> Gap {
        Gap {
            earlier: event,
            later: after,
            ticks: 0i64.saturating_sub(ticks),
        }
    }
}
