use std::alloc::{AllocError, AllocFailed};
use thiserror::Error;

/// The last time that a trace may tell, in fine ticks: a message can be issued no later in a scenario.
pub const LAST_TIME: u32 = 1_000_000;

/// The greatest time of a stamp that a trace may tell.
pub const MOST_STAMP: u32 = 1_000_000;

/// What is wrong with a line of a trace.
#[derive(Clone, Copy, Debug, PartialEq, Eq, Error)]
pub enum Cause {
    /// The first line lacks one of the columns that a trace has at least.
    #[error("a trace begins with a line that names its columns, `event`, `message`, `group` and `time` among them")]
    Header,
    /// The line has more cells than the first one, or fewer.
    #[error("the line has not as many cells as the first one")]
    Cells,
    /// The line is not UTF-8.
    #[error("the line is not UTF-8")]
    Text,
    /// The line is no object, where the first one is.
    #[error("the line is no JSON object")]
    Object,
    /// The event has none of the names that events have.
    #[error("an event is `issue`, `arrival`, `proposal`, `commit` or `delivery`")]
    Event,
    /// The scenario has no message of the name.
    #[error("the scenario has no such message")]
    Message,
    /// The scenario has no group of the name.
    #[error("the scenario has no such group")]
    Group,
    /// The message does not go to the group.
    #[error("the message does not go to that group")]
    Elsewhere,
    /// A proposal has no group from which it came, or one to which the message does not go.
    #[error("a proposal tells in `from` the group that proposed, to which the message goes, too")]
    From,
    /// The time is none, or a part of a nanosecond.
    #[error("a time is a duration, as 1.25 ms, or a number of the unit; it is not negative")]
    Time,
    /// The stamp is none.
    #[error("a stamp is a time of a group's clock and that group, as 2.b")]
    Stamp,
    /// An earlier line tells the same event.
    #[error("the event is told a second time")]
    Twice,
    /// The time is later than any in a run of a scenario.
    #[error("the time is more than 1000000 fine ticks after the start: count from a later start, or drop digits")]
    Late,
    /// Where no scenario says which there are: the message has no name, or the group one that no group may have.
    #[error("a message has a name, and a group one that groups may have, as eu-west_1, 16 characters at most")]
    Name,
    /// A packet came before it was sent.
    #[error("the packet came before it was sent: clocks that differ have to be set right first")]
    Early,
    /// The packets are of more links than a trace may have: the first line of one that is too many.
    #[error("there are packets of more than 2080 links")]
    TooMany,
    /// The greatest time of a packet, with its margin, has more ticks than a scenario takes.
    #[error("the packet took more than 65535 ticks: ask for a longer tick")]
    Wide,
}

/// Why a text is no trace of a scenario, or one that gives no ranges.
#[derive(Clone, Copy, Debug, PartialEq, Eq, Error)]
pub enum TraceFault {
    /// There is no line with something in it.
    #[error("the trace is empty")]
    Empty,
    /// A line of the trace, by its number from 1.
    #[error("line {0}: {1}")]
    Line(usize, Cause),
    /// The times are told in finer parts than so many to a tick, which are as many as the greatest delay allows.
    #[error("the times are finer than 1/{0} of a tick: drop digits until they are whole numbers of such a part")]
    TooFine(u16),
    /// The trace tells of no packet both when it was sent and when it came.
    #[error("the trace tells of no packet both when it was sent and when it came")]
    NoPacket,
    /// Memory ran out, which says nothing of the trace.
    #[error("out of memory")]
    Memory,
}

impl From<AllocError> for TraceFault {
    ghost use Rattle.std.specs.Prelude.{◌≡◌};
    ghost use Rattle.convoy_traces.specs.declared.fault.TraceFault.TheVariants.{Memory};

    ghost from_gives = { λ _ fault. fault ≡ Memory };

    fn from(_error: AllocError) -> Self {
        TraceFault::Memory
    }
}

impl<T: Drop> From<AllocFailed<T>> for TraceFault {
    ghost use Rattle.std.specs.Prelude.{◌≡◌};
    ghost use Rattle.convoy_traces.specs.declared.fault.TraceFault.TheVariants.{Memory};

    ghost from_gives = { λ _ fault. fault ≡ Memory };

    fn from(_error: AllocFailed<T>) -> Self {
        TraceFault::Memory
    }
}
