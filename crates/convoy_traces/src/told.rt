ghost use Rattle.std.specs.Prelude.{◌≡◌};
ghost use Rattle.std.specs.List.{list_any};
ghost use Rattle.convoy_traces.specs.Told.{is_same_event, is_of, is_told};

/// What happens to a message in a run, with the numbers of groups.
#[derive(Clone, Copy, PartialEq, Eq)]
pub enum Event {
    /// It is issued.
    Issue,
    /// It arrives at the group, which proposes a stamp for it.
    Arrival(usize),
    /// At the first group arrives the stamp that the second proposed.
    Proposal(usize, usize),
    /// The group commits it.
    Commit(usize),
    /// The group delivers it.
    Delivery(usize),
}

/// A stamp as a trace tells it: the time of the clock of the group that gave it, and the number of that group.
#[derive(Clone, Copy, PartialEq, Eq)]
pub struct Stamp {
    pub time: u32,
    pub group: usize,
}

/// What a line of a trace tells, with its time in nanoseconds.
#[derive(Clone, Copy)]
pub struct Entry {
    /// The number of the line, from 1.
    pub line: usize,
    /// The number of the message.
    pub message: usize,
    pub event: Event,
    /// In nanoseconds from the scenario's start.
    pub time: u64,
    /// Of an arrival and of a proposal the stamp that is proposed, of a commit and of a delivery the final one, where
    /// it is told.
    pub stamp: Option<Stamp>,
}

/// What a line of a trace tells, with its time in fine ticks.
#[derive(Clone, Copy)]
pub struct Told {
    /// The number of the line, from 1.
    pub line: usize,
    /// The number of the message.
    pub message: usize,
    pub event: Event,
    /// In fine ticks from the scenario's start.
    pub time: u32,
    /// As that of an [`Entry`].
    pub stamp: Option<Stamp>,
}

/// Whether both are one event, at the same groups.
pub fn is_same_event(event: Event, other: Event) -> bool
    ensures { result ≡ is_same_event event other }
{
    match (event, other) {
        (Event::Issue, Event::Issue) => true,
        (Event::Arrival(g), Event::Arrival(h)) => g == h,
        (Event::Proposal(g, from), Event::Proposal(h, other_from)) => {
            g == h && from == other_from
        }
        (Event::Commit(g), Event::Commit(h)) => g == h,
        (Event::Delivery(g), Event::Delivery(h)) => g == h,
        _ => false,
    }
}

/// Whether the entry is of that event of that message.
fn is_of(message: usize, event: Event, entry: &Entry) -> bool
    ensures { result ≡ is_of message event entry.now }
{
    entry.message == message && is_same_event(entry.event, event)
}

/// Whether some entry is of the same event of the same message.
pub(crate) fn is_told(entries: &[Entry], one: &Entry) -> bool
    ensures { result ≡ is_told entries.now one.now }
{
    let (message, event) = (one.message, one.event);
    entries.iter().any(|entry| is_of(message, event, entry))
}
