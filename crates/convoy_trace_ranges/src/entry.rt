use convoy_draft::Name;
use std::marker::Model;

/// The kind of an event with which packets are sent, or come.
#[derive(Clone, Copy)]
pub(crate) enum Kind {
    /// A message is issued: packets go to all groups that it goes to.
    Issue,
    /// A message arrives at a group, which proposes a stamp: packets go to the other groups.
    Arrival,
    /// The stamp that another group proposed comes to a group.
    Proposal,
}

/// What a line of a trace tells.
#[derive(Drop)]
pub(crate) struct Entry {
    /// The number of the line, from 1.
    pub(crate) line: usize,
    pub(crate) kind: Kind,
    pub(crate) message: Name,
    /// The group at which it happens; no text where a client issues the message.
    pub(crate) group: Name,
    /// The group from which a proposal came; of other events no text.
    pub(crate) from: Name,
    /// In nanoseconds.
    pub(crate) time: u64,
}

impl Model for Entry {
    ghost use Rattle.std.specs.Prelude.{◌≤◌};
    ghost use Rattle.convoy_draft.specs.declared.duration.TheConstants.{LONGEST_DURATION};
    ghost use Rattle.convoy_trace_ranges.specs.Events.{Entry};

    ghost Value = { Entry };

    ghost view = { λ e. record {
      line = e.line;
      kind = e.kind;
      message = e.message;
      group = e.group;
      from = e.from;
      time = e.time;
    } };

    ghost invariant = { λ e. e.time ≤ LONGEST_DURATION };
}
