use convoy_sim::{Moment, Proposal};

/// A packet of a run, on its way from one place to another.
#[derive(Clone, Copy)]
pub struct Flight {
    /// Its number: its place in the packet order (docs/PROTOCOL.md).
    pub packet: u16,
    /// Its delay, in ticks.
    pub delay: u16,
}

/// A message that holds the target back at its group.
#[derive(Clone, Copy)]
pub struct Holder {
    /// The number of the message.
    pub message: usize,
    /// What the target's group proposed for it, as it came there.
    pub proposal: Proposal,
}

/// How the last proposal for a message comes to the target's group, which then commits the message.
#[derive(Clone, Copy)]
pub struct LastProposal {
    /// The number of the message.
    pub message: usize,
    /// The tick at which it is issued.
    pub issued: u32,
    /// The number of the group that proposes.
    pub from: usize,
    /// The message on its way to that group; none where that group sends it and has no link to itself.
    pub sent: Option<Flight>,
    /// What that group proposes, as the message comes there.
    pub proposal: Proposal,
    /// The proposal on its way to the target's group; none where that group makes it.
    pub answered: Option<Flight>,
    /// The tick at which the target's group commits the message.
    pub committed: u32,
}

/// A moment, and the stamp to whose time it raises the clock of its group, where that is less.
#[derive(Clone, Copy)]
pub struct Rise {
    /// A message comes to the group or is committed there.
    pub moment: Moment,
    /// The local stamp of the message that comes, or the final one of the message that is committed, and the
    /// tick at which the group that the stamp names gave it.
    pub stamped: Proposal,
}

/// Why the target of a scenario is delivered at its group when it is, in one run. Ticks are counted
/// from the start of the run.
#[derive(Clone, Copy)]
pub struct Explanation {
    /// From the issue of the target to its delivery, in ticks.
    pub latency: u32,
    /// The tick of the delivery.
    pub delivered: u32,
    /// The tick at which the target's group commits the target.
    pub committed: u32,
    /// The target's final stamp, and the tick at which the group that it names gave it.
    pub stamped: Proposal,
    /// The message that comes to that group in the same tick as the target, and before it: the first by
    /// number, if there is one. The order of the two is a tie's.
    pub tied: Option<usize>,
    /// The message that holds the target back up to its delivery: one that is committed in that tick
    /// and came with a stamp less than the final one of the target. None where the target is delivered
    /// as it is committed.
    pub holder: Option<Holder>,
    /// The last proposal for that message, or where there is none for the target.
    pub last: LastProposal,
}
