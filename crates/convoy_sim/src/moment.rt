ghost use Rattle.std.specs.Prelude.{◌≡◌, ◌<◌, ◌-◌, ◌^◌};
ghost use Rattle.convoy_sim.specs.Moments.{next_arrival};

use convoy_scenario::Time;

/// What a moment is: of equal rank inside a tick, arrivals are before commits.
#[derive(Clone, Copy, PartialEq, Eq)]
pub enum MomentKind {
    /// The message arrives at the group, which proposes a local stamp for it.
    Arrival,
    /// The group has the proposals of all destinations and commits the message.
    Commit,
}

impl MomentKind {
    ghost use Rattle.std.specs.Prelude.{◌≡◌};
    ghost use Rattle.convoy_sim.specs.Moments.{is_kind_before};

    /// Arrivals are before commits.
    pub fn is_before(self, other: MomentKind) -> bool
        ensures { result ≡ is_kind_before self other }
    {
        match (self, other) {
            (MomentKind::Arrival, MomentKind::Commit) => true,
            _ => false,
        }
    }
}

/// A message arrives at a group or is committed there, at that tick.
#[derive(Clone, Copy)]
pub struct Moment {
    /// In ticks.
    pub tick: u32,
    /// Its rank among the moments of its tick, which come in the order of their ranks.
    pub rank: u8,
    pub kind: MomentKind,
    /// The number of the message.
    pub message: usize,
    /// The number of the group.
    pub group: usize,
}

impl Moment {
    ghost use Rattle.std.specs.Prelude.{◌≡◌};
    ghost use Rattle.convoy_sim.specs.Moments.{is_before};

    /// This moment is before the other: by tick, inside a tick by rank, then arrivals before commits,
    /// then by message and by group (docs/PROTOCOL.md).
    pub fn is_before(&self, other: &Moment) -> bool
        ensures { result ≡ is_before self.now other.now }
    {
        self.tick < other.tick
            || (self.tick == other.tick
                && (self.rank < other.rank
                    || (self.rank == other.rank
                        && (self.kind.is_before(other.kind)
                            || (self.kind == other.kind
                                && (self.message < other.message
                                    || (self.message == other.message
                                        && self.group < other.group)))))))
    }
}

/// The first tick at which a message may arrive at a group after a commit there at that tick: in whole
/// ticks the next one, and in real time that tick itself (docs/PROTOCOL.md).
pub fn next_arrival(time: Time, tick: u32) -> u32
    requires { tick < 2 ^ 32 - 1 }
    ensures { result ≡ next_arrival time tick }
{
    match time {
        Time::Ticks => tick + 1,
        Time::Real => tick,
    }
}
