/// A stamp of a message, compared by time and then by group.
#[derive(Clone, Copy, PartialEq, Eq)]
pub struct Timestamp {
    /// The group's clock.
    pub time: u64,
    /// The number of the group that gave it.
    pub group: usize,
}

impl Timestamp {
    /// Less than every stamp that is given.
    pub const NONE: Timestamp = Timestamp { time: 0, group: 0 };

    ghost use Rattle.std.specs.Prelude.{◌≡◌};
    ghost use Rattle.convoy_sim.specs.Stamps.{is_less, later};

    /// This stamp is less than the other: by time, and then by group (docs/PROTOCOL.md).
    pub fn is_less(self, other: Timestamp) -> bool
        ensures { result ≡ is_less self other }
    {
        self.time < other.time || (self.time == other.time && self.group < other.group)
    }

    /// The greater of the two stamps.
    pub fn later(self, other: Timestamp) -> Timestamp
        ensures { result ≡ later self other }
    {
        if self.is_less(other) { other } else { self }
    }
}
