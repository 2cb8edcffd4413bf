//! What a chain wants of the delay of a packet, or of a wait.

ghost use Rattle.std.specs.Prelude.{◌≡◌, ◌-◌, ◌<◌, ◌≤◌, max, min, nat_lt, IfSome};

/// The delays of a packet, in ticks, that all links of a chain want which speak of it: at least so
/// many, and at most so many. Where a link wants fewer than another one does, there are none.
#[derive(Clone, Copy)]
pub(crate) struct Want {
    least: u32,
    most: u32,
}

/// A delay as small as another link may want it, for one that wants it to be great.
const SMALLEST: u32 = 0;

/// A delay as great as another link may want it, for one that wants it to be small.
const GREATEST: u32 = u32::MAX;

impl Want {
    /// That of no link.
    pub(crate) fn nothing() -> Want {
        Want {
            least: SMALLEST,
            most: GREATEST,
        }
    }

    /// That of a link which wants at least so many ticks.
    pub(crate) fn at_least(ticks: u32) -> Want {
        Want {
            least: ticks,
            most: GREATEST,
        }
    }

    /// That of a link which wants at most so many ticks.
    pub(crate) fn at_most(ticks: u32) -> Want {
        Want {
            least: SMALLEST,
            most: ticks,
        }
    }

    /// That of both.
    pub(crate) fn and(self, other: Want) -> Want {
        Want {
            least: self.least.max(other.least),
            most: self.most.min(other.most),
        }
    }

    /// Whether no link wants anything.
    fn is_nothing(self) -> bool {
        self.least == SMALLEST && self.most == GREATEST
    }

    /// Whether one link wants a smaller delay than another one.
    fn is_torn(self) -> bool
        ensures { result ≡ nat_lt self.most self.least }
    {
        self.most < self.least
    }

    /// How much is to be had from a split of the packet's range: 0 where nothing is wanted of it or it
    /// has one delay, more the wider it is, and more than by any width where links want different
    /// delays. Where ranges are split at edges, a range with an edge comes between.
    pub(crate) fn weight(self, range: (u16, u16), at_edges: bool) -> u32
        requires { range.0 ≤ range.1 }
        ensures { 0 < result → range.0 < range.1 }
    {
        let width = u32::from(range.1 - range.0);
        if width == 0 || self.is_nothing() {
            0
        } else if self.is_torn() {
            width + 2 * u32::from(u16::MAX)
        } else if at_edges && self.edge(range).is_some() {
            width + u32::from(u16::MAX)
        } else {
            width
        }
    }

    /// The delay after which the range is to be split: halfway between those that two links want, or
    /// else in the middle, rounded down. Where ranges are split at edges, it is the edge instead of the
    /// middle, if there is one.
    pub(crate) fn place(self, range: (u16, u16), at_edges: bool) -> u16
        requires { range.0 < range.1 }
        ensures low { range.0 ≤ result }
        ensures high { result < range.1 }
    {
        if self.is_torn() {
            let small = nearest(self.most, range);
            let great = nearest(self.least - 1, range);
            return small + (great - small) / 2;
        }
        if at_edges && let Some(edge) = self.edge(range) {
            return edge;
        }
        range.0 + (range.1 - range.0) / 2
    }

    /// The edge of what is wanted in the range: the last delay that is wanted, if the range has greater
    /// ones too; or else the last one before those that are wanted.
    fn edge(self, range: (u16, u16)) -> Option<u16>
        ensures { IfSome result (λ at. (range.0 ≤ at) × (at < range.1)) }
    {
        let (least, most) = (u32::from(range.0), u32::from(range.1));
        if least <= self.most && self.most < most {
            Some(self.most as u16)
        } else if least < self.least && self.least <= most {
            Some((self.least - 1) as u16)
        } else {
            None
        }
    }
}

/// When something is to happen, in ticks.
#[derive(Clone, Copy)]
pub(crate) enum When {
    /// At that tick or later.
    Since(u32),
    /// By that tick.
    By(u32),
}

impl When {
    /// What is wanted of a delay at whose end it happens, where that tick comes before the delay, and
    /// after it at least, and at most, so many others as well.
    pub(crate) fn wanted(self, issued: u32, others: (u32, u32)) -> Want {
        match self {
            When::Since(tick) => {
                Want::at_least(tick.saturating_sub(issued).saturating_sub(others.1))
            }
            When::By(tick) => Want::at_most(tick.saturating_sub(issued).saturating_sub(others.0)),
        }
    }
}

/// The delay of a range, but not its last, that is nearest to so many ticks.
fn nearest(ticks: u32, range: (u16, u16)) -> u16
    requires { range.0 < range.1 }
    ensures { result ≡ min (max ticks range.0) (range.1 - 1) }
{
    let last = u32::from(range.1) - 1;
    ticks.max(u32::from(range.0)).min(last) as u16
}
