/// Whether a run has all that is free as late as the wishes leave it, or as early.
#[derive(Clone, Copy, PartialEq, Eq)]
pub(crate) enum End {
    /// The latest ticks, and the greatest delays.
    Latest,
    /// The earliest ticks, and the least delays.
    Earliest,
}

impl End {
    /// Both, in the order in which they are tried.
    pub(crate) const BOTH: [End; 2] = [End::Latest, End::Earliest];

    /// That end of a range of delays, in ticks.
    pub(crate) fn of(self, range: (u16, u16)) -> u16 {
        match self {
            End::Latest => range.1,
            End::Earliest => range.0,
        }
    }
}

/// In which order the wishes of a chain are kept. Those that come first are kept more often.
#[derive(Clone, Copy, PartialEq, Eq)]
pub(crate) enum Keeping {
    /// Link by link: its commit, then each message that it counts.
    LinkByLink,
    /// All commits, and then the messages that are counted, link by link.
    CommitsFirst,
    /// All commits, and then the messages that are counted, from the last link back.
    LastLinkFirst,
}

impl Keeping {
    /// All, in the order in which they are tried.
    pub(crate) const ALL: [Keeping; 3] = [
        Keeping::LinkByLink,
        Keeping::CommitsFirst,
        Keeping::LastLinkFirst,
    ];
}
