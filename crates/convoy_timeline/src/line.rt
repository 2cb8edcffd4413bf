use super::entry::Entry;

/// What a line of a timeline tells.
#[derive(Clone, Copy)]
pub(crate) enum Line {
    /// A message is issued at that tick.
    Issue { tick: u32, message: usize },
    /// Something happens at a group.
    Happening(Entry),
}

impl Line {
    ghost use Rattle.std.specs.Prelude.{◌≡◌};
    ghost use Rattle.convoy_timeline.specs.Timeline.{is_issue_before};

    /// Whether an issue at a tick stands before the line: before what happens at groups in its tick, and
    /// before issues of later ticks.
    pub(crate) fn is_after_issue(self, tick: u32) -> bool
        ensures { result ≡ is_issue_before tick self }
    {
        match self {
            Line::Issue { tick: later, .. } => tick < later,
            Line::Happening(entry) => tick <= entry.tick,
        }
    }
}
