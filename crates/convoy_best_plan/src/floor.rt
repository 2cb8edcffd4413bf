ghost use Rattle.std.specs.Prelude.{◌≡◌, ◌+◌, IsTrue};
ghost use Rattle.convoy_best_order.specs.Excesses.{IsAtMost};
ghost use Rattle.convoy_best_plan.specs.Floors.{excess_at, is_lower, lower};

use convoy_best_order::Excess;

/// What no choice is below.
#[derive(Clone, Copy)]
pub struct Floor {
    /// The greatest excess of each choice is at least that.
    pub least: Excess,
    /// It is a tick more at least where the total of the choice's placement is less than that.
    pub ties: u64,
}

impl Floor {
    /// Whether an excess is as great as that of a choice of such a total is at least.
    pub(crate) fn is_reached(self, total: u64, excess: Excess) -> bool
        ensures { IsTrue result → IsAtMost (excess_at self total) excess }
    {
        let more = u64::from(total < self.ties);
        u64::from(self.least.latency) + more + u64::from(excess.limit)
            <= u64::from(excess.latency) + u64::from(self.least.limit)
    }

    /// The latency with which that is so for such a limit, as far as there is one.
    pub(crate) fn latency_at(self, total: u64, limit: u32) -> u32 {
        let more = u64::from(total < self.ties);
        let latency = u64::from(self.least.latency) + more + u64::from(limit);
        u32::try_from(latency.saturating_sub(u64::from(self.least.limit))).unwrap_or(u32::MAX)
    }

    /// Whether this is lower than another.
    pub fn is_lower(self, other: Floor) -> bool
        ensures { result ≡ is_lower self other }
    {
        self.least.is_less(other.least)
            || (!other.least.is_less(self.least) && self.ties < other.ties)
    }

    /// The lower of two.
    pub(crate) fn lower(self, other: Floor) -> Floor
        ensures { result ≡ lower self other }
    {
        if other.is_lower(self) { other } else { self }
    }
}
