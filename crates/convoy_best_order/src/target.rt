ghost use Rattle.std.specs.Prelude.{◌≡◌};
ghost use Rattle.convoy_best_order.specs.Spreads.{least_excess, most_excess};
ghost use Rattle.convoy_best_order.specs.Targets.{counts, limit_of};

use super::excess::Excess;
use super::spread::Spread;

/// A message at a group that it goes to, both by number, with its deadline in ticks if it has one.
#[derive(Clone, Copy)]
pub struct Target {
    pub message: usize,
    pub group: usize,
    pub deadline: Option<u32>,
}

impl Target {
    /// What the latency is limited to: its deadline, or else nothing.
    fn limit(self) -> u32
        ensures { result ≡ limit_of self }
    {
        self.deadline.unwrap_or(0)
    }

    /// Whether it counts where one of some targets has a deadline, or none has.
    pub(crate) fn counts(self, is_judged: bool) -> bool
        ensures { result ≡ counts is_judged self }
    {
        !is_judged || self.deadline.is_some()
    }

    /// By how much a latency exceeds the limit of the target at least.
    pub(crate) fn least_excess(self, spread: Spread) -> Excess
        ensures { result ≡ least_excess self spread }
    {
        Excess {
            latency: spread.least,
            limit: self.limit(),
        }
    }

    /// The same at most.
    pub(crate) fn most_excess(self, spread: Spread) -> Excess
        ensures { result ≡ most_excess self spread }
    {
        Excess {
            latency: spread.most,
            limit: self.limit(),
        }
    }
}
