ghost use Rattle.std.specs.Prelude.{◌≡◌};
ghost use Rattle.convoy_plan_ceilings.specs.LeastCeilings.{excess_of};

use convoy_best_order::{Excess, Target};

/// A target with its ceiling.
#[derive(Clone, Copy)]
pub struct TargetCeiling {
    pub target: Target,
    /// The ceiling of the target's message at its group, in ticks.
    pub ceiling: u32,
}

impl TargetCeiling {
    /// By how much the ceiling exceeds what the latency of the target is limited to: its deadline, or else nothing.
    pub(crate) fn excess(self) -> Excess
        ensures { result ≡ excess_of self }
    {
        Excess {
            latency: self.ceiling,
            limit: self.target.deadline.unwrap_or(0),
        }
    }
}
