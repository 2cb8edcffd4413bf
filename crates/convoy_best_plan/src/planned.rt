ghost use Rattle.std.specs.Prelude.{◌≡◌};
ghost use Rattle.convoy_best_plan.specs.BestPlans.{reach_of};
ghost use Rattle.convoy_best_plan.specs.PlanTexts.{as_told};

use super::floor::Floor;
use convoy_best_order::{Best, Target};
use convoy_scenario::Scenario;

/// A choice of a plan: a placement of its groups, with their best order there.
#[derive(Drop)]
pub struct Planned {
    /// The number of the site of each group, by the groups' numbers.
    pub placement: Vec<usize>,
    /// The scenario of the placement.
    pub scenario: Scenario,
    /// For which targets the choice is the best.
    pub targets: Vec<Target>,
    /// The best order of the groups there.
    pub best: Best,
    /// The longest from the issue of a message to its commit, summed over all messages and the groups that they go to.
    pub total: u64,
    /// What no choice is below.
    pub floor: Floor,
}

impl Planned {
    /// What the choice keeps.
    pub(crate) fn reach(&self) -> Floor
        ensures { result ≡ reach_of self.now }
    {
        Floor {
            least: self.best.most,
            ties: self.total,
        }
    }

    /// The choice as it is told: what no choice is below stands in place of what no order is below at its placement.
    pub(crate) fn as_told(self) -> Planned
        ensures { result ≡ as_told self }
    {
        let Planned {
            placement,
            scenario,
            targets,
            best,
            total,
            floor,
        } = self;
        Planned {
            placement,
            scenario,
            targets,
            best: Best {
                least: floor.least,
                ..best
            },
            total,
            floor,
        }
    }
}
