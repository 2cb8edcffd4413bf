use convoy_best_order::{Target, Wanted};
use convoy_best_plan::Floor;
use convoy_scenario::Scenario;
use std::marker::Model;

/// What a tree over placements is to show: that no choice is below the floor, for the targets that are wanted. Beside these it has
/// the scenario of one placement, and its targets.
#[derive(Drop)]
pub(crate) struct Claim {
    pub(crate) wanted: Wanted,
    pub(crate) scenario: Scenario,
    pub(crate) targets: Vec<Target>,
    pub(crate) floor: Floor,
}

impl Model for Claim {
    ghost use Rattle.convoy_plan_checker.specs.Trees.{Claim};

    ghost Value = { Claim };

    ghost view = { λ c. record {
      wanted = c.wanted;
      scenario = c.scenario;
      targets = c.targets.items;
      floor = c.floor;
    } };
}

impl Claim {
    ghost use Rattle.std.specs.Prelude.{◌≡◌};

    /// For which messages it is.
    pub(crate) fn wanted(&self) -> Wanted
        ensures { result ≡ self.now.wanted }
    {
        self.wanted
    }

    /// What no choice is to be below.
    pub(crate) fn floor(&self) -> Floor
        ensures { result ≡ self.now.floor }
    {
        self.floor
    }
}
