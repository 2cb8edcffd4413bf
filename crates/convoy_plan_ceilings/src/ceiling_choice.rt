use super::target_ceiling::TargetCeiling;
use convoy_best_plan::Floor;
use convoy_scenario::Scenario;

/// A placement of a plan's groups, with the ceilings there.
#[derive(Drop)]
pub struct CeilingChoice {
    /// The number of the site of each group, by the groups' numbers.
    pub placement: Vec<usize>,
    /// The scenario of the placement, with the groups as they are listed in the plan.
    pub scenario: Scenario,
    /// The ceilings there of the targets for which the choice is the best.
    pub rows: Vec<TargetCeiling>,
    /// The greatest excess of a ceiling over its limit, and the longest from the issue of a message to its commit, summed over
    /// all messages and the groups that they go to.
    pub reach: Floor,
}
