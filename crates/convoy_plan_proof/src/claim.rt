use convoy_best_order::Wanted;
use convoy_best_plan::{Floor, Planned};
use convoy_branch::Options;
use convoy_plans::Plan;

/// What is to be shown of a choice of a plan: that for the targets that are wanted no choice is below what it keeps.
#[derive(Drop)]
pub(crate) struct Claim<'a> {
    pub(crate) plan: &'a Plan,
    pub(crate) wanted: Wanted,
    pub(crate) planned: &'a Planned,
    /// The greatest excess of the choice, and its total.
    pub(crate) floor: Floor,
    /// How it is searched.
    pub(crate) options: &'a Options,
}

impl<'a> Claim<'a> {
    /// That no choice is better than this one.
    pub(crate) fn of(
        plan: &'a Plan,
        wanted: Wanted,
        planned: &'a Planned,
        options: &'a Options,
    ) -> Claim<'a> {
        let floor = Floor {
            least: planned.best.most,
            ties: planned.total,
        };
        Claim {
            plan,
            wanted,
            planned,
            floor,
            options,
        }
    }
}
