//! The laws of the placement with the least ceilings. Each is the one clause of a function that does nothing; a caller that
//! needs the law calls the function.

ghost use Rattle.convoy_plan_ceilings.specs.CeilingChoiceLaws.{ChosenCeilingHolds, LeastsAreOfSites, NoCeilingIsLess};

use convoy_ceiling::ceiling_laws::ceiling_holds;
use convoy_scenario::scenario_laws::drafts_give_scenarios;

/// At each placement the ceiling of some target exceeds its limit by as much as the greatest one of the choice, or by more;
/// and by a tick more where the placement's total is less.
pub fn no_ceiling_is_less()
    ensures { NoCeilingIsLess }
{}

/// In no traffic of the kinds of messages of the scenario that is told has a target a greater latency than the ceiling that is
/// told for it, and none of them exceeds its limit by more than the choice says.
pub fn chosen_ceiling_holds()
    ensures { ChosenCeilingHolds }
{
    drafts_give_scenarios();
    ceiling_holds();
}

/// Where a range is written from site to site, what goes there takes at least as long in the scenario of each placement.
pub fn leasts_are_of_sites()
    ensures { LeastsAreOfSites }
{}
