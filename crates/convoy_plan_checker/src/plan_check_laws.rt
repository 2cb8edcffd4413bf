//! The laws of certificates of plans. Each is the one clause of a function that does nothing; a caller that needs the law calls
//! the function.

ghost use Rattle.convoy_plan_checker.specs.PlanCheckLaws.{ValidIsBest};

use convoy_checker::tree_laws::valid_is_greatest;
use convoy_orders::order_laws::no_order_is_below;
use convoy_orders::relisted_laws::{
    relisted_drafts_are_renumbered, relisted_drafts_give_scenarios,
};
use convoy_plans::plan_laws::{messages_are_of_plans, ranges_are_of_sites};
use convoy_scenario::scenario_laws::{drafts_give_scenarios, scenarios_have_drafts};
use convoy_sim::protocol_laws::delivered_after_commit;

/// The choice of a valid certificate of a plan is the best one: its latencies are the greatest ones of the targets that count,
/// and no choice of the plan is below it.
pub fn valid_is_best()
    ensures { ValidIsBest }
{
    valid_is_greatest();
    scenarios_have_drafts();
    drafts_give_scenarios();
    relisted_drafts_give_scenarios();
    relisted_drafts_are_renumbered();
    no_order_is_below();
    delivered_after_commit();
    ranges_are_of_sites();
    messages_are_of_plans();
}
