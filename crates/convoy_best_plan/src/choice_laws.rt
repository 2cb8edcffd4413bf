//! The laws of the best plan. Each is the one clause of a function that does nothing; a caller that needs the law calls
//! the function.

ghost use Rattle.convoy_best_plan.specs.ChoiceLaws.{ChoiceKeeps, LateLastIsLate, NoChoiceIsBetter};

use convoy_best_order::best_order_laws::best_order_keeps;
use convoy_orders::order_laws::no_order_is_below;
use convoy_orders::relisted_laws::{
    relisted_drafts_are_renumbered, relisted_drafts_give_scenarios,
};
use convoy_scenario::scenario_laws::{drafts_give_scenarios, scenarios_have_drafts};

/// No choice has a lesser greatest excess than the floor says for its total: whatever the placement and the order of its
/// groups, some schedule of some target exceeds its limit by so much, or by more.
pub fn no_choice_is_better()
    ensures { NoChoiceIsBetter }
{}

/// With the choice that is told no schedule of any target exceeds its limit by more than the most that is told.
pub fn choice_keeps()
    ensures { ChoiceKeeps }
{
    best_order_keeps();
}

/// Where a target is so late with its group listed last, in each order of the groups some target is.
pub fn late_last_is_late()
    ensures { LateLastIsLate }
{
    scenarios_have_drafts();
    drafts_give_scenarios();
    relisted_drafts_give_scenarios();
    relisted_drafts_are_renumbered();
    no_order_is_below();
}
