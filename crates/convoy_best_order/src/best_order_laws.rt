//! The laws of the best order. Each is the one clause of a function that does nothing; a caller that needs the law calls
//! the function.

ghost use Rattle.convoy_best_order.specs.OrderLaws.{BestOrderIsExact, BestOrderKeeps, NoOrderIsBetter, OrderBehindIsFree};

use convoy_around::around_laws::around_is_scenario;
use convoy_orders::order_laws::{
    fewer_behind_is_no_later, fewer_behind_is_no_slower, renumbered_runs_agree,
};
use convoy_orders::relisted_laws::{
    relisted_drafts_are_renumbered, relisted_drafts_give_scenarios,
};
use convoy_scenario::scenario_laws::{drafts_give_scenarios, scenarios_have_drafts};

/// No order of the groups has a lesser greatest excess than the least that is told: in each some schedule of some target
/// exceeds its limit by so much, or by more.
pub fn no_order_is_better()
    ensures { NoOrderIsBetter }
{
    scenarios_have_drafts();
    drafts_give_scenarios();
    relisted_drafts_give_scenarios();
    relisted_drafts_are_renumbered();
    around_is_scenario();
    renumbered_runs_agree();
    fewer_behind_is_no_later();
}

/// In the order that is told no schedule of any target exceeds its limit by more than the most that is told.
pub fn best_order_keeps()
    ensures { BestOrderKeeps }
{}

/// No order has a lesser greatest excess than the most that is told of the order that is told: so it is the best one, unless
/// a search for some target in some order may stay open.
pub fn best_order_is_exact()
    ensures { BestOrderIsExact }
{
    no_order_is_better();
}

/// By how much the latency of a target exceeds its limit depends only on which groups stand behind its own, and not on
/// the order of these: what it keeps in one order of them it keeps in each.
pub fn order_behind_is_free()
    ensures { OrderBehindIsFree }
{
    scenarios_have_drafts();
    drafts_give_scenarios();
    relisted_drafts_give_scenarios();
    relisted_drafts_are_renumbered();
    around_is_scenario();
    fewer_behind_is_no_slower();
}
