//! Whether all placements that have some sites are passed at once.

ghost use Rattle.std.specs.Prelude.{List, Some, IsTrue};
ghost use Rattle.convoy_branch.specs.Options.{Settings};
ghost use Rattle.convoy_best_order.specs.declared.wanted.Wanted.{Wanted};
ghost use Rattle.convoy_best_plan.specs.declared.planned.Planned.{Planned};
ghost use Rattle.convoy_best_plan.specs.Standings.{ArePassed, IsFound, IsStanding};

use super::leaves::is_late_anyhow;
use super::planned::Planned;
use convoy_orders::relisted_laws::{
    relisted_drafts_are_renumbered, relisted_drafts_give_scenarios,
};
use convoy_plans::Plan;
use convoy_plans::plan_laws::{messages_are_of_plans, ranges_are_of_sites};
use convoy_scenario::scenario_laws::{drafts_give_scenarios, scenarios_have_drafts};
use convoy_sim::protocol_laws::delivered_after_commit;

/// Whether no placement that has these sites is better than the best choice so far, as some target is too late by its
/// commit alone.
pub(crate) fn is_cut(plan: &Plan, chosen: &Option<Planned>, sites: &[Option<usize>]) -> bool
    ensures { (settings : Settings) (wanted : Wanted) (told : List Planned) → IsStanding settings wanted plan.now told chosen.now → IsTrue result
        → ArePassed wanted plan.now told chosen.now sites.now }
{
    match chosen {
        None => false,
        Some(planned) => is_late_below(plan, planned, sites),
    }
}

/// The same of a choice that there is.
fn is_late_below(plan: &Plan, planned: &Planned, sites: &[Option<usize>]) -> bool
    ensures { (settings : Settings) (wanted : Wanted) (told : List Planned) → IsFound settings wanted plan.now told planned.now → IsTrue result
        → ArePassed wanted plan.now told (Some planned.now) sites.now }
{
    scenarios_have_drafts();
    drafts_give_scenarios();
    relisted_drafts_give_scenarios();
    relisted_drafts_are_renumbered();
    delivered_after_commit();
    ranges_are_of_sites();
    messages_are_of_plans();
    // A plan is well formed.
    let _count = plan.group_count();
    is_late_anyhow(
        plan,
        &planned.scenario,
        sites,
        &planned.targets,
        planned.reach(),
    )
}
