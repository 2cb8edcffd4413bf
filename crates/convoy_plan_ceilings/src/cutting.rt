//! Whether all placements that have some sites are passed at once.

ghost use Rattle.std.specs.Prelude.{Some, IsTrue};
ghost use Rattle.convoy_best_order.specs.declared.wanted.Wanted.{Wanted};
ghost use Rattle.convoy_plan_ceilings.specs.LeastCeilings.{IsCeilingChoice};
ghost use Rattle.convoy_plan_ceilings.specs.Leasts.{AreLeasts};
ghost use Rattle.convoy_plan_ceilings.specs.Standings.{ArePassed, IsStanding};

use super::bounds::is_high_anyhow;
use super::ceiling_choice::CeilingChoice;
use super::standing::Standing;
use convoy_plans::Plan;
use convoy_plans::plan_laws::{
    groups_have_no_links_to_themselves, messages_are_of_plans, ranges_are_of_sites,
};

/// Whether no placement that has these sites is better than the best choice so far, as some ceiling is too great in each of
/// them.
pub(crate) fn is_cut(plan: &Plan, standing: &Standing, sites: &[Option<usize>]) -> bool
    ensures { (wanted : Wanted) → IsStanding wanted plan.now standing.now → IsTrue result
        → ArePassed wanted plan.now standing.now.chosen sites.now }
{
    match &standing.chosen {
        None => false,
        Some(chosen) => is_high_below(plan, chosen, &standing.leasts, sites),
    }
}

/// The same of a choice that there is.
fn is_high_below(
    plan: &Plan,
    chosen: &CeilingChoice,
    leasts: &[Option<u16>],
    sites: &[Option<usize>],
) -> bool
    ensures { (wanted : Wanted) → IsCeilingChoice wanted plan.now chosen.now → AreLeasts plan.now leasts.now → IsTrue result
        → ArePassed wanted plan.now (Some chosen.now) sites.now }
{
    ranges_are_of_sites();
    groups_have_no_links_to_themselves();
    messages_are_of_plans();
    // A plan is well formed.
    let _count = plan.group_count();
    is_high_anyhow(
        plan,
        &chosen.scenario,
        leasts,
        sites,
        &chosen.rows,
        chosen.reach,
    )
}
