ghost use Rattle.std.specs.Prelude.{ℕ, List, IfOk, ◌<◌, length};
ghost use Rattle.convoy_plans.specs.Placements.{IsPlacement};
ghost use Rattle.convoy_best_plan.specs.BestPlans.{AreBestPlans, IsBestPlan, IsNew, IsNotBelow, IsPlanned};
ghost use Rattle.convoy_best_plan.specs.Standings.{IsFound, IsPassed, IsStanding};

use super::judging::choice_of;
use super::planned::Planned;
use super::searching::search_below;
use super::standing::Standing;
use super::starting::start;
use super::targets::targets_by;
use super::watch::{PlanWatch, Stage};
use super::watching::{placements_below, tell_choice};
use convoy_best_order::best_order_laws::{best_order_keeps, no_order_is_better};
use convoy_best_order::{Wanted, best_order};
use convoy_branch::Options;
use convoy_commands::Watch;
use convoy_plans::Plan;
use std::alloc::{AllocError, Global};
use std::sync::Wait;
use std::thread::Threads;

/// The best choices of a plan at so many placements, one after the other: the first is the best of all ([`best_plan`]), and
/// each other one the best of the placements that none before it has. There are fewer where no further placement has a
/// scenario. Each search is watched. Fails where memory runs out, and else never.
pub fn best_plans<R: Threads + Wait + Sync, W: PlanWatch + Sync>(
    rt: &R,
    alloc: Global,
    plan: &Plan,
    wanted: Wanted,
    count: usize,
    options: &Options,
    watches: &[W],
) -> Result<Vec<Planned>, AllocError>
    requires watched { 0 < length watches.now }
    ensures { IfOk result (λ all. AreBestPlans options.now wanted plan.now count all.items) }
{
    let mut all = Vec::new(alloc);
    while all.len() < count {
        match best_plan(rt, alloc, plan, wanted, &all, options, watches)? {
            Some(planned) => all.push(planned)?,
            None => return Ok(all),
        }
    }
    Ok(all)
}

/// The best choice of a plan for the targets that are wanted: the placement and the order of its groups with the least
/// greatest excess of latency over deadline, and of those with that excess one with the least total; of the placements that
/// none of the choices has that are told already. None where no such placement has a scenario. Each search is watched, and the
/// first who watches is told how far the search over placements has come. Fails where memory runs out, and else never.
pub fn best_plan<R: Threads + Wait + Sync, W: PlanWatch + Sync>(
    rt: &R,
    alloc: Global,
    plan: &Plan,
    wanted: Wanted,
    told: &[Planned],
    options: &Options,
    watches: &[W],
) -> Result<Option<Planned>, AllocError>
    requires watched { 0 < length watches.now }
    ensures { IfOk result (IsPlanned options.now wanted plan.now told.now) }
{
    let stage = Stage::Choice(told.len());
    watches[0].begins_placing(stage, placements_below(plan, &[]));
    let chosen = chosen_of(rt, alloc, plan, wanted, told, options, watches);
    watches[0].ends_placing();
    settled_if(rt, alloc, plan, wanted, told, chosen?, options, watches)
}

/// The best choice of all placements that are not told already, if there is one, with the order of its groups as it was found
/// there. Fails where memory runs out, and else never.
fn chosen_of<R: Threads + Wait + Sync, W: PlanWatch + Sync>(
    rt: &R,
    alloc: Global,
    plan: &Plan,
    wanted: Wanted,
    told: &[Planned],
    options: &Options,
    watches: &[W],
) -> Result<Option<Planned>, AllocError>
    requires watched { 0 < length watches.now }
    ensures standing { IfOk result (IsStanding options.now wanted plan.now told.now) }
    ensures passed { IfOk result (λ chosen. (placement : List ℕ) → IsPlacement plan.now placement → IsNew told.now placement → IsPassed wanted plan.now chosen placement) }
{
    let groups = plan.group_count();
    let sites = vec![in alloc; None; groups]?;
    let standing = Standing {
        chosen: None,
        served: Vec::new(alloc),
    };
    let started = start(rt, alloc, plan, wanted, told, standing, options, watches)?;
    tell_choice(plan, &started.chosen, options, &watches[0]);
    let standing = search_below(
        rt, alloc, plan, wanted, told, groups, &sites, started, options, watches,
    )?;
    Ok(standing.chosen)
}

/// The choice, if there is one, with the best order of its groups as the options say. Fails where memory runs out, and else
/// never.
fn settled_if<R: Threads + Wait + Sync, W: Watch + Sync>(
    rt: &R,
    alloc: Global,
    plan: &Plan,
    wanted: Wanted,
    told: &[Planned],
    chosen: Option<Planned>,
    options: &Options,
    watches: &[W],
) -> Result<Option<Planned>, AllocError>
    requires watched { 0 < length watches.now }
    requires standing { IsStanding options.now wanted plan.now told.now chosen }
    requires passed { (placement : List ℕ) → IsPlacement plan.now placement → IsNew told.now placement → IsPassed wanted plan.now chosen placement }
    ensures { IfOk result (IsPlanned options.now wanted plan.now told.now) }
{
    match chosen {
        None => Ok(None),
        Some(planned) => Ok(Some(settled(
            rt, alloc, plan, wanted, told, planned, options, watches,
        )?)),
    }
}

/// The same choice with the best order of its groups as the options say. Fails where memory runs out, and else never.
fn settled<R: Threads + Wait + Sync, W: Watch + Sync>(
    rt: &R,
    alloc: Global,
    plan: &Plan,
    wanted: Wanted,
    told: &[Planned],
    planned: Planned,
    options: &Options,
    watches: &[W],
) -> Result<Planned, AllocError>
    requires watched { 0 < length watches.now }
    requires found { IsFound options.now wanted plan.now told.now planned }
    requires passed { (placement : List ℕ) → IsPlacement plan.now placement → IsNew told.now placement → IsNotBelow wanted plan.now planned.floor placement }
    ensures { IfOk result (IsBestPlan options.now wanted plan.now told.now) }
{
    no_order_is_better();
    best_order_keeps();
    let (placement, scenario) = (planned.placement, planned.scenario);
    // A scenario is well formed.
    let _count = scenario.group_count();
    let targets = targets_by(alloc, plan, wanted, &scenario)?;
    let best = best_order(rt, alloc, None, &scenario, &targets, options, watches)?;
    let found = choice_of(placement, scenario, targets, best);
    let floor = planned.floor.lower(found.floor);
    Ok(Planned { floor, ..found })
}
