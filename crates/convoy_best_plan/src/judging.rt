//! What is found of one placement.

ghost use Rattle.std.specs.Prelude.{◌≡◌, ◌<◌, length, All, IfOk};
ghost use Rattle.convoy_best_order.specs.Excesses.{lesser};
ghost use Rattle.convoy_best_order.specs.Targets.{MayBeTarget};
ghost use Rattle.convoy_best_plan.specs.Standings.{IsBestBySome, IsOpenByThese, choice_of};

use super::floor::Floor;
use super::planned::Planned;
use super::totals::total_of;
use convoy_best_order::{Best, Excess, Target, best_order};
use convoy_branch::Options;
use convoy_commands::Watch;
use convoy_scenario::Scenario;
use std::alloc::{AllocError, Global};
use std::sync::Wait;
use std::thread::Threads;

/// How many schedules are simulated at most before a search in a quick look at a placement.
const QUICK_SIMULATIONS: u64 = 1000;

/// The best order of the groups of a placement's scenario, by a quick look where that ends, and else as the options say.
/// Fails where memory runs out, and else never.
pub(crate) fn best_found<R: Threads + Wait + Sync, W: Watch + Sync>(
    rt: &R,
    alloc: Global,
    scenario: &Scenario,
    targets: &[Target],
    options: &Options,
    watches: &[W],
) -> Result<Best, AllocError>
    requires watched { 0 < length watches.now }
    requires some { 0 < length targets.now }
    requires lawful { All (MayBeTarget scenario.now) targets.now }
    ensures best { IfOk result (IsBestBySome scenario.now targets.now) }
    ensures is_open { IfOk result (IsOpenByThese options.now scenario.now targets.now) }
{
    let quick = options.seeking(QUICK_SIMULATIONS);
    let best = best_order(rt, alloc, None, scenario, targets, &quick, watches)?;
    if best.least.is_less(best.most) {
        return best_order(rt, alloc, None, scenario, targets, options, watches);
    }
    Ok(best)
}

/// The choice of a placement with the best order of the groups there.
pub(crate) fn choice_of(
    placement: Vec<usize>,
    scenario: Scenario,
    targets: Vec<Target>,
    best: Best,
) -> Planned
    ensures { result ≡ choice_of placement scenario targets best }
{
    let total = total_of(&scenario);
    let least = lesser(best.least, best.most);
    Planned {
        placement,
        scenario,
        targets,
        best,
        total,
        floor: Floor { least, ties: total },
    }
}

/// The lesser of two excesses.
fn lesser(excess: Excess, other: Excess) -> Excess
    ensures { result ≡ lesser excess other }
{
    if other.is_less(excess) { other } else { excess }
}
