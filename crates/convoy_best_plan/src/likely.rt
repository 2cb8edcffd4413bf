//! A placement that is likely to be good: one from which no move of a group, or exchange of two, seems to lead to a better one.
//! Nothing rests on it.

ghost use Rattle.std.specs.Prelude.{All};
ghost use Rattle.convoy_best_order.specs.Targets.{MayBeTarget};

use super::excluding::{FEW_SIMULATIONS, is_soon_exceeded, put_hint, sought};
use super::floor::Floor;
use super::hints::{Hint, TargetHints};
use super::last::last_listed;
use super::near::near_placement;
use super::planned::Planned;
use super::targets::targets_by;
use super::told::is_new;
use super::totals::total_of;
use super::visiting::scenario_if_made;
use convoy_best_order::{Excess, Target, Wanted};
use convoy_plans::{Plan, is_placement};
use convoy_scenario::Scenario;
use std::alloc::{AllocError, Global};

/// How many times all moves are tried at most.
const MOST_ROUNDS: usize = 8;

/// A placement, with what its best order keeps as far as seeking tells.
#[derive(Drop)]
struct Guess {
    placement: Vec<usize>,
    reach: Floor,
}

/// Sites of all groups that are likely to be a good placement; where some choices are told already one that is near to the last
/// of them, if there is such. What was late on the way are hints. Fails where memory runs out, and else never.
pub(crate) fn likely_placement(
    alloc: Global,
    plan: &Plan,
    wanted: Wanted,
    told: &[Planned],
    served: &mut Vec<TargetHints>,
) -> Result<Vec<usize>, AllocError> {
    let reach = Floor {
        least: Excess {
            latency: u32::MAX,
            limit: 0,
        },
        ties: 0,
    };
    match told.last() {
        Some(planned) => {
            let placement = Vec::from_slice(alloc, &planned.placement)?;
            let guess = Guess { placement, reach };
            moved(alloc, plan, wanted, told, guess, served)
        }
        None => first_likely(alloc, plan, wanted, reach, served),
    }
}

/// The same where no choice is told yet, of placements that keep less than that.
fn first_likely(
    alloc: Global,
    plan: &Plan,
    wanted: Wanted,
    reach: Floor,
    served: &mut Vec<TargetHints>,
) -> Result<Vec<usize>, AllocError> {
    let near = near_placement(alloc, plan)?;
    if !is_placement(plan, &near) {
        return Ok(near);
    }
    let first = Vec::from_slice(alloc, &near)?;
    match better_guess(alloc, plan, wanted, first, reach, served)? {
        Some(guess) => moved(alloc, plan, wanted, &[], guess, served),
        None => Ok(near),
    }
}

/// The placement of a guess, after moves that seem to make it better.
fn moved(
    alloc: Global,
    plan: &Plan,
    wanted: Wanted,
    told: &[Planned],
    guess: Guess,
    served: &mut Vec<TargetHints>,
) -> Result<Vec<usize>, AllocError> {
    let mut guess = guess;
    for _ in 0..MOST_ROUNDS {
        let before = guess.reach;
        guess = after_moves(alloc, plan, wanted, told, guess, served)?;
        if !guess.reach.is_lower(before) {
            return Ok(guess.placement);
        }
    }
    Ok(guess.placement)
}

/// The guess after moves of each group.
fn after_moves(
    alloc: Global,
    plan: &Plan,
    wanted: Wanted,
    told: &[Planned],
    guess: Guess,
    served: &mut Vec<TargetHints>,
) -> Result<Guess, AllocError> {
    let mut guess = guess;
    for group in 0..plan.group_count() {
        guess = after_moves_of(alloc, plan, wanted, told, guess, group, served)?;
        guess = after_exchanges(alloc, plan, wanted, told, guess, group, served)?;
    }
    Ok(guess)
}

/// The guess after moves of one group to each of its sites.
fn after_moves_of(
    alloc: Global,
    plan: &Plan,
    wanted: Wanted,
    told: &[Planned],
    guess: Guess,
    group: usize,
    served: &mut Vec<TargetHints>,
) -> Result<Guess, AllocError> {
    let mut guess = guess;
    for site in plan.sites_of(group) {
        let mut other = Vec::from_slice(alloc, &guess.placement)?;
        put(&mut other, group, *site);
        guess = better_of(alloc, plan, wanted, told, guess, other, served)?;
    }
    Ok(guess)
}

/// The guess after exchanges of the sites of a group with those before it.
fn after_exchanges(
    alloc: Global,
    plan: &Plan,
    wanted: Wanted,
    told: &[Planned],
    guess: Guess,
    group: usize,
    served: &mut Vec<TargetHints>,
) -> Result<Guess, AllocError> {
    let mut guess = guess;
    for with in 0..group {
        let mut other = Vec::from_slice(alloc, &guess.placement)?;
        exchange(&mut other, group, with);
        guess = better_of(alloc, plan, wanted, told, guess, other, served)?;
    }
    Ok(guess)
}

/// Puts a group at a site.
fn put(placement: &mut Vec<usize>, group: usize, site: usize) {
    if group < placement.len() {
        placement[group] = site;
    }
}

/// Exchanges the sites of two groups.
fn exchange(placement: &mut Vec<usize>, group: usize, with: usize) {
    if group < placement.len() && with < placement.len() {
        let site = placement[group];
        placement[group] = placement[with];
        placement[with] = site;
    }
}

/// The guess, or other sites if they are a placement that is not told already and seems to be better.
fn better_of(
    alloc: Global,
    plan: &Plan,
    wanted: Wanted,
    told: &[Planned],
    guess: Guess,
    other: Vec<usize>,
    served: &mut Vec<TargetHints>,
) -> Result<Guess, AllocError> {
    if other == guess.placement || !is_placement(plan, &other) || !is_new(told, &other) {
        return Ok(guess);
    }
    match better_guess(alloc, plan, wanted, other, guess.reach, served)? {
        Some(better) => Ok(better),
        None => Ok(guess),
    }
}

/// The guess of a placement, if it seems to be better than what keeps that.
fn better_guess(
    alloc: Global,
    plan: &Plan,
    wanted: Wanted,
    placement: Vec<usize>,
    reach: Floor,
    served: &mut Vec<TargetHints>,
) -> Result<Option<Guess>, AllocError> {
    let scenario = match scenario_if_made(alloc, plan, &placement)? {
        Some(scenario) => scenario,
        None => return Ok(None),
    };
    let targets = targets_by(alloc, plan, wanted, &scenario)?;
    let ties = total_of(&scenario);
    if is_soon_exceeded(alloc, &scenario, &targets, reach, ties, served)? {
        return Ok(None);
    }
    let least = least_sought(alloc, &scenario, &targets, served)?;
    let own = Floor { least, ties };
    if own.is_lower(reach) {
        return Ok(Some(Guess {
            placement,
            reach: own,
        }));
    }
    Ok(None)
}

/// The greatest excess of some targets as far as few schedules show it.
fn least_sought(
    alloc: Global,
    scenario: &Scenario,
    targets: &[Target],
    served: &mut Vec<TargetHints>,
) -> Result<Excess, AllocError>
    requires { All (MayBeTarget scenario.now) targets.now }
{
    let mut greatest = Excess {
        latency: 0,
        limit: u32::MAX,
    };
    for place in 0..targets.len() {
        let excess = excess_sought(alloc, scenario, targets[place], place, served)?;
        if greatest.is_less(excess) {
            greatest = excess;
        }
    }
    Ok(greatest)
}

/// The excess of a target at this place as far as few schedules show it; the latest one is a hint.
fn excess_sought(
    alloc: Global,
    scenario: &Scenario,
    target: Target,
    place: usize,
    served: &mut Vec<TargetHints>,
) -> Result<Excess, AllocError>
    requires { MayBeTarget scenario.now target }
{
    let instance = last_listed(alloc, scenario, target)?;
    let found = sought(alloc, &instance, u32::MAX, FEW_SIMULATIONS)?;
    let hint = Hint::of(alloc, &instance, found.schedule())?;
    put_hint(alloc, place, hint, served)?;
    Ok(Excess {
        latency: found.latency(),
        limit: target.deadline.unwrap_or(0),
    })
}
