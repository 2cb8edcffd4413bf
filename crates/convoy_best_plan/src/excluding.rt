//! Whether a placement is surely no better, by a schedule of one of its targets.

ghost use Rattle.std.specs.Prelude.{◌≡◌, ◌<◌, true, length, is_some, All, IsTrue, IfOk};
ghost use Rattle.convoy_packets.specs.Assignment.{IsAssignment};
ghost use Rattle.convoy_best_order.specs.Excesses.{IsAtMost};
ghost use Rattle.convoy_best_order.specs.Targets.{MayBeTarget, limit_of};
ghost use Rattle.convoy_best_plan.specs.BestPlans.{IsExceeded};
ghost use Rattle.convoy_best_plan.specs.Floors.{excess_at};
ghost use Rattle.convoy_best_plan.specs.Witnesses.{IsPast};

use super::choice_laws::late_last_is_late;
use super::floor::Floor;
use super::hints::{Hint, TargetHints, put_first};
use super::last::last_listed;
use convoy_best_order::{Excess, Target};
use convoy_packets::schedule_laws::fixed_order_is_order;
use convoy_packets::{Instance, Schedule};
use convoy_scenario::Scenario;
use convoy_seek::seek;
use convoy_sim::{Record, latency};
use std::alloc::{AllocError, Global};

/// How many schedules are simulated at most for a target at a placement to begin with.
pub(crate) const FEW_SIMULATIONS: u64 = 300;

/// How many are simulated at most before the order of the groups there is searched.
const MORE_SIMULATIONS: u64 = 3000;

/// Whether in each order of the groups some schedule of some target surely exceeds its limit by so much that the choice is
/// below no floor: by schedules that served at other placements first, and then by some that are sought, a few and then more.
/// Fails where memory runs out, and else never.
pub(crate) fn is_exceeded(
    alloc: Global,
    scenario: &Scenario,
    targets: &[Target],
    reach: Floor,
    total: u64,
    served: &mut Vec<TargetHints>,
) -> Result<bool, AllocError>
    requires { All (MayBeTarget scenario.now) targets.now }
    ensures { IfOk result (λ is. IsTrue is → IsExceeded scenario.now targets.now (excess_at reach total)) }
{
    if is_soon_exceeded(alloc, scenario, targets, reach, total, served)? {
        return Ok(true);
    }
    is_some_sought(
        alloc,
        scenario,
        targets,
        reach,
        total,
        MORE_SIMULATIONS,
        served,
    )
}

/// The same by few schedules.
pub(crate) fn is_soon_exceeded(
    alloc: Global,
    scenario: &Scenario,
    targets: &[Target],
    reach: Floor,
    total: u64,
    served: &mut Vec<TargetHints>,
) -> Result<bool, AllocError>
    requires { All (MayBeTarget scenario.now) targets.now }
    ensures { IfOk result (λ is. IsTrue is → IsExceeded scenario.now targets.now (excess_at reach total)) }
{
    for at in 0..served.len() {
        if is_served(alloc, scenario, targets, reach, total, at, served)? {
            return Ok(true);
        }
    }
    is_some_sought(
        alloc,
        scenario,
        targets,
        reach,
        total,
        FEW_SIMULATIONS,
        served,
    )
}

/// Whether a schedule that is sought shows it of some target, with so many simulations for each at most.
fn is_some_sought(
    alloc: Global,
    scenario: &Scenario,
    targets: &[Target],
    reach: Floor,
    total: u64,
    simulations: u64,
    served: &mut Vec<TargetHints>,
) -> Result<bool, AllocError>
    requires { All (MayBeTarget scenario.now) targets.now }
    ensures { IfOk result (λ is. IsTrue is → IsExceeded scenario.now targets.now (excess_at reach total)) }
{
    for place in 0..targets.len() {
        if is_sought(
            alloc,
            scenario,
            targets,
            reach,
            total,
            place,
            simulations,
            served,
        )? {
            return Ok(true);
        }
    }
    Ok(false)
}

/// Whether a schedule that served at another placement shows it of the target of these hints; they stand first then.
fn is_served(
    alloc: Global,
    scenario: &Scenario,
    targets: &[Target],
    reach: Floor,
    total: u64,
    at: usize,
    served: &mut Vec<TargetHints>,
) -> Result<bool, AllocError>
    requires { All (MayBeTarget scenario.now) targets.now }
    ensures { IfOk result (λ is. IsTrue is → IsExceeded scenario.now targets.now (excess_at reach total)) }
{
    if at >= served.len() {
        return Ok(false);
    }
    let place = served[at].place;
    if place >= targets.len() {
        return Ok(false);
    }
    let hint = served_by(
        alloc,
        scenario,
        targets,
        reach,
        total,
        place,
        &served[at].hints,
    )?;
    match hint {
        Some(hint) => {
            bring_first(at, hint, served)?;
            Ok(true)
        }
        None => Ok(false),
    }
}

/// Which of some hints shows it of the target at this place, if one does.
fn served_by(
    alloc: Global,
    scenario: &Scenario,
    targets: &[Target],
    reach: Floor,
    total: u64,
    place: usize,
    hints: &[Hint],
) -> Result<Option<usize>, AllocError>
    requires lawful { All (MayBeTarget scenario.now) targets.now }
    requires known { place < length targets.now }
    ensures { IfOk result (λ hint. is_some hint ≡ true → IsExceeded scenario.now targets.now (excess_at reach total)) }
{
    late_last_is_late();
    // A scenario is well formed.
    let _count = scenario.group_count();
    let target = targets[place];
    let instance = last_listed(alloc, scenario, target)?;
    let hint = serving(alloc, &instance, target, reach, total, hints)?;
    Ok(hint)
}

/// Which of some hints shows that the target is so late in an instance, if one does.
fn serving(
    alloc: Global,
    instance: &Instance,
    target: Target,
    reach: Floor,
    total: u64,
    hints: &[Hint],
) -> Result<Option<usize>, AllocError>
    ensures { IfOk result (λ hint. is_some hint ≡ true → IsPast instance.now target (excess_at reach total)) }
{
    for place in 0..hints.len() {
        if let Some(schedule) = hints[place].schedule(alloc, instance)?
            && is_past(instance, target, reach, total, &schedule)
        {
            return Ok(Some(place));
        }
    }
    Ok(None)
}

/// Whether the target is so late in an instance under a schedule.
fn is_past(
    instance: &Instance,
    target: Target,
    reach: Floor,
    total: u64,
    schedule: &Schedule,
) -> bool
    requires { IsAssignment instance.now schedule.now }
    ensures { IsTrue result → IsPast instance.now target (excess_at reach total) }
{
    let latency = latency(instance, schedule);
    is_past_by(target, reach, total, latency)
}

/// Whether a latency of the target exceeds its limit by so much.
pub fn is_past_by(target: Target, reach: Floor, total: u64, latency: u32) -> bool
    ensures { IsTrue result → IsAtMost (excess_at reach total) (record { latency = latency; limit = limit_of target }) }
{
    let limit = target.deadline.unwrap_or(0);
    reach.is_reached(total, Excess { latency, limit })
}

/// Whether a schedule that is sought shows it of the target at this place; it is a hint from there on.
fn is_sought(
    alloc: Global,
    scenario: &Scenario,
    targets: &[Target],
    reach: Floor,
    total: u64,
    place: usize,
    simulations: u64,
    served: &mut Vec<TargetHints>,
) -> Result<bool, AllocError>
    requires lawful { All (MayBeTarget scenario.now) targets.now }
    requires known { place < length targets.now }
    ensures { IfOk result (λ is. IsTrue is → IsExceeded scenario.now targets.now (excess_at reach total)) }
{
    late_last_is_late();
    // A scenario is well formed.
    let _count = scenario.group_count();
    let target = targets[place];
    let instance = last_listed(alloc, scenario, target)?;
    let until = reach.latency_at(total, target.deadline.unwrap_or(0));
    let found = sought(alloc, &instance, until, simulations)?;
    let past = is_found_past(target, reach, total, &found);
    if past {
        let hint = Hint::of(alloc, &instance, found.schedule())?;
        put_hint(alloc, place, hint, served)?;
    }
    Ok(past)
}

/// Whether the target is so late in the schedule of a record.
fn is_found_past(target: Target, reach: Floor, total: u64, found: &Record) -> bool
    ensures { IsTrue result → IsPast found.now.scenario target (excess_at reach total) }
{
    let latency = found.latency();
    is_past_by(target, reach, total, latency)
}

/// The record of a schedule of an instance that is sought until the latency is so long, with so many simulations at most.
pub(crate) fn sought(
    alloc: Global,
    instance: &Instance,
    until: u32,
    simulations: u64,
) -> Result<Record, AllocError>
    ensures { IfOk result (λ found. found.scenario ≡ instance.now) }
{
    fixed_order_is_order();
    let greatest = Schedule::greatest(alloc, instance.table())?;
    let known = Record::of(instance, greatest);
    match seek(alloc, instance, known, until, simulations) {
        Ok(found) => Ok(found),
        Err((_, error)) => Err(error),
    }
}

/// Puts the hints at a place in front of all, and the one of these at its place in front of them.
fn bring_first(at: usize, hint: usize, served: &mut Vec<TargetHints>) -> Result<(), AllocError> {
    if at < served.len() {
        let mut group = served.remove(at);
        if hint < group.hints.len() {
            let first = group.hints.remove(hint);
            group.hints.insert(0, first)?;
        }
        served.insert(0, group)?;
    }
    Ok(())
}

/// Puts a hint for the target at this place in front of all.
pub(crate) fn put_hint(
    alloc: Global,
    place: usize,
    hint: Hint,
    served: &mut Vec<TargetHints>,
) -> Result<(), AllocError> {
    match served.iter().position(|group| group.place == place) {
        Some(at) => put_among(at, hint, served),
        None => {
            let mut hints = Vec::new(alloc);
            hints.push(hint)?;
            served.insert(0, TargetHints { place, hints })?;
            Ok(())
        }
    }
}

/// Puts a hint in front of those at a place, and these in front of all.
fn put_among(at: usize, hint: Hint, served: &mut Vec<TargetHints>) -> Result<(), AllocError> {
    if at < served.len() {
        let mut group = served.remove(at);
        put_first(&mut group.hints, hint)?;
        served.insert(0, group)?;
    }
    Ok(())
}
