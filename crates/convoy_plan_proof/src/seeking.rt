//! Schedules in which a target is late: sought by some simulations, or found by a search.

ghost use Rattle.std.specs.Prelude.{◌≡◌, ◌<◌, length};

use super::claim::Claim;
use convoy_best_order::Target;
use convoy_best_plan::is_past_by;
use convoy_branch::Outcome;
use convoy_commands::{Watch, search_instance};
use convoy_packets::schedule_laws::fixed_order_is_order;
use convoy_packets::{Instance, Schedule};
use convoy_seek::seek;
use convoy_sim::Record;
use std::alloc::{AllocError, Global};
use std::sync::Wait;
use std::thread::Threads;

/// How late a target has to be at least in a placement of that total, so that it excludes the placement; as late as may be where
/// that is too late to count.
fn latency_needed(claim: &Claim, target: Target, total: u64) -> u32 {
    let floor = claim.floor;
    let more = u64::from(total < floor.ties);
    let limit = u64::from(target.deadline.unwrap_or(0));
    let latency = u64::from(floor.least.latency) + more + limit;
    u32::try_from(latency.saturating_sub(u64::from(floor.least.limit))).unwrap_or(u32::MAX)
}

/// A schedule of an instance in which the target is so late that it excludes a placement of that total, if so many simulations
/// find one. Fails where memory runs out, and else never.
pub(crate) fn sought(
    alloc: Global,
    claim: &Claim,
    instance: &Instance,
    target: Target,
    total: u64,
    simulations: u64,
) -> Result<Option<Schedule>, AllocError> {
    fixed_order_is_order();
    let until = latency_needed(claim, target, total);
    let greatest = Schedule::greatest(alloc, instance.table())?;
    let known = Record::of(instance, greatest);
    match seek(alloc, instance, known, until, simulations) {
        Ok(found) => of_record(claim, target, total, &found),
        Err((_, error)) => Err(error),
    }
}

/// The same, if a search finds one.
pub(crate) fn searched<R: Threads + Wait + Sync, W: Watch + Sync>(
    rt: &R,
    alloc: Global,
    claim: &Claim,
    instance: &Instance,
    target: Target,
    total: u64,
    watch: &W,
) -> Result<Option<Schedule>, AllocError> {
    match search_instance(rt, alloc, instance, claim.options, watch)? {
        Outcome::Proved { certificate, .. } => {
            if is_past_by(target, claim.floor, total, certificate.latency()) {
                return Ok(Some(certificate.schedule().copy()?));
            }
            Ok(None)
        }
        Outcome::Open { best, .. } => of_record(claim, target, total, &best),
    }
}

/// The schedule of a record, if the target is so late in it.
fn of_record(
    claim: &Claim,
    target: Target,
    total: u64,
    found: &Record,
) -> Result<Option<Schedule>, AllocError> {
    if is_past_by(target, claim.floor, total, found.latency()) {
        return Ok(Some(found.schedule().copy()?));
    }
    Ok(None)
}
