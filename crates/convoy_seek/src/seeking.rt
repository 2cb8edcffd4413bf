ghost use Rattle.std.specs.Prelude.{◌≡◌, ◌≤◌, ◌<◌, ◌+◌, ◌/◌, ◌^◌, IfErr, IfOk};
ghost use Rattle.convoy_packets.specs.Assignment.{IsAssignment};
ghost use Rattle.convoy_seek.specs.Finds.{IsNoLower};
ghost use Rattle.convoy_seek.specs.Seeking.{IsSeeking};

use crate::chance::Chance;
use crate::seeker::Seeker;
use crate::ties::is_real;
use convoy_packets::schedule_laws::fixed_order_is_order;
use convoy_packets::{Instance, Schedule};
use convoy_sim::Record;
use std::alloc::{AllocError, Global};

/// How many simulations are kept at most, in real time, to take back what a latency does not need of an
/// order of ties.
const MOST_SPARE: u64 = 256;

/// Seeks a schedule of a great latency: answers a record of one that it has found, or the one given
/// where it has found none of a greater latency (docs/PROTOCOL.md, "Seeking"). It simulates at most
/// `budget` schedules, and ends where a record has a latency of `until` ticks or more. In real time it
/// tries orders of ties too, and keeps an eighth of the budget, at most 256 simulations, to take back what
/// the latency does not need of the best one. It finds the same for the same input.
///
/// Where memory runs out, the best record found so far comes back with the error.
pub fn seek(
    alloc: Global,
    instance: &Instance,
    known: Record,
    until: u32,
    budget: u64,
) -> Result<Record, (Record, AllocError)>
    requires scenario { known.scenario ≡ instance.now }
    ensures found { IfOk result (λ found. IsNoLower known found) }
    ensures back { IfErr result (λ refused. IsNoLower known refused.0) }
    ensures enough { until ≤ known.latency → IfOk result (λ found. found ≡ known) }
    ensures nothing_spent { budget ≡ 0 → IfOk result (λ found. found ≡ known) }
{
    if budget == 0 || until <= known.latency() {
        return Ok(known);
    }
    let (kept, tried) = match greatest_twice(alloc, instance) {
        Ok(schedules) => schedules,
        Err(error) => return Err((known, error)),
    };
    let spare = spare_of(instance, budget);
    let mut seeker = Seeker {
        best: known,
        kept,
        tried,
        left: budget - spare,
        until,
        chance: Chance::new(),
    };
    match run(alloc, instance, &mut seeker, spare) {
        Ok(()) => Ok(seeker.best),
        Err(error) => Err((seeker.best, error)),
    }
}

/// How many simulations of a budget are kept for the time after all climbs.
fn spare_of(instance: &Instance, budget: u64) -> u64
    ensures { result ≤ budget / 8 }
{
    if is_real(instance) {
        (budget / 8).min(MOST_SPARE)
    } else {
        0
    }
}

/// Seeks, and in real time then prunes the best record with those simulations that were kept.
fn run(
    alloc: Global,
    instance: &Instance,
    seeker: &mut Seeker,
    spare: u64,
) -> Result<(), AllocError>
    requires seeking { IsSeeking instance.now seeker.old }
    requires left { 0 < seeker.old.left }
    requires few { seeker.old.left + spare < 2 ^ 64 }
    ensures seeking { IsSeeking instance.now seeker.new }
    ensures rises { seeker.old.best.latency ≤ seeker.new.best.latency }
{
    seeker.run(alloc, instance)?;
    if is_real(instance) {
        seeker.left += spare;
        seeker.prune(alloc, instance)?;
    }
    Ok(())
}

/// The schedule of the greatest delays, twice.
fn greatest_twice(alloc: Global, instance: &Instance) -> Result<(Schedule, Schedule), AllocError>
    ensures kept { IfOk result (λ pair. IsAssignment instance.now pair.0) }
    ensures tried { IfOk result (λ pair. IsAssignment instance.now pair.1) }
{
    fixed_order_is_order();
    let table = instance.table();
    Ok((
        Schedule::greatest(alloc, table)?,
        Schedule::greatest(alloc, table)?,
    ))
}
