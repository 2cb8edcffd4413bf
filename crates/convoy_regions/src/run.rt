//! The run of a region.

ghost use Rattle.std.specs.Prelude.{◌≡◌, ◌<◌, ◌≤◌, ◌*◌, ◌↔◌, map, All, IfOk, IsTrue};
ghost use Rattle.convoy_draft.specs.declared.limits.TheConstants.{MOST_MULTICASTS};
ghost use Rattle.convoy_draft.specs.declared.time.Time.TheVariants.{Real};
ghost use Rattle.convoy_packets.specs.Assignment.{IsAssignment};
ghost use Rattle.convoy_packets.specs.OrderLists.{AreSmall};
ghost use Rattle.convoy_sim.specs.Delivery.{latency_of};
ghost use Rattle.convoy_intervals.specs.Boxes.{IsBox, IsIn};
ghost use Rattle.convoy_regions.specs.Stages.{IsPrecedence, stages_of};
ghost use Rattle.convoy_regions.specs.Known.{IsLow};
ghost use Rattle.convoy_regions.specs.Regions.{count_before, rank_by, run_of};

use super::known::Known;
use super::region_laws::run_is_assignment;
use super::stage::{Precedence, Stage, list_stages, stage_of};
use convoy_intervals::DelayBox;
use convoy_packets::{Instance, Order, Schedule};
use convoy_scenario::{MOST_MULTICASTS, Scenario, Time};
use convoy_sim::{MomentKind, latency};
use std::alloc::{AllocError, Global};

/// The run of the region of a box and some precedences: the schedule of all its greatest delays, in which ties
/// fall as the precedences say. Fails where memory runs out, and else never.
pub fn run_of(
    alloc: Global,
    instance: &Instance,
    delay_box: &DelayBox,
    before: &[Precedence],
) -> Result<Schedule, AllocError>
    requires inside { IsBox instance.now delay_box.now }
    requires within { All (IsPrecedence instance.now) before.now }
    ensures value { IfOk result (λ schedule. schedule
        ≡ run_of instance.now (record { ranges = delay_box.now; before = before.now })) }
    ensures inside { IfOk result (λ schedule. IsIn delay_box.now schedule) }
    ensures lawful { IfOk result (λ schedule. IsAssignment instance.now schedule) }
{
    run_is_assignment();
    run_by(alloc, instance, delay_box, before)
}

/// The same, without what follows of it.
fn run_by(
    alloc: Global,
    instance: &Instance,
    delay_box: &DelayBox,
    before: &[Precedence],
) -> Result<Schedule, AllocError>
    requires { All (IsPrecedence instance.now) before.now }
    ensures { IfOk result (λ schedule. schedule
        ≡ run_of instance.now (record { ranges = delay_box.now; before = before.now })) }
{
    let mut schedule = delay_box.greatest(alloc)?;
    if !before.is_empty() && is_real(instance.time()) {
        let ranks = ranks_by(alloc, instance.scenario(), before)?;
        schedule.set_order(Order::from_ranks(instance.scenario(), &ranks));
    }
    Ok(schedule)
}

/// The latency of that run, in ticks. The error is that memory ran out.
pub fn run_latency(
    alloc: Global,
    instance: &Instance,
    delay_box: &DelayBox,
    before: &[Precedence],
) -> Result<u32, AllocError>
    requires inside { IsBox instance.now delay_box.now }
    requires within { All (IsPrecedence instance.now) before.now }
    ensures { IfOk result (λ ticks. ticks ≡ latency_of instance.now
        (run_of instance.now (record { ranges = delay_box.now; before = before.now }))) }
{
    if before.is_empty() {
        return Ok(delay_box.greatest_latency(instance));
    }
    let schedule = run_of(alloc, instance, delay_box, before)?;
    Ok(latency(instance, &schedule))
}

/// The ranks of all stages by some precedences.
fn ranks_by(
    alloc: Global,
    scenario: &Scenario,
    before: &[Precedence],
) -> Result<Vec<u16>, AllocError>
    requires within { All (IsPrecedence scenario.now) before.now }
    ensures value { IfOk result (λ ranks. ranks.items ≡ map (rank_by before.now) (stages_of scenario.now)) }
    ensures small { IfOk result (λ ranks. AreSmall ranks.items) }
{
    let stages = list_stages(alloc, scenario)?;
    let known = Known::of(before);
    let mut ranks = Vec::with_capacity(alloc, stages.len())?;
    for stage in &stages {
        ranks.push(rank_by(&known, *stage))?;
    }
    Ok(ranks)
}

/// The rank of a stage: how many come before it.
fn rank_by(known: &Known, stage: Stage) -> u16
    requires { IsLow stage }
    ensures value { result ≡ rank_by known.now stage }
    ensures small { result ≤ 2 * MOST_MULTICASTS }
{
    let mut rank = 0;
    for message in 0..MOST_MULTICASTS {
        rank += count_before(known, stage, message);
    }
    rank
}

/// How many of the stages of a message come before a stage of the same group.
fn count_before(known: &Known, stage: Stage, message: usize) -> u16
    requires stage { IsLow stage }
    requires message { message < MOST_MULTICASTS }
    ensures value { result ≡ count_before known.now stage message }
    ensures few { result ≤ 2 }
{
    let arrival = stage_of(MomentKind::Arrival, message, stage.group);
    let commit = stage_of(MomentKind::Commit, message, stage.group);
    u16::from(known.is_before(arrival, stage)) + u16::from(known.is_before(commit, stage))
}

/// Whether time is real.
fn is_real(time: Time) -> bool
    ensures { IsTrue result ↔ (time ≡ Real) }
{
    match time {
        Time::Ticks => false,
        Time::Real => true,
    }
}
