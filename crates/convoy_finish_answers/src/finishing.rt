//! The greatest latency where replicas have to answer.

ghost use Rattle.std.specs.Prelude.{◌≤◌, IfOk};
ghost use Rattle.convoy_packets.specs.Assignment.{IsAssignment};
ghost use Rattle.convoy_sim.specs.Delivery.{latency_of};
ghost use Rattle.convoy_finish_answers.specs.AcceptedLatencies.{IsFinishBetween};
ghost use Rattle.convoy_finish_answers.specs.FinishProofs.{IsSought};

use convoy_finishes::finish_laws::latest_finishes;
use convoy_finishes::{Ways, climb_finishes, closes_finishing, finish_latency, least_closed};
use convoy_packets::{Instance, Schedule};
use convoy_sim::protocol_laws::delivery_law;
use std::alloc::{AllocError, Global};

/// What the greatest latency is where replicas have to answer, in ticks: at least that of some run, and at most what no
/// run exceeds.
#[derive(Clone, Copy)]
pub struct FinishLatency {
    pub least: u32,
    pub most: u32,
}

/// A run in which messages are finished late, and what none exceeds, in ticks.
#[derive(Drop)]
pub(crate) struct SoughtFinish {
    /// The schedule of the run.
    pub schedule: Schedule,
    /// Its latency.
    pub least: u32,
    /// A latency that no run exceeds.
    pub most: u32,
}

/// What the greatest latency of an instance's target is where each group is replicated by white box and a packet
/// between the leader of a group and its replicas takes at most as many ticks as are listed by the group's number
/// (docs/PROTOCOL.md, "Replicated groups").
/// Its least is sought from a schedule of the instance, by so many steps at most where some run may be later than that
/// allows, and is no less than the latency of that schedule without replicas. Fails where memory runs out, and else
/// never.
pub fn finish_between(
    alloc: Global,
    instance: &Instance,
    replicas: &[u16],
    start: Schedule,
    steps: u64,
) -> Result<FinishLatency, AllocError>
    requires assigned { IsAssignment instance.now start }
    ensures between { IfOk result (λ found. IsFinishBetween instance.now replicas.now found.least found.most) }
    ensures no_sooner { IfOk result (λ found. latency_of instance.now start ≤ found.least) }
{
    let ways = Ways::white_box(alloc, instance.scenario(), replicas)?;
    let sought = seek_finish(alloc, instance, &ways, start, steps)?;
    Ok(FinishLatency {
        least: sought.least,
        most: sought.most,
    })
}

/// What is known once the greatest latency of an instance was sought where its messages are finished by these ways: as
/// [`finish_between`] says, with the schedule of a run that has the least. Fails where memory runs out, and else never.
pub(crate) fn seek_finish(
    alloc: Global,
    instance: &Instance,
    ways: &Ways,
    start: Schedule,
    steps: u64,
) -> Result<SoughtFinish, AllocError>
    requires assigned { IsAssignment instance.now start }
    ensures sought { IfOk result (IsSought instance.now ways.now) }
    ensures no_sooner { IfOk result (λ found. latency_of instance.now start ≤ found.least) }
{
    delivery_law();
    latest_finishes();
    let _scenario = instance.scenario();
    let latency = finish_latency(alloc, instance, &start, ways)?;
    if closes_finishing(alloc, instance, ways, latency)? {
        return Ok(SoughtFinish {
            schedule: start,
            least: latency,
            most: latency,
        });
    }
    let (schedule, least) = climb_finishes(alloc, instance, ways, start, steps)?;
    let most = least_closed(alloc, instance, ways, least)?;
    Ok(SoughtFinish {
        schedule,
        least,
        most,
    })
}
