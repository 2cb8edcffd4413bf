//! A number that no latency exceeds through outages.

ghost use Rattle.std.specs.Prelude.{◌≡◌, ◌+◌, ◌≤◌, IfOk, min};
ghost use Rattle.convoy_draft.specs.declared.time.Time.TheVariants.{Real};
ghost use Rattle.convoy_outage_runs.specs.Compressed.{shortest_travel};
ghost use Rattle.convoy_outage_runs.specs.OutageRuns.{IsUpperOfRuns};
ghost use Rattle.convoy_outage_answers.specs.Latencies.{outage_ceiling_of};

use convoy_branch::Options;
use convoy_commands::Watch;
use convoy_outage_runs::outage_run_laws::{
    compressed_runs_are_as_late, runs_are_within_outage_ceiling,
};
use convoy_outage_runs::{compressed, saved_ticks, shortest_travel};
use convoy_outages::{Span, outage_ceiling};
use convoy_packets::Instance;
use convoy_scenario::Time;
use convoy_survey::find;
use std::alloc::{AllocError, Global};
use std::sync::Wait;
use std::thread::Threads;

/// A number of ticks that the latency of an instance's target exceeds in no run through outages that last so long in all
/// (docs/PROTOCOL.md, "Runs through outages"): the ceiling through outages, or in real time what a search finds of a
/// scenario with compressed outages, where that is less. Outages are compressed in two ways, one that lets each packet
/// take all of them longer, and one by which they cost each packet the least. Each search goes as
/// [`latency_answer`](convoy_commands::latency_answer) does with these options, and is watched. Fails where memory runs
/// out, and else never.
pub fn outage_latency<R: Threads + Wait + Sync, W: Watch + Sync>(
    rt: &R,
    alloc: Global,
    instance: &Instance,
    span: Span,
    options: &Options,
    watch: &W,
) -> Result<u32, AllocError>
    ensures safe { IfOk result (IsUpperOfRuns span instance.now) }
    ensures low { IfOk result (λ most. most ≤ outage_ceiling_of span instance.now) }
{
    let ceiling = ceiling_of(instance, span);
    match instance.time() {
        Time::Ticks => Ok(ceiling),
        Time::Real => narrowed(rt, alloc, instance, span, ceiling, options, watch),
    }
}

/// The ceiling of an instance's target through outages.
fn ceiling_of(instance: &Instance, span: Span) -> u32
    ensures value { result ≡ outage_ceiling_of span instance.now }
    ensures safe { IsUpperOfRuns span instance.now result }
{
    runs_are_within_outage_ceiling();
    let scenario = instance.scenario();
    let (message, group) = (scenario.target_message(), scenario.target_group());
    outage_ceiling(scenario, span, message, group)
}

/// The least of a number that no latency exceeds in such runs and those that two scenarios with compressed outages tell.
fn narrowed<R: Threads + Wait + Sync, W: Watch + Sync>(
    rt: &R,
    alloc: Global,
    instance: &Instance,
    span: Span,
    known: u32,
    options: &Options,
    watch: &W,
) -> Result<u32, AllocError>
    requires real { instance.now.time ≡ Real }
    requires safe { IsUpperOfRuns span instance.now known }
    ensures safe { IfOk result (IsUpperOfRuns span instance.now) }
    ensures low { IfOk result (λ most. most ≤ known) }
{
    let greatest = shortest_travel(instance);
    let known = narrowed_by(
        rt, alloc, instance, span, greatest, 1, known, options, watch,
    )?;
    if greatest == 1 {
        return Ok(known);
    }
    narrowed_by(
        rt, alloc, instance, span, greatest, greatest, known, options, watch,
    )
}

/// The lesser of a number that no latency exceeds in such runs and the one that the scenario tells in which outages are
/// compressed by a factor, where that is one and the scenario is within the limits.
fn narrowed_by<R: Threads + Wait + Sync, W: Watch + Sync>(
    rt: &R,
    alloc: Global,
    instance: &Instance,
    span: Span,
    greatest: u16,
    factor: u16,
    known: u32,
    options: &Options,
    watch: &W,
) -> Result<u32, AllocError>
    requires real { instance.now.time ≡ Real }
    requires greatest { greatest ≡ shortest_travel instance.now }
    requires safe { IsUpperOfRuns span instance.now known }
    ensures safe { IfOk result (IsUpperOfRuns span instance.now) }
    ensures low { IfOk result (λ most. most ≤ known) }
{
    compressed_runs_are_as_late();
    if factor < 1 || factor > greatest {
        return Ok(known);
    }
    let Some(other) = compressed(alloc, instance.scenario(), factor, span)? else {
        return Ok(known);
    };
    let other = Instance::of(alloc, other)?;
    // A scenario is well formed.
    let _time = other.time();
    let finding = find(rt, alloc, &other, options, watch)?;
    match finding.most() {
        Some(most) => Ok(lesser(known, most, saved_ticks(factor, span))),
        None => Ok(known),
    }
}

/// The lesser of a number and the sum of two.
fn lesser(known: u32, most: u32, saved: u32) -> u32
    ensures { result ≡ min known (most + saved) }
{
    known.min(most.saturating_add(saved))
}
