ghost use Rattle.std.specs.Prelude.{ℕ, ◌≤◌, IfOk};
ghost use Rattle.convoy_library.specs.BothWays.{IsOutcomeBothWays};
ghost use Rattle.convoy_library.specs.Scenario.{Scenario};
ghost use Rattle.convoy_library.specs.Tickets.{most_tickets};
ghost use Rattle.convoy_library_tests.specs.Answers.{IsAnswer};

use super::fault::Fault;
use convoy_library::branch::{Limit, NoGate, Outcome, search_both_ways};
use convoy_library::packets::schedule_laws::fixed_order_is_order;
use convoy_library::packets::{Instance, Schedule};
use convoy_library::share;
use convoy_library::sim::Record;
use std::alloc::{AllocError, Global};
use std::sync::Wait;
use std::thread::Threads;

/// What a search tells of the greatest latency of a scenario, in ticks.
#[derive(Clone, Copy, PartialEq, Eq)]
pub enum Answer {
    /// It is this one.
    Exactly(u32),
    /// It is `least` or more, which some schedule has, and at most `most`.
    Between { least: u32, most: u32 },
}

/// The greatest latency of a scenario, by a search both ways that spends at most `limit` tickets; where
/// it does not end with them, two numbers between which the latency lies.
pub fn greatest_latency(
    alloc: Global,
    instance: &Instance,
    limit: u64,
) -> Result<Answer, AllocError>
    ensures { IfOk result (IsAnswer instance.now) }
{
    fixed_order_is_order();
    let opening = Record::of(instance, Schedule::least(alloc, instance.table())?);
    let limit = Limit::of(limit);
    let outcome = search_both_ways(alloc, instance, opening, limit, &NoGate)?;
    Ok(answer_of(&outcome))
}

/// The same by a search of so many workers, each in a thread of its own.
pub fn greatest_latency_by<R: Threads + Wait + Sync>(
    rt: &R,
    alloc: Global,
    instance: &Instance,
    workers: u32,
    limit: u64,
) -> Result<Answer, Fault>
    requires workers { (1 ≤ workers) × (workers ≤ 16) }
    requires tickets { (1 ≤ limit) × (limit ≤ most_tickets) }
    ensures { IfOk result (IsAnswer instance.now) }
{
    fixed_order_is_order();
    let opening = Record::of(instance, Schedule::least(alloc, instance.table())?);
    let limit = Limit::of(limit);
    let outcome = share::search_both_ways(rt, alloc, instance, opening, workers, limit, &NoGate)?;
    Ok(answer_of(&outcome))
}

/// What the outcome of a search both ways tells.
fn answer_of(outcome: &Outcome) -> Answer
    ensures { (scenario : Scenario) (workers plain leads : ℕ) →
        IsOutcomeBothWays scenario workers plain leads outcome.now → IsAnswer scenario result }
{
    match outcome {
        Outcome::Proved { certificate, .. } => Answer::Exactly(certificate.latency()),
        Outcome::Open { best, upper, .. } => Answer::Between {
            least: best.latency(),
            most: *upper,
        },
    }
}
