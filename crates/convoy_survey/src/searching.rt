ghost use Rattle.std.specs.Prelude.{◌≡◌, IfOk, IfSome, IsTrue};
ghost use Rattle.convoy_around.specs.Around.{is_span};
ghost use Rattle.convoy_commands.specs.Searches.{IsEnd};
ghost use Rattle.convoy_survey.specs.Findings.{IsFinding, MayAnswer, scenario_at};
ghost use Rattle.convoy_survey.specs.Surveys.{IsTarget};

use super::cause::cause_of;
use super::finding::Finding;
use convoy_around::around_at;
use convoy_branch::{Options, Outcome};
use convoy_commands::{Watch, search_instance};
use convoy_packets::Instance;
use convoy_scenario::Scenario;
use std::alloc::{AllocError, Global};
use std::sync::Wait;
use std::thread::Threads;

/// What a search finds of the latency of an instance's target, as [`latency_answer`](convoy_commands::latency_answer)
/// does with these options: by their limit of tickets, by their bounds or both ways, and with their number of
/// workers. The search is watched. Fails where memory runs out, and else never.
pub fn find<R: Threads + Wait + Sync, W: Watch + Sync>(
    rt: &R,
    alloc: Global,
    instance: &Instance,
    options: &Options,
    watch: &W,
) -> Result<Finding, AllocError>
    ensures { IfOk result (IsFinding options.now instance.now) }
{
    let outcome = search_instance(rt, alloc, instance, options, watch)?;
    finding_of(alloc, instance, options, &outcome)
}

/// What a search finds of the latency of a message at a group that it goes to, around that target where a span is
/// given. Fails where memory runs out, and else never.
pub(crate) fn find_target<R: Threads + Wait + Sync, W: Watch + Sync>(
    rt: &R,
    alloc: Global,
    span: Option<u32>,
    scenario: &Scenario,
    message: usize,
    group: usize,
    options: &Options,
    watch: &W,
) -> Result<Finding, AllocError>
    requires target { IsTarget scenario.now message group }
    requires span { IfSome span (λ n. IsTrue (is_span n)) }
    ensures { MayAnswer options.now span scenario.now message group result }
{
    let asked = scenario_at(alloc, span, scenario, message, group)?;
    let instance = Instance::of(alloc, asked)?;
    find(rt, alloc, &instance, options, watch)
}

/// The scenario in which the latency of a message at a group that it goes to is asked, in memory of its own: the same
/// with that target, or where a span is given the one around it. Fails where memory runs out, and else never.
pub fn scenario_at(
    alloc: Global,
    span: Option<u32>,
    scenario: &Scenario,
    message: usize,
    group: usize,
) -> Result<Scenario, AllocError>
    requires target { IsTarget scenario.now message group }
    requires span { IfSome span (λ n. IsTrue (is_span n)) }
    ensures { IfOk result (λ other. other ≡ scenario_at span scenario.now message group) }
{
    match span {
        Some(span) => around_at(alloc, scenario, span, message, group),
        None => scenario.with_target(message, group),
    }
}

/// What was found of an instance by a search that ended so.
fn finding_of(
    alloc: Global,
    instance: &Instance,
    options: &Options,
    outcome: &Outcome,
) -> Result<Finding, AllocError>
    requires { IsEnd options.now instance.now outcome.now }
    ensures { IfOk result (IsFinding options.now instance.now) }
{
    match outcome {
        Outcome::Proved { certificate, .. } => {
            let cause = cause_of(alloc, instance, certificate.schedule())?;
            Ok(Finding::Greatest {
                latency: certificate.latency(),
                cause,
                nodes: certificate.nodes().len(),
            })
        }
        Outcome::Open { best, upper, .. } => {
            let cause = cause_of(alloc, instance, best.schedule())?;
            Ok(Finding::Open {
                least: best.latency(),
                most: *upper,
                cause,
            })
        }
    }
}
