//! How late a target is.

ghost use Rattle.std.specs.Prelude.{◌≡◌, Some, IfOk, IfSome, IsTrue};
ghost use Rattle.convoy_around.specs.Around.{is_span};
ghost use Rattle.convoy_survey.specs.Findings.{least_of, most_of};
ghost use Rattle.convoy_best_order.specs.Orders.{IsOrder};
ghost use Rattle.convoy_best_order.specs.Spreads.{IsSpread, IsSpreadIn};
ghost use Rattle.convoy_best_order.specs.Targets.{MayBeTarget};

use super::listing::listed;
use super::spread::Spread;
use super::target::Target;
use convoy_branch::Options;
use convoy_commands::Watch;
use convoy_packets::Instance;
use convoy_scenario::Scenario;
use convoy_survey::{Finding, find, scenario_at};
use std::alloc::{AllocError, Global};
use std::sync::Wait;
use std::thread::Threads;

/// How late a target is, around it where a span is given, where the groups of a scenario are listed in that order.
/// Fails where memory runs out, and else never.
pub(crate) fn spread_in<R: Threads + Wait + Sync, W: Watch + Sync>(
    rt: &R,
    alloc: Global,
    span: Option<u32>,
    scenario: &Scenario,
    order: &[usize],
    target: Target,
    options: &Options,
    watch: &W,
) -> Result<Spread, AllocError>
    requires target { MayBeTarget scenario.now target }
    requires span { IfSome span (λ n. IsTrue (is_span n)) }
    requires order { IsOrder scenario.now order.now }
    ensures { IfOk result (IsSpreadIn options.now span scenario.now order.now target) }
{
    let asked = scenario_at(alloc, span, scenario, target.message, target.group)?;
    let instance = listed(alloc, &asked, order)?;
    spread(rt, alloc, instance, options, watch)
}

/// How late the target of a scenario is. Fails where memory runs out, and else never.
pub(crate) fn spread<R: Threads + Wait + Sync, W: Watch + Sync>(
    rt: &R,
    alloc: Global,
    scenario: Scenario,
    options: &Options,
    watch: &W,
) -> Result<Spread, AllocError>
    ensures { IfOk result (IsSpread options.now scenario) }
{
    let instance = Instance::of(alloc, scenario)?;
    let finding = find(rt, alloc, &instance, options, watch)?;
    told(finding)
}

/// The least and the most that were found.
fn told(finding: Finding) -> Result<Spread, AllocError>
    ensures least { IfOk result (λ spread. least_of finding ≡ Some spread.least) }
    ensures most { IfOk result (λ spread. most_of finding ≡ Some spread.most) }
{
    match finding {
        Finding::Greatest { latency, .. } => Ok(Spread {
            least: latency,
            most: latency,
        }),
        Finding::Open { least, most, .. } => Ok(Spread { least, most }),
        Finding::OutOfMemory => Err(AllocError),
    }
}
