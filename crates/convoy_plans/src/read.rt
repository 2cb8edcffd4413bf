ghost use Rattle.std.specs.Prelude.{◌≡◌, IfOk};
ghost use Rattle.convoy_draft.specs.declared.fault.ScenarioFault.TheVariants.{Memory};
ghost use Rattle.convoy_scenario.specs.Memory.{IsUnlessMemory};
ghost use Rattle.convoy_toml.specs.Deadlines.{deadlines_of_written};
ghost use Rattle.convoy_toml.specs.Times.{bundles_of, draft_of_written, tick_of};
ghost use Rattle.convoy_plans.specs.Plans.{IsPlan};
ghost use Rattle.convoy_plans.specs.Shape.{listed, of_scenario};
ghost use Rattle.convoy_plans.specs.Reading.{fault_of, first_placement, judged, need_told, plan_of_text, plan_of_written};

use super::checks::check;
use super::fault::PlanFault;
use super::making::plan_in;
use super::numbers::housed_of;
use super::placements::scenario_at;
use super::plan::{Plan, number_at};
use super::shape::plan_of_table;
use super::told::is_told;
use super::written::WrittenPlan;
use convoy_scenario::{DraftScenario, Duration, Scenario, ScenarioFault, TimeUnit};
use convoy_toml::{
    Asked, Bundle, WrittenScenario, bundles_of, deadlines_of_written, draft_of_written, read_table,
    tick_of, unit_of_table,
};
use std::alloc::{AllocError, Global};

/// Reads a plan text, which is TOML (docs/FORMATS.md, "Plan text").
///
/// Of a faulty text the first fault is told: of its shape, of its times, of its sites and names, of its deadlines, and then
/// of its scenarios, whichever placement would meet it; where memory runs out, `ScenarioFault::Memory` is the answer, and
/// says nothing of the text. That some placement keeps apart what is to be apart is not asked.
pub fn read_plan(alloc: Global, asked: &Asked, text: &[u8]) -> Result<Plan, PlanFault>
    ensures value { IsUnlessMemory (PlanFault.Scenario Memory) (plan_of_text asked.now text.now) result }
    ensures lawful { IfOk result (λ plan. IsPlan plan) }
{
    let table = read_table(alloc, text)?;
    let unit = unit_of_table(&table);
    let written = plan_of_table(alloc, &table, &asked.target)?;
    plan_of_written(alloc, asked, unit, written)
}

/// The plan that is written so.
fn plan_of_written(
    alloc: Global,
    asked: &Asked,
    unit: Option<TimeUnit>,
    written: WrittenPlan,
) -> Result<Plan, PlanFault>
    ensures value { IsUnlessMemory (PlanFault.Scenario Memory) (plan_of_written asked.now unit written) result }
    ensures lawful { IfOk result (λ plan. IsPlan plan) }
{
    let draft = draft_in(alloc, &written.scenario)?;
    let tick = tick_in(alloc, &written.scenario)?;
    let bundles = bundles_in(alloc, &tick, &written.scenario)?;
    let housed = housed_of(alloc, &written)?;
    check(alloc, &written, &draft, &housed)?;
    let deadlines = deadlines_in(alloc, asked, &written.scenario)?;
    let plan = plan_in(alloc, written, tick, unit, &bundles, deadlines, housed)?;
    judged(alloc, plan)
}

/// The draft of what is written.
fn draft_in(alloc: Global, scenario: &WrittenScenario) -> Result<DraftScenario, PlanFault>
    ensures { IsUnlessMemory (PlanFault.Scenario Memory) (of_scenario (draft_of_written scenario.now)) result }
{
    match draft_of_written(alloc, scenario) {
        Ok(draft) => Ok(draft),
        Err(placed) => Err(PlanFault::from(ScenarioFault::from(placed))),
    }
}

/// The length of a tick, if it has one.
fn tick_in(alloc: Global, scenario: &WrittenScenario) -> Result<Option<Duration>, PlanFault>
    ensures { IsUnlessMemory (PlanFault.Scenario Memory) (of_scenario (tick_of scenario.now)) result }
{
    match tick_of(alloc, scenario) {
        Ok(tick) => Ok(tick),
        Err(fault) => Err(PlanFault::from(fault)),
    }
}

/// The tables of links in ticks.
fn bundles_in(
    alloc: Global,
    tick: &Option<Duration>,
    scenario: &WrittenScenario,
) -> Result<Vec<Bundle>, PlanFault>
    ensures { IsUnlessMemory (PlanFault.Scenario Memory)
        (of_scenario (bundles_of tick.now scenario.now.links)) (listed result) }
{
    match bundles_of(alloc, length_of(tick), &scenario.links) {
        Ok(bundles) => Ok(bundles),
        Err(placed) => Err(PlanFault::from(ScenarioFault::from(placed))),
    }
}

/// The deadlines of the messages.
fn deadlines_in(
    alloc: Global,
    asked: &Asked,
    scenario: &WrittenScenario,
) -> Result<Vec<Option<u32>>, PlanFault>
    ensures { IsUnlessMemory (PlanFault.Scenario Memory)
        (of_scenario (deadlines_of_written asked.now.at_most scenario.now)) (listed result) }
{
    match deadlines_of_written(alloc, asked.at_most, scenario) {
        Ok(deadlines) => Ok(deadlines),
        Err(placed) => Err(PlanFault::from(ScenarioFault::from(placed))),
    }
}

/// The nanoseconds of a tick, if there is one.
fn length_of(tick: &Option<Duration>) -> Option<u64>
    ensures { result ≡ tick.now }
{
    match tick {
        Some(tick) => Some(tick.nanoseconds()),
        None => None,
    }
}

/// The plan with these numbers, if its scenarios have no fault.
fn judged(alloc: Global, plan: Plan) -> Result<Plan, PlanFault>
    ensures value { IsUnlessMemory (PlanFault.Scenario Memory) (judged plan) result }
    ensures lawful { IfOk result (λ plan. IsPlan plan) }
{
    need_told(&plan)?;
    let first = first_placement(alloc, &plan)?;
    fault_of(scenario_at(alloc, &plan, &first))?;
    Ok(plan)
}

/// Ranges have to be written wherever a packet may travel.
fn need_told(plan: &Plan) -> Result<(), PlanFault>
    ensures { result ≡ need_told plan.now }
{
    if is_told(plan) {
        Ok(())
    } else {
        Err(PlanFault::NoRange)
    }
}

/// Each group at the first of its sites.
fn first_placement(alloc: Global, plan: &Plan) -> Result<Vec<usize>, AllocError>
    ensures { IfOk result (λ placement. placement.items ≡ first_placement plan.now) }
{
    let mut placement = Vec::new(alloc);
    for sites in &plan.housed {
        placement.push(number_at(&sites.items, 0))?;
    }
    Ok(placement)
}

/// The fault of a scenario, but that a range is not written, which is asked of all placements.
fn fault_of(made: Result<Scenario, ScenarioFault>) -> Result<(), PlanFault>
    ensures { result ≡ fault_of made }
{
    match made {
        Ok(_) => Ok(()),
        Err(ScenarioFault::NoRange) => Ok(()),
        Err(fault) => Err(PlanFault::Scenario(fault)),
    }
}
