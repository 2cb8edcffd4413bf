//! One change, tried.

ghost use Rattle.std.specs.Prelude.{◌≡◌, IfOk};
ghost use Rattle.convoy_scenario.specs.Memory.{IsUnlessMemory};
ghost use Rattle.convoy_what_if.specs.Changes.{changed};
ghost use Rattle.convoy_what_if.specs.Tries.{MayAnswer, MayAnswerBy, MayTry, TellsFound, TellsMemory, name_in};
ghost use denote.Ref.{Bor};

use super::drafting;
use super::kinds::Change;
use super::tried::{Searched, Tried};
use convoy_branch::Options;
use convoy_commands::{Fault, Watch};
use convoy_draft::Name;
use convoy_packets::Instance;
use convoy_scenario::naming::message_name;
use convoy_scenario::{Scenario, ScenarioFault};
use convoy_survey::{Finding, find};
use std::alloc::{AllocError, Global};
use std::sync::Wait;
use std::thread::Threads;

/// Searches the scenario that a change makes. Fails with the fault of a change that makes none, and where memory
/// runs out with `ScenarioFault::Memory`.
pub(crate) fn search_change<R: Threads + Wait + Sync, W: Watch + Sync>(
    rt: &R,
    alloc: Global,
    scenario: &Scenario,
    change: Change,
    options: &Options,
    watch: &W,
) -> Result<Searched, ScenarioFault>
    ensures { MayAnswer options.now scenario.now change result }
{
    let instance = changed_instance(alloc, scenario, change)?;
    let finding = find(rt, alloc, &instance, options, watch)?;
    Ok(Searched { instance, finding })
}

/// The instance of the scenario that is changed so.
fn changed_instance(
    alloc: Global,
    scenario: &Scenario,
    change: Change,
) -> Result<Instance, ScenarioFault>
    ensures { IsUnlessMemory ScenarioFault.Memory (changed scenario.now change) result }
{
    let other = drafting::change(alloc, scenario, change)?;
    Ok(Instance::of(alloc, other)?)
}

/// The row of a change that is tried by `search`: what that answers, and that memory ran out just where it answers
/// so. Fails with the fault that it answers else, and with `Fault::Memory` where there is no memory for the row.
pub(crate) fn try_change<W, F: Fn(Change, &W) -> Result<Searched, ScenarioFault>>(
    alloc: Global,
    change: Change,
    watch: &W,
    search: &F,
) -> Result<Tried, Fault>
    requires { (watch : Bor W) → F.pre search.now change watch }
    ensures { MayTry (MayAnswerBy (F.post search.now)) change result }
{
    match search(change, watch) {
        Ok(searched) => Ok(row_of(alloc, change, &searched)?),
        Err(ScenarioFault::Memory) => Ok(row_without(change)),
        Err(cause) => Err(Fault::Scenario(cause)),
    }
}

/// The row of a change, by what was found in the scenario that it makes.
fn row_of(alloc: Global, change: Change, searched: &Searched) -> Result<Tried, AllocError>
    ensures change { IfOk result (λ row. row.change ≡ change) }
    ensures told { IfOk result (λ row. TellsFound row searched.now) }
{
    let (finding, scenario) = (searched.finding, searched.instance.scenario());
    Ok(Tried {
        change,
        finding,
        rival: name_in(alloc, scenario, finding.rival())?,
        tied: name_in(alloc, scenario, finding.tied())?,
    })
}

/// The name of a message, if there is one.
fn name_in(
    alloc: Global,
    scenario: &Scenario,
    message: Option<usize>,
) -> Result<Option<Name>, AllocError>
    ensures { IfOk result (λ name. name ≡ name_in scenario.now message) }
{
    match message {
        Some(message) => Ok(Some(Name::new(alloc, message_name(scenario, message))?)),
        None => Ok(None),
    }
}

/// The row of a change for which memory ran out.
fn row_without(change: Change) -> Tried
    ensures change { result.change ≡ change }
    ensures told { TellsMemory result }
{
    Tried {
        change,
        finding: Finding::OutOfMemory,
        rival: None,
        tied: None,
    }
}
