//! Worst runs, by what `analyse`, `explain` and `draw` answer.

ghost use Rattle.std.specs.Prelude.{◌≡◌, IfOk};
ghost use Rattle.convoy_report.specs.Reports.{at_target};
ghost use Rattle.convoy_report.specs.Runs.{GivesAccepted, GivesRun, GivesRuns, GivesShown};

use super::report::{Run, Shown};
use convoy_branch::Options;
use convoy_commands::{Asking, Done, Fault, Watch, analyse_answer, ask};
use convoy_scenario::naming::{group_name, message_name};
use convoy_scenario::{Name, Scenario, TimeUnit};
use convoy_toml::{Asked, TargetKey};
use std::alloc::{AllocError, Global};
use std::sync::Wait;
use std::thread::Threads;

/// The worst runs of the scenario of a text at these targets, in their order. The faults are those of
/// [`analyse_answer`].
pub(crate) fn runs_of<R: Threads + Wait + Sync, W: Watch + Sync>(
    rt: &R,
    alloc: Global,
    asked: &Asked,
    options: &Options,
    text: &[u8],
    scenario: &Scenario,
    targets: &[(usize, usize)],
    watch: &W,
) -> Result<Vec<Run>, Fault>
    ensures { GivesRuns asked.now options.now text.now scenario.now targets.now result }
{
    let mut runs = Vec::new(alloc);
    for target in targets {
        let run = run_of(rt, alloc, asked, options, text, scenario, *target, watch)?;
        match runs.push(run) {
            Ok(()) => {}
            Err(_) => return Err(Fault::Memory),
        }
    }
    Ok(runs)
}

/// The worst run at a target.
fn run_of<R: Threads + Wait + Sync, W: Watch + Sync>(
    rt: &R,
    alloc: Global,
    asked: &Asked,
    options: &Options,
    text: &[u8],
    scenario: &Scenario,
    target: (usize, usize),
    watch: &W,
) -> Result<Run, Fault>
    ensures { GivesRun asked.now options.now text.now scenario.now target result }
{
    let (message, group) = target;
    let asked = at_target(alloc, asked, scenario, message, group)?;
    let found = analyse_answer(rt, alloc, &asked, text, options, watch)?;
    let shown = shown_of(alloc, options.unit(), found.text)?;
    Ok(Run {
        message,
        group,
        shown,
    })
}

/// The same is asked, of that message at that group.
fn at_target(
    alloc: Global,
    asked: &Asked,
    scenario: &Scenario,
    message: usize,
    group: usize,
) -> Result<Asked, AllocError>
    ensures { IfOk result (λ other. other ≡ at_target asked.now scenario.now message group) }
{
    let message = Name::new(alloc, message_name(scenario, message))?;
    let group = Name::new(alloc, group_name(scenario, group))?;
    Ok(Asked {
        target: TargetKey::Named { message, group },
        at_most: asked.at_most,
        around: asked.around,
        case: asked.case,
        accept: asked.accept,
    })
}

/// What is shown of a run of which that was found.
fn shown_of(alloc: Global, unit: Option<TimeUnit>, found: Vec<u8>) -> Result<Shown, Fault>
    ensures { GivesShown unit found.items result }
{
    let Some(explanation) = accepted(alloc, Asking::Explain(unit), &found)? else {
        return Ok(Shown::Found(found));
    };
    let Some(image) = accepted(alloc, Asking::Draw(unit), &found)? else {
        return Ok(Shown::Found(found));
    };
    Ok(Shown::Explained { explanation, image })
}

/// What is answered for a certificate that is accepted; none for what is none such.
fn accepted(alloc: Global, asking: Asking, found: &[u8]) -> Result<Option<Vec<u8>>, Fault>
    ensures { GivesAccepted asking found.now result }
{
    let Ok(answer) = ask(alloc, asking, None, found) else {
        return Err(Fault::Memory);
    };
    match answer.done {
        Done::Fine => Ok(Some(answer.text)),
        Done::Open
        | Done::Beyond
        | Done::Faulty
        | Done::Refused(_)
        | Done::PlanRefused
        | Done::WorkflowRefused
        | Done::FinishRefused
        | Done::Differs(_)
        | Done::Departs
        | Done::NotChecked => Ok(None),
    }
}
