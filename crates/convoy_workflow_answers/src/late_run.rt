ghost use Rattle.std.specs.Prelude.{◌<◌, length, IfOk};
ghost use Rattle.convoy_causes.specs.Causes.{AreCauses};
ghost use Rattle.convoy_commands.specs.Replies.{SaysUnlessMemory, reply_of};
ghost use Rattle.convoy_workflow_answers.specs.LateRuns.{IsRunTold, LateRunSays};

use super::seeking::least_schedule;
use convoy_branch::DEFAULT_SIMULATIONS;
use convoy_causes::{Cause, climb_causes};
use convoy_commands::{Answer, Done, Fault};
use convoy_packets::Instance;
use convoy_toml::Asked;
use convoy_toml_writer::write_toml;
use convoy_workflows::read_workflow;
use std::alloc::{AllocError, Global};

/// The scenario of a workflow text, where that is asked, with the schedule of a late run in which messages follow their
/// causes, as a scenario text: windows hold all runs of the workflow, and say nothing of what follows what. The run is
/// the latest that is found by the usual number of simulations; nothing is written, and the answer is open, where none
/// is. The faults are those of [`read_workflow`], and `Fault::Memory`.
pub fn late_run_answer(alloc: Global, asked: &Asked, text: &[u8]) -> Result<Answer, Fault>
    ensures { SaysUnlessMemory (LateRunSays asked.now) text.now (reply_of result) }
{
    let workflow = read_workflow(alloc, text, asked)?;
    let instance = Instance::of(alloc, workflow.scenario)?;
    let (done, told) = run_told(alloc, &instance, &workflow.causes, workflow.origin)?;
    Ok(Answer::about(done, told, instance.into_scenario(), workflow.plain))
}

/// What is written of a late run of an instance in which messages follow their causes, and how the command ends.
fn run_told(
    alloc: Global,
    instance: &Instance,
    causes: &[Cause],
    origin: usize,
) -> Result<(Done, Vec<u8>), AllocError>
    requires causes { AreCauses instance.now causes.now }
    requires origin { origin < length instance.now.multicasts }
    ensures { IfOk result (λ told. IsRunTold
        (record { scenario = instance.now; causes = causes.now; origin = origin }) told.0 told.1.items) }
{
    let start = least_schedule(alloc, instance)?;
    let best = climb_causes(alloc, instance, causes, origin, start, DEFAULT_SIMULATIONS)?;
    let mut text = Vec::new(alloc);
    match best {
        Some((schedule, _time)) => {
            write_toml(instance.scenario(), &schedule, &mut text)?;
            Ok((Done::Fine, text))
        }
        None => Ok((Done::Open, text)),
    }
}
