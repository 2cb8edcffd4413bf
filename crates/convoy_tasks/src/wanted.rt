ghost use Rattle.std.specs.Prelude.{◌≡◌};
ghost use Rattle.convoy_toml.specs.Reading.{accepts_by_text};
ghost use Rattle.convoy_tasks.specs.WantedReads.{GivesUnlessMemory, IsReferenceRead, OfAccepted, OfScenario, OfWorkflow, form_of, form_of_scenario, takes_others};

use convoy_commands::{Fault, LONGEST_JOB};
use convoy_finish_answers::read_accepted;
use convoy_streams::{Source, read_to_end};
use convoy_task_list::Task;
use convoy_toml::{Asked, accepts_by_text, read_toml};
use convoy_workflow_replies::Reference;
use convoy_workflows::{is_workflow, read_workflow};
use std::alloc::Global;

/// Reads what a certificate, or a trace, is to be of, to the end of the source: of a certificate a workflow text or a
/// scenario text, whose groups may be replicated by white box, and of a trace a scenario text. The target is needed; what
/// schedule and what deadlines the text gives does not matter.
///
/// At most `most_reads` reads are made. The faults are `Fault::Scenario`, of that of
/// [`read_toml`](convoy_toml::read_toml), or, where the text is read as a workflow's, the fault for that of
/// [`read_workflow`](convoy_workflows::read_workflow); `Fault::Replicas` where groups are replicated by white box and it
/// can't be told how many ticks a packet to a replica takes; `Fault::Reading`, of `ReadFault::Read` where the source fails,
/// `ReadFault::TooLong` at the read that brings a byte past [`LONGEST_JOB`], and `ReadFault::TooManyReads`
/// where `most_reads` reads give bytes and none the end; and `Fault::Memory`.
pub fn read_reference<S: Source>(
    alloc: Global,
    task: &Task,
    source: &mut S,
    most_reads: u64,
) -> Result<Reference, Fault>
    ensures { IsReferenceRead (takes_others task.now) most_reads S.reads source.old source.new result }
{
    let text = read_to_end(alloc, source, LONGEST_JOB, most_reads)?;
    reference_of(alloc, takes_others(task), &text)
}

/// Whether what is wanted may be more than a scenario: for a certificate, which may be one of a workflow or of finishes.
fn takes_others(task: &Task) -> bool
    ensures { result ≡ takes_others task.now }
{
    match task {
        Task::Certificate { .. } => true,
        _ => false,
    }
}

/// What a text gives, where more than a scenario is taken or not.
fn reference_of(alloc: Global, takes: bool, text: &[u8]) -> Result<Reference, Fault>
    ensures { GivesUnlessMemory (form_of takes text.now) text.now result }
{
    if !takes {
        return scenario_of(alloc, text);
    }
    let is_workflow = is_workflow(alloc, text)?;
    if is_workflow {
        workflow_of(alloc, text)
    } else {
        accepted_or_scenario(alloc, text)
    }
}

/// What a text gives that is that of no workflow.
fn accepted_or_scenario(alloc: Global, text: &[u8]) -> Result<Reference, Fault>
    ensures { GivesUnlessMemory (form_of_scenario (accepts_by_text text.now)) text.now result }
{
    let accepts = accepts_by_text(alloc, text)?;
    if accepts {
        accepted_of(alloc, text)
    } else {
        scenario_of(alloc, text)
    }
}

/// The workflow of a text.
fn workflow_of(alloc: Global, text: &[u8]) -> Result<Reference, Fault>
    ensures { GivesUnlessMemory OfWorkflow text.now result }
{
    let workflow = read_workflow(alloc, text, &Asked::as_written())?;
    Ok(Reference::Workflow(workflow))
}

/// The scenario of a text whose groups are replicated by white box.
fn accepted_of(alloc: Global, text: &[u8]) -> Result<Reference, Fault>
    ensures { GivesUnlessMemory OfAccepted text.now result }
{
    let accepted = read_accepted(alloc, text, &Asked::as_written())?;
    Ok(Reference::Accepted(accepted))
}

/// The scenario of a text.
fn scenario_of(alloc: Global, text: &[u8]) -> Result<Reference, Fault>
    ensures { GivesUnlessMemory OfScenario text.now result }
{
    let input = read_toml(alloc, text)?;
    Ok(Reference::Scenario(input.scenario))
}
