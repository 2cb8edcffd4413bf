ghost use Rattle.std.specs.Prelude.{◌≡◌, ◌++◌, IfOk, OnOk};
ghost use Rattle.convoy_commands.specs.Replies.{SaysUnlessMemory, reply_of};
ghost use Rattle.convoy_workflow_answers.specs.WorkflowLatencies.{found_line, workflow_latency_says, workflow_latency_text};

use super::found::Found;
use super::seeking::greatest_time;
use convoy_branch::Options;
use convoy_commands::{
    Answer, Fault, deadline_at, judged, push_open, push_outside, push_ticks_line, push_verdict,
};
use convoy_outside::outside_told;
use convoy_packets::Instance;
use convoy_times::Measure;
use convoy_toml::Asked;
use convoy_workflows::read_workflow;
use std::alloc::{AllocError, Global};

/// The greatest time of a workflow text, where that is asked, from the issue of its origin to the delivery of its target,
/// among all runs in which messages follow their causes (docs/FORMATS.md, "What `latency` writes"): the greatest, or
/// where that is not known what it is at least and at most. By that is judged how the deadline of the target is kept.
/// Late runs are sought by as many simulations as the options give. The faults are those of [`read_workflow`], and
/// `Fault::Memory`.
pub fn workflow_latency_answer(
    alloc: Global,
    asked: &Asked,
    text: &[u8],
    options: &Options,
) -> Result<Answer, Fault>
    ensures { SaysUnlessMemory (workflow_latency_says asked.now options.now) text.now (reply_of result) }
{
    let workflow = read_workflow(alloc, text, asked)?;
    let measure = Measure::of(&workflow.scenario, options.unit(), workflow.unit);
    let deadline = deadline_at(&workflow.deadlines, workflow.scenario.target_message());
    let instance = Instance::of(alloc, workflow.scenario)?;
    let outside = outside_told(&workflow.shares, &instance);
    let steps = options.simulations();
    let sought = greatest_time(alloc, &instance, &workflow.causes, workflow.origin, steps)?;
    let found = sought.found;
    let text = told(alloc, &measure, deadline, outside, found)?;
    let done = judged(deadline, found.least(), found.most(), found.end());
    Ok(Answer::about(done, text, instance.into_scenario(), workflow.plain))
}

/// What is written.
#[tactic(auto, using(std::proofs::lemmas::List::append_assoc))]
fn told(
    alloc: Global,
    measure: &Option<Measure>,
    deadline: Option<u32>,
    outside: Option<u64>,
    found: Found,
) -> Result<Vec<u8>, AllocError>
    ensures { IfOk result (λ text. text.items
        ≡ workflow_latency_text measure.now deadline outside found) }
{
    let mut text = Vec::new(alloc);
    push_found(*measure, found, &mut text)?;
    push_verdict(*measure, deadline, found.least(), found.most(), &mut text)?;
    push_outside(outside, &mut text)?;
    Ok(text)
}

/// Appends the line of what was found.
pub(crate) fn push_found(
    measure: Option<Measure>,
    found: Found,
    out: &mut Vec<u8>,
) -> Result<(), AllocError>
    ensures { OnOk result (out.new.items ≡ out.old.items ++ found_line measure found) }
{
    match found {
        Found::Greatest(time) => push_ticks_line("greatest", measure, time, out),
        Found::Between { least, most } => push_open(measure, least, most, out),
        Found::AtMost(most) => push_ticks_line("at-most", measure, most, out),
    }
}
