//! The greatest latency, by options or by what a text tells.

ghost use Rattle.std.specs.Prelude.{◌≡◌, IfOk};
ghost use Rattle.convoy_commands.specs.Replies.{SaysUnlessMemory, reply_of};
ghost use Rattle.convoy_tasks.specs.Tasks.{greatest_by, late_by, late_of_text, late_through, latency_by, latency_ceiled_by, latency_late_by, outage_told};

use convoy_case_answers::{Late, latency_of_cases_answer};
use convoy_commands::{Answer, Fault, Options, Watch, latency_answer};
use convoy_outage_answers::latency_through_answer;
use convoy_outages::Outage;
use convoy_task_list::outage_by;
use convoy_toml::{Asked, WrittenTime, accepts_by_text, outage_of_text};
use convoy_workflow_answers::workflow_latency_answer;
use convoy_workflows::is_workflow;
use std::alloc::{AllocError, Global};
use std::sync::Wait;
use std::thread::Threads;

/// The outages that are asked for: those of the option where it is given, and then the text is not looked at, or else those
/// that its key `outage` tells.
pub(crate) fn outage_told(
    alloc: Global,
    outage: Option<Outage>,
    text: &[u8],
) -> Result<Option<Outage>, AllocError>
    ensures { IfOk result (λ told. told ≡ outage_told outage text.now) }
{
    match outage {
        Some(outage) => Ok(Some(outage)),
        None => match outage_of_text(alloc, text)? {
            Some(time) => Ok(Some(outage_by(time))),
            None => Ok(None),
        },
    }
}

/// The greatest latency with what the option or the text tells that keeps the target back; or, where the ceiling is asked for
/// as well, that of one scenario, with its ceiling below it.
pub(crate) fn answer_latency<R: Threads + Wait + Sync, W: Watch + Sync>(
    rt: &R,
    alloc: Global,
    with_ceiling: bool,
    outage: Option<Outage>,
    accept: Option<WrittenTime>,
    asked: &Asked,
    options: &Options,
    text: &[u8],
    watch: &W,
) -> Result<Answer, Fault>
    ensures { SaysUnlessMemory (latency_by accept outage with_ceiling asked.now options.now) text.now
        (reply_of result) }
{
    if with_ceiling {
        let outage = outage_told(alloc, outage, text)?;
        answer_ceiled(rt, alloc, outage, asked, options, text, watch)
    } else {
        let late = late_by(alloc, accept, outage, text)?;
        answer_late(rt, alloc, &late, asked, options, text, watch)
    }
}

/// The greatest latency with the ceiling below it, and with what none is above through outages where these are asked for.
fn answer_ceiled<R: Threads + Wait + Sync, W: Watch + Sync>(
    rt: &R,
    alloc: Global,
    outage: Option<Outage>,
    asked: &Asked,
    options: &Options,
    text: &[u8],
    watch: &W,
) -> Result<Answer, Fault>
    ensures { SaysUnlessMemory (latency_ceiled_by outage asked.now options.now) text.now (reply_of result) }
{
    match outage {
        Some(outage) => {
            latency_through_answer(rt, alloc, true, outage, asked, text, options, watch)
        }
        None => latency_answer(rt, alloc, true, asked, text, options, watch),
    }
}

/// What keeps the target back, by an option or else by the text.
fn late_by(
    alloc: Global,
    accept: Option<WrittenTime>,
    outage: Option<Outage>,
    text: &[u8],
) -> Result<Late, AllocError>
    ensures { IfOk result (λ late. late ≡ late_by accept outage text.now) }
{
    match (accept, outage) {
        (Some(span), _) => Ok(Late::Answers(Some(span))),
        (None, Some(outage)) => Ok(Late::Outages(outage)),
        (None, None) => late_of_text(alloc, text),
    }
}

/// What does by the text alone: the answers of replicas where its groups are replicated by white box, and else the outages
/// that it tells, if it does.
fn late_of_text(alloc: Global, text: &[u8]) -> Result<Late, AllocError>
    ensures { IfOk result (λ late. late ≡ late_of_text text.now) }
{
    if accepts_by_text(alloc, text)? {
        return Ok(Late::Answers(None));
    }
    let outage = outage_told(alloc, None, text)?;
    Ok(late_through(outage))
}

/// What does where these outages are asked for.
fn late_through(outage: Option<Outage>) -> Late
    ensures { result ≡ late_through outage }
{
    match outage {
        Some(outage) => Late::Outages(outage),
        None => Late::Nothing,
    }
}

/// The greatest latency with what keeps the target back, where something does; else of a workflow, where the text is that of
/// one.
fn answer_late<R: Threads + Wait + Sync, W: Watch + Sync>(
    rt: &R,
    alloc: Global,
    late: &Late,
    asked: &Asked,
    options: &Options,
    text: &[u8],
    watch: &W,
) -> Result<Answer, Fault>
    ensures { SaysUnlessMemory (latency_late_by late.now asked.now options.now) text.now (reply_of result) }
{
    match late {
        Late::Nothing => answer_greatest(rt, alloc, asked, options, text, watch),
        Late::Outages(_) | Late::Answers(_) => {
            latency_of_cases_answer(rt, alloc, late, asked, text, options, watch)
        }
    }
}

/// The greatest latency: of a workflow, where the text is that of one, and else in all cases of a scenario text.
fn answer_greatest<R: Threads + Wait + Sync, W: Watch + Sync>(
    rt: &R,
    alloc: Global,
    asked: &Asked,
    options: &Options,
    text: &[u8],
    watch: &W,
) -> Result<Answer, Fault>
    ensures { SaysUnlessMemory (greatest_by asked.now options.now) text.now (reply_of result) }
{
    if is_workflow(alloc, text)? {
        workflow_latency_answer(alloc, asked, text, options)
    } else {
        latency_of_cases_answer(rt, alloc, &Late::Nothing, asked, text, options, watch)
    }
}
