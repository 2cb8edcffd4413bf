ghost use Rattle.std.specs.Prelude.{◌≡◌, ◌++◌, IfOk, IsTrue};
ghost use Rattle.convoy_commands.specs.Replies.{SaysUnlessMemory, reply_of};
ghost use Rattle.convoy_commands.specs.ReplyLines.{schedule_text};
ghost use Rattle.convoy_packets.specs.Assignment.{IsAssignment};
ghost use Rattle.convoy_workflow_answers.specs.WorkflowLatencies.{found_line, least_of};
ghost use Rattle.convoy_workflow_answers.specs.WorkflowProofs.{IsProvedBy, IsWrittenOfRun, WorkflowProofSays};

use super::found::Found;
use super::latency::push_found;
use super::seeking::{Sought, greatest_time};
use convoy_branch::Options;
use convoy_causes::Cause;
use convoy_certificate::{Certificate, push_schedule};
use convoy_commands::{Answer, Fault, deadline_at, judged};
use convoy_packets::{Instance, Schedule};
use convoy_times::Measure;
use convoy_toml::Asked;
use convoy_workflow_certificate::{WorkflowCertificate, workflow_certificate_text};
use convoy_workflow_checker::{WorkflowRefused, check_workflow};
use convoy_workflows::read_workflow;
use std::alloc::{AllocError, Global};

/// A certificate of the greatest time of a workflow text, where that is asked (docs/FORMATS.md, "Certificates of
/// workflows"), or where that time is not known, or no certificate shows it, what was found of it and the schedule of the
/// run that takes longest of those that were found. By what was found is judged how the deadline of the target is kept.
/// Late runs are sought by as many simulations as the options give. The faults are those of [`read_workflow`], and
/// `Fault::Memory`.
pub fn workflow_proof_answer(
    alloc: Global,
    asked: &Asked,
    text: &[u8],
    options: &Options,
) -> Result<Answer, Fault>
    ensures { SaysUnlessMemory (WorkflowProofSays asked.now options.now) text.now (reply_of result) }
{
    let workflow = read_workflow(alloc, text, asked)?;
    let measure = Measure::of(&workflow.scenario, options.unit(), workflow.unit);
    let deadline = deadline_at(&workflow.deadlines, workflow.scenario.target_message());
    let instance = Instance::of(alloc, workflow.scenario)?;
    let (causes, origin, steps) = (workflow.causes, workflow.origin, options.simulations());
    let Sought {
        found,
        schedule,
        within,
    } = greatest_time(alloc, &instance, &causes, origin, steps)?;
    let done = judged(deadline, found.least(), found.most(), found.end());
    match schedule {
        Some(schedule) => {
            let certificate = certificate_of(
                alloc, instance, causes, origin, within, found, schedule,
            );
            let text = text_of_run(alloc, &measure, &certificate, found)?;
            let (instance, ..) = certificate.run.into_parts();
            Ok(Answer::about(done, text, instance.into_scenario(), workflow.plain))
        }
        None => {
            let text = found_text(alloc, &measure, found)?;
            Ok(Answer::about(done, text, instance.into_scenario(), workflow.plain))
        }
    }
}

/// The certificate that a run makes of what was found.
fn certificate_of(
    alloc: Global,
    instance: Instance,
    causes: Vec<Cause>,
    origin: usize,
    within: Vec<u32>,
    found: Found,
    schedule: Schedule,
) -> WorkflowCertificate
    requires { IsAssignment instance schedule }
    ensures causes { result.causes.items ≡ causes.items }
    ensures origin { result.origin ≡ origin }
    ensures scenario { result.run.scenario ≡ instance }
    ensures latency { result.run.latency ≡ least_of found }
    ensures schedule { result.run.schedule ≡ schedule }
{
    WorkflowCertificate {
        causes,
        within,
        origin,
        run: Certificate::new(instance, found.least(), schedule, Vec::new(alloc)),
    }
}

/// What is written of a run that was found: the certificate that it makes, where that is accepted and its time is the
/// greatest, or else what was found and the schedule of the run.
fn text_of_run(
    alloc: Global,
    measure: &Option<Measure>,
    certificate: &WorkflowCertificate,
    found: Found,
) -> Result<Vec<u8>, AllocError>
    requires { certificate.now.run.latency ≡ least_of found }
    ensures { IfOk result (λ text. IsWrittenOfRun measure.now certificate.now found text.items) }
{
    if is_proved(alloc, certificate, found)? {
        workflow_certificate_text(alloc, certificate)
    } else {
        open_text(alloc, measure, &certificate.run, found)
    }
}

/// Whether what was found is the greatest time, and the checker accepts the certificate of it.
fn is_proved(
    alloc: Global,
    certificate: &WorkflowCertificate,
    found: Found,
) -> Result<bool, AllocError>
    requires { certificate.now.run.latency ≡ least_of found }
    ensures { IfOk result (λ proved. IsTrue proved → IsProvedBy certificate.now found) }
{
    let _schedule = certificate.run.schedule();
    match found {
        Found::Greatest(_) => is_accepted(alloc, certificate),
        Found::Between { .. } | Found::AtMost(_) => Ok(false),
    }
}

/// What was found, and the schedule of a run.
fn open_text(
    alloc: Global,
    measure: &Option<Measure>,
    run: &Certificate,
    found: Found,
) -> Result<Vec<u8>, AllocError>
    ensures { IfOk result (λ text. text.items
        ≡ found_line measure.now found ++ schedule_text run.now.scenario run.now.schedule) }
{
    let mut text = found_text(alloc, measure, found)?;
    push_schedule(alloc, run.scenario(), run.schedule(), &mut text)?;
    Ok(text)
}

/// The line of what was found.
fn found_text(alloc: Global, measure: &Option<Measure>, found: Found) -> Result<Vec<u8>, AllocError>
    ensures { IfOk result (λ text. text.items ≡ found_line measure.now found) }
{
    let mut text = Vec::new(alloc);
    push_found(*measure, found, &mut text)?;
    Ok(text)
}

ghost use Rattle.convoy_workflow_checker.specs.WorkflowCheckLaws.{IsGreatestOfWorkflow};
ghost use Rattle.convoy_workflow_checker.specs.WorkflowValidity.{IsValidWorkflow};

/// Whether the checker accepts a certificate.
fn is_accepted(alloc: Global, certificate: &WorkflowCertificate) -> Result<bool, AllocError>
    ensures valid { IfOk result (λ accepted. IsTrue accepted → IsValidWorkflow certificate.now) }
    ensures greatest { IfOk result (λ accepted. IsTrue accepted → IsGreatestOfWorkflow certificate.now) }
{
    match check_workflow(alloc, certificate) {
        Ok(()) => Ok(true),
        Err(WorkflowRefused::Memory) => Err(AllocError),
        Err(_) => Ok(false),
    }
}
