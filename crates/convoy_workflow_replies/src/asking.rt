ghost use Rattle.std.specs.Prelude.{◌≡◌, IfOk};
ghost use Rattle.convoy_commands.specs.Draws.{IsImageFrom};
ghost use Rattle.convoy_commands.specs.ReplyLines.{accepted_line};
ghost use Rattle.convoy_commands.specs.Replies.{SaysUnlessMemory, reply_of};
ghost use Rattle.convoy_workflow_checker.specs.WorkflowValidity.{IsValidWorkflow};
ghost use Rattle.convoy_workflow_replies.specs.WorkflowAsks.{AskWorkflowSays, IsDenial, IsWorkflowAsked};

use super::explaining::explanation;
use convoy_certificate::TextFault;
use convoy_commands::{Answer, Asking, Done, Fault};
use convoy_draw::write_drawing;
use convoy_lines::push_number_line;
use convoy_picture::Picture;
use convoy_scenario::TimeUnit;
use convoy_sim::simulate;
use convoy_times::Measure;
use convoy_workflow_certificate::{WorkflowCertificate, WorkflowTextFault};
use convoy_workflow_checker::{
    WorkflowRefusal, WorkflowRefused, check_workflow_text, workflow_refusal_line,
};
use std::alloc::{AllocError, Global};

/// How a command that asks this ends for the text of a certificate of a workflow, and what is written for it
/// (docs/FORMATS.md, "Certificates of workflows"). The certificate is checked first, and a refusal, which ends as
/// `Done::WorkflowRefused`, is the answer to each. Fails with `Fault::Memory`, and else never.
pub fn ask_workflow(alloc: Global, asking: Asking, text: &[u8]) -> Result<Answer, Fault>
    ensures { SaysUnlessMemory (AskWorkflowSays asking) text.now (reply_of result) }
{
    match check_workflow_text(alloc, text) {
        Ok(certificate) => {
            let told = text_asked(alloc, asking, &certificate)?;
            Ok(about(Done::Fine, told, certificate))
        }
        Err(refusal) => deny(alloc, refusal),
    }
}

/// An answer about the scenario of a certificate.
pub(crate) fn about(done: Done, text: Vec<u8>, certificate: WorkflowCertificate) -> Answer
    ensures done { result.done ≡ done }
    ensures text { result.text ≡ text }
{
    let (instance, ..) = certificate.run.into_parts();
    Answer::about(done, text, instance.into_scenario(), None)
}

/// The answer to a text that is refused. Fails with `Fault::Memory` where that is why, or where there is no memory for the
/// line.
pub(crate) fn deny(alloc: Global, refusal: WorkflowRefusal) -> Result<Answer, Fault>
    ensures { IsDenial (reply_of result) }
{
    match refusal {
        WorkflowRefusal::Text(
            WorkflowTextFault::Memory | WorkflowTextFault::Certificate(TextFault::Memory),
        )
        | WorkflowRefusal::Check(WorkflowRefused::Memory) => Err(Fault::Memory),
        other => {
            let line = workflow_refusal_line(alloc, other)?;
            Ok(Answer {
                done: Done::WorkflowRefused,
                text: line.into_bytes(),
                known: None,
            })
        }
    }
}

/// What is written for a valid certificate.
fn text_asked(
    alloc: Global,
    asking: Asking,
    certificate: &WorkflowCertificate,
) -> Result<Vec<u8>, AllocError>
    requires { IsValidWorkflow certificate.now }
    ensures { IfOk result (λ text. IsWorkflowAsked asking certificate.now text.items) }
{
    match asking {
        Asking::Check => acceptance(alloc, certificate.run.latency()),
        Asking::Explain(unit) => explanation(alloc, unit, certificate),
        Asking::Draw(unit) => image(alloc, unit, certificate),
    }
}

/// The yes to a certificate of that time.
pub(crate) fn acceptance(alloc: Global, time: u32) -> Result<Vec<u8>, AllocError>
    ensures { IfOk result (λ text. text.items ≡ accepted_line time) }
{
    let mut text = Vec::new(alloc);
    push_number_line(&mut text, "accepted", time)?;
    Ok(text)
}

/// The image of the run of a certificate's schedule, which tells the time from the issue of its origin.
fn image(
    alloc: Global,
    unit: Option<TimeUnit>,
    certificate: &WorkflowCertificate,
) -> Result<Vec<u8>, AllocError>
    ensures { IfOk result (λ text. IsImageFrom certificate.now.origin unit certificate.now.run text.items) }
{
    let (instance, schedule) = (certificate.run.instance(), certificate.run.schedule());
    let run = simulate(alloc, instance, schedule)?;
    let picture = Picture::of(alloc, instance, schedule, &run)?;
    let mut text = Vec::new(alloc);
    let scenario = certificate.run.scenario();
    let measure = Measure::of(scenario, unit, None);
    write_drawing(scenario, measure, &picture, certificate.origin, &mut text)?;
    Ok(text)
}
