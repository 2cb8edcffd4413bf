ghost use Rattle.std.specs.Prelude.{◌≡◌, IfOk};
ghost use Rattle.std.specs.Option.{option_map};
ghost use Rattle.convoy_commands.specs.Replies.{SaysUnlessMemory, reply_of};
ghost use Rattle.convoy_commands.specs.Withins.{SaysWithin};
ghost use Rattle.convoy_commands.specs.declared.done.Done.TheVariants.{NotChecked};
ghost use Rattle.convoy_workflow_checker.specs.WorkflowValidity.{IsValidWorkflow};
ghost use Rattle.convoy_workflow_replies.specs.WorkflowChecks.{CheckOfOtherSays, CheckWorkflowSays, IsReplyToValid, yes_text};

use super::asking::{about, acceptance, deny};
use super::comparing::unwanted_part;
use super::explaining::explanation;
use super::reference::Reference;
use convoy_commands::{Answer, Asking, Done, Fault, ask};
use convoy_scenario::{Part, TimeUnit};
use convoy_text_answers::differs_line;
use convoy_workflow_certificate::WorkflowCertificate;
use convoy_workflow_checker::check_workflow_text;
use std::alloc::{AllocError, Global};

/// Whether a text is that of a valid certificate of a workflow (docs/FORMATS.md, "Certificates of workflows"). Where
/// `tells`, the lines below the yes tell why its time is what it is, with times in the unit that is asked for. Where
/// something is wanted, a valid one of another workflow is refused as `Done::Differs`, of the first part in which the two
/// scenarios differ, or else of `Part::Multicasts` where messages follow others otherwise, or else of `Part::Target` where
/// the time counts from another message; and where that is a scenario, each valid one of `Part::Multicasts`: there no message
/// follows another.
///
/// Fails with `Fault::Memory`, and else never: a text that is that of no certificate, or of one that is not valid, is
/// refused as `Done::WorkflowRefused`.
pub fn check_workflow_answer(
    alloc: Global,
    wanted: Option<&Reference>,
    tells: bool,
    unit: Option<TimeUnit>,
    text: &[u8],
) -> Result<Answer, Fault>
    ensures { SaysUnlessMemory (CheckWorkflowSays (option_map (λ r. r.now) wanted.entry) tells unit) text.now (reply_of result) }
{
    match check_workflow_text(alloc, text) {
        Ok(certificate) => {
            let (done, told) = valid_told(alloc, wanted, tells, unit, &certificate)?;
            Ok(about(done, told, certificate))
        }
        Err(refusal) => deny(alloc, refusal),
    }
}

/// How it ends for a valid certificate, and what is written.
fn valid_told(
    alloc: Global,
    wanted: Option<&Reference>,
    tells: bool,
    unit: Option<TimeUnit>,
    certificate: &WorkflowCertificate,
) -> Result<(Done, Vec<u8>), AllocError>
    requires { IsValidWorkflow certificate.now }
    ensures { IfOk result (λ told. IsReplyToValid (option_map (λ r. r.now) wanted.entry) tells unit certificate.now
        told.0 told.1.items) }
{
    match unwanted_part(wanted, certificate) {
        Some(part) => Ok((Done::Differs(part), differs_line(alloc, part)?)),
        None => Ok((Done::Fine, yes_text(alloc, tells, unit, certificate)?)),
    }
}

/// The yes, and below it why the time is what it is, where that is to be told.
fn yes_text(
    alloc: Global,
    tells: bool,
    unit: Option<TimeUnit>,
    certificate: &WorkflowCertificate,
) -> Result<Vec<u8>, AllocError>
    requires { IsValidWorkflow certificate.now }
    ensures { IfOk result (λ text. text.items ≡ yes_text tells unit certificate.now) }
{
    let mut text = acceptance(alloc, certificate.run.latency())?;
    if tells {
        text.extend_from_slice(&explanation(alloc, unit, certificate)?)?;
    }
    Ok(text)
}

/// Whether a text is that of a valid certificate of a scenario, where one of something else is wanted: a valid one is refused
/// as `Done::Differs` of this part, as of `Part::Multicasts` where a workflow is wanted, since in a scenario no message
/// follows another, and of `Part::Groups` where groups are replicated by white box. Where there is a limit, at most so
/// many steps are taken to check the certificate (docs/FORMATS.md, "Steps").
///
/// Fails with `Fault::Memory`, and else never: a text that is that of no certificate, or of one that is not valid, is
/// refused as [`ask`] does, and so is one that is not checked, since that takes more steps.
pub fn check_of_other(
    alloc: Global,
    part: Part,
    limit: Option<u64>,
    text: &[u8],
) -> Result<Answer, Fault>
    ensures { SaysUnlessMemory (SaysWithin limit NotChecked (CheckOfOtherSays part)) text.now (reply_of result) }
{
    let answer = ask(alloc, Asking::Check, limit, text)?;
    match answer.done {
        Done::Fine => Ok(Answer {
            done: Done::Differs(part),
            text: differs_line(alloc, part)?,
            known: answer.known,
        }),
        _ => Ok(answer),
    }
}
