ghost use Rattle.std.specs.Prelude.{◌≡◌, IfOk};
ghost use Rattle.std.specs.Option.{option_map};
ghost use Rattle.convoy_commands.specs.ReplyLines.{accepted_line};
ghost use Rattle.convoy_commands.specs.Replies.{SaysUnlessMemory, reply_of};
ghost use Rattle.convoy_finish_checker.specs.FinishValidity.{IsValidFinish};
ghost use Rattle.convoy_finish_replies.specs.FinishReplies.{CheckFinishSays, ExplainFinishSays, IsDenial, IsReplyToValid, yes_text};

use super::comparing::unwanted_part;
use super::explaining::explanation;
use convoy_certificate::TextFault;
use convoy_commands::{Answer, Done, Fault};
use convoy_finish_checker::{
    FinishCertificate, FinishRefusal, FinishRefused, FinishTextFault, check_finish_text,
    finish_refusal_line,
};
use convoy_lines::push_number_line;
use convoy_scenario::TimeUnit;
use convoy_text_answers::differs_line;
use convoy_workflow_replies::Reference;
use std::alloc::{AllocError, Global};

/// Why the latency of a certificate of finishes is what it is, by its text, with times in the unit that is asked for
/// (docs/FORMATS.md, "What `explain` writes"). The certificate is checked first, and a refusal, which ends as
/// `Done::FinishRefused`, is the answer. Fails with `Fault::Memory`, and else never.
pub fn explain_finish(alloc: Global, unit: Option<TimeUnit>, text: &[u8]) -> Result<Answer, Fault>
    ensures { SaysUnlessMemory (ExplainFinishSays unit) text.now (reply_of result) }
{
    match check_finish_text(alloc, text) {
        Ok(certificate) => {
            let told = explanation(alloc, unit, &certificate)?;
            Ok(about(Done::Fine, told, certificate))
        }
        Err(refusal) => deny(alloc, refusal),
    }
}

/// Whether a text is that of a valid certificate of finishes (docs/FORMATS.md, "Certificates of finishes"). Where `tells`,
/// the lines below the yes tell why its latency is what it is, with times in the unit that is asked for. Where something is
/// wanted, a valid one of something else is refused as `Done::Differs`: of the first part in which the two scenarios
/// differ, or else of `Part::Groups` where messages are finished by other ways; of that, too, where a scenario is wanted
/// of which no group is replicated by white box; and of `Part::Multicasts` where a workflow is.
///
/// Fails with `Fault::Memory`, and else never: a text that is that of no certificate, or of one that is not valid, is
/// refused as `Done::FinishRefused`.
pub fn check_finish_answer(
    alloc: Global,
    wanted: Option<&Reference>,
    tells: bool,
    unit: Option<TimeUnit>,
    text: &[u8],
) -> Result<Answer, Fault>
    ensures { SaysUnlessMemory (CheckFinishSays (option_map (λ r. r.now) wanted.entry) tells unit) text.now (reply_of result) }
{
    match check_finish_text(alloc, text) {
        Ok(certificate) => {
            let (done, told) = valid_told(alloc, wanted, tells, unit, &certificate)?;
            Ok(about(done, told, certificate))
        }
        Err(refusal) => deny(alloc, refusal),
    }
}

/// An answer about the scenario of a certificate.
fn about(done: Done, text: Vec<u8>, certificate: FinishCertificate) -> Answer
    ensures done { result.done ≡ done }
    ensures text { result.text ≡ text }
{
    let (instance, ..) = certificate.run.into_parts();
    Answer::about(done, text, instance.into_scenario(), None)
}

/// The answer to a text that is refused. Fails with `Fault::Memory` where that is why, or where there is no memory for the
/// line.
fn deny(alloc: Global, refusal: FinishRefusal) -> Result<Answer, Fault>
    ensures { IsDenial (reply_of result) }
{
    match refusal {
        FinishRefusal::Text(
            FinishTextFault::Memory | FinishTextFault::Certificate(TextFault::Memory),
        )
        | FinishRefusal::Check(FinishRefused::Memory) => Err(Fault::Memory),
        other => {
            let line = finish_refusal_line(alloc, other)?;
            Ok(Answer {
                done: Done::FinishRefused,
                text: line.into_bytes(),
                known: None,
            })
        }
    }
}

/// How it ends for a valid certificate, and what is written.
fn valid_told(
    alloc: Global,
    wanted: Option<&Reference>,
    tells: bool,
    unit: Option<TimeUnit>,
    certificate: &FinishCertificate,
) -> Result<(Done, Vec<u8>), AllocError>
    requires { IsValidFinish certificate.now }
    ensures { IfOk result (λ told. IsReplyToValid (option_map (λ r. r.now) wanted.entry) tells unit certificate.now
        told.0 told.1.items) }
{
    match unwanted_part(wanted, certificate) {
        Some(part) => Ok((Done::Differs(part), differs_line(alloc, part)?)),
        None => Ok((Done::Fine, yes_text(alloc, tells, unit, certificate)?)),
    }
}

/// The yes, and below it why the latency is what it is, where that is to be told.
fn yes_text(
    alloc: Global,
    tells: bool,
    unit: Option<TimeUnit>,
    certificate: &FinishCertificate,
) -> Result<Vec<u8>, AllocError>
    requires { IsValidFinish certificate.now }
    ensures { IfOk result (λ text. text.items ≡ yes_text tells unit certificate.now) }
{
    let mut text = Vec::new(alloc);
    push_number_line(&mut text, "accepted", certificate.run.latency())?;
    if tells {
        text.extend_from_slice(&explanation(alloc, unit, certificate)?)?;
    }
    Ok(text)
}
