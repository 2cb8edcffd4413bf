ghost use Rattle.std.specs.Prelude.{◌≡◌, ◌⊎◌, ℕ, Some, Ok, Err, IfOk};
ghost use Rattle.convoy_commands.specs.declared.done.Done.TheVariants as ends;
ghost use Rattle.convoy_commands.specs.declared.done.Done.TheVariants.{NotChecked};
ghost use Rattle.convoy_commands.specs.declared.fault.Fault.TheVariants as faults;
ghost use Rattle.convoy_commands.specs.Asks.{AskSays, IsTextAsked, RepliesTo};
ghost use Rattle.convoy_commands.specs.Checks.{reply_of_check, reply_of_text};
ghost use Rattle.convoy_commands.specs.Draws.{IsImageOf};
ghost use Rattle.convoy_commands.specs.Explains.{certificate_explained};
ghost use Rattle.convoy_commands.specs.ReplyLines.{accepted_line, not_checked_line};
ghost use Rattle.convoy_commands.specs.Refusals.{refused_line, row_of_refusal};
ghost use Rattle.convoy_commands.specs.Replies.{IsReply, SaysUnlessMemory, reply_of};
ghost use Rattle.convoy_commands.specs.Withins.{AnswersCertificate, SaysWithin};

use super::answer::Answer;
use super::done::Done;
use super::fault::Fault;
use super::refusal::refusal_line;
use convoy_certificate::certificate_laws::texts_are_read;
use convoy_certificate::{Certificate, TextFault, read};
use convoy_checker::tree_laws::checked_is_valid;
use convoy_checker::{Accepted, Refusal, Refused, check_within};
use convoy_draw::write_drawing;
use convoy_lines::{push_further_word, push_number_line};
use convoy_picture::Picture;
use convoy_scenario::TimeUnit;
use convoy_sim::simulate;
use convoy_timeline::{explain, explain_stamp, write_explanation};
use convoy_times::Measure;
use itoa::Buffer;
use std::alloc::{AllocError, Global};

/// What is asked of a certificate. It is checked first, and a refusal is the answer to each.
#[derive(Clone, Copy)]
pub enum Asking {
    /// Whether it is valid.
    Check,
    /// Why the latency of its schedule is what it is, with times in the unit that is asked for.
    Explain(Option<TimeUnit>),
    /// The run of its schedule, as an image, with times in the unit that is asked for.
    Draw(Option<TimeUnit>),
}

/// How a command that asks this ends for the text of a certificate, and what is written for it
/// (docs/FORMATS.md, "Commands"). Where there is a limit, at most so many steps are taken to check the
/// certificate (docs/FORMATS.md, "Steps"). Fails with `Fault::Memory`, and else never: a text that is that of
/// no certificate, or of one that is not valid, is refused, which is an answer, and so is
/// [`Done::NotChecked`] where checking takes more steps.
pub fn ask(alloc: Global, asking: Asking, limit: Option<u64>, text: &[u8]) -> Result<Answer, Fault>
    ensures { SaysUnlessMemory (SaysWithin limit NotChecked (AskSays asking)) text.now
        (reply_of result) }
{
    texts_are_read();
    checked_is_valid();
    match read(alloc, text) {
        Ok(certificate) => {
            let told = ask_certificate(alloc, asking, limit, &certificate)?;
            Ok(told.of_certificate(certificate))
        }
        Err(fault) => answer_to_fault(alloc, fault),
    }
}

/// The same of a certificate that was read, whose text it is.
pub fn ask_certificate(
    alloc: Global,
    asking: Asking,
    limit: Option<u64>,
    certificate: &Certificate,
) -> Result<Answer, Fault>
    ensures { AnswersCertificate (SaysWithin limit NotChecked (AskSays asking)) certificate.now
        (reply_of result) }
{
    texts_are_read();
    checked_is_valid();
    match check_within(alloc, certificate, limit) {
        Ok(Some(accepted)) => answer_to_check(alloc, asking, certificate, Ok(accepted)),
        Ok(None) => not_checked(alloc, limit),
        Err(refused) => answer_to_check(alloc, asking, certificate, Err(refused)),
    }
}

/// That a certificate is not checked.
fn not_checked(alloc: Global, limit: Option<u64>) -> Result<Answer, Fault>
    ensures { (most : ℕ) → limit ≡ Some most
        → IsReply (Ok (NotChecked, not_checked_line most)) (reply_of result) }
{
    Ok(Answer {
        done: Done::NotChecked,
        text: not_checked_text(alloc, limit.unwrap_or(0))?,
        known: None,
    })
}

/// The line that says so.
fn not_checked_text(alloc: Global, limit: u64) -> Result<Vec<u8>, AllocError>
    ensures { IfOk result (λ text. text.items ≡ not_checked_line limit) }
{
    let mut buffer = Buffer::new();
    let mut text = Vec::new(alloc);
    text.extend_from_slice(b"not checked")?;
    push_further_word(&mut text, buffer.format(limit))?;
    text.push(b'\n')?;
    Ok(text)
}

/// The answer to a text that is that of no certificate, for this fault. Fails with `Fault::Memory` where that is the
/// fault, or where there is no memory for the line.
pub fn answer_to_fault(alloc: Global, fault: TextFault) -> Result<Answer, Fault>
    ensures { IsReply (reply_of_text (Err fault)) (reply_of result) }
{
    match fault {
        TextFault::Memory => Err(Fault::Memory),
        other => refuse(alloc, Refusal::Text(other)),
    }
}

/// The answer to a certificate, by what the checker said of it.
fn answer_to_check(
    alloc: Global,
    asking: Asking,
    certificate: &Certificate,
    said: Result<Accepted, Refused>,
) -> Result<Answer, Fault>
    ensures { RepliesTo asking certificate.now said (reply_of result)
        ⊎ (reply_of result ≡ Err faults.Memory) }
{
    match said {
        Ok(accepted) => Ok(Answer {
            done: Done::Fine,
            text: text_asked(alloc, asking, certificate, accepted.latency())?,
            known: None,
        }),
        Err(refused) => answer_to_refusal(alloc, refused),
    }
}

/// The answer to a certificate that the checker refuses.
fn answer_to_refusal(alloc: Global, refused: Refused) -> Result<Answer, Fault>
    ensures { IsReply (reply_of_check (Err refused)) (reply_of result) }
{
    match refused {
        Refused::Memory => Err(Fault::Memory),
        other => refuse(alloc, Refusal::Check(other)),
    }
}

/// A refusal.
fn refuse(alloc: Global, refusal: Refusal) -> Result<Answer, Fault>
    ensures { IsReply (Ok (ends.Refused refusal, refused_line (row_of_refusal refusal))) (reply_of result) }
{
    let mut text = Vec::new(alloc);
    refusal_line(refusal, &mut text)?;
    Ok(Answer {
        done: Done::Refused(refusal),
        text,
        known: None,
    })
}

/// What is written for a certificate that the checker accepts.
fn text_asked(
    alloc: Global,
    asking: Asking,
    certificate: &Certificate,
    latency: u32,
) -> Result<Vec<u8>, AllocError>
    ensures { IfOk result (λ text. IsTextAsked asking certificate.now latency text.items) }
{
    match asking {
        Asking::Check => acceptance(alloc, latency),
        Asking::Explain(unit) => explanation(alloc, unit, certificate),
        Asking::Draw(unit) => image(alloc, unit, certificate),
    }
}

/// The yes.
fn acceptance(alloc: Global, latency: u32) -> Result<Vec<u8>, AllocError>
    ensures { IfOk result (λ text. text.items ≡ accepted_line latency) }
{
    let mut text = Vec::new(alloc);
    push_number_line(&mut text, "accepted", latency)?;
    Ok(text)
}

/// Why the certificate's schedule has its latency.
fn explanation(
    alloc: Global,
    unit: Option<TimeUnit>,
    certificate: &Certificate,
) -> Result<Vec<u8>, AllocError>
    ensures { IfOk result (λ text. text.items ≡ certificate_explained unit certificate.now) }
{
    let (instance, schedule) = (certificate.instance(), certificate.schedule());
    let run = simulate(alloc, instance, schedule)?;
    let why = explain(instance, schedule, &run);
    let rises = explain_stamp(alloc, instance, schedule, &run)?;
    let mut text = Vec::new(alloc);
    write_explanation(
        certificate.scenario(),
        Measure::of(certificate.scenario(), unit, None),
        &why,
        &rises,
        certificate.nodes().len(),
        &mut text,
    )?;
    Ok(text)
}

/// The image of the run of the certificate's schedule.
fn image(
    alloc: Global,
    unit: Option<TimeUnit>,
    certificate: &Certificate,
) -> Result<Vec<u8>, AllocError>
    ensures { IfOk result (λ text. IsImageOf unit certificate.now text.items) }
{
    let (instance, schedule) = (certificate.instance(), certificate.schedule());
    let run = simulate(alloc, instance, schedule)?;
    let picture = Picture::of(alloc, instance, schedule, &run)?;
    let mut text = Vec::new(alloc);
    let scenario = certificate.scenario();
    let measure = Measure::of(scenario, unit, None);
    write_drawing(
        scenario,
        measure,
        &picture,
        scenario.target_message(),
        &mut text,
    )?;
    Ok(text)
}
