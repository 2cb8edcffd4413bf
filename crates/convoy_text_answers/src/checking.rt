ghost use Rattle.std.specs.Prelude.{◌≡◌, ◌++◌, ℕ, List, IfOk, MatchOption, Ok};
ghost use Rattle.std.specs.Option.{option_map};
ghost use Rattle.convoy_commands.specs.Replies.{SaysUnlessMemory, reply_of, told_of_answer};
ghost use Rattle.convoy_commands.specs.Withins.{AnswersCertificate, SaysWithin};
ghost use Rattle.convoy_commands.specs.declared.done.Done.TheVariants.{NotChecked};
ghost use Rattle.convoy_text_answers.specs.Abouts.{CheckAboutSays, IsAcceptedAs, IsUnwanted, IsWanted, check_says};
ghost use Rattle.convoy_text_answers.specs.AcceptedLines.{told_if};

use super::accepted_lines::{differs_line, push_certificate};
use convoy_certificate::certificate_laws::{texts_are_read, texts_differ};
use convoy_certificate::{Certificate, read};
use convoy_checker::tree_laws::checked_is_valid;
use convoy_commands::{Answer, Asking, Done, Fault, answer_to_fault, ask, ask_certificate};
use convoy_scenario::{Part, Scenario, TimeUnit, difference};
use std::alloc::{AllocError, Global};

/// Whether the text is that of a valid certificate and, where a scenario is wanted, of that (docs/FORMATS.md, "What
/// `check` writes"). Where `tells`, the lines below the yes tell what was accepted, with times in the unit that is asked
/// for. Where there is a limit, at most so many steps are taken to check the certificate (docs/FORMATS.md, "Steps").
///
/// Fails with `Fault::Memory`, and else never: a text that is that of no certificate, or of one that is not
/// valid, is refused, which is an answer, and so is the certificate of another scenario; and one that is not
/// checked, since that takes more steps. Only the scenario is compared, so two texts with other spellings of one
/// scenario are the same.
pub fn check_answer(
    alloc: Global,
    wanted: Option<&Scenario>,
    tells: bool,
    unit: Option<TimeUnit>,
    limit: Option<u64>,
    text: &[u8],
) -> Result<Answer, Fault>
    ensures { SaysUnlessMemory (SaysWithin limit NotChecked (check_says (option_map (λ s. s.now) wanted.entry) tells unit))
        text.now (reply_of result) }
{
    match (wanted, tells) {
        (None, false) => ask(alloc, Asking::Check, limit, text),
        (None, true) => answer_about(alloc, limit, None, true, unit, text),
        (Some(wanted), tells) => answer_about(alloc, limit, Some(wanted), tells, unit, text),
    }
}

/// The same where a scenario is wanted, or what is accepted is told.
fn answer_about(
    alloc: Global,
    limit: Option<u64>,
    wanted: Option<&Scenario>,
    tells: bool,
    unit: Option<TimeUnit>,
    text: &[u8],
) -> Result<Answer, Fault>
    ensures { SaysUnlessMemory (SaysWithin limit NotChecked (CheckAboutSays (option_map (λ s. s.now) wanted.entry) tells unit))
        text.now (reply_of result) }
{
    texts_are_read();
    checked_is_valid();
    match read(alloc, text) {
        Ok(certificate) => {
            let told = about_certificate(alloc, wanted, tells, unit, limit, &certificate)?;
            Ok(told.of_certificate(certificate))
        }
        Err(fault) => answer_to_fault(alloc, fault),
    }
}

/// The answer to a certificate that was read.
fn about_certificate(
    alloc: Global,
    wanted: Option<&Scenario>,
    tells: bool,
    unit: Option<TimeUnit>,
    limit: Option<u64>,
    certificate: &Certificate,
) -> Result<Answer, Fault>
    ensures { AnswersCertificate (SaysWithin limit NotChecked (CheckAboutSays (option_map (λ s. s.now) wanted.entry) tells unit))
        certificate.now (reply_of result) }
{
    texts_differ();
    let answer = ask_certificate(alloc, Asking::Check, limit, certificate)?;
    match answer.done {
        Done::Fine => Ok(answer_to_yes(alloc, wanted, tells, unit, certificate, answer.text)?),
        _ => Ok(answer),
    }
}

/// The answer to a certificate that `check` accepts with this line.
fn answer_to_yes(
    alloc: Global,
    wanted: Option<&Scenario>,
    tells: bool,
    unit: Option<TimeUnit>,
    certificate: &Certificate,
    line: Vec<u8>,
) -> Result<Answer, AllocError>
    ensures { (text : List ℕ) → IsAcceptedAs certificate.now text line.items
        → IfOk result (λ answer. CheckAboutSays (option_map (λ s. s.now) wanted.entry) tells unit text
        (Ok (told_of_answer answer))) }
{
    match unwanted_part(wanted, certificate.scenario()) {
        Some(part) => Ok(Answer {
            done: Done::Differs(part),
            text: differs_line(alloc, part)?,
            known: None,
        }),
        None => Ok(Answer {
            done: Done::Fine,
            text: accepted_text(certificate, tells, unit, line)?,
            known: None,
        }),
    }
}

/// The first part in which a scenario differs from the one that is wanted, if one is.
fn unwanted_part(wanted: Option<&Scenario>, scenario: &Scenario) -> Option<Part>
    ensures { MatchOption result (IsWanted (option_map (λ s. s.now) wanted.entry) scenario.now)
        (IsUnwanted (option_map (λ s. s.now) wanted.entry) scenario.now) }
{
    match wanted {
        Some(wanted) => difference(wanted, scenario),
        None => None,
    }
}

/// The yes, and below it what was accepted, where that is to be told.
fn accepted_text(
    certificate: &Certificate,
    tells: bool,
    unit: Option<TimeUnit>,
    line: Vec<u8>,
) -> Result<Vec<u8>, AllocError>
    ensures { IfOk result (λ text. text.items ≡ line.items ++ told_if tells unit certificate.now) }
{
    let mut text = line;
    if tells {
        push_certificate(certificate, unit, &mut text)?;
    }
    Ok(text)
}
