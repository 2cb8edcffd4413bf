//! An answer with the ceiling of its scenario in a line below it (docs/FORMATS.md, "What `ceiling` writes").

ghost use Rattle.std.specs.Prelude.{◌≡◌, ℕ, List, Ok, IfOk, OnOk};
ghost use Rattle.convoy_toml.specs.declared.asked.Asked.{Asked};
ghost use Rattle.convoy_toml.specs.Reading.{scenario_of_text_by};
ghost use Rattle.convoy_branch.specs.Options.{Settings};
ghost use Rattle.convoy_commands.specs.declared.done.Done.TheVariants.{NotChecked};
ghost use Rattle.convoy_commands.specs.Measured.{measure_of_text};
ghost use Rattle.convoy_commands.specs.Replies.{SaysUnlessMemory, reply_of, told_of_answer};
ghost use Rattle.convoy_commands.specs.Searches.{LatencySays};
ghost use Rattle.convoy_commands.specs.WithCeilings.{ExplainWithCeilingSays, HasCeilingBelow, latency_says};
ghost use Rattle.convoy_commands.specs.Withins.{AnswersCertificate, SaysWithin};

use super::answer::Answer;
use super::asking::{Asking, answer_to_fault, ask_certificate};
use super::done::Done;
use super::fault::Fault;
use super::reply_lines::push_ceiling;
use convoy_ceiling::target_ceiling;
use convoy_certificate::certificate_laws::texts_are_read;
use convoy_certificate::{Certificate, read};
use convoy_checker::tree_laws::checked_is_valid;
use convoy_scenario::{Scenario, TimeUnit};
use convoy_times::Measure;
use std::alloc::{AllocError, Global};

/// An answer of `latency` for a scenario, and below it the scenario's ceiling where that is asked for.
pub(crate) fn put_ceiling(
    with_ceiling: bool,
    scenario: &Scenario,
    measure: Option<Measure>,
    answer: Answer,
) -> Result<Answer, AllocError>
    ensures { (asked : Asked) (settings : Settings) (text : List ℕ) → scenario_of_text_by asked text ≡ Ok scenario.now
        → measure ≡ measure_of_text settings.unit text scenario.now
        → LatencySays asked settings text (Ok (told_of_answer answer))
        → IfOk result (λ told. latency_says with_ceiling asked settings text (Ok (told_of_answer told))) }
{
    if !with_ceiling {
        return Ok(answer);
    }
    let Answer { done, text, .. } = answer;
    let mut text = text;
    push_ceiling_of(scenario, measure, &mut text)?;
    Ok(Answer {
        done,
        text,
        known: None,
    })
}

/// What `explain` answers for a text, and below it the ceiling of the certificate's scenario; where there is a
/// limit, with so many steps at most to check the certificate (docs/FORMATS.md, "Steps"). Fails with `Fault::Memory`,
/// and else never.
pub fn explain_with_ceiling(
    alloc: Global,
    unit: Option<TimeUnit>,
    limit: Option<u64>,
    text: &[u8],
) -> Result<Answer, Fault>
    ensures { SaysUnlessMemory (SaysWithin limit NotChecked (ExplainWithCeilingSays unit)) text.now
        (reply_of result) }
{
    texts_are_read();
    checked_is_valid();
    match read(alloc, text) {
        Ok(certificate) => {
            let told = explained_with_ceiling(alloc, unit, limit, &certificate)?;
            Ok(told.of_certificate(certificate))
        }
        Err(fault) => answer_to_fault(alloc, fault),
    }
}

/// The explanation of a certificate, and below it the ceiling of its scenario.
fn explained_with_ceiling(
    alloc: Global,
    unit: Option<TimeUnit>,
    limit: Option<u64>,
    certificate: &Certificate,
) -> Result<Answer, Fault>
    ensures { AnswersCertificate (SaysWithin limit NotChecked (ExplainWithCeilingSays unit))
        certificate.now (reply_of result) }
{
    let answer = ask_certificate(alloc, Asking::Explain(unit), limit, certificate)?;
    match answer.done {
        Done::Fine => {
            let mut text = answer.text;
            let scenario = certificate.scenario();
            let measure = Measure::of(scenario, unit, None);
            push_ceiling_of(scenario, measure, &mut text)?;
            Ok(Answer {
                done: Done::Fine,
                text,
                known: None,
            })
        }
        _ => Ok(answer),
    }
}

/// Appends the line of the ceiling of a scenario's target.
fn push_ceiling_of(
    scenario: &Scenario,
    measure: Option<Measure>,
    out: &mut Vec<u8>,
) -> Result<(), AllocError>
    ensures { OnOk result (HasCeilingBelow measure scenario.now out.old.items out.new.items) }
{
    push_ceiling(measure, target_ceiling(scenario), out)
}
