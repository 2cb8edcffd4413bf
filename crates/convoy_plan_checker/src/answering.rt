ghost use Rattle.std.specs.Prelude.{◌≡◌, length};
ghost use Rattle.convoy_commands.specs.Replies.{SaysUnlessMemory, reply_of};
ghost use Rattle.convoy_plan_checker.specs.PlanCheckAnswers.{PlanCheckSays};

use super::checking::check_plan_text;
use super::refusal_lines::plan_refusal_line;
use convoy_best_order::Wanted;
use convoy_commands::{Answer, Done, Fault};
use convoy_plans::read_plan;
use convoy_toml::Asked;
use std::alloc::Global;

/// Checks the certificate of a plan that stands below the plan in a text, for the targets that are wanted
/// (docs/FORMATS.md, "Certificates of plans"): it begins at the first line of the text that is the first one of its form. What
/// is written is `accepted`, or the line of the refusal, which ends as `Done::PlanRefused`.
///
/// Faults are those of [`read_plan`], of what stands above, and `Fault::Memory`.
pub fn plan_check_answer(
    alloc: Global,
    wanted: Wanted,
    asked: &Asked,
    text: &[u8],
) -> Result<Answer, Fault>
    ensures { SaysUnlessMemory (PlanCheckSays wanted asked.now) text.now (reply_of result) }
{
    let (above, below) = parts_of(text);
    let plan = read_plan(alloc, asked, above)?;
    match check_plan_text(alloc, &plan, wanted, below) {
        Ok(_) => {
            let line = Vec::from_slice(alloc, b"accepted\n")?;
            Ok(written(Done::Fine, line))
        }
        Err(refusal) => {
            if refusal.is_memory() {
                return Err(Fault::Memory);
            }
            let line = plan_refusal_line(alloc, refusal)?;
            Ok(written(Done::PlanRefused, line.into_bytes()))
        }
    }
}

/// An answer of which nothing is known besides.
fn written(done: Done, text: Vec<u8>) -> Answer
    ensures done { result.done ≡ done }
    ensures text { result.text ≡ text }
{
    Answer {
        done,
        text,
        known: None,
    }
}

ghost use Rattle.std.specs.Prelude.{◌≤◌};
ghost use Rattle.convoy_plan_checker.specs.PlanCheckAnswers.{IsParted, begins_at, ends_line, is_headed};

/// The first line of certificates of plans.
const FIRST_LINE: &[u8] = b"convoy plan 1\n";

/// What stands above the first place where a certificate begins, and what stands from there on: nothing if none begins.
#[tactic(auto, using(crate::proofs::Parting::none_up_to))]
fn parts_of(text: &[u8]) -> (&[u8], &[u8])
    ensures { IsParted text.now result.0.now result.1.now }
{
    for place in 0..text.len() {
        if begins_at(text, place) {
            return text.split_at(place);
        }
    }
    text.split_at(text.len())
}

/// Whether a certificate begins at that place of a text.
fn begins_at(text: &[u8], place: usize) -> bool
    requires { place ≤ length text.now }
    ensures { result ≡ begins_at text.now place }
{
    let (above, below) = text.split_at(place);
    ends_line(above) && is_headed(below)
}

/// Whether a line begins behind this text.
fn ends_line(above: &[u8]) -> bool
    ensures { result ≡ ends_line above.now }
{
    matches!(above.last(), None | Some(b'\n'))
}

/// Whether the text begins with the first line of certificates of plans.
fn is_headed(below: &[u8]) -> bool
    ensures { result ≡ is_headed below.now }
{
    below.starts_with(FIRST_LINE)
}
