ghost use Rattle.std.specs.Prelude.{◌≡◌};
ghost use Rattle.std.specs.List.{list_any};
ghost use Rattle.convoy_commands.specs.Replies.{SaysUnlessMemory, reply_of};
ghost use Rattle.convoy_plan_ceilings.specs.Answers.{CeilingPlacingSays, PlanCeilingSays, end_of, is_row_open};

use super::ceiling_choice::CeilingChoice;
use super::choosing::least_ceiling;
use super::target_ceiling::TargetCeiling;
use super::telling::ceiling_text;
use convoy_best_order::{Wanted, listing_text};
use convoy_commands::{Answer, Done, Fault};
use convoy_plans::{PlanFault, read_plan};
use convoy_scenario::TimeUnit;
use convoy_survey::{is_open_by, verdict_at};
use convoy_tables::Format;
use convoy_times::Measure;
use convoy_toml::Asked;
use std::alloc::Global;

/// The placement of the plan of a text with the least ceilings ([`least_ceiling`]): where its groups are to be so that,
/// whatever traffic of the plan's kinds of messages there is, the least is promised for the targets that are wanted
/// ([`targets_of`](convoy_best_order::targets_of)); where one of them has a deadline only those that have one count. What is
/// written is where each group is, in a line for people and in a column else, and a table with a row for the ceiling of each
/// target, and one for all of them together (docs/FORMATS.md, "What `plan` writes"). Times are told in the unit that is asked
/// for, or else in that of the text.
///
/// It ends as `Done::Open` where a ceiling is above the deadline of its target, so that traffic may miss it, and else as
/// `Done::Fine`.
///
/// Faults are those of [`read_plan`], `Fault::Plan(PlanFault::NoPlacement)` where no placement has a scenario, and
/// `Fault::Memory`.
pub fn plan_ceiling_answer(
    alloc: Global,
    format: Format,
    wanted: Wanted,
    asked: &Asked,
    unit: Option<TimeUnit>,
    text: &[u8],
) -> Result<Answer, Fault>
    ensures { SaysUnlessMemory (PlanCeilingSays format wanted asked.now unit) text.now (reply_of result) }
{
    let plan = read_plan(alloc, asked, text)?;
    let chosen = match least_ceiling(alloc, &plan, wanted)? {
        Some(chosen) => chosen,
        None => return Err(Fault::Plan(PlanFault::NoPlacement)),
    };
    let measure = Measure::of(&chosen.scenario, unit, plan.unit());
    let text = ceiling_text(alloc, format, measure, &plan, &chosen)?;
    let done = end_of(&chosen);
    Ok(Answer::about(done, text, chosen.scenario, None))
}

/// The scenario of that placement, as a text that reads as it: what [`plan_ceiling_answer`] tells as a table. All its times
/// are numbers of ticks, it gives the schedule of least delays, and of deadlines it says nothing, as no scenario does. It ends
/// as `plan_ceiling_answer` does, and has its faults.
pub fn ceiling_placing_answer(
    alloc: Global,
    wanted: Wanted,
    asked: &Asked,
    text: &[u8],
) -> Result<Answer, Fault>
    ensures { SaysUnlessMemory (CeilingPlacingSays wanted asked.now) text.now (reply_of result) }
{
    let plan = read_plan(alloc, asked, text)?;
    let chosen = match least_ceiling(alloc, &plan, wanted)? {
        Some(chosen) => chosen,
        None => return Err(Fault::Plan(PlanFault::NoPlacement)),
    };
    let done = end_of(&chosen);
    let text = listing_text(alloc, chosen.scenario)?;
    Ok(Answer {
        done,
        text,
        known: None,
    })
}

/// How it ends.
fn end_of(chosen: &CeilingChoice) -> Done
    ensures { result ≡ end_of chosen.now }
{
    Done::by(false, false, has_open(&chosen.rows))
}

/// Whether a ceiling is above the deadline of its target.
fn has_open(rows: &[TargetCeiling]) -> bool
    ensures { result ≡ list_any is_row_open rows.now }
{
    rows.iter().any(|row| is_row_open(row))
}

/// Whether this one is.
fn is_row_open(row: &TargetCeiling) -> bool
    ensures { result ≡ is_row_open row.now }
{
    is_open_by(
        verdict_at(row.target.deadline, None, Some(row.ceiling)),
        false,
    )
}
