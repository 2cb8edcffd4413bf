ghost use Rattle.std.specs.Prelude.{◌≡◌, ◌++◌, IfOk, OnOk};
ghost use Rattle.convoy_budget.specs.Ways.{ways_of};
ghost use Rattle.convoy_commands.specs.Verdicts.{has_deadline};
ghost use Rattle.convoy_survey.specs.Surveys.{end_of};
ghost use Rattle.convoy_report.specs.Pages.{answers_text, around_text, page_text, start_text, survey_of, system_of, title_text, verdict_text};

use super::notes::{AROUND_END, AROUND_START, CHANGES_NOTE, SURVEY_NOTE};
use super::pieces::title;
use super::report::Report;
use super::sections::{push_end, push_runs, push_start, push_system, push_table, verdict};
use super::system::{message_table, way_table};
use convoy_budget::Way;
use convoy_lines::push_number;
use convoy_scenario::Scenario;
use convoy_survey::{Surveyed, end_of, has_deadline, survey_text};
use convoy_tables::{Format, table_text};
use std::alloc::{AllocError, Global};

/// The page of a report, with a map of its system and the ways on which its packets travel.
pub(crate) fn page_of(
    alloc: Global,
    report: &Report,
    map: &[u8],
    ways: &[Way],
) -> Result<Vec<u8>, AllocError>
    requires { ways.now ≡ ways_of report.now.scenario }
    ensures { IfOk result (λ page. page.items ≡ page_text report.now map.now) }
{
    let mut page = Vec::new(alloc);
    push_answers(alloc, report, &mut page)?;
    push_runs(alloc, &report.scenario, &report.runs, &mut page)?;
    push_table(
        "What to change first",
        CHANGES_NOTE,
        &report.changes,
        &mut page,
    )?;
    push_system_of(alloc, report, map, ways, &mut page)?;
    push_end(alloc, &report.digest, &mut page)?;
    Ok(page)
}

/// Appends the start of the page, the verdict, what is asked around targets, and the table of the survey.
fn push_answers(alloc: Global, report: &Report, out: &mut Vec<u8>) -> Result<(), AllocError>
    ensures { OnOk result (out.new.items ≡ out.old.items ++ answers_text report.now) }
{
    push_title(alloc, &report.scenario, out)?;
    push_verdict(&report.deadlines, &report.rows, out)?;
    push_around(report.span, out)?;
    let survey = survey_of(alloc, report)?;
    push_table("Worst cases", SURVEY_NOTE, &survey, out)
}

/// Appends the start of the page, of which the title is the target.
fn push_title(alloc: Global, scenario: &Scenario, out: &mut Vec<u8>) -> Result<(), AllocError>
    ensures { OnOk result (out.new.items ≡ out.old.items
        ++ start_text (title_text scenario.now scenario.now.target_message scenario.now.target_group)) }
{
    let title = title(
        alloc,
        scenario,
        scenario.target_message(),
        scenario.target_group(),
    )?;
    push_start(&title, out)
}

/// Appends the verdict by how the survey ended.
fn push_verdict(
    deadlines: &[Option<u32>],
    rows: &[Surveyed],
    out: &mut Vec<u8>,
) -> Result<(), AllocError>
    ensures { OnOk result (out.new.items ≡ out.old.items
        ++ verdict_text (has_deadline deadlines.now) (end_of deadlines.now rows.now)) }
{
    let verdict = verdict(has_deadline(deadlines), end_of(deadlines, rows));
    out.extend_from_slice(verdict.as_bytes())
}

/// Appends what is said where all is asked around targets.
fn push_around(span: Option<u32>, out: &mut Vec<u8>) -> Result<(), AllocError>
    ensures { OnOk result (out.new.items ≡ out.old.items ++ around_text span) }
{
    match span {
        Some(span) => {
            out.extend_from_slice(AROUND_START.as_bytes())?;
            push_number(out, span)?;
            out.extend_from_slice(AROUND_END.as_bytes())
        }
        None => Ok(()),
    }
}

/// The table of the survey, with ceilings.
fn survey_of(alloc: Global, report: &Report) -> Result<Vec<u8>, AllocError>
    ensures { IfOk result (λ table. table.items ≡ survey_of report.now) }
{
    survey_text(
        alloc,
        Format::Html,
        true,
        &report.times,
        &report.deadlines,
        &report.scenario,
        &report.rows,
    )
}

/// Appends the section of the system, with a map of it and the ways on which its packets travel.
fn push_system_of(
    alloc: Global,
    report: &Report,
    map: &[u8],
    ways: &[Way],
    out: &mut Vec<u8>,
) -> Result<(), AllocError>
    requires { ways.now ≡ ways_of report.now.scenario }
    ensures { OnOk result (out.new.items ≡ out.old.items ++ system_of report.now map.now) }
{
    let messages = message_table(alloc, &report.times, &report.deadlines, &report.scenario)?;
    let messages = table_text(alloc, &messages, Format::Html)?;
    let ways = way_table(alloc, &report.times, &report.scenario, ways)?;
    let ways = table_text(alloc, &ways, Format::Html)?;
    push_system(map, &messages, &ways, out)
}
