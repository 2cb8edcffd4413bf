ghost use Rattle.std.specs.Prelude.{◌≡◌, ◌<◌, length};
ghost use Rattle.convoy_commands.specs.Replies.{SaysUnlessMemory, reply_of};
ghost use Rattle.convoy_report.specs.Reports.{ReportSays};
ghost use Rattle.convoy_report.specs.Runs.{GivesReport};

use super::choosing::shown_targets;
use super::digest::digest_of;
use super::map::map_of;
use super::page::page_of;
use super::report::Report;
use super::running::runs_of;
use convoy_branch::Options;
use convoy_budget::ways_of;
use convoy_commands::{Answer, Fault, Watch};
use convoy_packets::Instance;
use convoy_survey::{Times, end_of, span_of, survey};
use convoy_tables::Format;
use convoy_times::Measure;
use convoy_toml::{Asked, Input, read_toml_asked};
use convoy_what_if::what_if_answer;
use std::alloc::Global;
use std::sync::Wait;
use std::thread::Threads;

/// The report of the scenario of a text, where that is asked, and each row and run around its own target where all is
/// asked so ([`span_of`]): a page in HTML that stands alone, with the table of
/// [`survey_answer`](convoy_survey::survey_answer) and its verdict; the worst runs of the target and of each row beyond
/// its deadline, but no more than nine, as [`ask`](convoy_commands::ask) explains and draws them; what each change
/// saves ([`what_if_answer`]); the system; and the digest of the scenario (docs/FORMATS.md, "What `report` writes").
/// Its numbers are those of these commands, in ticks, and where times are told in the unit that the options ask for or
/// else the text writes, too. The searches of the survey and of the changes are made as many at a time as there are
/// watches, and each is watched by one of them; the others are watched by the first.
///
/// It ends as the survey does. The faults are `Fault::Scenario`, where the text is that of no scenario, or where a
/// change makes none, and `Fault::Memory`.
pub fn report_answer<R: Threads + Wait + Sync, W: Watch + Sync>(
    rt: &R,
    alloc: Global,
    asked: &Asked,
    options: &Options,
    text: &[u8],
    watches: &[W],
) -> Result<Answer, Fault>
    requires { 0 < length watches.now }
    ensures { SaysUnlessMemory (ReportSays asked.now options.now) text.now (reply_of result) }
{
    let report = report_of(rt, alloc, asked, options, text, watches)?;
    let instance = Instance::of(alloc, report.scenario.copy()?)?;
    let ways = ways_of(alloc, &instance)?;
    let map = map_of(alloc, &report.scenario, &ways)?;
    let page = page_of(alloc, &report, map.as_bytes(), &ways)?;
    let done = end_of(&report.deadlines, &report.rows);
    Ok(Answer::about(done, page, report.scenario, report.plain))
}

/// What the report of the scenario of a text tells.
fn report_of<R: Threads + Wait + Sync, W: Watch + Sync>(
    rt: &R,
    alloc: Global,
    asked: &Asked,
    options: &Options,
    text: &[u8],
    watches: &[W],
) -> Result<Report, Fault>
    requires { 0 < length watches.now }
    ensures { GivesReport asked.now options.now text.now result }
{
    let Input {
        scenario,
        deadlines,
        unit,
        plain,
        ..
    } = read_toml_asked(alloc, text, asked)?;
    // A scenario is well formed.
    let _count = scenario.message_count();
    let times = Times::of(Format::Html, Measure::of(&scenario, options.unit(), unit));
    let span = span_of(asked, text, &scenario);
    let rows = survey(rt, alloc, span, &scenario, options, watches)?;
    let targets = shown_targets(alloc, &scenario, &deadlines, &rows)?;
    let watch = &watches[0];
    let runs = runs_of(rt, alloc, asked, options, text, &scenario, &targets, watch)?;
    let changes = what_if_answer(
        rt,
        alloc,
        Format::Html,
        false,
        asked,
        options,
        text,
        watches,
    )?;
    let digest = digest_of(alloc, text)?;
    Ok(Report {
        scenario,
        span,
        deadlines,
        times,
        rows,
        runs,
        changes: changes.text,
        digest,
        plain,
    })
}
