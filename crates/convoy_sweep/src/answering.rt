ghost use Rattle.std.specs.Prelude.{◌≡◌, ◌<◌, length};
ghost use Rattle.std.specs.List.{list_any};
ghost use Rattle.convoy_survey.specs.Findings.{is_fault};
ghost use Rattle.convoy_survey.specs.Judgements.{is_finding_beyond, is_finding_open};
ghost use Rattle.convoy_sweep.specs.Answers.{SweepSaysUnlessMemory, end_of, sweep_reply};

use super::fault::SweepFault;
use super::kinds::{Sweep, Swept};
use super::preparing::{Prepared, prepare};
use super::rows::sweep_rows;
use super::table::text_of;
use convoy_branch::Options;
use convoy_commands::{Answer, Done, Watch, deadline_at};
use convoy_survey::Times;
use convoy_tables::Format;
use convoy_times::Measure;
use convoy_toml::Asked;
use std::alloc::Global;
use std::sync::Wait;
use std::thread::Threads;

/// How the greatest latency changes with a key of a text, or with two: a table with a row for each value, and with two
/// keys for each pair of values, the first key outermost. A row tells what [`latency_answer`](convoy_commands::latency_answer)
/// tells of the scenario that the text makes where the key has that value, with the length of a tick that the text has as
/// it is. Of what lies between two values nothing is told; but as an envelope each row gives a message the window from one
/// value to the next, and so tells of all times of issue in it. Numbers are in ticks, and where times are told
/// ([`Times::of`]) in the unit that the options ask for or else the text writes, too. Where the target has a deadline,
/// columns tell how each row keeps it. As many rows are searched at a time as there are watches, each watched by one.
///
/// It ends as `Done::Beyond` where a row is beyond the deadline; else as `Done::Faulty` where memory ran out for a row;
/// else as `Done::Open` where it is not known whether a row keeps the deadline, or where there is none and the search of
/// one did not end.
///
/// A row for which memory runs out has that fault in place of numbers. Faults of the whole are told before any search, by
/// [`prepare`]: those of the text, of the settings, and of the first point at which the text makes no scenario; and that
/// memory ran out.
pub fn sweep_answer<R: Threads + Wait + Sync, W: Watch + Sync>(
    rt: &R,
    alloc: Global,
    format: Format,
    sweep: &Sweep,
    envelope: bool,
    asked: &Asked,
    options: &Options,
    text: &[u8],
    watches: &[W],
) -> Result<Answer, SweepFault>
    requires { 0 < length watches.now }
    ensures { SweepSaysUnlessMemory format sweep.now envelope asked.now options.now text.now (sweep_reply result) }
{
    let Prepared { input, made } = prepare(alloc, sweep, envelope, asked, text)?;
    let rows = sweep_rows(rt, alloc, &made, options, watches)?;
    let scenario = input.scenario;
    let deadline = deadline_at(&input.deadlines, scenario.target_message());
    let times = Times::of(format, Measure::of(&scenario, options.unit(), input.unit));
    let text = text_of(
        alloc, format, envelope, &times, deadline, sweep, &scenario, &rows,
    )?;
    Ok(Answer::about(end_of(deadline, &rows), text, scenario, input.plain))
}

/// How it ends with these rows, by the deadline of the target.
pub(crate) fn end_of(deadline: Option<u32>, rows: &[Swept]) -> Done
    ensures { result ≡ end_of deadline rows.now }
{
    Done::by(
        has_beyond(deadline, rows),
        has_fault(rows),
        has_open(deadline, rows),
    )
}

/// Whether a row is beyond the deadline.
fn has_beyond(deadline: Option<u32>, rows: &[Swept]) -> bool
    ensures { result ≡ list_any (λ row. is_finding_beyond deadline row.finding) rows.now }
{
    rows.iter().any(|row| row.finding.is_beyond(deadline))
}

/// Whether memory ran out for a row.
fn has_fault(rows: &[Swept]) -> bool
    ensures { result ≡ list_any (λ row. is_fault row.finding) rows.now }
{
    rows.iter().any(|row| row.finding.is_fault())
}

/// Whether it is not known if a row keeps the deadline, or where there is none whether the search of one did not end.
fn has_open(deadline: Option<u32>, rows: &[Swept]) -> bool
    ensures { result ≡ list_any (λ row. is_finding_open deadline row.finding) rows.now }
{
    rows.iter().any(|row| row.finding.is_open_by(deadline))
}
