ghost use Rattle.std.specs.Prelude.{◌≡◌, ◌<◌, length};
ghost use Rattle.std.specs.List.{list_any};
ghost use Rattle.convoy_commands.specs.Replies.{SaysUnlessMemory, reply_of};
ghost use Rattle.convoy_survey.specs.Findings.{is_fault};
ghost use Rattle.convoy_survey.specs.Surveys.{SurveySays, end_of, is_row_beyond, is_row_open};

use super::finding::Surveyed;
use super::rows::survey;
use super::table::survey_text;
use super::times::Times;
use convoy_branch::Options;
use convoy_commands::{Answer, Done, Fault, Watch, deadline_at};
use convoy_scenario::Scenario;
use convoy_tables::Format;
use convoy_times::Measure;
use convoy_toml::text_laws::texts_have_spans;
use convoy_toml::{Asked, read_toml_asked, span_asked};
use std::alloc::Global;
use std::sync::Wait;
use std::thread::Threads;

/// The survey of the scenario of a text: a table with a row for each message at each group that it goes to
/// (docs/FORMATS.md, "What `survey` writes"). Of what is asked its target does not matter. The numbers of a row are
/// those that [`latency_answer`](convoy_commands::latency_answer) tells of the scenario with that target, or around it
/// where all is asked so: each message has its rows then. With ceilings, a row ends with the
/// [`ceiling`](convoy_ceiling::ceiling) of its message at its group. Below the rows of a message stands one for it at
/// all its groups, with the greatest of their numbers: when a client that waits for all of them has its answer. Numbers
/// are in ticks, and where times are told ([`Times::of`]) in the unit that the options ask for or else the text writes,
/// too. Where a message has a deadline, columns tell how each row keeps that of its own message. Each search is
/// watched, by [`NoGate`](convoy_branch::NoGate) where nobody watches.
///
/// It ends as `Done::Beyond` where a row is beyond its deadline; else as `Done::Faulty` where memory ran out for a row;
/// else as `Done::Open` where it is not known whether a row keeps its deadline, or where the search did not end for one
/// that has none.
///
/// A row for which memory runs out has that fault in place of numbers, with its ceiling all the same, and the survey
/// goes on. Faults of the whole are `Fault::Scenario`, where the text is that of no scenario, and `Fault::Memory`.
pub fn survey_answer<R: Threads + Wait + Sync, W: Watch + Sync>(
    rt: &R,
    alloc: Global,
    format: Format,
    with_ceilings: bool,
    asked: &Asked,
    options: &Options,
    text: &[u8],
    watches: &[W],
) -> Result<Answer, Fault>
    requires { 0 < length watches.now }
    ensures { SaysUnlessMemory (SurveySays format with_ceilings asked.now options.now) text.now
        (reply_of result) }
{
    let input = read_toml_asked(alloc, text, asked)?;
    let scenario = input.scenario;
    // A scenario is well formed.
    let _count = scenario.message_count();
    let span = span_of(asked, text, &scenario);
    let rows = survey(rt, alloc, span, &scenario, options, watches)?;
    let times = Times::of(format, Measure::of(&scenario, options.unit(), input.unit));
    let deadlines = input.deadlines.as_slice();
    let text = survey_text(
        alloc,
        format,
        with_ceilings,
        &times,
        deadlines,
        &scenario,
        &rows,
    )?;
    let done = end_of(deadlines, &rows);
    Ok(Answer::about(done, text, scenario, input.plain))
}

ghost use Rattle.std.specs.Prelude.{IfSome, IsTrue, Ok};
ghost use Rattle.convoy_around.specs.Around.{is_span};
ghost use Rattle.convoy_toml.specs.Around.{span_asked};
ghost use Rattle.convoy_toml.specs.Reading.{scenario_of_text_by};

/// The span by which all is asked around the targets of the scenario that was read of a text, where it is asked so, in
/// ticks ([`span_asked`]): no longer than one may be.
pub fn span_of(asked: &Asked, _text: &[u8], scenario: &Scenario) -> Option<u32>
    requires { scenario_of_text_by asked.now _text.now ≡ Ok scenario.now }
    ensures value { result ≡ span_asked asked.now.around scenario.now }
    ensures short { IfSome result (λ n. IsTrue (is_span n)) }
{
    texts_have_spans();
    span_asked(asked.around, scenario)
}

/// How a survey with these rows ends, by the deadlines of the messages.
pub fn end_of(deadlines: &[Option<u32>], rows: &[Surveyed]) -> Done
    ensures { result ≡ end_of deadlines.now rows.now }
{
    Done::by(
        has_beyond(deadlines, rows),
        has_fault(rows),
        has_open(deadlines, rows),
    )
}

/// Whether a row is beyond the deadline of its message.
fn has_beyond(deadlines: &[Option<u32>], rows: &[Surveyed]) -> bool
    ensures { result ≡ list_any (is_row_beyond deadlines.now) rows.now }
{
    rows.iter().any(|row| is_row_beyond(deadlines, row))
}

/// Whether memory ran out for a row.
fn has_fault(rows: &[Surveyed]) -> bool
    ensures { result ≡ list_any (λ row. is_fault row.finding) rows.now }
{
    rows.iter().any(|row| row.finding.is_fault())
}

/// Whether a row is open.
fn has_open(deadlines: &[Option<u32>], rows: &[Surveyed]) -> bool
    ensures { result ≡ list_any (is_row_open deadlines.now) rows.now }
{
    rows.iter().any(|row| is_row_open(deadlines, row))
}

/// Whether a row is beyond the deadline of its message.
pub fn is_row_beyond(deadlines: &[Option<u32>], row: &Surveyed) -> bool
    ensures { result ≡ is_row_beyond deadlines.now row.now }
{
    row.finding.is_beyond(deadline_at(deadlines, row.message))
}

/// Whether it is not known if a row keeps the deadline of its message, or where that has none the search did not end.
pub fn is_row_open(deadlines: &[Option<u32>], row: &Surveyed) -> bool
    ensures { result ≡ is_row_open deadlines.now row.now }
{
    row.finding.is_open_by(deadline_at(deadlines, row.message))
}
