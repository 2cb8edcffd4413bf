ghost use Rattle.std.specs.Prelude.{◌<◌, length};
ghost use Rattle.convoy_commands.specs.Replies.{SaysUnlessMemory, reply_of};
ghost use Rattle.convoy_outage_answers.specs.SurveysThrough.{SurveyThroughSays};

use super::ends::end_through;
use super::latency::span_through;
use super::rows::survey_through;
use super::table::survey_through_text;
use convoy_branch::Options;
use convoy_commands::{Answer, Fault, Watch};
use convoy_outages::Outage;
use convoy_survey::{Times, span_of};
use convoy_tables::Format;
use convoy_times::Measure;
use convoy_toml::{Asked, read_toml_asked};
use std::alloc::Global;
use std::sync::Wait;
use std::thread::Threads;

/// The survey of the scenario of a text as [`survey_answer`](convoy_survey::survey_answer) writes it, where outages are
/// asked for: each row has one number more, right after what the search found, that no latency of its target exceeds
/// through outages that last so long in all (docs/FORMATS.md, "What `survey` writes"), in ticks and where times are told as
/// a time, too; and the row of a message at all its groups the greatest of these. How a row keeps its deadline is judged by
/// what the search finds that its latency is at least and by that number.
///
/// It ends as `Done::Beyond` where a row is beyond its deadline; else as `Done::Faulty` where memory ran out for a row,
/// while its latency was sought or while that through outages was; else as `Done::Open` where it is not known whether a row
/// keeps its deadline, or where the search did not end for one that has none.
///
/// Faults of the whole are `Fault::Scenario`, where the text is that of no scenario; `Fault::Outage`, where outages last for
/// a duration and it is not known how long a tick is, or longer than they may; and `Fault::Memory`.
pub fn survey_through_answer<R: Threads + Wait + Sync, W: Watch + Sync>(
    rt: &R,
    alloc: Global,
    format: Format,
    with_ceilings: bool,
    outage: Outage,
    asked: &Asked,
    options: &Options,
    text: &[u8],
    watches: &[W],
) -> Result<Answer, Fault>
    requires { 0 < length watches.now }
    ensures { SaysUnlessMemory (SurveyThroughSays format with_ceilings outage asked.now options.now) text.now
        (reply_of result) }
{
    let input = read_toml_asked(alloc, text, asked)?;
    let scenario = input.scenario;
    // A scenario is well formed.
    let _count = scenario.message_count();
    let outage = span_through(outage, &scenario)?;
    let span = span_of(asked, text, &scenario);
    let rows = survey_through(rt, alloc, outage, span, &scenario, options, watches)?;
    let times = Times::of(format, Measure::of(&scenario, options.unit(), input.unit));
    let deadlines = input.deadlines.as_slice();
    let text = survey_through_text(
        alloc,
        format,
        with_ceilings,
        &times,
        deadlines,
        &scenario,
        &rows,
    )?;
    let done = end_through(deadlines, &rows);
    Ok(Answer::about(done, text, scenario, input.plain))
}
