//! Surveys, by options or by what a text tells.

ghost use Rattle.std.specs.Prelude.{◌<◌, length};
ghost use Rattle.convoy_commands.specs.Replies.{SaysUnlessMemory, reply_of};
ghost use Rattle.convoy_tasks.specs.Tasks.{survey_by, survey_plain_by, survey_through_by};

use super::latency::outage_told;
use convoy_case_survey::{case_asked, survey_of_cases_answer};
use convoy_commands::{Answer, Fault, Options, Watch};
use convoy_outage_answers::survey_through_answer;
use convoy_outages::Outage;
use convoy_survey::survey_answer;
use convoy_tables::Format;
use convoy_toml::{Asked, cases_of_text};
use std::alloc::Global;
use std::sync::Wait;
use std::thread::Threads;

/// The greatest latencies of all targets, and what none is above through outages where the option or the text tells some.
pub(crate) fn answer_survey<R: Threads + Wait + Sync, W: Watch + Sync>(
    rt: &R,
    alloc: Global,
    format: Format,
    with_ceilings: bool,
    outage: Option<Outage>,
    asked: &Asked,
    options: &Options,
    text: &[u8],
    watches: &[W],
) -> Result<Answer, Fault>
    requires { 0 < length watches.now }
    ensures { SaysUnlessMemory (survey_by outage format with_ceilings asked.now options.now) text.now (reply_of result) }
{
    let outage = outage_told(alloc, outage, text)?;
    survey_through(
        rt,
        alloc,
        format,
        with_ceilings,
        outage,
        asked,
        options,
        text,
        watches,
    )
}

/// The greatest latencies of all targets, and what none is above through outages where these are asked for.
fn survey_through<R: Threads + Wait + Sync, W: Watch + Sync>(
    rt: &R,
    alloc: Global,
    format: Format,
    with_ceilings: bool,
    outage: Option<Outage>,
    asked: &Asked,
    options: &Options,
    text: &[u8],
    watches: &[W],
) -> Result<Answer, Fault>
    requires { 0 < length watches.now }
    ensures { SaysUnlessMemory (survey_through_by outage format with_ceilings asked.now options.now) text.now
        (reply_of result) }
{
    match outage {
        Some(outage) => survey_through_answer(
            rt,
            alloc,
            format,
            with_ceilings,
            outage,
            asked,
            options,
            text,
            watches,
        ),
        None => survey_plain(
            rt,
            alloc,
            format,
            with_ceilings,
            asked,
            options,
            text,
            watches,
        ),
    }
}

/// The greatest latencies of all targets: in each case of the text, where several may send a message, and else in its only
/// one.
fn survey_plain<R: Threads + Wait + Sync, W: Watch + Sync>(
    rt: &R,
    alloc: Global,
    format: Format,
    with_ceilings: bool,
    asked: &Asked,
    options: &Options,
    text: &[u8],
    watches: &[W],
) -> Result<Answer, Fault>
    requires { 0 < length watches.now }
    ensures { SaysUnlessMemory (survey_plain_by format with_ceilings asked.now options.now) text.now
        (reply_of result) }
{
    if cases_of_text(alloc, text)? >= 2 {
        return survey_of_cases_answer(
            rt,
            alloc,
            format,
            with_ceilings,
            asked,
            options,
            text,
            watches,
        );
    }
    let asked = case_asked(asked, 0)?;
    survey_answer(
        rt,
        alloc,
        format,
        with_ceilings,
        &asked,
        options,
        text,
        watches,
    )
}
