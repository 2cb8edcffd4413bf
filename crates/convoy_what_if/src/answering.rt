ghost use Rattle.std.specs.Prelude.{◌≡◌, ◌<◌, length};
ghost use Rattle.std.specs.List.{list_any};
ghost use Rattle.convoy_commands.specs.Replies.{SaysUnlessMemory, reply_of};
ghost use Rattle.convoy_survey.specs.Findings.{is_fault};
ghost use Rattle.convoy_survey.specs.Judgements.{is_finding_beyond, is_finding_open};
ghost use Rattle.convoy_what_if.specs.WhatIf.{WhatIfSays, end_of};

use super::folding::unchanged_latency;
use super::rows::what_if;
use super::table::text_of;
use super::tried::Tried;
use convoy_branch::Options;
use convoy_commands::{Answer, Done, Fault, Known, Watch, deadline_at};
use convoy_packets::Instance;
use convoy_scenario::Scenario;
use convoy_survey::Times;
use convoy_tables::Format;
use convoy_times::Measure;
use convoy_toml::{Asked, PlainNumber, read_toml_asked};
use std::alloc::Global;
use std::sync::Wait;
use std::thread::Threads;

/// The survey of changes of the scenario of a text, where that is asked: a table with a row for each change of one thing,
/// so that its reader sees what to change first: each other message left out, and each link that packets travel at its
/// least and at its most, beside the scenario as it is. Rows are those of [`what_if`], in its order; a row's
/// numbers are those that [`latency_answer`](convoy_commands::latency_answer) tells of the scenario that is changed
/// so, in ticks, and where times are told ([`Times::of`]) in the unit that the options ask for or else the text writes,
/// too. Where the target has a deadline, columns tell how each row keeps it. Unless all are to be shown, one line below
/// the scenario as it is stands for those with which the greatest latency is the same. As many changes are tried at a time
/// as there are watches, each search watched by one: by [`NoGate`](convoy_branch::NoGate) where nobody watches.
///
/// It ends as `Done::Beyond` where a row is beyond the deadline; else as `Done::Faulty` where memory ran out for a row;
/// else as `Done::Open` where it is not known whether a row keeps the deadline, or where there is none and the search of
/// one did not end.
///
/// A row for which memory runs out has that fault in place of numbers. Faults of the whole are `Fault::Scenario`,
/// where the text is that of no scenario, or where a change makes none, and `Fault::Memory`.
pub fn what_if_answer<R: Threads + Wait + Sync, W: Watch + Sync>(
    rt: &R,
    alloc: Global,
    format: Format,
    shows_all: bool,
    asked: &Asked,
    options: &Options,
    text: &[u8],
    watches: &[W],
) -> Result<Answer, Fault>
    requires { 0 < length watches.now }
    ensures { SaysUnlessMemory (WhatIfSays format shows_all asked.now options.now) text.now (reply_of result) }
{
    let input = read_toml_asked(alloc, text, asked)?;
    let deadline = deadline_at(&input.deadlines, input.scenario.target_message());
    let instance = Instance::of(alloc, input.scenario)?;
    let rows = what_if(rt, alloc, &instance, options, watches)?;
    let scenario = instance.into_scenario();
    let times = Times::of(format, Measure::of(&scenario, options.unit(), input.unit));
    let text = text_of(alloc, format, &times, deadline, shows_all, &scenario, &rows)?;
    let done = end_of(deadline, &rows);
    let greatest = unchanged_latency(&rows);
    Ok(about_greatest(done, text, scenario, input.plain, greatest))
}

/// An answer about a scenario of which the greatest latency, in ticks, may be known.
fn about_greatest(
    done: Done,
    text: Vec<u8>,
    scenario: Scenario,
    plain: Option<PlainNumber>,
    greatest: Option<u32>,
) -> Answer
    ensures done { result.done ≡ done }
    ensures text { result.text ≡ text }
{
    Answer {
        done,
        text,
        known: Some(Known {
            scenario,
            greatest,
            plain,
        }),
    }
}

/// How it ends with these rows, by the deadline of the target.
fn end_of(deadline: Option<u32>, rows: &[Tried]) -> Done
    ensures { result ≡ end_of deadline rows.now }
{
    Done::by(
        has_beyond(deadline, rows),
        has_fault(rows),
        has_open(deadline, rows),
    )
}

/// Whether a row is beyond the deadline.
fn has_beyond(deadline: Option<u32>, rows: &[Tried]) -> bool
    ensures { result ≡ list_any (λ row. is_finding_beyond deadline row.finding) rows.now }
{
    rows.iter().any(|row| row.finding.is_beyond(deadline))
}

/// Whether memory ran out for a row.
fn has_fault(rows: &[Tried]) -> bool
    ensures { result ≡ list_any (λ row. is_fault row.finding) rows.now }
{
    rows.iter().any(|row| row.finding.is_fault())
}

/// Whether it is not known if a row keeps the deadline, or where there is none whether the search of one did not end.
fn has_open(deadline: Option<u32>, rows: &[Tried]) -> bool
    ensures { result ≡ list_any (λ row. is_finding_open deadline row.finding) rows.now }
{
    rows.iter().any(|row| row.finding.is_open_by(deadline))
}
