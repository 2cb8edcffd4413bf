ghost use Rattle.std.specs.Prelude.{◌≡◌, ◌<◌, is_none, length, option_map};
ghost use Rattle.std.specs.List.{list_any};
ghost use Rattle.convoy_draft.specs.Checks.{is_among};
ghost use Rattle.convoy_commands.specs.Replies.{SaysUnlessMemory, reply_of};
ghost use Rattle.convoy_survey.specs.Ceilings.{has_group, is_unsought};
ghost use Rattle.convoy_survey.specs.CeilingTables.{CeilingsSay, ceiled_verdict, end_of_ceilings, is_ceiled_beyond, is_ceiled_open};

use super::ceiled::Ceiled;
use super::ceiling_table::ceilings_text;
use super::ceilings::ceilings_of;
use super::judgements::{is_beyond, is_open_by, verdict_at};
use super::times::Times;
use convoy_commands::{Answer, Done, Fault, Verdict, deadline_at};
use convoy_outages::{Outage, span_asked};
use convoy_scenario::{Scenario, ScenarioFault, TimeUnit};
use convoy_tables::Format;
use convoy_times::Measure;
use convoy_toml::{Asked, read_toml_asked};
use std::alloc::Global;
use std::thread::Threads;

/// The ceilings of the scenario of a text: a table with a row for each message at each group that it goes to, and
/// below them one for the message at all its groups, with the greatest of their numbers; or only with a row for each
/// message at the one group that is named (docs/FORMATS.md, "Tables of ceilings"). Of what is asked its target does not
/// matter. A row has the ceiling and the greatest latency that is found in traffic of the scenario's kinds by at most
/// `simulations` simulations for the row, as [`ceiling_answer`](convoy_commands::ceiling_answer) tells both of a target:
/// in ticks, and where times are told ([`Times::of`]) in the unit that is asked for or else the text writes, too; and the
/// ceiling through outages, where these are asked for. Where a message has a deadline, columns tell how latencies in
/// traffic, through outages where these are asked for, keep that of a row's own message. As many rows are made at a time as
/// there are watches.
///
/// It ends as `Done::Fine` where each row keeps the deadline of its message, or where that has none its latency is its
/// ceiling. It ends as `Done::Beyond` where the latency of one is above its deadline, and else as `Done::Open` where one
/// may be so, or where that of one without a deadline is below its ceiling. A row for which memory runs out while traffic
/// is sought has its ceiling and no latency, the others are sought all the same, and the end is `Done::Faulty`, unless it
/// is `Done::Beyond`.
///
/// Faults of the whole are `Fault::Scenario`, where the text is that of no scenario, or where none of its groups has
/// the name that is given, with `ScenarioFault::UnknownGroup` as its cause; `Fault::Outage`, where outages last for a
/// duration and it is not known how long a tick is, or longer than they may; and `Fault::Memory`.
pub fn ceilings_answer<R: Threads + Sync, W: Sync>(
    rt: &R,
    alloc: Global,
    format: Format,
    outage: Option<Outage>,
    asked: &Asked,
    unit: Option<TimeUnit>,
    group: Option<&str>,
    simulations: u64,
    text: &[u8],
    watches: &[W],
) -> Result<Answer, Fault>
    requires { 0 < length watches.now }
    ensures { SaysUnlessMemory (CeilingsSay format outage asked.now unit (option_map (λ name. name.now) group.entry))
        text.now (reply_of result) }
{
    let input = read_toml_asked(alloc, text, asked)?;
    let scenario = input.scenario;
    // A scenario is well formed.
    let _count = scenario.message_count();
    if !has_group(&scenario, group) {
        return Err(Fault::Scenario(ScenarioFault::UnknownGroup));
    }
    let span = span_asked(outage, &scenario)?;
    let rows = ceilings_of(rt, alloc, &scenario, span, group, simulations, watches)?;
    let times = Times::of(format, Measure::of(&scenario, unit, input.unit));
    let deadlines = input.deadlines.as_slice();
    let text = ceilings_text(
        alloc,
        format,
        is_at_all_groups(group),
        span.is_some(),
        &times,
        deadlines,
        &scenario,
        &rows,
    )?;
    let done = end_of(deadlines, &rows);
    Ok(Answer::about(done, text, scenario, input.plain))
}

/// Whether no group is named.
fn is_at_all_groups(group: Option<&str>) -> bool
    ensures { result ≡ is_none (option_map (λ name. name.now) group.entry) }
{
    match group {
        Some(_) => false,
        None => true,
    }
}

/// Whether a scenario has the group that is named, if one is.
fn has_group(scenario: &Scenario, group: Option<&str>) -> bool
    ensures { result ≡ has_group scenario.now (option_map (λ name. name.now) group.entry) }
{
    match group {
        Some(name) => is_group(scenario, name),
        None => true,
    }
}

/// Whether a group of a scenario has this name.
fn is_group(scenario: &Scenario, name: &str) -> bool
    ensures { result ≡ is_among name.now scenario.now.groups }
{
    for group in 0..scenario.group_count() {
        if name == scenario.group_name(group) {
            return true;
        }
    }
    false
}

/// How the telling of these rows ends, by the deadlines of the messages.
fn end_of(deadlines: &[Option<u32>], rows: &[Ceiled]) -> Done
    ensures { result ≡ end_of_ceilings deadlines.now rows.now }
{
    Done::by(
        has_beyond(deadlines, rows),
        has_unsought(rows),
        has_open(deadlines, rows),
    )
}

/// Whether a row is beyond the deadline of its message.
fn has_beyond(deadlines: &[Option<u32>], rows: &[Ceiled]) -> bool
    ensures { result ≡ list_any (is_ceiled_beyond deadlines.now) rows.now }
{
    rows.iter().any(|row| is_ceiled_beyond(deadlines, row))
}

/// Whether memory ran out while traffic was sought for a row.
fn has_unsought(rows: &[Ceiled]) -> bool
    ensures { result ≡ list_any is_unsought rows.now }
{
    rows.iter().any(|row| row.is_unsought())
}

/// Whether a row is open.
fn has_open(deadlines: &[Option<u32>], rows: &[Ceiled]) -> bool
    ensures { result ≡ list_any (is_ceiled_open deadlines.now) rows.now }
{
    rows.iter().any(|row| is_ceiled_open(deadlines, row))
}

/// The verdict on a row, where its message has a deadline.
fn ceiled_verdict(deadlines: &[Option<u32>], row: &Ceiled) -> Option<Verdict>
    ensures { result ≡ ceiled_verdict deadlines.now row.now }
{
    let deadline = deadline_at(deadlines, row.message);
    verdict_at(deadline, row.attained, Some(row.upper()))
}

/// Whether a row is beyond the deadline of its message.
fn is_ceiled_beyond(deadlines: &[Option<u32>], row: &Ceiled) -> bool
    ensures { result ≡ is_ceiled_beyond deadlines.now row.now }
{
    is_beyond(ceiled_verdict(deadlines, row))
}

/// Whether it is not known if a row keeps the deadline of its message, or where that has none its ceiling is not attained.
fn is_ceiled_open(deadlines: &[Option<u32>], row: &Ceiled) -> bool
    ensures { result ≡ is_ceiled_open deadlines.now row.now }
{
    is_open_by(ceiled_verdict(deadlines, row), row.falls_short())
}
