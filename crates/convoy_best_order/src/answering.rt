ghost use Rattle.std.specs.Prelude.{◌≡◌, ◌<◌, length, IfOk};
ghost use Rattle.std.specs.List.{list_any};
ghost use Rattle.convoy_toml_writer.specs.Text.{toml_text};
ghost use Rattle.convoy_commands.specs.First.{least_schedule};
ghost use Rattle.convoy_commands.specs.Replies.{SaysUnlessMemory, reply_of};
ghost use Rattle.convoy_best_order.specs.Answers.{ListingSays, OrderSays, end_of, is_order_open, is_row_beyond, is_row_open};

use super::best::{Best, Row};
use super::choosing::best_order;
use super::listing::listed;
use super::rows::rows_of;
use super::table::order_text;
use super::targets::{are_judged, counted, targets_of, uncounted};
use super::wanted::Wanted;
use convoy_branch::Options;
use convoy_commands::{Answer, Done, Fault, Watch};
use convoy_packets::{Instance, Schedule};
use convoy_scenario::Scenario;
use convoy_survey::{is_beyond, is_open_by, span_of, verdict_at, with_rows};
use convoy_tables::Format;
use convoy_times::Measure;
use convoy_toml::{Asked, read_toml_asked};
use convoy_toml_writer::write_toml;
use std::alloc::{AllocError, Global};
use std::sync::Wait;
use std::thread::Threads;

/// The best order of the groups of the scenario of a text ([`best_order`]): the order with the least greatest excess of
/// latency over deadline, of the targets that are wanted ([`targets_of`](crate::targets_of)), each around itself where
/// all is asked so ([`span_of`]); where one of them has a deadline only those that have one count. What is written is a
/// line with the order, in text, and a table: a row for each target, those that count first, with what its latency is
/// at least and at most with the groups as they are listed and in that order; one for all that count together; and,
/// where they are asked for, one for each reason why no order is better. Numbers are in ticks, and where times are told
/// ([`Times::of`](convoy_survey::Times::of)) in the unit that the options ask for or else the text writes, too. As many
/// searches are made at a time as there are watches, and each is watched by one of them, by
/// [`NoGate`](convoy_branch::NoGate) where nobody watches.
///
/// It ends as `Done::Beyond` where a deadline is missed in the best order; else as `Done::Open` where it is not known
/// whether one is kept, or where there is none and it is not known whether the order is the best.
///
/// Faults are those of [`read_toml_asked`], and `Fault::Memory`.
pub fn order_answer<R: Threads + Wait + Sync, W: Watch + Sync>(
    rt: &R,
    alloc: Global,
    format: Format,
    wanted: Wanted,
    with_reasons: bool,
    asked: &Asked,
    options: &Options,
    text: &[u8],
    watches: &[W],
) -> Result<Answer, Fault>
    requires { 0 < length watches.now }
    ensures { SaysUnlessMemory (OrderSays format wanted with_reasons asked.now options.now) text.now (reply_of result) }
{
    let input = read_toml_asked(alloc, text, asked)?;
    let scenario = input.scenario;
    // A scenario is well formed.
    let _count = scenario.message_count();
    let span = span_of(asked, text, &scenario);
    let base = with_rows(alloc, span, &scenario)?;
    let targets = targets_of(alloc, wanted, &input.deadlines, &base)?;
    let counting = counted(alloc, &targets)?;
    let rest = uncounted(alloc, &targets)?;
    let best = best_order(rt, alloc, span, &base, &counting, options, watches)?;
    let others = rows_of(rt, alloc, span, &base, &rest, &best.order, options, watches)?;
    let measure = Measure::of(&scenario, options.unit(), input.unit);
    let text = order_text(
        alloc,
        format,
        with_reasons,
        measure,
        &scenario,
        &targets,
        &best,
        &others,
    )?;
    let done = end_of(are_judged(&targets), &best);
    Ok(Answer::about(done, text, scenario, input.plain))
}

/// The scenario of a text with its groups in the best order, as a text that reads as it: what [`order_answer`] tells as
/// a table; where all is asked around targets, the one around its own target. All its times are numbers of ticks, it
/// gives the schedule of least delays, and of deadlines it says nothing, as no scenario does. It ends as `order_answer`
/// does, and has its faults.
pub fn listing_answer<R: Threads + Wait + Sync, W: Watch + Sync>(
    rt: &R,
    alloc: Global,
    wanted: Wanted,
    asked: &Asked,
    options: &Options,
    text: &[u8],
    watches: &[W],
) -> Result<Answer, Fault>
    requires { 0 < length watches.now }
    ensures { SaysUnlessMemory (ListingSays wanted asked.now options.now) text.now (reply_of result) }
{
    let input = read_toml_asked(alloc, text, asked)?;
    let scenario = input.scenario;
    // A scenario is well formed.
    let _count = scenario.message_count();
    let span = span_of(asked, text, &scenario);
    let base = with_rows(alloc, span, &scenario)?;
    let targets = targets_of(alloc, wanted, &input.deadlines, &base)?;
    let counting = counted(alloc, &targets)?;
    let best = best_order(rt, alloc, span, &base, &counting, options, watches)?;
    let other = listed(alloc, &scenario, &best.order)?;
    let text = listing_text(alloc, other)?;
    let done = end_of(are_judged(&targets), &best);
    Ok(Answer::about(done, text, scenario, input.plain))
}

/// The text of a scenario with the schedule of its least delays. Fails where memory runs out, and else never.
pub fn listing_text(alloc: Global, scenario: Scenario) -> Result<Vec<u8>, AllocError>
    ensures { IfOk result (λ text. text.items ≡ toml_text scenario (least_schedule scenario)) }
{
    let instance = Instance::of(alloc, scenario)?;
    let schedule = Schedule::least(alloc, instance.table())?;
    let mut text = Vec::new(alloc);
    write_toml(instance.scenario(), &schedule, &mut text)?;
    Ok(text)
}

/// How it ends, where deadlines are judged or not.
fn end_of(is_judged: bool, best: &Best) -> Done
    ensures { result ≡ end_of is_judged best.now }
{
    let is_open = has_open(&best.rows) || is_order_open(is_judged, best);
    Done::by(has_beyond(&best.rows), false, is_open)
}

/// Whether it is not known whether the order is the best, where that matters.
fn is_order_open(is_judged: bool, best: &Best) -> bool
    ensures { result ≡ is_order_open is_judged best.now }
{
    !is_judged && best.least.is_less(best.most)
}

/// Whether a deadline is missed.
pub fn has_beyond(rows: &[Row]) -> bool
    ensures { result ≡ list_any is_row_beyond rows.now }
{
    rows.iter().any(|row| is_row_beyond(row))
}

/// Whether a row is open: it is not known whether it keeps its deadline, or where it has none its search did not end.
pub fn has_open(rows: &[Row]) -> bool
    ensures { result ≡ list_any is_row_open rows.now }
{
    rows.iter().any(|row| is_row_open(row))
}

/// Whether a row misses its deadline.
fn is_row_beyond(row: &Row) -> bool
    ensures { result ≡ is_row_beyond row.now }
{
    let (least, most) = (Some(row.after.least), Some(row.after.most));
    is_beyond(verdict_at(row.target.deadline, least, most))
}

/// Whether it is not known if a row keeps its deadline, or where it has none the search did not end.
fn is_row_open(row: &Row) -> bool
    ensures { result ≡ is_row_open row.now }
{
    let (least, most) = (Some(row.after.least), Some(row.after.most));
    let verdict = verdict_at(row.target.deadline, least, most);
    is_open_by(verdict, row.after.least < row.after.most)
}
