ghost use Rattle.std.specs.Prelude.{◌≡◌, ◌<◌, length};
ghost use Rattle.convoy_commands.specs.Replies.{SaysUnlessMemory, reply_of};
ghost use Rattle.convoy_budget.specs.Answers.{BudgetSays, end_of};

use super::kinds::Budget;
use super::rows::budgets;
use super::table::text_of;
use super::targets::targets_of;
use convoy_branch::Options;
use convoy_commands::{Answer, Done, Fault, Watch};
use convoy_packets::Instance;
use convoy_scenario::{Key, ScenarioFault};
use convoy_survey::{Times, span_of, with_rows};
use convoy_tables::Format;
use convoy_times::Measure;
use convoy_toml::{Asked, read_toml_asked};
use std::alloc::Global;
use std::sync::Wait;
use std::thread::Threads;

/// How slow each link of the scenario of a text may get, and how fast, before a deadline is missed, the others being as
/// they are: a table with a row for each way on which packets travel, and for the target that is asked, or of all for
/// each message at each group for which it has a deadline ([`targets_of`]), each around itself where all is asked so
/// ([`span_of`]). Rows are those of [`budgets`]: the deadline is that of the greatest latency, or of the ceiling where
/// that is asked for. Numbers are in ticks, and where times are told ([`Times::of`]) in the unit that the options ask
/// for or else the text writes, too. As many rows are made at a time as there are watches, and each search is watched
/// by one of them: by [`NoGate`](convoy_branch::NoGate) where nobody watches.
///
/// A row for which memory runs out has that fault in place of numbers. Faults of the whole are those of
/// [`read_toml_asked`], `Fault::Scenario` where no target that is asked has a deadline, which names its key, or where a
/// range makes no scenario, and `Fault::Memory`.
pub fn budget_answer<R: Threads + Wait + Sync, W: Watch + Sync>(
    rt: &R,
    alloc: Global,
    format: Format,
    of_all: bool,
    of_ceiling: bool,
    asked: &Asked,
    options: &Options,
    text: &[u8],
    watches: &[W],
) -> Result<Answer, Fault>
    requires { 0 < length watches.now }
    ensures { SaysUnlessMemory (BudgetSays format of_all of_ceiling asked.now options.now) text.now (reply_of result) }
{
    let input = read_toml_asked(alloc, text, asked)?;
    let scenario = input.scenario;
    // A scenario is well formed.
    let _count = scenario.message_count();
    let span = span_of(asked, text, &scenario);
    let base = with_rows(alloc, span, &scenario)?;
    let instance = Instance::of(alloc, base)?;
    let targets = targets_of(alloc, of_all, &input.deadlines, instance.scenario())?;
    if targets.is_empty() {
        return Err(Fault::Scenario(ScenarioFault::Shape(Key::Within)));
    }
    let rows = budgets(
        rt, alloc, span, &instance, &targets, of_ceiling, options, watches,
    )?;
    let times = Times::of(format, Measure::of(&scenario, options.unit(), input.unit));
    let text = text_of(alloc, format, &times, &scenario, &rows)?;
    Ok(Answer::about(end_of(&rows), text, scenario, input.plain))
}

/// How it ends with these rows.
fn end_of(rows: &[Budget]) -> Done
    ensures { result ≡ end_of rows.now }
{
    let (mut any_beyond, mut any_fault, mut any_open) = (false, false, false);
    for row in rows {
        any_beyond |= row.is_beyond();
        any_fault |= row.is_fault();
        any_open |= row.is_open();
    }
    Done::by(any_beyond, any_fault, any_open)
}
