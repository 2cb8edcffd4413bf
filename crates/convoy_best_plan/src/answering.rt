ghost use Rattle.std.specs.Prelude.{◌≡◌, ◌<◌, max, length, Some, None};
ghost use Rattle.std.specs.List.{list_any};
ghost use Rattle.convoy_commands.specs.Replies.{SaysUnlessMemory, reply_of};
ghost use Rattle.convoy_best_plan.specs.Answers.{PlacingSays, PlanSays, end_of, end_of_all, is_beyond, is_choice_open, is_open};

use super::planned::Planned;
use super::planning::{best_plan, best_plans};
use super::ranking::{all_as_told, ranking_text};
use super::telling::plan_text;
use super::watch::PlanWatch;
use convoy_best_order::{Wanted, are_judged, has_beyond, has_open, listed, listing_text};
use convoy_branch::Options;
use convoy_commands::{Answer, Done, Fault};
use convoy_plans::{PlanFault, read_plan};
use convoy_tables::Format;
use convoy_times::Measure;
use convoy_toml::Asked;
use std::alloc::Global;
use std::sync::Wait;
use std::thread::Threads;

/// The best choice of the plan of a text ([`best_plan`]): where its groups are to be and in which order they are to be listed,
/// so that the greatest excess of latency over deadline is the least, of the targets that are wanted
/// ([`targets_of`](convoy_best_order::targets_of)); where one of them has a deadline only those that have one count. What is
/// written is where each group is and in which order the groups are listed, in two lines for people and in columns else, and
/// the table that [`order_answer`](convoy_best_order::order_answer) writes of the scenario of that placement, where the row
/// for all together tells what no choice is below. As many searches are made at a time as there are watches, and each is
/// watched by one of them, by [`NoGate`](convoy_branch::NoGate) where nobody watches.
///
/// Where a number `first` is given, so many of the best choices are told ([`best_plans`]), the best first, and that one at
/// least: each is the best at the placements that none before it has. For people what is written of each stands one after the
/// other, with an empty line between them; in the other formats their rows are those of one table, which has the place of the
/// choice as its first column.
///
/// It ends as `Done::Beyond` where a deadline is missed in a choice that is told; else as `Done::Open` where it is not known
/// whether one is kept, or where there is none and it is not known whether a choice is the best.
///
/// Faults are those of [`read_plan`], `Fault::Plan(PlanFault::NoPlacement)` where no placement has a scenario, and
/// `Fault::Memory`.
pub fn plan_answer<R: Threads + Wait + Sync, W: PlanWatch + Sync>(
    rt: &R,
    alloc: Global,
    format: Format,
    wanted: Wanted,
    with_reasons: bool,
    first: Option<u16>,
    asked: &Asked,
    options: &Options,
    text: &[u8],
    watches: &[W],
) -> Result<Answer, Fault>
    requires { 0 < length watches.now }
    ensures { SaysUnlessMemory (PlanSays format wanted with_reasons first asked.now options.now) text.now (reply_of result) }
{
    match first {
        None => best_answer(
            rt,
            alloc,
            format,
            wanted,
            with_reasons,
            asked,
            options,
            text,
            watches,
        ),
        Some(first) => ranking_answer(
            rt,
            alloc,
            format,
            wanted,
            with_reasons,
            first,
            asked,
            options,
            text,
            watches,
        ),
    }
}

/// The best choice.
fn best_answer<R: Threads + Wait + Sync, W: PlanWatch + Sync>(
    rt: &R,
    alloc: Global,
    format: Format,
    wanted: Wanted,
    with_reasons: bool,
    asked: &Asked,
    options: &Options,
    text: &[u8],
    watches: &[W],
) -> Result<Answer, Fault>
    requires { 0 < length watches.now }
    ensures { SaysUnlessMemory (PlanSays format wanted with_reasons None asked.now options.now) text.now (reply_of result) }
{
    let plan = read_plan(alloc, asked, text)?;
    let planned = match best_plan(rt, alloc, &plan, wanted, &[], options, watches)? {
        Some(planned) => planned,
        None => return Err(Fault::Plan(PlanFault::NoPlacement)),
    };
    let measure = Measure::of(&planned.scenario, options.unit(), plan.unit());
    let planned = planned.as_told();
    let text = plan_text(alloc, format, with_reasons, measure, &plan, &planned)?;
    let done = end_of(&planned);
    Ok(Answer::about(done, text, planned.scenario, None))
}

/// So many of the best choices.
fn ranking_answer<R: Threads + Wait + Sync, W: PlanWatch + Sync>(
    rt: &R,
    alloc: Global,
    format: Format,
    wanted: Wanted,
    with_reasons: bool,
    first: u16,
    asked: &Asked,
    options: &Options,
    text: &[u8],
    watches: &[W],
) -> Result<Answer, Fault>
    requires { 0 < length watches.now }
    ensures { SaysUnlessMemory (PlanSays format wanted with_reasons (Some first) asked.now options.now) text.now (reply_of result) }
{
    let plan = read_plan(alloc, asked, text)?;
    let count = count_of(first);
    let mut all = best_plans(rt, alloc, &plan, wanted, count, options, watches)?;
    if all.is_empty() {
        return Err(Fault::Plan(PlanFault::NoPlacement));
    }
    let done = end_of_all(&all);
    let best = all.remove(0).as_told();
    let others = all_as_told(alloc, all)?;
    let unit = options.unit();
    let text = ranking_text(alloc, format, with_reasons, unit, &plan, &best, &others)?;
    Ok(Answer::about(done, text, best.scenario, None))
}

/// The scenario of the last of so many of the best choices of the plan of a text, with its groups in the best order, as a text
/// that reads as it: of what [`plan_answer`] tells in a table. All its times are numbers of ticks, it gives the schedule of
/// least delays, and of deadlines it says nothing, as no scenario does. It ends as `plan_answer` does, and has its faults.
pub fn placing_answer<R: Threads + Wait + Sync, W: PlanWatch + Sync>(
    rt: &R,
    alloc: Global,
    wanted: Wanted,
    first: u16,
    asked: &Asked,
    options: &Options,
    text: &[u8],
    watches: &[W],
) -> Result<Answer, Fault>
    requires { 0 < length watches.now }
    ensures { SaysUnlessMemory (PlacingSays wanted first asked.now options.now) text.now (reply_of result) }
{
    let plan = read_plan(alloc, asked, text)?;
    let count = count_of(first);
    let mut all = best_plans(rt, alloc, &plan, wanted, count, options, watches)?;
    let done = end_of_all(&all);
    let planned = match all.pop() {
        Some(planned) => planned,
        None => return Err(Fault::Plan(PlanFault::NoPlacement)),
    };
    let other = listed(alloc, &planned.scenario, &planned.best.order)?;
    let text = listing_text(alloc, other)?;
    Ok(Answer::about(done, text, planned.scenario, None))
}

/// How many choices are told where so many are asked for: the best one at least.
fn count_of(first: u16) -> usize
    ensures value { result ≡ max first 1 }
    ensures some { 0 < result }
{
    usize::from(first.max(1))
}

/// How it ends.
fn end_of(planned: &Planned) -> Done
    ensures { result ≡ end_of planned.now }
{
    Done::by(is_beyond(planned), false, is_open(planned))
}

/// The same of several choices.
fn end_of_all(all: &[Planned]) -> Done
    ensures { result ≡ end_of_all all.now }
{
    Done::by(any_is_beyond(all), false, any_is_open(all))
}

/// Whether a deadline is missed in some choice.
fn any_is_beyond(all: &[Planned]) -> bool
    ensures { result ≡ list_any is_beyond all.now }
{
    all.iter().any(|planned| is_beyond(planned))
}

/// Whether something of some choice is open.
fn any_is_open(all: &[Planned]) -> bool
    ensures { result ≡ list_any is_open all.now }
{
    all.iter().any(|planned| is_open(planned))
}

/// Whether a deadline is missed in the choice.
fn is_beyond(planned: &Planned) -> bool
    ensures { result ≡ is_beyond planned.now }
{
    has_beyond(&planned.best.rows)
}

/// Whether something of the choice is open.
fn is_open(planned: &Planned) -> bool
    ensures { result ≡ is_open planned.now }
{
    has_open(&planned.best.rows) || is_choice_open(planned)
}

/// Whether it is not known whether the choice is the best, where that matters.
fn is_choice_open(planned: &Planned) -> bool
    ensures { result ≡ is_choice_open planned.now }
{
    !are_judged(&planned.targets) && planned.floor.least.is_less(planned.best.most)
}
