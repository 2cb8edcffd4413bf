//! The rows of a survey where outages are asked for.

ghost use Rattle.std.specs.Prelude.{◌≡◌, ◌<◌, length, IfOk, IfSome, IsTrue};
ghost use Rattle.std.specs.List.{All};
ghost use Rattle.convoy_around.specs.Around.{is_span};
ghost use Rattle.convoy_survey.specs.Ceilings.{told_latency};
ghost use Rattle.convoy_survey.specs.Findings.{target_of};
ghost use Rattle.convoy_survey.specs.Surveys.{IsTarget, IsTargetPair};
ghost use Rattle.convoy_outage_answers.specs.RowsThrough.{AreRowsThrough, IsRowThrough, MayLast, TellsThrough, surveyed_of};

use super::row_through::RowThrough;
use super::upper::outage_latency;
use convoy_around::around_laws::around_forgets_targets;
use convoy_branch::Options;
use convoy_commands::Watch;
use convoy_outages::Span;
use convoy_packets::Instance;
use convoy_rows::make_each;
use convoy_scenario::Scenario;
use convoy_scenario::widened_laws::room_is_decided;
use convoy_survey::{Surveyed, scenario_at, survey, with_rows};
use std::alloc::{AllocError, Global};
use std::sync::Wait;
use std::thread::Threads;

/// The rows of [`survey`](convoy_survey::survey), each with a number that no latency of its target exceeds through outages
/// that last so long in all, as [`outage_latency`](crate::outage_latency) tells it of the scenario with that target, or
/// where a span is given of the one around it. Where memory runs out for one of these numbers, its row has none, and the
/// others are sought all the same. As many are sought at a time as there are watches, and each search is watched by one of
/// them. Fails where there is no memory for the rows, and else never.
pub fn survey_through<R: Threads + Wait + Sync, W: Watch + Sync>(
    rt: &R,
    alloc: Global,
    outage: Span,
    span: Option<u32>,
    scenario: &Scenario,
    options: &Options,
    watches: &[W],
) -> Result<Vec<RowThrough>, AllocError>
    requires watched { 0 < length watches.now }
    requires span { IfSome span (λ n. IsTrue (is_span n)) }
    ensures { IfOk result (λ rows. AreRowsThrough options.now outage span scenario.now rows.items) }
{
    around_forgets_targets();
    room_is_decided();
    let surveyed = survey(rt, alloc, span, scenario, options, watches)?;
    let still = with_rows(alloc, span, scenario)?;
    let rows = rows_through(rt, alloc, outage, span, &still, &surveyed, options, watches)?;
    Ok(rows)
}

/// The rows of some rows of a survey, each of a target of the scenario.
fn rows_through<R: Threads + Wait + Sync, W: Watch + Sync>(
    rt: &R,
    alloc: Global,
    outage: Span,
    span: Option<u32>,
    scenario: &Scenario,
    surveyed: &[Surveyed],
    options: &Options,
    watches: &[W],
) -> Result<Vec<RowThrough>, AllocError>
    requires watched { 0 < length watches.now }
    requires span { IfSome span (λ n. IsTrue (is_span n)) }
    requires targets { All (λ row. IsTargetPair scenario.now (target_of row)) surveyed.now }
    ensures rows { IfOk result (λ rows. surveyed_of rows.items ≡ surveyed.now) }
    ensures told { IfOk result (λ rows. All (IsRowThrough outage span scenario.now) rows.items) }
{
    let row = |surveyed: &Surveyed, watch: &W| -> RowThrough
        requires target { IsTargetPair scenario.now (target_of surveyed.now) }
        requires span { IfSome span (λ n. IsTrue (is_span n)) }
        ensures { TellsThrough outage span scenario.entry.now surveyed.now result }
    { row_through(rt, alloc, outage, span, scenario, *surveyed, options, watch) };
    let rows = make_each(rt, alloc, watches, surveyed, &row)?;
    Ok(rows)
}

/// The row of a row of a survey.
fn row_through<R: Threads + Wait + Sync, W: Watch + Sync>(
    rt: &R,
    alloc: Global,
    outage: Span,
    span: Option<u32>,
    scenario: &Scenario,
    surveyed: Surveyed,
    options: &Options,
    watch: &W,
) -> RowThrough
    requires target { IsTargetPair scenario.now (target_of surveyed) }
    requires span { IfSome span (λ n. IsTrue (is_span n)) }
    ensures { TellsThrough outage span scenario.now surveyed result }
{
    let (message, group) = (surveyed.message, surveyed.group);
    let through = latency_at(
        rt, alloc, outage, span, scenario, message, group, options, watch,
    );
    RowThrough {
        surveyed,
        through: told(through),
    }
}

/// The number that is told where it was answered so: none where the answer was that memory ran out.
fn told(answer: Result<u32, AllocError>) -> Option<u32>
    ensures { result ≡ told_latency answer }
{
    match answer {
        Ok(latency) => Some(latency),
        Err(AllocError) => None,
    }
}

/// A number that no latency of a message at a group that it goes to exceeds through outages, around that target where a
/// span is given.
fn latency_at<R: Threads + Wait + Sync, W: Watch + Sync>(
    rt: &R,
    alloc: Global,
    outage: Span,
    span: Option<u32>,
    scenario: &Scenario,
    message: usize,
    group: usize,
    options: &Options,
    watch: &W,
) -> Result<u32, AllocError>
    requires target { IsTarget scenario.now message group }
    requires span { IfSome span (λ n. IsTrue (is_span n)) }
    ensures { MayLast outage span scenario.now message group result }
{
    let asked = scenario_at(alloc, span, scenario, message, group)?;
    let instance = Instance::of(alloc, asked)?;
    outage_latency(rt, alloc, &instance, outage, options, watch)
}
