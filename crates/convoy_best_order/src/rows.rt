//! How late each target is before and after.

ghost use Rattle.std.specs.Prelude.{◌<◌, length, All, IfOk, IfSome, IsTrue};
ghost use Rattle.std.specs.List.{AllZip};
ghost use Rattle.convoy_around.specs.Around.{is_span};
ghost use Rattle.convoy_best_order.specs.Best.{AreRows};
ghost use Rattle.convoy_best_order.specs.Each.{MayBeRow};
ghost use Rattle.convoy_best_order.specs.Orders.{IsOrder};
ghost use Rattle.convoy_best_order.specs.Targets.{MayBeTarget};

use super::best::Row;
use super::searching::{spread, spread_in};
use super::target::Target;
use convoy_branch::Options;
use convoy_commands::Watch;
use convoy_rows::{all_values, make_each};
use convoy_scenario::Scenario;
use convoy_survey::scenario_at;
use std::alloc::{AllocError, Global};
use std::sync::Wait;
use std::thread::Threads;

/// How late each of some targets is, around it where a span is given, with the groups of a scenario as they are, and in
/// that order, as many at a time as there are watches. Fails where memory runs out, and else never.
pub(crate) fn rows_of<R: Threads + Wait + Sync, W: Watch + Sync>(
    rt: &R,
    alloc: Global,
    span: Option<u32>,
    scenario: &Scenario,
    targets: &[Target],
    order: &[usize],
    options: &Options,
    watches: &[W],
) -> Result<Vec<Row>, AllocError>
    requires watched { 0 < length watches.now }
    requires lawful { All (MayBeTarget scenario.now) targets.now }
    requires span { IfSome span (λ n. IsTrue (is_span n)) }
    requires order { IsOrder scenario.now order.now }
    ensures { IfOk result (λ rows. AreRows options.now span scenario.now targets.now order.now rows.items) }
{
    let rows = each_row(rt, alloc, span, scenario, targets, order, options, watches)?;
    all_values(alloc, rows)?
}

/// The row of each of some targets, each by itself.
fn each_row<R: Threads + Wait + Sync, W: Watch + Sync>(
    rt: &R,
    alloc: Global,
    span: Option<u32>,
    scenario: &Scenario,
    targets: &[Target],
    order: &[usize],
    options: &Options,
    watches: &[W],
) -> Result<Vec<Result<Row, AllocError>>, AllocError>
    requires watched { 0 < length watches.now }
    requires lawful { All (MayBeTarget scenario.now) targets.now }
    requires span { IfSome span (λ n. IsTrue (is_span n)) }
    requires order { IsOrder scenario.now order.now }
    ensures { IfOk result
        (λ rows. AllZip (MayBeRow options.now span scenario.now order.now) targets.now rows.items) }
{
    let row = |target: &Target, watch: &W| -> Result<Row, AllocError>
        requires { MayBeTarget scenario.now target.now × IsOrder scenario.now order.now × IfSome span (λ n. IsTrue (is_span n)) }
        ensures { MayBeRow options.entry.now span scenario.entry.now order.entry.now target.now result }
    { row_of(rt, alloc, span, scenario, *target, order, options, watch) };
    let rows = make_each(rt, alloc, watches, targets, &row)?;
    Ok(rows)
}

/// The row of a target.
fn row_of<R: Threads + Wait + Sync, W: Watch + Sync>(
    rt: &R,
    alloc: Global,
    span: Option<u32>,
    scenario: &Scenario,
    target: Target,
    order: &[usize],
    options: &Options,
    watch: &W,
) -> Result<Row, AllocError>
    requires target { MayBeTarget scenario.now target }
    requires span { IfSome span (λ n. IsTrue (is_span n)) }
    requires order { IsOrder scenario.now order.now }
    ensures { MayBeRow options.now span scenario.now order.now target result }
{
    let asked = scenario_at(alloc, span, scenario, target.message, target.group)?;
    let before = spread(rt, alloc, asked, options, watch)?;
    let after = spread_in(rt, alloc, span, scenario, order, target, options, watch)?;
    Ok(Row {
        target,
        before,
        after,
    })
}
