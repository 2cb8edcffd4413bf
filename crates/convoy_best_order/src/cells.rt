//! The cells of the table of an order.

ghost use Rattle.std.specs.Prelude.{◌≡◌, ◌∷◌, [], ◌++◌, Some, IfOk, OnOk};
ghost use Rattle.convoy_survey.specs.Times.{count_cell, where_told};
ghost use Rattle.convoy_best_order.specs.Cells.{all_cells, bounds_of, judged_cells, kept_cells, line_cells, number_cells, order_cells, reason_cells, row_cells, spread_cells, spread_times, target_cells, time_cells, whole_cells};

use super::best::{Best, Reason, Row as Told};
use super::layout::Layout;
use super::naming::order_words;
use super::spread::Spread;
use super::target::Target;
use super::time_cells::{push_time, push_unit};
use convoy_scenario::Scenario;
use convoy_scenario::naming::{group_name, message_name};
use convoy_survey::{Times, push_verdict_cells};
use convoy_tables::Row;
use std::alloc::{AllocError, Global};

/// The cells of the row of a target.
pub(crate) fn row_cells(
    alloc: Global,
    layout: &Layout,
    scenario: &Scenario,
    order: &[usize],
    row: &Told,
) -> Result<Row, AllocError>
    ensures { IfOk result (λ cells. cells ≡ row_cells layout.now scenario.now order.now row.now) }
{
    let before = Some(row.before);
    line_cells(
        alloc, layout, scenario, order, row.target, before, row.after,
    )
}

/// The cells of a reason.
pub(crate) fn reason_cells(
    alloc: Global,
    layout: &Layout,
    scenario: &Scenario,
    reason: &Reason,
) -> Result<Row, AllocError>
    ensures { IfOk result (λ cells. cells ≡ reason_cells layout.now scenario.now reason.now) }
{
    let (target, after) = (reason.target, reason.spread);
    line_cells(alloc, layout, scenario, &reason.order, target, None, after)
}

/// The cells of a line that tells how late a target is with the groups in that order, and how late it was.
fn line_cells(
    alloc: Global,
    layout: &Layout,
    scenario: &Scenario,
    order: &[usize],
    target: Target,
    before: Option<Spread>,
    after: Spread,
) -> Result<Row, AllocError>
    ensures { IfOk result
        (λ cells. cells ≡ line_cells layout.now scenario.now order.now target before after) }
{
    let mut cells = Row::new(alloc);
    push_target(scenario, target, &mut cells)?;
    push_numbers(alloc, layout, before, Some(after), &mut cells)?;
    push_judged(alloc, layout, target, after, &mut cells)?;
    push_order(alloc, layout, scenario, order, &mut cells)?;
    Ok(cells)
}

/// The cells of the line for all targets together in the best order.
pub(crate) fn whole_cells(
    alloc: Global,
    layout: &Layout,
    scenario: &Scenario,
    best: &Best,
) -> Result<Row, AllocError>
    ensures { IfOk result (λ cells. cells ≡ whole_cells layout.now scenario.now best.now) }
{
    let mut cells = Row::new(alloc);
    push_all(&mut cells)?;
    let bounds = bounds_of(layout.is_judged, best);
    push_numbers(alloc, layout, None, bounds, &mut cells)?;
    push_kept(alloc, layout, best, &mut cells)?;
    push_order(alloc, layout, scenario, &best.order, &mut cells)?;
    Ok(cells)
}

/// Puts the message and the group of a target, and its deadline, at the end of a row.
fn push_target(scenario: &Scenario, target: Target, cells: &mut Row) -> Result<(), AllocError>
    ensures { OnOk result (cells.new ≡ cells.old ++ target_cells scenario.now target) }
{
    cells.push_word(message_name(scenario, target.message))?;
    cells.push_word(group_name(scenario, target.group))?;
    push_count(target.deadline, cells)
}

/// Puts what stands for all targets at the end of a row.
fn push_all(cells: &mut Row) -> Result<(), AllocError>
    ensures { OnOk result (cells.new ≡ cells.old ++ all_cells) }
{
    cells.push_words(&["*", "*"])?;
    cells.push_nothing()
}

/// Puts how late it is before and after at the end of a row, in ticks and, where they are told, in times.
fn push_numbers(
    alloc: Global,
    layout: &Layout,
    before: Option<Spread>,
    after: Option<Spread>,
    cells: &mut Row,
) -> Result<(), AllocError>
    ensures { OnOk result (cells.new ≡ cells.old ++ number_cells layout.now before after) }
{
    push_spread(before, cells)?;
    push_spread(after, cells)?;
    push_times_if_told(alloc, layout, before, after, cells)
}

/// Puts a least and a most that may not be known at the end of a row, in ticks.
fn push_spread(spread: Option<Spread>, cells: &mut Row) -> Result<(), AllocError>
    ensures { OnOk result (cells.new ≡ cells.old ++ spread_cells spread) }
{
    match spread {
        Some(spread) => {
            cells.push_number(u64::from(spread.least))?;
            cells.push_number(u64::from(spread.most))
        }
        None => {
            cells.push_nothing()?;
            cells.push_nothing()
        }
    }
}

/// Puts how late it is before and after at the end of a row, as times where they are told.
fn push_times_if_told(
    alloc: Global,
    layout: &Layout,
    before: Option<Spread>,
    after: Option<Spread>,
    cells: &mut Row,
) -> Result<(), AllocError>
    ensures { OnOk result (cells.new
        ≡ cells.old ++ where_told layout.now.times (time_cells layout.now.times.measure before after)) }
{
    if layout.times.are_told {
        push_times(alloc, &layout.times, before, after, cells)
    } else {
        Ok(())
    }
}

/// The same in any case, and the unit.
fn push_times(
    alloc: Global,
    times: &Times,
    before: Option<Spread>,
    after: Option<Spread>,
    cells: &mut Row,
) -> Result<(), AllocError>
    ensures { OnOk result (cells.new ≡ cells.old ++ time_cells times.now.measure before after) }
{
    push_spread_times(alloc, times, before, cells)?;
    push_spread_times(alloc, times, after, cells)?;
    push_unit(times.measure, cells)
}

/// Puts a least and a most that may not be known at the end of a row, as times.
fn push_spread_times(
    alloc: Global,
    times: &Times,
    spread: Option<Spread>,
    cells: &mut Row,
) -> Result<(), AllocError>
    ensures { OnOk result (cells.new ≡ cells.old ++ spread_times times.now.measure spread) }
{
    match spread {
        Some(spread) => {
            push_time(alloc, times.measure, Some(spread.least), cells)?;
            push_time(alloc, times.measure, Some(spread.most), cells)
        }
        None => {
            cells.push_nothing()?;
            cells.push_nothing()
        }
    }
}

/// Puts how a latency keeps the deadline of its target at the end of a row.
fn push_judged(
    alloc: Global,
    layout: &Layout,
    target: Target,
    spread: Spread,
    cells: &mut Row,
) -> Result<(), AllocError>
    ensures { OnOk result (cells.new ≡ cells.old ++ judged_cells layout.now target spread) }
{
    push_verdict_cells(
        alloc,
        layout.is_judged,
        &layout.times,
        target.deadline,
        Some(spread.least),
        Some(spread.most),
        cells,
    )
}

/// Puts how all deadlines are kept at the end of a row: that in each order one is missed by so much, or that in the best one
/// each is kept by so much.
fn push_kept(alloc: Global, layout: &Layout, best: &Best, cells: &mut Row) -> Result<(), AllocError>
    ensures { OnOk result (cells.new ≡ cells.old ++ kept_cells layout.now best.now) }
{
    let (deadline, least, most) = if best.least.limit < best.least.latency {
        (best.least.limit, best.least.latency, best.least.latency)
    } else {
        (best.most.limit, 0, best.most.latency)
    };
    push_verdict_cells(
        alloc,
        layout.is_judged,
        &layout.times,
        Some(deadline),
        Some(least),
        Some(most),
        cells,
    )
}

/// Between what lies the greatest latency of all targets in the best order, where none has a deadline.
fn bounds_of(is_judged: bool, best: &Best) -> Option<Spread>
    ensures { result ≡ bounds_of is_judged best.now }
{
    if is_judged {
        return None;
    }
    Some(Spread {
        least: best.least.latency,
        most: best.most.latency,
    })
}

/// Puts an order at the end of a row, in a table that tells orders.
fn push_order(
    alloc: Global,
    layout: &Layout,
    scenario: &Scenario,
    order: &[usize],
    cells: &mut Row,
) -> Result<(), AllocError>
    ensures { OnOk result (cells.new ≡ cells.old ++ order_cells layout.now scenario.now order.now) }
{
    if layout.tells_order {
        cells.push_word(&order_words(alloc, scenario, order)?)
    } else {
        Ok(())
    }
}

/// Puts a number that there may not be at the end of a row.
fn push_count(number: Option<u32>, cells: &mut Row) -> Result<(), AllocError>
    ensures { OnOk result (cells.new ≡ cells.old ++ count_cell number ∷ []) }
{
    match number {
        Some(number) => cells.push_number(u64::from(number)),
        None => cells.push_nothing(),
    }
}
