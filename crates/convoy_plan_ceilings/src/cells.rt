//! The cells of the table of ceilings.

ghost use Rattle.std.specs.Prelude.{◌≡◌, ◌∷◌, [], ◌++◌, map, IfOk, OnOk};
ghost use Rattle.convoy_plan_ceilings.specs.CeilingTexts.{all_cells, ceiling_cells, ceiling_of_all, columns_of, judged_cells, row_cells, table_of, target_cells, whole_cells};
ghost use Rattle.convoy_plan_ceilings.specs.LeastCeilings.{are_limited};
ghost use Rattle.convoy_survey.specs.Times.{time_cell, unit_cell, where_told};

use super::ceiling_choice::CeilingChoice;
use super::target_ceiling::TargetCeiling;
use convoy_best_order::{Excess, Target};
use convoy_scenario::Scenario;
use convoy_scenario::naming::{group_name, message_name};
use convoy_survey::{
    Times, push_columns_if_told, push_count, push_time, push_unit, push_verdict_cells,
    push_verdict_columns,
};
use convoy_tables::{Row, Table};
use std::alloc::{AllocError, Global};

/// The table of the ceilings of a choice: a row for each target that counts, and one for all of them together.
pub(crate) fn table_of(
    alloc: Global,
    judged: bool,
    times: &Times,
    chosen: &CeilingChoice,
) -> Result<Table, AllocError>
    ensures { IfOk result (λ table. table ≡ table_of judged times.now chosen.now) }
{
    let mut table = Table::new(alloc, columns_of(alloc, judged, times)?);
    push_rows(
        alloc,
        judged,
        times,
        &chosen.scenario,
        &chosen.rows,
        &mut table,
    )?;
    table.push(whole_cells(alloc, judged, times, chosen.reach.least)?)?;
    Ok(table)
}

/// Whether one of the targets has a deadline.
pub(crate) fn are_limited(rows: &[TargetCeiling]) -> bool
    ensures { result ≡ are_limited rows.now }
{
    rows.iter().any(|row| row.target.deadline.is_some())
}

/// Puts the rows of the targets at the end of a table.
fn push_rows(
    alloc: Global,
    judged: bool,
    times: &Times,
    scenario: &Scenario,
    rows: &[TargetCeiling],
    table: &mut Table,
) -> Result<(), AllocError>
    ensures { OnOk result (table.new ≡ record table.old {
      rows = table.old.rows ++ map (row_cells judged times.now scenario.now) rows.now;
    }) }
{
    for row in rows {
        table.push(row_cells(alloc, judged, times, scenario, row)?)?;
    }
    Ok(())
}

/// The names of the columns.
fn columns_of(alloc: Global, judged: bool, times: &Times) -> Result<Row, AllocError>
    ensures { IfOk result (λ columns. columns ≡ columns_of judged times.now) }
{
    let mut columns = Row::new(alloc);
    columns.push_words(&["message", "group", "deadline", "ceiling"])?;
    push_columns_if_told(times, &["ceiling_time", "unit"], &mut columns)?;
    push_verdict_columns(judged, times, &mut columns)?;
    Ok(columns)
}

/// The cells of the row of a target.
fn row_cells(
    alloc: Global,
    judged: bool,
    times: &Times,
    scenario: &Scenario,
    row: &TargetCeiling,
) -> Result<Row, AllocError>
    ensures { IfOk result (λ cells. cells ≡ row_cells judged times.now scenario.now row.now) }
{
    let mut cells = Row::new(alloc);
    push_target(scenario, row.target, &mut cells)?;
    push_ceiling(alloc, times, Some(row.ceiling), &mut cells)?;
    push_judged(
        alloc,
        judged,
        times,
        row.target.deadline,
        row.ceiling,
        &mut cells,
    )?;
    Ok(cells)
}

/// The cells of the row of all targets together.
fn whole_cells(alloc: Global, judged: bool, times: &Times, worst: Excess) -> Result<Row, AllocError>
    ensures { IfOk result (λ cells. cells ≡ whole_cells judged times.now worst) }
{
    let mut cells = Row::new(alloc);
    push_all(&mut cells)?;
    push_ceiling(alloc, times, ceiling_of_all(judged, worst), &mut cells)?;
    push_judged(
        alloc,
        judged,
        times,
        Some(worst.limit),
        worst.latency,
        &mut cells,
    )?;
    Ok(cells)
}

/// The greatest ceiling, where none of the targets has a deadline.
fn ceiling_of_all(judged: bool, worst: Excess) -> Option<u32>
    ensures { result ≡ ceiling_of_all judged worst }
{
    if judged { None } else { Some(worst.latency) }
}

/// Puts the message and the group of a target, and its deadline, at the end of a row.
fn push_target(scenario: &Scenario, target: Target, cells: &mut Row) -> Result<(), AllocError>
    ensures { OnOk result (cells.new ≡ cells.old ++ target_cells scenario.now target) }
{
    cells.push_word(message_name(scenario, target.message))?;
    cells.push_word(group_name(scenario, target.group))?;
    push_count(target.deadline, cells)
}

/// Puts what stands for all targets at the end of a row.
fn push_all(cells: &mut Row) -> Result<(), AllocError>
    ensures { OnOk result (cells.new ≡ cells.old ++ all_cells) }
{
    cells.push_words(&["*", "*"])?;
    cells.push_nothing()
}

/// Puts a ceiling that may not be told at the end of a row, in ticks and, where times are told, as a time.
fn push_ceiling(
    alloc: Global,
    times: &Times,
    ceiling: Option<u32>,
    cells: &mut Row,
) -> Result<(), AllocError>
    ensures { OnOk result (cells.new ≡ cells.old ++ ceiling_cells times.now ceiling) }
{
    push_count(ceiling, cells)?;
    push_ceiling_time(alloc, times, ceiling, cells)
}

/// Puts the same as a time, and its unit, at the end of a row, where times are told.
fn push_ceiling_time(
    alloc: Global,
    times: &Times,
    ceiling: Option<u32>,
    cells: &mut Row,
) -> Result<(), AllocError>
    ensures { OnOk result (cells.new
        ≡ cells.old ++ where_told times.now (time_cell times.now.measure ceiling ∷ unit_cell times.now.measure ∷ [])) }
{
    if !times.are_told {
        return Ok(());
    }
    push_time(alloc, times.measure, ceiling, cells)?;
    push_unit(times.measure, cells)
}

/// Puts how a ceiling keeps a deadline at the end of a row, in a table that is judged.
fn push_judged(
    alloc: Global,
    judged: bool,
    times: &Times,
    deadline: Option<u32>,
    ceiling: u32,
    cells: &mut Row,
) -> Result<(), AllocError>
    ensures { OnOk result (cells.new ≡ cells.old ++ judged_cells judged times.now deadline ceiling) }
{
    push_verdict_cells(alloc, judged, times, deadline, None, Some(ceiling), cells)
}
