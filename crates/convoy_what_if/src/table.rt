ghost use Rattle.std.specs.Prelude.{◌≡◌, ◌++◌, IfOk, OnOk};
ghost use Rattle.convoy_tables.specs.Formats.{table_text};
ghost use Rattle.convoy_what_if.specs.Cells.{columns_of, lines_of, others_lines, row_lines, table_of};

use super::cells::{others_cells, row_cells};
use super::folding::{count_leaving, folded_latency, is_nothing, leaves_latency};
use super::tried::Tried;
use convoy_scenario::Scenario;
use convoy_survey::{Finding, Times, push_finding_columns, push_verdict_columns};
use convoy_tables::{Format, Row, Table, table_text};
use std::alloc::{AllocError, Global};

/// The table of these rows as it is written in a format, by the deadline of the target where this has one: all of them,
/// or without those that change nothing.
pub(crate) fn text_of(
    alloc: Global,
    format: Format,
    times: &Times,
    deadline: Option<u32>,
    shows_all: bool,
    scenario: &Scenario,
    rows: &[Tried],
) -> Result<Vec<u8>, AllocError>
    ensures { IfOk result (λ text. text.items ≡ table_text format (table_of times.now deadline shows_all scenario.now rows.now)) }
{
    let table = table_of(alloc, times, deadline, shows_all, scenario, rows)?;
    table_text(alloc, &table, format)
}

/// The table of these rows: all of them, or without those that change nothing.
fn table_of(
    alloc: Global,
    times: &Times,
    deadline: Option<u32>,
    shows_all: bool,
    scenario: &Scenario,
    rows: &[Tried],
) -> Result<Table, AllocError>
    ensures { IfOk result (λ table. table ≡ table_of times.now deadline shows_all scenario.now rows.now) }
{
    let mut table = Table::new(alloc, columns_of(alloc, times, deadline)?);
    let unchanged = folded_latency(shows_all, rows);
    push_rows(
        alloc, times, deadline, scenario, unchanged, rows, &mut table,
    )?;
    Ok(table)
}

/// Puts the lines for these rows at the end of a table, where those that leave the latency at this number are folded.
fn push_rows(
    alloc: Global,
    times: &Times,
    deadline: Option<u32>,
    scenario: &Scenario,
    unchanged: Option<u32>,
    rows: &[Tried],
    table: &mut Table,
) -> Result<(), AllocError>
    ensures { OnOk result (table.new ≡ record table.old {
      rows = table.old.rows ++ lines_of times.now deadline scenario.now unchanged rows.now;
    }) }
{
    let count = count_leaving(unchanged, rows);
    for row in rows {
        push_row(
            alloc, times, deadline, scenario, unchanged, count, row, table,
        )?;
    }
    Ok(())
}

/// Puts the lines for a row at the end of a table, where those that leave the latency at this number are folded, so many
/// of them.
fn push_row(
    alloc: Global,
    times: &Times,
    deadline: Option<u32>,
    scenario: &Scenario,
    unchanged: Option<u32>,
    count: usize,
    row: &Tried,
    table: &mut Table,
) -> Result<(), AllocError>
    ensures { OnOk result (table.new ≡ record table.old {
      rows = table.old.rows ++ row_lines times.now deadline scenario.now unchanged count row.now;
    }) }
{
    if is_nothing(row.change) {
        table.push(row_cells(alloc, times, deadline, scenario, row)?)?;
        return push_others(alloc, times, deadline, count, row.finding, table);
    }
    if leaves_latency(unchanged, row) {
        return Ok(());
    }
    table.push(row_cells(alloc, times, deadline, scenario, row)?)
}

/// Puts the line that stands for so many other changes at the end of a table, if there is any.
fn push_others(
    alloc: Global,
    times: &Times,
    deadline: Option<u32>,
    count: usize,
    finding: Finding,
    table: &mut Table,
) -> Result<(), AllocError>
    ensures { OnOk result (table.new ≡ record table.old {
      rows = table.old.rows ++ others_lines times.now deadline count finding;
    }) }
{
    if count == 0 {
        Ok(())
    } else {
        table.push(others_cells(alloc, times, deadline, count, finding)?)
    }
}

/// The names of the columns.
fn columns_of(alloc: Global, times: &Times, deadline: Option<u32>) -> Result<Row, AllocError>
    ensures { IfOk result (λ columns. columns ≡ columns_of times.now deadline) }
{
    let mut columns = Row::new(alloc);
    columns.push_words(&["change", "message", "from", "to"])?;
    push_finding_columns(times, &mut columns)?;
    push_verdict_columns(deadline.is_some(), times, &mut columns)?;
    Ok(columns)
}
