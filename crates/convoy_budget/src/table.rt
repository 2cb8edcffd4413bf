ghost use Rattle.std.specs.Prelude.{◌≡◌, ◌++◌, map, IfOk, OnOk};
ghost use Rattle.convoy_survey.specs.Times.{where_told};
ghost use Rattle.convoy_tables.specs.Formats.{table_text};
ghost use Rattle.convoy_budget.specs.Cells.{columns_of, row_cells, table_of, time_columns};

use super::cells::row_cells;
use super::kinds::Budget;
use convoy_scenario::Scenario;
use convoy_survey::Times;
use convoy_tables::{Format, Row, Table, table_text};
use std::alloc::{AllocError, Global};

/// The table of these rows as it is written in a format.
pub(crate) fn text_of(
    alloc: Global,
    format: Format,
    times: &Times,
    scenario: &Scenario,
    rows: &[Budget],
) -> Result<Vec<u8>, AllocError>
    ensures { IfOk result (λ text. text.items ≡ table_text format (table_of times.now scenario.now rows.now)) }
{
    let table = table_of(alloc, times, scenario, rows)?;
    table_text(alloc, &table, format)
}

/// The table of these rows.
fn table_of(
    alloc: Global,
    times: &Times,
    scenario: &Scenario,
    rows: &[Budget],
) -> Result<Table, AllocError>
    ensures { IfOk result (λ table. table ≡ table_of times.now scenario.now rows.now) }
{
    let mut table = Table::new(alloc, columns_of(alloc, times)?);
    push_rows(alloc, times, scenario, rows, &mut table)?;
    Ok(table)
}

/// Puts these rows at the end of a table.
fn push_rows(
    alloc: Global,
    times: &Times,
    scenario: &Scenario,
    rows: &[Budget],
    table: &mut Table,
) -> Result<(), AllocError>
    ensures { OnOk result (table.new ≡ record table.old {
      rows = table.old.rows ++ map (row_cells times.now scenario.now) rows.now;
    }) }
{
    for row in rows {
        table.push(row_cells(alloc, times, scenario, row)?)?;
    }
    Ok(())
}

/// The names of the columns.
#[tactic(auto, unfolding(crate::specs::Cells::columns_of))]
fn columns_of(alloc: Global, times: &Times) -> Result<Row, AllocError>
    ensures { IfOk result (λ columns. columns ≡ columns_of times.now) }
{
    let mut columns = Row::new(alloc);
    columns.push_words(&[
        "message",
        "group",
        "from",
        "to",
        "answer",
        "least",
        "most",
        "most_until",
        "left",
        "least_from",
    ])?;
    push_time_columns(times, &mut columns)?;
    Ok(columns)
}

/// Puts the names of the columns of times at the end of a row, where times are told.
fn push_time_columns(times: &Times, columns: &mut Row) -> Result<(), AllocError>
    ensures { OnOk result (columns.new ≡ columns.old ++ where_told times.now time_columns) }
{
    if times.are_told {
        columns.push_words(&["most_time", "most_until_time", "left_time", "unit"])
    } else {
        Ok(())
    }
}
