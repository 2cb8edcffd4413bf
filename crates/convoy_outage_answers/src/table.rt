ghost use Rattle.std.specs.Prelude.{◌≡◌, ◌<◌, ◌++◌, length, IfOk, OnOk};
ghost use Rattle.std.specs.List.{All};
ghost use Rattle.convoy_tables.specs.Formats.{table_text};
ghost use Rattle.convoy_outage_answers.specs.TablesThrough.{columns_through, lines_through, rows_through_of, table_through};

use super::cells::{at_all_cells_through, cells_through, push_through_columns};
use super::row_through::RowThrough;
use convoy_scenario::Scenario;
use convoy_survey::{Times, push_ceiling_columns_if, push_finding_columns, push_judged_columns};
use convoy_tables::{Format, Row, Table, table_text};
use std::alloc::{AllocError, Global};

/// The table of a survey where outages are asked for, as it is written in a format, judged where a message has a deadline,
/// and with ceilings where they are asked for. Fails where memory runs out, and else never.
pub(crate) fn survey_through_text(
    alloc: Global,
    format: Format,
    with_ceilings: bool,
    times: &Times,
    deadlines: &[Option<u32>],
    scenario: &Scenario,
    rows: &[RowThrough],
) -> Result<Vec<u8>, AllocError>
    ensures { IfOk result (λ text. text.items
        ≡ table_text format (table_through with_ceilings times.now deadlines.now scenario.now rows.now)) }
{
    let table = table_through(alloc, with_ceilings, times, deadlines, scenario, rows)?;
    table_text(alloc, &table, format)
}

/// The table of these rows.
fn table_through(
    alloc: Global,
    with_ceilings: bool,
    times: &Times,
    deadlines: &[Option<u32>],
    scenario: &Scenario,
    rows: &[RowThrough],
) -> Result<Table, AllocError>
    ensures { IfOk result (λ table. table
        ≡ table_through with_ceilings times.now deadlines.now scenario.now rows.now) }
{
    let columns = columns_through(alloc, with_ceilings, times, deadlines)?;
    let mut table = Table::new(alloc, columns);
    for message in 0..scenario.message_count() {
        let of_message = rows_through_of(alloc, message, rows)?;
        push_message(
            alloc,
            with_ceilings,
            times,
            deadlines,
            scenario,
            &of_message,
            &mut table,
        )?;
    }
    Ok(table)
}

/// Puts the rows of a message, if it has any, at the end of a table, and below them that of the message at all groups.
fn push_message(
    alloc: Global,
    with_ceilings: bool,
    times: &Times,
    deadlines: &[Option<u32>],
    scenario: &Scenario,
    rows: &[RowThrough],
    table: &mut Table,
) -> Result<(), AllocError>
    requires { All (λ row. row.surveyed.message < length scenario.now.multicasts) rows.now }
    ensures { OnOk result (table.new ≡ record table.old {
      rows = table.old.rows ++ lines_through with_ceilings times.now deadlines.now scenario.now rows.now;
    }) }
{
    let [first, ..] = rows else {
        return Ok(());
    };
    for row in rows {
        let cells = cells_through(alloc, with_ceilings, times, deadlines, scenario, row)?;
        table.push(cells)?;
    }
    table.push(at_all_cells_through(
        alloc,
        with_ceilings,
        times,
        deadlines,
        scenario,
        first.surveyed.message,
        rows,
    )?)
}

/// The rows of a message.
fn rows_through_of(
    alloc: Global,
    message: usize,
    rows: &[RowThrough],
) -> Result<Vec<RowThrough>, AllocError>
    ensures { IfOk result (λ kept. kept.items ≡ rows_through_of message rows.now) }
{
    let mut kept = Vec::new(alloc);
    for row in rows {
        if row.surveyed.message == message {
            kept.push(*row)?;
        }
    }
    Ok(kept)
}

/// The names of the columns.
fn columns_through(
    alloc: Global,
    with_ceilings: bool,
    times: &Times,
    deadlines: &[Option<u32>],
) -> Result<Row, AllocError>
    ensures { IfOk result (λ columns. columns ≡ columns_through with_ceilings times.now deadlines.now) }
{
    let mut columns = Row::new(alloc);
    columns.push_words(&["message", "group"])?;
    push_finding_columns(times, &mut columns)?;
    push_through_columns(times, &mut columns)?;
    push_judged_columns(deadlines, times, &mut columns)?;
    push_ceiling_columns_if(with_ceilings, times, &mut columns)?;
    Ok(columns)
}
