ghost use Rattle.std.specs.Prelude.{◌≡◌, ◌<◌, ◌++◌, length, All, OnOk, IfOk};
ghost use Rattle.convoy_survey.specs.Cells.{beside_columns, ceiling_columns_if, columns_of, finding_columns, message_lines, table_of, time_columns};
ghost use Rattle.convoy_tables.specs.Formats.{table_text};

use super::at_all::rows_of;
use super::cells::{at_all_cells, cells_of};
use super::finding::Surveyed;
use super::judgements::push_judged_columns;
use super::time_cells::push_columns_if_told;
use super::times::Times;
use convoy_scenario::Scenario;
use convoy_tables::{Format, Row, Table, table_text};
use std::alloc::{AllocError, Global};

/// The table of a survey as it is written in a format, judged where a message has a deadline, and with ceilings where
/// they are asked for. Fails where memory runs out, and else never.
pub fn survey_text(
    alloc: Global,
    format: Format,
    with_ceilings: bool,
    times: &Times,
    deadlines: &[Option<u32>],
    scenario: &Scenario,
    rows: &[Surveyed],
) -> Result<Vec<u8>, AllocError>
    ensures { IfOk result (λ text. text.items
        ≡ table_text format (table_of with_ceilings times.now deadlines.now scenario.now rows.now)) }
{
    let table = survey_table(alloc, with_ceilings, times, deadlines, scenario, rows)?;
    table_text(alloc, &table, format)
}

/// The table of a survey, judged where a message has a deadline, and with ceilings where they are asked for. Fails where
/// memory runs out, and else never.
pub fn survey_table(
    alloc: Global,
    with_ceilings: bool,
    times: &Times,
    deadlines: &[Option<u32>],
    scenario: &Scenario,
    rows: &[Surveyed],
) -> Result<Table, AllocError>
    ensures { IfOk result (λ table. table ≡ table_of with_ceilings times.now deadlines.now scenario.now rows.now) }
{
    let mut table = Table::new(alloc, columns_of(alloc, with_ceilings, times, deadlines)?);
    for message in 0..scenario.message_count() {
        let of_message = rows_of(alloc, message, rows)?;
        push_message(
            alloc,
            with_ceilings,
            times,
            deadlines,
            scenario,
            &of_message,
            &mut table,
        )?;
    }
    Ok(table)
}

/// Puts the rows of a message, if it has any, at the end of a table, and below them that of the message at all groups.
fn push_message(
    alloc: Global,
    with_ceilings: bool,
    times: &Times,
    deadlines: &[Option<u32>],
    scenario: &Scenario,
    rows: &[Surveyed],
    table: &mut Table,
) -> Result<(), AllocError>
    requires { All (λ row. row.message < length scenario.now.multicasts) rows.now }
    ensures { OnOk result (table.new ≡ record table.old {
      rows = table.old.rows ++ message_lines with_ceilings times.now deadlines.now scenario.now rows.now;
    }) }
{
    let [first, ..] = rows else {
        return Ok(());
    };
    for row in rows {
        let cells = cells_of(alloc, with_ceilings, times, deadlines, scenario, row)?;
        table.push(cells)?;
    }
    table.push(at_all_cells(
        alloc,
        with_ceilings,
        times,
        deadlines,
        scenario,
        first.message,
        rows,
    )?)
}

/// The names of the columns.
fn columns_of(
    alloc: Global,
    with_ceilings: bool,
    times: &Times,
    deadlines: &[Option<u32>],
) -> Result<Row, AllocError>
    ensures { IfOk result (λ columns. columns ≡ columns_of with_ceilings times.now deadlines.now) }
{
    let mut columns = Row::new(alloc);
    columns.push_words(&["message", "group"])?;
    push_finding_columns(times, &mut columns)?;
    push_judged_columns(deadlines, times, &mut columns)?;
    push_ceiling_columns_if(with_ceilings, times, &mut columns)?;
    Ok(columns)
}

/// Puts the names of the columns of the ceiling at the end of a row, where it is asked for. Fails where memory runs out, and
/// else never.
pub fn push_ceiling_columns_if(
    with_ceilings: bool,
    times: &Times,
    columns: &mut Row,
) -> Result<(), AllocError>
    ensures { OnOk result (columns.new ≡ columns.old ++ ceiling_columns_if with_ceilings times.now) }
{
    if with_ceilings {
        push_ceiling_columns(times, columns)
    } else {
        Ok(())
    }
}

/// Puts the names of the columns of the ceiling at the end of a row.
fn push_ceiling_columns(times: &Times, columns: &mut Row) -> Result<(), AllocError>
    ensures { OnOk result (columns.new ≡ columns.old ++ beside_columns times.now) }
{
    columns.push_word("ceiling")?;
    push_columns_if_told(times, &["ceiling_time"], columns)
}

/// Puts the names of the columns that tell what was found at the end of a row. Fails where memory runs out,
/// and else never.
pub fn push_finding_columns(times: &Times, columns: &mut Row) -> Result<(), AllocError>
    ensures { OnOk result (columns.new ≡ columns.old ++ finding_columns times.now) }
{
    columns.push_words(&["answer", "least", "most"])?;
    push_time_columns(times, columns)?;
    columns.push_words(&["rival", "tied", "nodes"])
}

/// Puts the names of the columns of the times of what was found at the end of a row, where times are told. Fails where
/// memory runs out, and else never.
pub fn push_time_columns(times: &Times, columns: &mut Row) -> Result<(), AllocError>
    ensures { OnOk result (columns.new ≡ columns.old ++ time_columns times.now) }
{
    push_columns_if_told(times, &["least_time", "most_time", "unit"], columns)
}
