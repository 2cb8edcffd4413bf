ghost use Rattle.std.specs.Prelude.{◌≡◌, ◌++◌, map, true, IfOk, OnOk};
ghost use Rattle.convoy_tables.specs.Formats.{table_text};
ghost use Rattle.convoy_survey.specs.CeilingTables.{ceiled_lines, ceiled_of, ceiling_at_all_cells, ceiling_cells, ceiling_columns, ceiling_lines, greatest_attained, greatest_ceiling, greatest_through, number_columns, numbers_cells, table_of_ceilings};

use super::at_all::greater;
use super::ceiled::Ceiled;
use super::cells::{push_count, push_target, push_target_at_all};
use super::judgements::{push_judged, push_judged_columns};
use super::time_cells::{push_columns_if_told, push_time_if_told, push_time_pair};
use super::times::Times;
use convoy_scenario::Scenario;
use convoy_tables::{Format, Row, Table, table_text};
use std::alloc::{AllocError, Global};

/// The table of ceilings as it is written in a format, judged where a message has a deadline: at all groups with a row
/// for each message at all of them, too; and with columns of ceilings through outages where the rows have such.
pub(crate) fn ceilings_text(
    alloc: Global,
    format: Format,
    at_all_groups: bool,
    with_outages: bool,
    times: &Times,
    deadlines: &[Option<u32>],
    scenario: &Scenario,
    rows: &[Ceiled],
) -> Result<Vec<u8>, AllocError>
    ensures { IfOk result (λ text. text.items
        ≡ table_text format (table_of_ceilings at_all_groups with_outages times.now deadlines.now scenario.now rows.now)) }
{
    let mut table = Table::new(alloc, columns_of(alloc, with_outages, times, deadlines)?);
    if at_all_groups {
        push_messages(alloc, times, deadlines, scenario, rows, &mut table)?;
    } else {
        push_rows(alloc, times, deadlines, scenario, rows, &mut table)?;
    }
    table_text(alloc, &table, format)
}

/// Puts the rows of each message at the end of a table, and below them that of the message at all groups.
fn push_messages(
    alloc: Global,
    times: &Times,
    deadlines: &[Option<u32>],
    scenario: &Scenario,
    rows: &[Ceiled],
    table: &mut Table,
) -> Result<(), AllocError>
    ensures { OnOk result (table.new ≡ record table.old {
      rows = table.old.rows ++ ceiling_lines true times.now deadlines.now scenario.now rows.now;
    }) }
{
    for message in 0..scenario.message_count() {
        let of_message = ceiled_of(alloc, message, rows)?;
        push_message(alloc, times, deadlines, scenario, &of_message, table)?;
    }
    Ok(())
}

/// Puts the rows of a message, if it has any, at the end of a table, and below them that of the message at all groups.
fn push_message(
    alloc: Global,
    times: &Times,
    deadlines: &[Option<u32>],
    scenario: &Scenario,
    rows: &[Ceiled],
    table: &mut Table,
) -> Result<(), AllocError>
    ensures { OnOk result (table.new ≡ record table.old {
      rows = table.old.rows ++ ceiled_lines times.now deadlines.now scenario.now rows.now;
    }) }
{
    let [first, ..] = rows else {
        return Ok(());
    };
    push_rows(alloc, times, deadlines, scenario, rows, table)?;
    table.push(at_all_cells(alloc, times, deadlines, scenario, first.message, rows)?)
}

/// Puts each of these rows at the end of a table.
fn push_rows(
    alloc: Global,
    times: &Times,
    deadlines: &[Option<u32>],
    scenario: &Scenario,
    rows: &[Ceiled],
    table: &mut Table,
) -> Result<(), AllocError>
    ensures { OnOk result (table.new ≡ record table.old {
      rows = table.old.rows ++ map (ceiling_cells times.now deadlines.now scenario.now) rows.now;
    }) }
{
    for row in rows {
        table.push(cells_of(alloc, times, deadlines, scenario, row)?)?;
    }
    Ok(())
}

/// The names of the columns.
fn columns_of(
    alloc: Global,
    with_outages: bool,
    times: &Times,
    deadlines: &[Option<u32>],
) -> Result<Row, AllocError>
    ensures { IfOk result (λ columns. columns ≡ ceiling_columns with_outages times.now deadlines.now) }
{
    let mut columns = Row::new(alloc);
    columns.push_words(&["message", "group"])?;
    push_number_columns(with_outages, times, &mut columns)?;
    push_judged_columns(deadlines, times, &mut columns)?;
    Ok(columns)
}

/// Puts the names of the columns of the numbers at the end of a row.
fn push_number_columns(
    with_outages: bool,
    times: &Times,
    columns: &mut Row,
) -> Result<(), AllocError>
    ensures { OnOk result (columns.new ≡ columns.old ++ number_columns with_outages times.now) }
{
    if with_outages {
        columns.push_words(&["ceiling", "outage_ceiling", "attained"])?;
        push_columns_if_told(
            times,
            &[
                "ceiling_time",
                "outage_ceiling_time",
                "attained_time",
                "unit",
            ],
            columns,
        )
    } else {
        columns.push_words(&["ceiling", "attained"])?;
        push_columns_if_told(times, &["ceiling_time", "attained_time", "unit"], columns)
    }
}

/// The cells of a row.
fn cells_of(
    alloc: Global,
    times: &Times,
    deadlines: &[Option<u32>],
    scenario: &Scenario,
    row: &Ceiled,
) -> Result<Row, AllocError>
    ensures { IfOk result (λ cells. cells ≡ ceiling_cells times.now deadlines.now scenario.now row.now) }
{
    let mut cells = Row::new(alloc);
    push_target(scenario, row.message, row.group, &mut cells)?;
    push_numbers(
        alloc,
        times,
        row.ceiling,
        row.through,
        row.attained,
        &mut cells,
    )?;
    push_judged(
        alloc,
        deadlines,
        times,
        row.message,
        row.attained,
        Some(row.upper()),
        &mut cells,
    )?;
    Ok(cells)
}

/// The cells of the row of a message at all the groups that it goes to, of which these are its rows.
fn at_all_cells(
    alloc: Global,
    times: &Times,
    deadlines: &[Option<u32>],
    scenario: &Scenario,
    message: usize,
    rows: &[Ceiled],
) -> Result<Row, AllocError>
    ensures { IfOk result (λ cells. cells ≡ ceiling_at_all_cells times.now deadlines.now scenario.now message rows.now) }
{
    let mut cells = Row::new(alloc);
    push_target_at_all(scenario, message, &mut cells)?;
    let (ceiling, attained) = (greatest_ceiling(rows), greatest_attained(rows));
    let through = greatest_through(rows);
    push_numbers(alloc, times, ceiling, through, attained, &mut cells)?;
    push_judged(
        alloc,
        deadlines,
        times,
        message,
        attained,
        Some(through.unwrap_or(ceiling)),
        &mut cells,
    )?;
    Ok(cells)
}

/// Puts a ceiling, that through outages where there is one, and the greatest latency that traffic was found to attain at the
/// end of a row, in ticks and as times.
fn push_numbers(
    alloc: Global,
    times: &Times,
    ceiling: u32,
    through: Option<u32>,
    attained: Option<u32>,
    cells: &mut Row,
) -> Result<(), AllocError>
    ensures { OnOk result (cells.new ≡ cells.old ++ numbers_cells times.now ceiling through attained) }
{
    cells.push_number(u64::from(ceiling))?;
    let Some(through) = through else {
        push_count(attained, cells)?;
        return push_time_pair(alloc, times, Some(ceiling), attained, cells);
    };
    cells.push_number(u64::from(through))?;
    push_count(attained, cells)?;
    push_time_if_told(alloc, times, Some(ceiling), cells)?;
    push_time_pair(alloc, times, Some(through), attained, cells)
}

/// The rows of a message. Fails where memory runs out, and else never.
fn ceiled_of(alloc: Global, message: usize, rows: &[Ceiled]) -> Result<Vec<Ceiled>, AllocError>
    ensures { IfOk result (λ kept. kept.items ≡ ceiled_of message rows.now) }
{
    let mut kept = Vec::new(alloc);
    for row in rows {
        if row.message == message {
            kept.push(*row)?;
        }
    }
    Ok(kept)
}

/// The greatest ceiling of some rows, in ticks.
fn greatest_ceiling(rows: &[Ceiled]) -> u32
    ensures { result ≡ greatest_ceiling rows.now }
{
    let mut greatest: u32 = 0;
    for row in rows {
        greatest = greatest.max(row.ceiling);
    }
    greatest
}

/// The greatest ceiling through outages of some rows, in ticks, where all of them tell one.
fn greatest_through(rows: &[Ceiled]) -> Option<u32>
    ensures { result ≡ greatest_through rows.now }
{
    let mut greatest = Some(0);
    for row in rows {
        greatest = greater(greatest, row.through);
    }
    greatest
}

/// The greatest latency, in ticks, that traffic was found to attain by one of some rows, where all of them tell one.
fn greatest_attained(rows: &[Ceiled]) -> Option<u32>
    ensures { result ≡ greatest_attained rows.now }
{
    let mut greatest = Some(0);
    for row in rows {
        greatest = greater(greatest, row.attained);
    }
    greatest
}
