ghost use Rattle.std.specs.Prelude.{◌≡◌, ◌++◌, true, map, IfOk, OnOk};
ghost use Rattle.convoy_survey.specs.Times.{where_told};
ghost use Rattle.convoy_best_order.specs.Cells.{columns_of, layout_of, line_above, order_columns, order_text, reason_lines, row_cells, table_of, time_columns};

use super::best::{Best, Reason, Row as Told};
use super::cells::{reason_cells, row_cells, whole_cells};
use super::layout::Layout;
use super::naming::order_line;
use super::target::Target;
use convoy_scenario::Scenario;
use convoy_survey::{Times, push_verdict_columns};
use convoy_tables::{Format, Row, Table, table_text};
use convoy_times::Measure;
use std::alloc::{AllocError, Global};

/// The text that tells the best order of a scenario for those of these targets that count, with the rows of the others.
pub(crate) fn order_text(
    alloc: Global,
    format: Format,
    with_reasons: bool,
    measure: Option<Measure>,
    scenario: &Scenario,
    targets: &[Target],
    best: &Best,
    others: &[Told],
) -> Result<Vec<u8>, AllocError>
    ensures { IfOk result (λ text. text.items
        ≡ order_text format with_reasons measure scenario.now targets.now best.now others.now) }
{
    let table = order_table(
        alloc,
        format,
        with_reasons,
        measure,
        scenario,
        targets,
        best,
        others,
    )?;
    let lines = table_text(alloc, &table, format)?;
    let mut text = line_above(alloc, format, scenario, &best.order)?;
    text.extend_from_slice(&lines)?;
    Ok(text)
}

/// The table of the best order of a scenario for those of these targets that count, with the rows of the others: a line for
/// each of them, one for all that count together, and where reasons are asked for one for each reason. Fails where memory
/// runs out, and else never.
pub fn order_table(
    alloc: Global,
    format: Format,
    with_reasons: bool,
    measure: Option<Measure>,
    scenario: &Scenario,
    targets: &[Target],
    best: &Best,
    others: &[Told],
) -> Result<Table, AllocError>
    ensures { IfOk result (λ table. table
        ≡ table_of with_reasons (layout_of format with_reasons measure targets.now) scenario.now best.now others.now) }
{
    let layout = Layout::of(format, with_reasons, measure, targets);
    table_of(alloc, with_reasons, &layout, scenario, best, others)
}

/// The line above a table for people; nothing in the other formats.
fn line_above(
    alloc: Global,
    format: Format,
    scenario: &Scenario,
    order: &[usize],
) -> Result<Vec<u8>, AllocError>
    ensures { IfOk result (λ text. text.items ≡ line_above format scenario.now order.now) }
{
    match format {
        Format::Text => {
            let line = order_line(alloc, scenario, order)?;
            Vec::from_slice(alloc, line.as_bytes())
        }
        Format::Csv | Format::Json | Format::Html => Ok(Vec::new(alloc)),
    }
}

/// The table of an order.
fn table_of(
    alloc: Global,
    with_reasons: bool,
    layout: &Layout,
    scenario: &Scenario,
    best: &Best,
    others: &[Told],
) -> Result<Table, AllocError>
    ensures { IfOk result
        (λ table. table ≡ table_of with_reasons layout.now scenario.now best.now others.now) }
{
    let mut table = Table::new(alloc, columns_of(alloc, layout)?);
    push_rows(alloc, layout, scenario, &best.order, &best.rows, &mut table)?;
    push_rows(alloc, layout, scenario, &best.order, others, &mut table)?;
    table.push(whole_cells(alloc, layout, scenario, best)?)?;
    if with_reasons {
        push_reasons(alloc, layout, scenario, &best.reasons, &mut table)?;
    }
    Ok(table)
}

/// Puts the lines for the targets at the end of a table.
fn push_rows(
    alloc: Global,
    layout: &Layout,
    scenario: &Scenario,
    order: &[usize],
    rows: &[Told],
    table: &mut Table,
) -> Result<(), AllocError>
    ensures { OnOk result (table.new ≡ record table.old {
      rows = table.old.rows ++ map (row_cells layout.now scenario.now order.now) rows.now;
    }) }
{
    for row in rows {
        table.push(row_cells(alloc, layout, scenario, order, row)?)?;
    }
    Ok(())
}

/// Puts the reasons at the end of a table.
fn push_reasons(
    alloc: Global,
    layout: &Layout,
    scenario: &Scenario,
    reasons: &[Reason],
    table: &mut Table,
) -> Result<(), AllocError>
    ensures { OnOk result (table.new ≡ record table.old {
      rows = table.old.rows ++ reason_lines true layout.now scenario.now reasons.now;
    }) }
{
    for reason in reasons {
        table.push(reason_cells(alloc, layout, scenario, reason)?)?;
    }
    Ok(())
}

/// The names of the columns.
fn columns_of(alloc: Global, layout: &Layout) -> Result<Row, AllocError>
    ensures { IfOk result (λ columns. columns ≡ columns_of layout.now) }
{
    let mut columns = Row::new(alloc);
    columns.push_words(&[
        "message",
        "group",
        "deadline",
        "before_least",
        "before_most",
        "least",
        "most",
    ])?;
    push_time_columns(&layout.times, &mut columns)?;
    push_verdict_columns(layout.is_judged, &layout.times, &mut columns)?;
    push_order_column(layout, &mut columns)?;
    Ok(columns)
}

/// Puts the names of the columns of times at the end of a row, where times are told.
fn push_time_columns(times: &Times, columns: &mut Row) -> Result<(), AllocError>
    ensures { OnOk result (columns.new ≡ columns.old ++ where_told times.now time_columns) }
{
    if times.are_told {
        columns.push_words(&[
            "before_least_time",
            "before_most_time",
            "least_time",
            "most_time",
            "unit",
        ])
    } else {
        Ok(())
    }
}

/// Puts the name of the column of orders at the end of a row, where orders are told.
fn push_order_column(layout: &Layout, columns: &mut Row) -> Result<(), AllocError>
    ensures { OnOk result (columns.new ≡ columns.old ++ order_columns layout.now) }
{
    if layout.tells_order {
        columns.push_word("order")
    } else {
        Ok(())
    }
}
