//! The table of a sweep.

ghost use Rattle.std.specs.Prelude.{◌≡◌, ◌++◌, map, IfOk, OnOk};
ghost use Rattle.convoy_tables.specs.Formats.{table_text};
ghost use Rattle.convoy_sweep.specs.Cells.{row_cells, table_of};

use super::cells::row_cells;
use super::columns::columns_of;
use super::kinds::{Sweep, Swept};
use convoy_scenario::Scenario;
use convoy_survey::Times;
use convoy_tables::{Format, Table, table_text};
use std::alloc::{AllocError, Global};

/// The table of these rows as it is written in a format, by the deadline of the target where this has one.
pub(crate) fn text_of(
    alloc: Global,
    format: Format,
    envelope: bool,
    times: &Times,
    deadline: Option<u32>,
    sweep: &Sweep,
    scenario: &Scenario,
    rows: &[Swept],
) -> Result<Vec<u8>, AllocError>
    ensures { IfOk result (λ text. text.items
        ≡ table_text format (table_of envelope times.now deadline sweep.now scenario.now rows.now)) }
{
    let mut table = Table::new(alloc, columns_of(alloc, envelope, times, deadline, sweep)?);
    push_rows(alloc, times, deadline, scenario, rows, &mut table)?;
    table_text(alloc, &table, format)
}

/// Puts these rows at the end of a table.
fn push_rows(
    alloc: Global,
    times: &Times,
    deadline: Option<u32>,
    scenario: &Scenario,
    rows: &[Swept],
    table: &mut Table,
) -> Result<(), AllocError>
    ensures { OnOk result (table.new ≡ record table.old {
      rows = table.old.rows ++ map (row_cells times.now deadline scenario.now) rows.now;
    }) }
{
    for row in rows {
        table.push(row_cells(alloc, times, deadline, scenario, row)?)?;
    }
    Ok(())
}
