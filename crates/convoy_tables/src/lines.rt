//! Lines with aligned columns.

ghost use Rattle.std.specs.Prelude.{◌≡◌, ◌<◌, ◌++◌, length, OnOk, IfOk};
ghost use Rattle.convoy_tables.specs.Formats.{column_text, columns_text, line_text, lines_text};
ghost use Rattle.convoy_tables.specs.Tables.{cell_at};

use super::aligning::{push_aligned, width_in};
use super::between::push_before;
use super::cell::Cell;
use super::table::Table;
use std::alloc::{AllocError, Global};

/// The names of a table's columns and its rows, each in a line.
pub(crate) fn lines_of(
    alloc: Global,
    table: &Table,
    widths: &[usize],
) -> Result<Vec<u8>, AllocError>
    ensures { IfOk result (λ text. text.items ≡ lines_text widths.now table.now) }
{
    let mut text = Vec::new(alloc);
    push_line(widths, table.columns(), &mut text)?;
    for row in table.rows() {
        push_line(widths, row.cells(), &mut text)?;
    }
    Ok(text)
}

/// Appends a row as a line.
fn push_line(widths: &[usize], cells: &[Cell], out: &mut Vec<u8>) -> Result<(), AllocError>
    ensures { OnOk result (out.new.items ≡ out.old.items ++ line_text widths.now cells.now) }
{
    push_columns(widths, cells, out)?;
    Ok(out.push(b'\n')?)
}

/// Appends the cells of a row, with spaces between them.
fn push_columns(widths: &[usize], cells: &[Cell], out: &mut Vec<u8>) -> Result<(), AllocError>
    ensures { OnOk result (out.new.items ≡ out.old.items ++ columns_text widths.now cells.now) }
{
    for column in 0..cells.len() {
        push_before(column, b"  ", out)?;
        push_column(widths, cells, column, out)?;
    }
    Ok(())
}

/// Appends a cell of a row.
fn push_column(
    widths: &[usize],
    cells: &[Cell],
    column: usize,
    out: &mut Vec<u8>,
) -> Result<(), AllocError>
    requires { column < length cells.now }
    ensures { OnOk result (out.new.items ≡ out.old.items
        ++ column_text widths.now (length cells.now) column (cell_at cells.now column)) }
{
    let is_last = column + 1 == cells.len();
    push_aligned(width_in(widths, column), is_last, &cells[column], out)
}
