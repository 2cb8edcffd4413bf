//! Columns that are aligned.

ghost use Rattle.std.specs.Prelude.{◌≡◌, ◌++◌, slice_index_or, OnOk, IfOk};
ghost use Rattle.convoy_tables.specs.Formats.{aligned, filling, shown_width, width_at, widths_of};
ghost use Rattle.convoy_tables.specs.Tables.{is_number};

use super::cell::{Cell, Kind};
use super::table::{Row, Table};
use std::alloc::{AllocError, Global};

/// How wide each column of a table is.
pub(crate) fn widths_of(alloc: Global, table: &Table) -> Result<Vec<usize>, AllocError>
    ensures { IfOk result (λ widths. widths.items ≡ widths_of table.now) }
{
    let columns = table.columns();
    let mut widths = Vec::new(alloc);
    for column in 0..columns.len() {
        widths.push(width_at(columns, table.rows(), column))?;
    }
    Ok(widths)
}

/// How wide a column is, by its name and its cells.
fn width_at(names: &[Cell], rows: &[Row], column: usize) -> usize
    ensures { result ≡ width_at names.now rows.now column }
{
    let mut width = shown_width(column, names);
    for row in rows {
        width = width.max(shown_width(column, row.cells()));
    }
    width
}

/// How many bytes stand for the cell of a row in a column.
fn shown_width(column: usize, cells: &[Cell]) -> usize
    ensures { result ≡ shown_width column cells.now }
{
    match cells.get(column) {
        Some(cell) => cell.shown().len(),
        None => 1,
    }
}

/// The width of a column; 0 where there are not so many.
pub(crate) fn width_in(widths: &[usize], column: usize) -> usize
    ensures { result ≡ slice_index_or widths.now column 0 }
{
    if column < widths.len() {
        widths[column]
    } else {
        0
    }
}

/// Appends a cell in a column of that width.
pub(crate) fn push_aligned(
    width: usize,
    is_last: bool,
    cell: &Cell,
    out: &mut Vec<u8>,
) -> Result<(), AllocError>
    ensures { OnOk result (out.new.items ≡ out.old.items ++ aligned width is_last cell.now) }
{
    if is_number(cell.kind()) {
        push_filling(width, cell, out)?;
        return out.extend_from_slice(cell.shown().as_bytes());
    }
    out.extend_from_slice(cell.shown().as_bytes())?;
    if is_last {
        return Ok(());
    }
    push_filling(width, cell, out)
}

/// Whether a cell stands at the right of its column.
pub(crate) fn is_number(kind: Kind) -> bool
    ensures { result ≡ is_number kind }
{
    match kind {
        Kind::Number => true,
        Kind::Word | Kind::Nothing => false,
    }
}

/// Appends the spaces that fill a column of that width.
fn push_filling(width: usize, cell: &Cell, out: &mut Vec<u8>) -> Result<(), AllocError>
    ensures { OnOk result (out.new.items ≡ out.old.items ++ filling width cell.now) }
{
    let count = width.saturating_sub(cell.shown().len());
    for _ in 0..count {
        out.push(b' ')?;
    }
    Ok(())
}
