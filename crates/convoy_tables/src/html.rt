//! Tables as HTML, and texts that stand in HTML as they are.

ghost use Rattle.std.specs.Prelude.{◌≡◌, ◌<◌, ◌++◌, length, IfOk, OnOk};
ghost use Rattle.std.specs.List.{flat_map};
ghost use Rattle.convoy_tables.specs.Formats.{cell_start, escaped, html_byte, html_cell, html_name, html_names, html_row, html_text, is_of_numbers, name_start};
ghost use Rattle.convoy_tables.specs.Tables.{cell_at, is_number};

use super::aligning::is_number;
use super::cell::{Cell, Kind};
use super::table::{Row, Table};
use std::alloc::{AllocError, Global};

/// Appends a text as HTML shows it: what has a meaning there stands by its entity. Where memory runs out, a front of it
/// may have been appended.
pub fn push_escaped(text: &[u8], out: &mut Vec<u8>) -> Result<(), AllocError>
    ensures { OnOk result (out.new.items ≡ out.old.items ++ escaped text.now) }
{
    for byte in text {
        push_byte(*byte, out)?;
    }
    Ok(())
}

/// Appends a byte of such a text.
fn push_byte(byte: u8, out: &mut Vec<u8>) -> Result<(), AllocError>
    ensures { OnOk result (out.new.items ≡ out.old.items ++ html_byte byte) }
{
    if byte == b'&' {
        out.extend_from_slice(b"&amp;")
    } else if byte == b'<' {
        out.extend_from_slice(b"&lt;")
    } else if byte == b'>' {
        out.extend_from_slice(b"&gt;")
    } else if byte == b'"' {
        out.extend_from_slice(b"&quot;")
    } else if byte == b'\'' {
        out.extend_from_slice(b"&#39;")
    } else {
        Ok(out.push(byte)?)
    }
}

/// A table in HTML.
pub(crate) fn html_of(alloc: Global, table: &Table) -> Result<Vec<u8>, AllocError>
    ensures { IfOk result (λ text. text.items ≡ html_text table.now) }
{
    let mut text = Vec::new(alloc);
    text.extend_from_slice(b"<table>\n<tr>")?;
    push_names(table.rows(), table.columns(), &mut text)?;
    text.extend_from_slice(b"</tr>\n")?;
    push_rows(table.rows(), &mut text)?;
    text.extend_from_slice(b"</table>\n")?;
    Ok(text)
}

/// Appends the names of the columns of these rows.
fn push_names(rows: &[Row], names: &[Cell], out: &mut Vec<u8>) -> Result<(), AllocError>
    ensures { OnOk result (out.new.items ≡ out.old.items ++ html_names rows.now names.now) }
{
    for column in 0..names.len() {
        push_name(rows, names, column, out)?;
    }
    Ok(())
}

/// Appends the name of a column of these rows.
fn push_name(
    rows: &[Row],
    names: &[Cell],
    column: usize,
    out: &mut Vec<u8>,
) -> Result<(), AllocError>
    requires { column < length names.now }
    ensures { OnOk result (out.new.items
        ≡ out.old.items ++ html_name rows.now column (cell_at names.now column)) }
{
    out.extend_from_slice(name_start(is_of_numbers(column, rows)))?;
    push_escaped(names[column].text().as_bytes(), out)?;
    out.extend_from_slice(b"</th>")
}

/// The start of the name of a column.
fn name_start(of_numbers: bool) -> &'static [u8]
    ensures { result.now ≡ name_start of_numbers }
{
    if of_numbers {
        b"<th class=\"number\">"
    } else {
        b"<th>"
    }
}

/// Whether some row has a number in the column.
fn is_of_numbers(column: usize, rows: &[Row]) -> bool
    ensures { result ≡ is_of_numbers column rows.now }
{
    rows.iter().any(|row| has_number(column, row.cells()))
}

/// Whether a row has a number in the column.
fn has_number(column: usize, cells: &[Cell]) -> bool
    ensures { result ≡ is_number (cell_at cells.now column).kind }
{
    match cells.get(column) {
        Some(cell) => is_number(cell.kind()),
        None => false,
    }
}

/// Appends rows, each in a line.
fn push_rows(rows: &[Row], out: &mut Vec<u8>) -> Result<(), AllocError>
    ensures { OnOk result (out.new.items ≡ out.old.items ++ flat_map html_row rows.now) }
{
    for row in rows {
        push_row(row.cells(), out)?;
    }
    Ok(())
}

/// Appends a row in a line.
fn push_row(cells: &[Cell], out: &mut Vec<u8>) -> Result<(), AllocError>
    ensures { OnOk result (out.new.items ≡ out.old.items ++ html_row cells.now) }
{
    out.extend_from_slice(b"<tr>")?;
    push_cells(cells, out)?;
    out.extend_from_slice(b"</tr>\n")
}

/// Appends cells.
fn push_cells(cells: &[Cell], out: &mut Vec<u8>) -> Result<(), AllocError>
    ensures { OnOk result (out.new.items ≡ out.old.items ++ flat_map html_cell cells.now) }
{
    for cell in cells {
        push_cell(cell, out)?;
    }
    Ok(())
}

/// Appends a cell.
fn push_cell(cell: &Cell, out: &mut Vec<u8>) -> Result<(), AllocError>
    ensures { OnOk result (out.new.items ≡ out.old.items ++ html_cell cell.now) }
{
    out.extend_from_slice(cell_start(cell.kind()))?;
    push_escaped(cell.shown().as_bytes(), out)?;
    out.extend_from_slice(b"</td>")
}

/// The start of a cell by what it has.
fn cell_start(kind: Kind) -> &'static [u8]
    ensures { result.now ≡ cell_start kind }
{
    match kind {
        Kind::Word => b"<td>",
        Kind::Number => b"<td class=\"number\">",
        Kind::Nothing => b"<td class=\"nothing\">",
    }
}
