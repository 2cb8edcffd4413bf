//! Rows as objects of JSON.

ghost use Rattle.std.specs.Prelude.{◌≡◌, ◌++◌, codes, IfOk};
ghost use Rattle.json.specs.Print.{print, IsPrintable};
ghost use Rattle.json.specs.Reads.{token_of};
ghost use Rattle.convoy_tables.specs.Formats.{array_text, joined, json_object, json_value, object_text};
ghost use Rattle.convoy_tables.specs.Tables.{cell_at};

use super::between::push_before;
use super::cell::{Cell, Kind};
use super::table::{Row, Table};
use json::{Token, Writer};
use std::alloc::{AllocError, Global};

/// The rows of a table as an array.
pub(crate) fn array_of(alloc: Global, table: &Table) -> Result<Vec<u8>, AllocError>
    ensures { IfOk result (λ text. text.items ≡ array_text table.now) }
{
    let mut text = Vec::new(alloc);
    text.push(b'[')?;
    let mut text = with_objects(table.columns(), table.rows(), text)?;
    text.extend_from_slice(b"\n]\n")?;
    Ok(text)
}

/// A text with rows as objects after it, with commas between them.
fn with_objects(names: &[Cell], rows: &[Row], text: Vec<u8>) -> Result<Vec<u8>, AllocError>
    ensures { IfOk result (λ new. new.items ≡ text.items ++ joined (codes ",") (object_text names.now) rows.now) }
{
    let mut text = text;
    for i in 0..rows.len() {
        push_before(i, b",", &mut text)?;
        text.extend_from_slice(b"\n  ")?;
        text = with_object(names, rows[i].cells(), text)?;
    }
    Ok(text)
}

/// A text with a row as an object after it.
fn with_object(names: &[Cell], cells: &[Cell], text: Vec<u8>) -> Result<Vec<u8>, AllocError>
    ensures { IfOk result (λ new. new.items ≡ text.items ++ print (json_object names.now cells.now)) }
{
    let mut writer = Writer::new(text);
    writer.begin_object()?;
    for column in 0..cells.len() {
        writer.key(name_in(names, column))?;
        writer.token(value_of(&cells[column]))?;
    }
    writer.end_object()?;
    Ok(writer.into_inner())
}

/// The value of a cell.
fn value_of(cell: &Cell) -> Token<'_>
    ensures token { token_of result ≡ json_value cell.now.kind cell.now.text }
    ensures printable { IsPrintable (token_of result) }
{
    match cell.kind() {
        Kind::Word => Token::String(cell.text()),
        Kind::Number => Token::Number(cell.text()),
        Kind::Nothing => Token::Null,
    }
}

/// The name of a column; none where there are not so many.
fn name_in(names: &[Cell], column: usize) -> &str
    ensures { result.now ≡ (cell_at names.now column).text }
{
    match names.get(column) {
        Some(name) => name.text(),
        None => "",
    }
}
