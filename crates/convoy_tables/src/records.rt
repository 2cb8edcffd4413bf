//! Rows as records of CSV. What the writer refuses, it refuses for want of memory: it writes into memory, and
//! records may differ in length.

ghost use Rattle.std.specs.Prelude.{◌≡◌, ◌∷◌, [], ◌++◌, map, OnOk, IfOk};
ghost use Rattle.csv.specs.Records.{fields_of, partial_of};
ghost use Rattle.csv.specs.Writing.{default_writer, row_text};
ghost use Rattle.convoy_tables.specs.Formats.{begins_telling, csv_field, is_telling, record_text, records_text};
ghost use Rattle.convoy_tables.specs.Records.{written, IsBetween};

use super::cell::Cell;
use super::table::Table;
use csv::{ByteRecord, Writer, WriterBuilder};
use std::alloc::{AllocError, Global};

/// The names of a table's columns and its rows, each a record.
pub(crate) fn records_of(alloc: Global, table: &Table) -> Result<Vec<u8>, AllocError>
    ensures { IfOk result (λ text. text.items ≡ records_text table.now) }
{
    let mut writer = WriterBuilder::new()
        .flexible(true)
        .from_writer(Vec::new(alloc));
    write_cells(alloc, table.columns(), &mut writer)?;
    for row in table.rows() {
        write_cells(alloc, row.cells(), &mut writer)?;
    }
    written_by(writer)
}

/// The bytes that a writer wrote.
fn written_by(writer: Writer<Vec<u8>>) -> Result<Vec<u8>, AllocError>
    ensures { IfOk result (λ text. text.items ≡ written writer) }
{
    match writer.into_inner() {
        Ok(text) => Ok(text),
        Err(_) => Err(AllocError),
    }
}

/// Writes a row as a record.
fn write_cells(
    alloc: Global,
    cells: &[Cell],
    writer: &mut Writer<Vec<u8>>,
) -> Result<(), AllocError>
    requires { IsBetween writer.old }
    ensures written { OnOk result (written writer.new ≡ written writer.old ++ record_text cells.now) }
    ensures between { OnOk result (IsBetween writer.new) }
{
    match writer.write_byte_record(&record_of(alloc, cells)?) {
        Ok(()) => Ok(()),
        Err(_) => Err(AllocError),
    }
}

/// A row as a record.
fn record_of(alloc: Global, cells: &[Cell]) -> Result<ByteRecord, AllocError>
    ensures { IfOk result (λ row. fields_of row ≡ map csv_field cells.now) }
{
    let mut row = ByteRecord::new(alloc);
    for cell in cells {
        push_field(alloc, cell, &mut row)?;
    }
    Ok(row)
}

/// Puts the field of a cell at the end of a record.
fn push_field(alloc: Global, cell: &Cell, row: &mut ByteRecord) -> Result<(), AllocError>
    requires { partial_of row.old ≡ [] }
    ensures fields { OnOk result (fields_of row.new ≡ fields_of row.old ++ csv_field cell.now ∷ []) }
    ensures partial { OnOk result (partial_of row.new ≡ []) }
{
    let text = cell.text();
    if begins_telling(text.as_bytes()) {
        return row.push_field(format!(in alloc; "'{text}")?.as_bytes());
    }
    row.push_field(text.as_bytes())
}

/// Whether a text begins as a formula does, or with the apostrophe that keeps it from being one.
fn begins_telling(text: &[u8]) -> bool
    ensures { result ≡ begins_telling text.now }
{
    match text {
        [] => false,
        [first, ..] => is_telling(*first),
    }
}

/// Whether a byte tells, at the head of a field, that it is a formula or that it is none.
fn is_telling(byte: u8) -> bool
    ensures { result ≡ is_telling byte }
{
    matches!(byte, b'=' | b'+' | b'-' | b'@' | b'\t' | b'\r' | b'\'')
}
