//! Reads the lines of a trace.

ghost use Rattle.std.specs.Prelude.{◌≡◌, ◌+◌};
ghost use Rattle.csv.specs.Records.{fields_of};
ghost use Rattle.json.specs.Json.{document};
ghost use Rattle.convoy_ranges.specs.Tables.{cells_of};
ghost use Rattle.convoy_scenario.specs.Memory.{IsUnlessMemory};
ghost use Rattle.convoy_traces.specs.declared.fault.TraceFault.TheVariants.{Memory};
ghost use Rattle.convoy_trace_ranges.specs.Reading.{entries_of, entry_in, entry_in_cells, entry_in_line, entry_in_object, entry_in_text, rows_below, rows_from, table_in, with_line};

use super::entry::Entry;
use super::events::entry_of;
use super::traced::Traced;
use convoy_draft::TimeUnit;
use convoy_lines::LineReader;
use convoy_traces::{
    Cause, Columns, Head, TraceFault, cells_of, head_of, is_blank, row_of_cells, row_of_object,
};
use csv::ByteRecord;
use json::{Error, Scratch, Value};
use std::alloc::Global;

/// What a trace tells, in the order in which it stands there.
pub(crate) fn entries_of(
    alloc: Global,
    unit: Option<TimeUnit>,
    text: &[u8],
) -> Result<Traced, TraceFault>
    ensures { IsUnlessMemory Memory (entries_of unit text.now) result }
{
    let mut whole = Vec::new(alloc);
    whole.extend_from_slice(text)?;
    whole.push(b'\n')?;
    let mut reader = LineReader::over(&whole);
    table_in(alloc, unit, &mut reader)
}

/// What the lines tell that are left, the first of which with something in its cells is the first one.
fn table_in(
    alloc: Global,
    unit: Option<TimeUnit>,
    reader: &mut LineReader,
) -> Result<Traced, TraceFault>
    ensures { IsUnlessMemory Memory (table_in unit reader.old.number reader.old.ended) result }
{
    'lines: loop {
        let number = reader.number();
        let Some(line) = reader.line() else {
            return Err(TraceFault::Empty);
        };
        let cells = cells_of(alloc, line)?;
        if !is_blank(&cells) {
            let head = head_of(number, &cells)?;
            return rows_below(alloc, unit, number, line, &head, reader);
        }
    }
}

/// What is told by the first line, where it is an object, and by the lines that are left.
fn rows_below(
    alloc: Global,
    unit: Option<TimeUnit>,
    number: usize,
    line: &[u8],
    head: &Head,
    reader: &mut LineReader,
) -> Result<Traced, TraceFault>
    requires { reader.old.number ≡ number + 1 }
    ensures { IsUnlessMemory Memory (rows_below unit number line.now reader.old.ended head.now) result }
{
    let told = Traced::new(alloc);
    match head {
        Head::Objects => {
            let first = with_line(alloc, unit, head, number, line, told)?;
            rows_from(alloc, unit, head, first, reader)
        }
        Head::Table(_) => rows_from(alloc, unit, head, told, reader),
    }
}

/// What was told, and what the lines tell that are left.
fn rows_from(
    alloc: Global,
    unit: Option<TimeUnit>,
    head: &Head,
    before: Traced,
    reader: &mut LineReader,
) -> Result<Traced, TraceFault>
    ensures { IsUnlessMemory Memory (rows_from unit head.now reader.old.number before reader.old.ended) result }
{
    let mut told = before;
    'lines: loop {
        let number = reader.number();
        let Some(line) = reader.line() else {
            return Ok(told);
        };
        told = with_line(alloc, unit, head, number, line, told)?;
    }
}

/// What was told, and what a line tells.
fn with_line(
    alloc: Global,
    unit: Option<TimeUnit>,
    head: &Head,
    number: usize,
    line: &[u8],
    told: Traced,
) -> Result<Traced, TraceFault>
    ensures { IsUnlessMemory Memory (with_line unit head.now number told line.now) result }
{
    match entry_in(alloc, unit, head, number, line)? {
        Some(one) => told.with(alloc, one),
        None => Ok(told),
    }
}

/// What a line tells; nothing where nothing stands in its cells, or where its event is passed over.
fn entry_in(
    alloc: Global,
    unit: Option<TimeUnit>,
    head: &Head,
    number: usize,
    line: &[u8],
) -> Result<Option<Entry>, TraceFault>
    ensures { IsUnlessMemory Memory (entry_in unit head.now number line.now) result }
{
    let cells = cells_of(alloc, line)?;
    if is_blank(&cells) {
        return Ok(None);
    }
    entry_in_line(alloc, unit, head, number, line, &cells)
}

/// What a line tells, which has these cells.
fn entry_in_line(
    alloc: Global,
    unit: Option<TimeUnit>,
    head: &Head,
    number: usize,
    line: &[u8],
    cells: &ByteRecord,
) -> Result<Option<Entry>, TraceFault>
    requires { fields_of cells.now ≡ cells_of line.now }
    ensures { IsUnlessMemory Memory (entry_in_line unit head.now number line.now) result }
{
    match str::from_utf8(line) {
        Ok(text) => entry_in_text(alloc, unit, head, number, text, cells),
        Err(_) => Err(TraceFault::Line(number, Cause::Text)),
    }
}

/// What a line of text tells, which has these cells.
fn entry_in_text(
    alloc: Global,
    unit: Option<TimeUnit>,
    head: &Head,
    number: usize,
    text: &str,
    cells: &ByteRecord,
) -> Result<Option<Entry>, TraceFault>
    requires { fields_of cells.now ≡ cells_of text.now }
    ensures { IsUnlessMemory Memory (entry_in_text unit head.now number text.now) result }
{
    match head {
        Head::Objects => entry_in_object(alloc, unit, number, text),
        Head::Table(columns) => entry_in_cells(alloc, unit, number, columns, cells),
    }
}

/// What the cells of a line tell, of which there are as many as in the first one.
fn entry_in_cells(
    alloc: Global,
    unit: Option<TimeUnit>,
    number: usize,
    columns: &Columns,
    cells: &ByteRecord,
) -> Result<Option<Entry>, TraceFault>
    ensures { IsUnlessMemory Memory (entry_in_cells unit number columns.now (fields_of cells.now)) result }
{
    if cells.len() != columns.count {
        return Err(TraceFault::Line(number, Cause::Cells));
    }
    entry_of(alloc, unit, number, &row_of_cells(columns, cells))
}

/// What an object tells.
fn entry_in_object(
    alloc: Global,
    unit: Option<TimeUnit>,
    number: usize,
    text: &str,
) -> Result<Option<Entry>, TraceFault>
    ensures { IsUnlessMemory Memory (entry_in_object unit number (document text.now)) result }
{
    let mut scratch = Scratch::new(alloc);
    match Value::parse(alloc, text, &mut scratch) {
        Ok(object) => entry_of(alloc, unit, number, &row_of_object(&object)),
        Err(Error::Invalid) => Err(TraceFault::Line(number, Cause::Object)),
        Err(_) => Err(TraceFault::Memory),
    }
}
