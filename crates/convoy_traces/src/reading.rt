//! Reads the lines of a trace.

ghost use Rattle.std.specs.Prelude.{◌≡◌, ◌+◌};
ghost use Rattle.std.specs.Result.{result_map_both};
ghost use Rattle.csv.specs.Records.{fields_of};
ghost use Rattle.convoy_ranges.specs.Tables.{cells_of};
ghost use Rattle.convoy_scenario.specs.Memory.{IsUnlessMemory};
ghost use Rattle.convoy_traces.specs.Traces.{entries_of, entry_by, entry_in, entry_in_cells, entry_in_object, in_line, rows_below, rows_from, table_in, with_entry, with_line};
ghost use Rattle.json.specs.Json.{document};
ghost use Rattle.convoy_traces.specs.declared.fault.TraceFault.TheVariants.{Memory};

use super::cells::{cells_of, is_blank};
use super::clock::Clock;
use super::columns::{Columns, Head, head_of};
use super::entries::entry_of;
use super::fault::{Cause, TraceFault};
use super::objects::row_of_object;
use super::row::row_of_cells;
use super::told::{Entry, is_told};
use convoy_lines::LineReader;
use convoy_scenario::Scenario;
use csv::ByteRecord;
use json::{Error, Scratch, Value};
use std::alloc::Global;

/// What a trace tells, in the order in which it stands there.
pub(crate) fn entries_of(
    alloc: Global,
    scenario: &Scenario,
    clock: Clock,
    text: &[u8],
) -> Result<Vec<Entry>, TraceFault>
    ensures { IsUnlessMemory Memory (entries_of scenario.now clock text.now)
        (result_map_both (λ entries. entries.items) (λ fault. fault) result) }
{
    let mut whole = Vec::new(alloc);
    whole.extend_from_slice(text)?;
    whole.push(b'\n')?;
    let mut reader = LineReader::over(&whole);
    table_in(alloc, scenario, clock, &mut reader)
}

/// What the lines tell that are left, the first of which with something in its cells is the first one.
fn table_in(
    alloc: Global,
    scenario: &Scenario,
    clock: Clock,
    reader: &mut LineReader,
) -> Result<Vec<Entry>, TraceFault>
    ensures { IsUnlessMemory Memory (table_in scenario.now clock reader.old.number reader.old.ended)
        (result_map_both (λ entries. entries.items) (λ fault. fault) result) }
{
    'lines: loop {
        let number = reader.number();
        let Some(line) = reader.line() else {
            return Err(TraceFault::Empty);
        };
        let cells = cells_of(alloc, line)?;
        if !is_blank(&cells) {
            let head = head_of(number, &cells)?;
            return rows_below(alloc, scenario, clock, number, line, &head, reader);
        }
    }
}

/// What is told by the first line, where it is an object, and by the lines that are left.
fn rows_below(
    alloc: Global,
    scenario: &Scenario,
    clock: Clock,
    number: usize,
    line: &[u8],
    head: &Head,
    reader: &mut LineReader,
) -> Result<Vec<Entry>, TraceFault>
    requires { reader.old.number ≡ number + 1 }
    ensures { IsUnlessMemory Memory (rows_below scenario.now clock number line.now reader.old.ended head.now)
        (result_map_both (λ entries. entries.items) (λ fault. fault) result) }
{
    let mut entries = Vec::new(alloc);
    match head {
        Head::Objects => {
            push_line(alloc, scenario, clock, head, number, line, &mut entries)?;
            rows_from(alloc, scenario, clock, head, entries, reader)
        }
        Head::Table(_) => rows_from(alloc, scenario, clock, head, entries, reader),
    }
}

/// What was told, and what the lines tell that are left.
fn rows_from(
    alloc: Global,
    scenario: &Scenario,
    clock: Clock,
    head: &Head,
    entries: Vec<Entry>,
    reader: &mut LineReader,
) -> Result<Vec<Entry>, TraceFault>
    ensures { IsUnlessMemory Memory (rows_from scenario.now clock head.now reader.old.number entries.items reader.old.ended)
        (result_map_both (λ entries. entries.items) (λ fault. fault) result) }
{
    let mut told = entries;
    'lines: loop {
        let number = reader.number();
        let Some(line) = reader.line() else {
            return Ok(told);
        };
        push_line(alloc, scenario, clock, head, number, line, &mut told)?;
    }
}

/// Appends what a line tells, which is nothing where nothing stands in its cells.
fn push_line(
    alloc: Global,
    scenario: &Scenario,
    clock: Clock,
    head: &Head,
    number: usize,
    line: &[u8],
    entries: &mut Vec<Entry>,
) -> Result<(), TraceFault>
    ensures { IsUnlessMemory Memory
        (with_line scenario.now clock head.now number entries.old.items line.now)
        (result_map_both (λ _. entries.new.items) (λ fault. fault) result) }
{
    let cells = cells_of(alloc, line)?;
    if is_blank(&cells) {
        return Ok(());
    }
    let one = entry_in(alloc, scenario, clock, head, number, line, &cells)?;
    push_entry(&one, entries)
}

/// Appends an entry whose event none of the others tells.
fn push_entry(one: &Entry, entries: &mut Vec<Entry>) -> Result<(), TraceFault>
    ensures { IsUnlessMemory Memory (with_entry entries.old.items one.now)
        (result_map_both (λ _. entries.new.items) (λ fault. fault) result) }
{
    if is_told(entries, one) {
        return Err(TraceFault::Line(one.line, Cause::Twice));
    }
    entries.push(*one)?;
    Ok(())
}

/// What a line tells, which has these cells.
fn entry_in(
    alloc: Global,
    scenario: &Scenario,
    clock: Clock,
    head: &Head,
    number: usize,
    line: &[u8],
    cells: &ByteRecord,
) -> Result<Entry, TraceFault>
    requires { fields_of cells.now ≡ cells_of line.now }
    ensures { IsUnlessMemory Memory (in_line number (entry_in scenario.now clock head.now number line.now)) result }
{
    match str::from_utf8(line) {
        Ok(text) => entry_by(alloc, scenario, clock, head, number, text, cells),
        Err(_) => Err(TraceFault::Line(number, Cause::Text)),
    }
}

/// What a line of text tells, which has these cells.
fn entry_by(
    alloc: Global,
    scenario: &Scenario,
    clock: Clock,
    head: &Head,
    number: usize,
    text: &str,
    cells: &ByteRecord,
) -> Result<Entry, TraceFault>
    requires { fields_of cells.now ≡ cells_of text.now }
    ensures { IsUnlessMemory Memory (in_line number (entry_by scenario.now clock head.now number text.now)) result }
{
    match head {
        Head::Objects => entry_in_object(alloc, scenario, clock, number, text),
        Head::Table(columns) => entry_in_cells(alloc, scenario, clock, columns, number, cells),
    }
}

/// What the cells of a line tell, of which there are as many as in the first one.
fn entry_in_cells(
    alloc: Global,
    scenario: &Scenario,
    clock: Clock,
    columns: &Columns,
    number: usize,
    cells: &ByteRecord,
) -> Result<Entry, TraceFault>
    ensures { IsUnlessMemory Memory
        (in_line number (entry_in_cells scenario.now clock columns.now number (fields_of cells.now))) result }
{
    if cells.len() != columns.count {
        return Err(TraceFault::Line(number, Cause::Cells));
    }
    entry_of(
        alloc,
        scenario,
        clock,
        number,
        &row_of_cells(columns, cells),
    )
}

/// What an object tells.
fn entry_in_object(
    alloc: Global,
    scenario: &Scenario,
    clock: Clock,
    number: usize,
    text: &str,
) -> Result<Entry, TraceFault>
    ensures { IsUnlessMemory Memory
        (in_line number (entry_in_object scenario.now clock number (document text.now))) result }
{
    let mut scratch = Scratch::new(alloc);
    match Value::parse(alloc, text, &mut scratch) {
        Ok(object) => entry_of(alloc, scenario, clock, number, &row_of_object(&object)),
        Err(Error::Invalid) => Err(TraceFault::Line(number, Cause::Object)),
        Err(_) => Err(TraceFault::Memory),
    }
}
