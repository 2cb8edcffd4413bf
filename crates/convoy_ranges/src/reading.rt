//! Reads a table of round trips.

ghost use Rattle.std.specs.Prelude.{◌≡◌};
ghost use Rattle.std.specs.Result.{result_map_both};
ghost use Rattle.convoy_lines.specs.Places.{Place};
ghost use Rattle.convoy_scenario.specs.Memory.{IsUnlessMemory};
ghost use Rattle.convoy_ranges.specs.Tables.{line_in, rows_in, sightings_of, table_in, with_front};
ghost use Rattle.convoy_ranges.specs.declared.fault.RangesFault.TheVariants.{Memory};

use super::cells::{cells_of, is_blank};
use super::fault::RangesFault;
use super::rows::{Head, head_of, push_row};
use super::sighting::Sighting;
use convoy_lines::LineReader;
use std::alloc::Global;

/// What a table tells: its round trips, in the order in which they stand there.
pub(crate) fn sightings_of(alloc: Global, text: &[u8]) -> Result<Vec<Sighting>, RangesFault>
    ensures { IsUnlessMemory Memory (sightings_of text.now)
        (result_map_both (λ seen. seen.items) (λ fault. fault) result) }
{
    let mut whole = Vec::new(alloc);
    whole.extend_from_slice(text)?;
    whole.push(b'\n')?;
    let mut reader = LineReader::over(&whole);
    table_in(alloc, &mut reader)
}

/// What the lines tell that are left, the first of which with something in its cells is the first one.
fn table_in(alloc: Global, reader: &mut LineReader) -> Result<Vec<Sighting>, RangesFault>
    ensures { IsUnlessMemory Memory (table_in reader.old.number reader.old.ended)
        (result_map_both (λ seen. seen.items) (λ fault. fault) result) }
{
    'lines: loop {
        let number = reader.number();
        let Some(line) = reader.line() else {
            return Err(RangesFault::Empty);
        };
        let cells = cells_of(alloc, line)?;
        if !is_blank(&cells) {
            let head = head_of(alloc, number, &cells)?;
            return rows_in(alloc, &head, reader);
        }
    }
}

/// What the lines tell that are left below the first one.
fn rows_in(
    alloc: Global,
    head: &Head,
    reader: &mut LineReader,
) -> Result<Vec<Sighting>, RangesFault>
    ensures { IsUnlessMemory Memory (rows_in head.now reader.old.number reader.old.ended)
        (result_map_both (λ seen. seen.items) (λ fault. fault) result) }
{
    let mut seen = Vec::new(alloc);
    'lines: loop {
        let number = reader.number();
        let Some(line) = reader.line() else {
            return Ok(seen);
        };
        push_line(alloc, head, number, line, &mut seen)?;
    }
}

/// Appends what a line tells below the first one, which is nothing where nothing stands in its cells.
fn push_line(
    alloc: Global,
    head: &Head,
    number: usize,
    line: &[u8],
    seen: &mut Vec<Sighting>,
) -> Result<(), RangesFault>
    ensures { IsUnlessMemory Memory
        (with_front seen.old.items (line_in head.now number line.now))
        (result_map_both (λ _. seen.new.items) (λ fault. fault) result) }
{
    let cells = cells_of(alloc, line)?;
    if is_blank(&cells) {
        return Ok(());
    }
    push_row(alloc, head, number, &cells, seen)
}
