//! The cells of a line.

ghost use Rattle.std.specs.Prelude.{◌≡◌, IfOk, option_map, ◌≤◌, IfSome};
ghost use Rattle.std.specs.Str.{bytes_eq};
ghost use Rattle.csv.specs.Records.{fields_of};
ghost use Rattle.convoy_ranges.specs.Tables.{cell_at, cells_of, distance_of, is_blank, time_of};
ghost use Rattle.convoy_draft.specs.declared.duration.TheConstants.{LONGEST_DURATION};
ghost use Rattle.convoy_ranges.specs.declared.fault.TheConstants.{MOST_KILOMETRES};

use super::fault::MOST_KILOMETRES;
use convoy_draft::Duration;
use convoy_lines::number_of;
use csv::{ByteRecord, ReaderBuilder, Trim};
use std::alloc::{AllocError, Global};

/// The cells of a line, which is read as a text of CSV of its own. Fails where memory runs out, and else never: the bytes
/// of a slice are always there to be read.
pub(crate) fn cells_of(alloc: Global, line: &[u8]) -> Result<ByteRecord, AllocError>
    ensures { IfOk result (λ cells. fields_of cells ≡ cells_of line.now) }
{
    let mut reader = ReaderBuilder::new()
        .has_headers(false)
        .comment(Some(b'#'))
        .trim(Trim::All)
        .from_reader(alloc, line);
    let mut cells = ByteRecord::new(alloc);
    match reader.read_byte_record(&mut cells) {
        Ok(true) => Ok(cells),
        Ok(false) => Ok(ByteRecord::new(alloc)),
        Err(_) => Err(AllocError),
    }
}

/// The cell at a place; an empty one where there is none.
pub(crate) fn cell_at(cells: &ByteRecord, place: usize) -> &[u8]
    ensures { result.now ≡ cell_at (fields_of cells.now) place }
{
    match cells.get(place) {
        Some(cell) => cell,
        None => b"",
    }
}

/// Whether nothing stands in any of the cells.
pub(crate) fn is_blank(cells: &ByteRecord) -> bool
    ensures { result ≡ is_blank (fields_of cells.now) }
{
    for place in 0..cells.len() {
        if !cell_at(cells, place).is_empty() {
            return false;
        }
    }
    true
}

/// Whether the cell at a place is this word.
pub(crate) fn is_word(cells: &ByteRecord, place: usize, word: &str) -> bool
    ensures { result ≡ bytes_eq (cell_at (fields_of cells.now) place) word.now }
{
    cell_at(cells, place) == word.as_bytes()
}

/// The time that a cell tells, in nanoseconds: a duration, or a number of milliseconds.
pub(crate) fn time_of(alloc: Global, cell: &[u8]) -> Result<Option<u64>, AllocError>
    ensures value { IfOk result (λ time. time ≡ time_of cell.now) }
    ensures bounded { IfOk result (λ time. IfSome time (λ t. t ≤ LONGEST_DURATION)) }
{
    if let Some(time) = Duration::read(cell) {
        return Ok(Some(time.nanoseconds()));
    }
    let mut text = Vec::new(alloc);
    text.extend_from_slice(cell)?;
    text.extend_from_slice(b" ms")?;
    match Duration::read(&text) {
        Some(time) => Ok(Some(time.nanoseconds())),
        None => Ok(None),
    }
}

/// The distance that a cell tells, in kilometres: none where nothing stands in it.
pub(crate) fn distance_of(cell: &[u8]) -> Option<Option<u32>>
    ensures value { result ≡ distance_of cell.now }
    ensures bounded { IfSome result (λ distance. IfSome distance (λ far. far ≤ MOST_KILOMETRES)) }
{
    if cell.is_empty() {
        return Some(None);
    }
    let far = number_of(cell, MOST_KILOMETRES)?;
    Some(Some(far))
}
