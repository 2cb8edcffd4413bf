//! The cells of a line.

ghost use Rattle.std.specs.Prelude.{◌≡◌, IfOk};
ghost use Rattle.csv.specs.Records.{fields_of};
ghost use Rattle.convoy_ranges.specs.Tables.{cell_at, cells_of, is_blank};
ghost use Rattle.convoy_traces.specs.Rows.{cell_by, numbered};

use csv::{ByteRecord, ReaderBuilder, Trim};
use std::alloc::{AllocError, Global};

/// The cells of a line, which is read as a text of CSV of its own. Fails where memory runs out, and else never: the bytes
/// of a slice are always there to be read.
pub fn cells_of(alloc: Global, line: &[u8]) -> Result<ByteRecord, AllocError>
    ensures { IfOk result (λ cells. fields_of cells ≡ cells_of line.now) }
{
    let mut reader = ReaderBuilder::new()
        .has_headers(false)
        .comment(Some(b'#'))
        .trim(Trim::All)
        .from_reader(alloc, line);
    let mut cells = ByteRecord::new(alloc);
    match reader.read_byte_record(&mut cells) {
        Ok(true) => Ok(cells),
        Ok(false) => Ok(ByteRecord::new(alloc)),
        Err(_) => Err(AllocError),
    }
}

/// The cell at a place; an empty one where there is none.
pub(crate) fn cell_at(cells: &ByteRecord, place: usize) -> &[u8]
    ensures { result.now ≡ cell_at (fields_of cells.now) place }
{
    match cells.get(place) {
        Some(cell) => cell,
        None => b"",
    }
}

/// Whether nothing stands in any of the cells.
pub fn is_blank(cells: &ByteRecord) -> bool
    ensures { result ≡ is_blank (fields_of cells.now) }
{
    for place in 0..cells.len() {
        if !cell_at(cells, place).is_empty() {
            return false;
        }
    }
    true
}

/// The place of the first cell that is this word.
pub(crate) fn column_of(cells: &ByteRecord, word: &str) -> Option<usize>
    ensures { result ≡ numbered 0 (fields_of cells.now) word.now }
{
    for place in 0..cells.len() {
        if cell_at(cells, place) == word.as_bytes() {
            return Some(place);
        }
    }
    None
}

/// The cell in a column that may be absent.
pub(crate) fn cell_by(cells: &ByteRecord, place: Option<usize>) -> &[u8]
    ensures { result.now ≡ cell_by (fields_of cells.now) place }
{
    match place {
        Some(place) => cell_at(cells, place),
        None => b"",
    }
}
