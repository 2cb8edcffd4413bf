//! What the first line of a trace says of those below it.

ghost use Rattle.std.specs.Prelude.{◌≡◌, codes};
ghost use Rattle.csv.specs.Records.{fields_of};
ghost use Rattle.convoy_traces.specs.Rows.{begins_object, columns_of, has_all, head_of, numbered};

use super::cells::{cell_at, column_of};
use super::fault::{Cause, TraceFault};
use csv::ByteRecord;

/// Where each column stands; none where the table has no such column.
#[derive(Clone, Copy)]
pub struct Columns {
    /// How many cells each line has.
    pub count: usize,
    pub event: Option<usize>,
    pub message: Option<usize>,
    pub group: Option<usize>,
    pub from: Option<usize>,
    pub time: Option<usize>,
    pub stamp: Option<usize>,
}

/// In which form the lines of a trace are.
#[derive(Clone, Copy)]
pub enum Head {
    /// Each is an object, the first one, too.
    Objects,
    /// The first names the columns of those below it.
    Table(Columns),
}

/// Whether the line begins an object.
fn begins_object(cells: &ByteRecord) -> bool
    ensures { result ≡ begins_object (fields_of cells.now) }
{
    match cell_at(cells, 0) {
        [first, ..] => *first == b'{',
        [] => false,
    }
}

/// Where each column stands in a line that names them.
fn columns_of(cells: &ByteRecord) -> Columns
    ensures { result ≡ columns_of (fields_of cells.now) }
{
    Columns {
        count: cells.len(),
        event: column_of(cells, "event"),
        message: column_of(cells, "message"),
        group: column_of(cells, "group"),
        from: column_of(cells, "from"),
        time: column_of(cells, "time"),
        stamp: column_of(cells, "stamp"),
    }
}

/// Whether the columns that every trace has are among them.
fn has_all(columns: Columns) -> bool
    ensures { result ≡ has_all columns }
{
    columns.event.is_some()
        && columns.message.is_some()
        && columns.group.is_some()
        && columns.time.is_some()
}

/// What the first line says of those below it.
pub fn head_of(line: usize, cells: &ByteRecord) -> Result<Head, TraceFault>
    ensures { result ≡ head_of line (fields_of cells.now) }
{
    if begins_object(cells) {
        return Ok(Head::Objects);
    }
    let columns = columns_of(cells);
    if has_all(columns) {
        Ok(Head::Table(columns))
    } else {
        Err(TraceFault::Line(line, Cause::Header))
    }
}
