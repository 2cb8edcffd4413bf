use std::marker::Model;

/// A row: a text for each column, with nothing in it where the line has none.
#[derive(Drop)]
pub struct Row<'a> {
    pub event: &'a [u8],
    pub message: &'a [u8],
    pub group: &'a [u8],
    pub from: &'a [u8],
    pub time: &'a [u8],
    pub stamp: &'a [u8],
}

impl<'a> Model for Row<'a> {
    ghost use Rattle.convoy_traces.specs.Rows.{Row};

    ghost Value = { Row };

    ghost view = { λ r. record {
      event = r.event.now;
      message = r.message.now;
      group = r.group.now;
      from = r.from.now;
      time = r.time.now;
      stamp = r.stamp.now;
    } };
}

ghost use Rattle.std.specs.Prelude.{◌≡◌};
ghost use Rattle.csv.specs.Records.{fields_of};
ghost use Rattle.convoy_traces.specs.Rows.{row_of_cells};

use super::cells::cell_by;
use super::columns::Columns;
use csv::ByteRecord;

/// The row of a line of cells.
pub fn row_of_cells<'a>(columns: &Columns, cells: &'a ByteRecord) -> Row<'a>
    ensures { result ≡ row_of_cells columns.now (fields_of cells.now) }
{
    Row {
        event: cell_by(cells, columns.event),
        message: cell_by(cells, columns.message),
        group: cell_by(cells, columns.group),
        from: cell_by(cells, columns.from),
        time: cell_by(cells, columns.time),
        stamp: cell_by(cells, columns.stamp),
    }
}
