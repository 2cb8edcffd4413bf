//! The laws of written tables. Each is the one clause of a function that does nothing; a caller that needs the
//! law calls the function.

ghost use Rattle.convoy_tables.specs.TableLaws.{CsvIsReadBack, JsonIsReadBack};

/// The records of a table as CSV, as the crate `csv` reads them, are its names and then its rows.
pub fn csv_is_read_back()
    ensures { CsvIsReadBack }
{}

/// A table as JSON is read by the crate `json` as an array with an object for each row, up to the end of its
/// last line: so each cell with a number is a number of JSON.
pub fn json_is_read_back()
    ensures { JsonIsReadBack }
{}
