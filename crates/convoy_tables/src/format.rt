/// How a table is written (docs/FORMATS.md, "Tables").
#[derive(Clone, Copy, PartialEq, Eq)]
pub enum Format {
    /// In aligned columns, for people.
    Text,
    /// A line of names and a line for each row, with commas between the cells.
    Csv,
    /// An array with an object for each row.
    Json,
    /// A table of a page in HTML, in which what a cell has is a text and nothing else.
    Html,
}
