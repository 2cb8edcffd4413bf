use super::cell::Cell;
use std::alloc::{AllocError, Global};
use std::marker::Model;

/// The cells of one row of a table, in the order of its columns.
#[derive(Drop)]
pub struct Row {
    cells: Vec<Cell>,
}

impl Model for Row {
    ghost use Rattle.std.specs.Prelude.{List};
    ghost use Rattle.convoy_tables.specs.Tables.{Cell};

    ghost Value = { List Cell };

    ghost view = { λ r. r.cells.items };
}

impl Row {
    ghost use Rattle.std.specs.Prelude.{◌≡◌, ◌∷◌, [], ◌++◌, map, OnOk};
    ghost use Rattle.convoy_tables.specs.Tables.{nothing, number, numeral, word, IsNumber};

    /// A row without cells yet.
    pub fn new(alloc: Global) -> Row
        ensures { result ≡ [] }
    {
        Row {
            cells: Vec::new(alloc),
        }
    }

    /// Puts a cell at the end of the row. Fails where memory runs out, and else never.
    pub fn push(&mut self, cell: Cell) -> Result<(), AllocError>
        ensures { OnOk result (self.new ≡ self.old ++ cell ∷ []) }
    {
        Ok(self.cells.push(cell)?)
    }

    /// Puts a cell with a word, or with several, at the end of the row. Fails where memory runs out, and else
    /// never.
    pub fn push_word(&mut self, text: &str) -> Result<(), AllocError>
        ensures { OnOk result (self.new ≡ self.old ++ word text.now ∷ []) }
    {
        let cell = Cell::word(*self.cells.allocator(), text)?;
        self.push(cell)
    }

    /// Puts cells with words at the end of the row. Fails where memory runs out, and else never.
    pub fn push_words(&mut self, words: &[&str]) -> Result<(), AllocError>
        ensures { OnOk result (self.new ≡ self.old ++ map (λ text. word text.now) words.now) }
    {
        for text in words {
            self.push_word(text)?;
        }
        Ok(())
    }

    /// Puts a cell with a number at the end of the row. Fails where memory runs out, and else never.
    pub fn push_number(&mut self, value: u64) -> Result<(), AllocError>
        ensures { OnOk result (self.new ≡ self.old ++ number value ∷ []) }
    {
        let cell = Cell::number(*self.cells.allocator(), value)?;
        self.push(cell)
    }

    /// Puts a cell with a number that its text tells exactly, as `193.5`, at the end of the row: digits, with at
    /// most one point, between digits, and no needless zero at their head. Fails where memory runs out, and else
    /// never.
    pub fn push_decimal(&mut self, text: &str) -> Result<(), AllocError>
        requires { IsNumber text.now }
        ensures { OnOk result (self.new ≡ self.old ++ numeral text.now ∷ []) }
    {
        let cell = Cell::decimal(*self.cells.allocator(), text)?;
        self.push(cell)
    }

    /// Puts a cell with nothing in it at the end of the row. Fails where memory runs out, and else never.
    pub fn push_nothing(&mut self) -> Result<(), AllocError>
        ensures { OnOk result (self.new ≡ self.old ++ nothing ∷ []) }
    {
        let cell = Cell::nothing(*self.cells.allocator());
        self.push(cell)
    }

    /// The cells.
    pub fn cells(&self) -> &[Cell]
        ensures { result.now ≡ self.now }
    {
        self.cells.as_slice()
    }
}

/// A table: the names of its columns, and its rows. A row has as many cells as there are columns; those
/// beyond have columns without a name.
#[derive(Drop)]
pub struct Table {
    columns: Row,
    rows: Vec<Row>,
}

impl Model for Table {
    ghost use Rattle.convoy_tables.specs.Tables.{Table};

    ghost Value = { Table };

    ghost view = { λ t. record { columns = t.columns; rows = t.rows.items } };
}

impl Table {
    ghost use Rattle.std.specs.Prelude.{◌≡◌, ◌∷◌, [], ◌++◌, map, IfOk, OnOk};
    ghost use Rattle.convoy_tables.specs.Tables.{word};

    /// A table with columns of these names, and without rows yet.
    pub fn new(alloc: Global, columns: Row) -> Table
        ensures { result ≡ record { columns = columns; rows = [] } }
    {
        Table {
            columns,
            rows: Vec::new(alloc),
        }
    }

    /// Puts a row at the end of the table. Fails where memory runs out, and else never.
    pub fn push(&mut self, row: Row) -> Result<(), AllocError>
        ensures { OnOk result (self.new ≡ record self.old { rows = self.old.rows ++ row ∷ [] }) }
    {
        Ok(self.rows.push(row)?)
    }

    /// Puts the rows of another table at the end of this one. Fails where memory runs out, and else never.
    pub fn append(&mut self, other: Table) -> Result<(), AllocError>
        ensures { OnOk result (self.new ≡ record self.old { rows = self.old.rows ++ other.rows }) }
    {
        let Table { rows, .. } = other;
        let mut rows = rows;
        Ok(self.rows.append(&mut rows)?)
    }

    /// The table with one more column, which has the same word in each row. Fails where memory runs out, and else never.
    pub fn with_column(self, alloc: Global, name: &str, text: &str) -> Result<Table, AllocError>
        ensures { IfOk result (λ table. table ≡ record {
          columns = self.columns ++ word name.now ∷ [];
          rows = map (λ row. row ++ word text.now ∷ []) self.rows;
        }) }
    {
        let Table { columns, rows } = self;
        Ok(Table {
            columns: with_word(columns, name)?,
            rows: with_words(alloc, rows, text)?,
        })
    }

    /// The names of the columns.
    pub fn columns(&self) -> &[Cell]
        ensures { result.now ≡ self.now.columns }
    {
        self.columns.cells()
    }

    /// The rows.
    pub fn rows(&self) -> &[Row]
        ensures { result.now ≡ self.now.rows }
    {
        self.rows.as_slice()
    }
}

ghost use Rattle.std.specs.Prelude.{◌≡◌, ◌∷◌, [], ◌++◌, map, IfOk};
ghost use Rattle.convoy_tables.specs.Tables.{word};

/// The row with one more cell, which has a word.
fn with_word(row: Row, text: &str) -> Result<Row, AllocError>
    ensures { IfOk result (λ longer. longer ≡ row ++ word text.now ∷ []) }
{
    let mut longer = row;
    longer.push_word(text)?;
    Ok(longer)
}

/// The same of each row.
fn with_words(alloc: Global, rows: Vec<Row>, text: &str) -> Result<Vec<Row>, AllocError>
    ensures { IfOk result (λ longer. longer.items ≡ map (λ row. row ++ word text.now ∷ []) rows.items) }
{
    let mut longer = Vec::new(alloc);
    for row in rows {
        longer.push(with_word(row, text)?)?;
    }
    Ok(longer)
}
