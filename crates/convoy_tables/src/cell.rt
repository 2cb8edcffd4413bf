ghost use Rattle.std.specs.Prelude.{◌≡◌, IfOk, string_bytes};
ghost use Rattle.convoy_tables.specs.Tables.{nothing, number, numeral, shown, word, Cell, IsNumber, IsTextOf};

use std::alloc::{AllocError, Global};
use std::marker::Model;

/// What a cell has.
#[derive(Clone, Copy, PartialEq, Eq)]
pub enum Kind {
    Word,
    Number,
    Nothing,
}

/// A cell of a table.
#[derive(Drop)]
pub struct Cell {
    kind: Kind,
    text: String,
}

impl Model for Cell {
    ghost Value = { Cell };

    ghost view = { λ c. record { kind = c.kind; text = string_bytes c.text } };

    ghost invariant = { λ c. IsTextOf c.kind (string_bytes c.text) };
}

impl Cell {
    /// A cell with a word, or with several. Fails where memory runs out, and else never.
    pub fn word(alloc: Global, text: &str) -> Result<Cell, AllocError>
        ensures { IfOk result (λ cell. cell ≡ word text.now) }
    {
        let text = String::from_str(alloc, text)?;
        Ok(Cell {
            kind: Kind::Word,
            text,
        })
    }

    /// A cell with a number. Fails where memory runs out, and else never.
    pub fn number(alloc: Global, value: u64) -> Result<Cell, AllocError>
        ensures { IfOk result (λ cell. cell ≡ number value) }
    {
        let text = format!(in alloc; "{value}")?;
        Ok(Cell {
            kind: Kind::Number,
            text,
        })
    }

    /// A cell with a number that its text tells exactly, as `193.5`: digits, with at most one point, between
    /// digits, and no needless zero at their head. Fails where memory runs out, and else never.
    pub fn decimal(alloc: Global, text: &str) -> Result<Cell, AllocError>
        requires { IsNumber text.now }
        ensures { IfOk result (λ cell. cell ≡ numeral text.now) }
    {
        let text = String::from_str(alloc, text)?;
        Ok(Cell {
            kind: Kind::Number,
            text,
        })
    }

    /// A cell with nothing in it.
    pub fn nothing(alloc: Global) -> Cell
        ensures { result ≡ nothing }
    {
        Cell {
            kind: Kind::Nothing,
            text: String::new(alloc),
        }
    }

    /// What the cell has.
    pub fn kind(&self) -> Kind
        ensures { result ≡ self.now.kind }
    {
        self.kind
    }

    /// Its word, or its number in digits; no text where it has nothing.
    pub fn text(&self) -> &str
        ensures text { result.now ≡ self.now.text }
        ensures lawful { IsTextOf self.now.kind self.now.text }
    {
        self.text.as_str()
    }

    /// What stands for it in aligned columns.
    pub(crate) fn shown(&self) -> &str
        ensures { result.now ≡ shown self.now }
    {
        match self.kind() {
            Kind::Word | Kind::Number => self.text(),
            Kind::Nothing => "-",
        }
    }
}
