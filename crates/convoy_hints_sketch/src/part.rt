use super::quoting::{Ordinal, Quoted};
use convoy_toml::ScenarioTable;
use std::fmt;

/// What a text is that has the tables of a scenario.
#[derive(Clone, Copy, PartialEq, Eq)]
pub enum TextKind {
    /// A scenario.
    Scenario,
    /// A plan.
    Plan,
}

impl TextKind {
    /// What it is called.
    pub(crate) fn words(self) -> &'static str {
        match self {
            TextKind::Scenario => "the scenario",
            TextKind::Plan => "the plan",
        }
    }
}

/// A table of a scenario or of a plan, or a line of a certificate, as a person finds it: `the 2nd multicast ("t",
/// line 9)`.
#[derive(Clone, Copy, Drop)]
pub struct Part<'a> {
    /// Which it is.
    pub table: ScenarioTable,
    /// What the whole text is.
    pub kind: TextKind,
    /// What it is named; None where it has no name.
    pub name: Option<&'a str>,
    /// The line at which it begins, from 1; None where it has no line of its own.
    pub line: Option<usize>,
}

impl fmt::Display for Part<'_> {
    fn fmt<W: fmt::Write>(&self, f: &mut fmt::Formatter<W>) -> fmt::Result {
        self.write_which(f)?;
        self.write_where(f)
    }
}

impl<'a> Part<'a> {
    /// A part without a name and without a line of its own.
    pub fn alone(table: ScenarioTable) -> Part<'a> {
        Part {
            table,
            kind: TextKind::Scenario,
            name: None,
            line: None,
        }
    }

    /// Writes which one of its kind it is: `the 2nd multicast`.
    fn write_which<W: fmt::Write>(&self, f: &mut fmt::Formatter<W>) -> fmt::Result {
        match self.table {
            ScenarioTable::Top => f.write_str(self.kind.words()),
            ScenarioTable::Multicast(number) => write_numbered(f, number, "multicast"),
            ScenarioTable::Target => f.write_str("the target"),
            ScenarioTable::Link(number) => write_numbered(f, number, "link"),
            ScenarioTable::Group(number) => write_numbered(f, number, "table [[group]]"),
        }
    }

    /// Writes its name and its line, as far as it has them: ` ("t", line 9)`.
    fn write_where<W: fmt::Write>(&self, f: &mut fmt::Formatter<W>) -> fmt::Result {
        match (self.name, self.line) {
            (Some(name), Some(line)) => {
                let name = Quoted(name);
                write!(f, " ({name}, line {line})")
            }
            (Some(name), None) => {
                let name = Quoted(name);
                write!(f, " ({name})")
            }
            (None, Some(line)) => write!(f, " (line {line})"),
            (None, None) => Ok(()),
        }
    }
}

/// Writes the one of that number, from 0, among several.
fn write_numbered<W: fmt::Write>(
    formatter: &mut fmt::Formatter<W>,
    number: usize,
    kind: &str,
) -> fmt::Result {
    let place = Ordinal(number.saturating_add(1));
    write!(formatter, "the {place} {kind}")
}
