use super::headers::header_line;
use super::part::{Part, TextKind};
use convoy_scenario::Key;
use convoy_toml::ScenarioTable;
use toml::{Table, Value};

/// A scenario text or a plan text, and its table.
#[derive(Clone, Copy, Drop)]
pub struct ScenarioText<'a> {
    /// Which of the two it is.
    pub kind: TextKind,
    /// The text.
    pub text: &'a str,
    /// The table that it is.
    pub table: &'a Table,
}

impl<'a> ScenarioText<'a> {
    /// One of its tables; None where it has none such.
    pub(crate) fn table_at(&self, table: ScenarioTable) -> Option<&'a Table> {
        match self.written_in(table) {
            ScenarioTable::Top => Some(self.table),
            ScenarioTable::Multicast(number) => self
                .items_at(Key::Multicast)
                .get(number)?
                .as_table(),
            ScenarioTable::Target => self.table.get(Key::Target.word())?.as_table(),
            ScenarioTable::Link(number) => self.items_at(Key::Link).get(number)?.as_table(),
            ScenarioTable::Group(number) => self.items_at(Key::Group).get(number)?.as_table(),
        }
    }

    /// The table in which that is written: the links from the own places of slow messages, which follow those of all tables
    /// of links, are written in the tables of these messages.
    fn written_in(&self, table: ScenarioTable) -> ScenarioTable {
        let ScenarioTable::Link(number) = table else {
            return table;
        };
        let Some(mut left) = number.checked_sub(self.items_at(Key::Link).len()) else {
            return table;
        };
        for (message, item) in self.items_at(Key::Multicast).iter().enumerate() {
            let Some(others) = left.checked_sub(own_links(item)) else {
                return ScenarioTable::Multicast(message);
            };
            left = others;
        }
        table
    }

    /// Whether one of its times is a number, which counts ticks.
    pub(crate) fn has_counts(&self) -> bool {
        has_count(self.table)
            || self.items_at(Key::Multicast).iter().any(is_with_count)
            || self.items_at(Key::Link).iter().any(is_with_count)
            || self.items_at(Key::Group).iter().any(is_with_count)
    }

    /// One of its tables, as a person finds it.
    pub fn part(&self, table: ScenarioTable) -> Part<'a> {
        let table = self.written_in(table);
        let among = match table {
            ScenarioTable::Top | ScenarioTable::Target => 1,
            ScenarioTable::Multicast(_) => self.items_at(Key::Multicast).len(),
            ScenarioTable::Link(_) => self.items_at(Key::Link).len(),
            ScenarioTable::Group(_) => self.items_at(Key::Group).len(),
        };
        let mut part = part_of(self.text, table, among, self.name_of(table));
        part.kind = self.kind;
        part
    }

    /// What a table of an array is named.
    fn name_of(&self, table: ScenarioTable) -> Option<&'a str> {
        match table {
            ScenarioTable::Top | ScenarioTable::Target => None,
            ScenarioTable::Multicast(_) | ScenarioTable::Link(_) | ScenarioTable::Group(_) => {
                self.table_at(table)?.get(Key::Name.word())?.as_str()
            }
        }
    }

    /// The items of the array at a key; none where there is no array.
    fn items_at(&self, key: Key) -> &'a [Value] {
        match self.table.get(key.word()).and_then(Value::as_array) {
            Some(items) => items.as_slice(),
            None => &[],
        }
    }
}

/// How many links lead from the own place of a message; none where it has no range.
fn own_links(message: &Value) -> usize {
    let Some(table) = message.as_table() else {
        return 0;
    };
    let is_slow = table.contains_key(Key::Least.word()) && table.contains_key(Key::Most.word());
    match table.get(Key::To.word()).and_then(Value::as_array) {
        Some(groups) if is_slow => groups.len(),
        _ => 0,
    }
}

/// The keys at which a time may stand.
const TIMES: [Key; 5] = [Key::Delay, Key::Least, Key::Most, Key::At, Key::Until];

/// Whether one of the times of a table is a number.
fn has_count(table: &Table) -> bool {
    for key in TIMES {
        if table.get(key.word()).is_some_and(Value::is_integer) {
            return true;
        }
    }
    table.get(Key::Agree.word()).is_some_and(has_integer)
}

/// Whether a value is an array with an integer in it.
fn has_integer(value: &Value) -> bool {
    match value.as_array() {
        Some(items) => items.iter().any(Value::is_integer),
        None => false,
    }
}

/// Whether a value is a table of which a time is a number.
fn is_with_count(value: &Value) -> bool {
    match value.as_table() {
        Some(table) => has_count(table),
        None => false,
    }
}

/// A table of a text, of which there are so many of its kind, as a person finds it by its name.
pub(crate) fn part_of<'a>(
    text: &str,
    table: ScenarioTable,
    among: usize,
    name: Option<&'a str>,
) -> Part<'a> {
    let line = match table {
        ScenarioTable::Top => None,
        ScenarioTable::Multicast(number) => header_line(text, "[[multicast]]", number, among),
        ScenarioTable::Target => header_line(text, "[target]", 0, among),
        ScenarioTable::Link(number) => header_line(text, "[[link]]", number, among),
        ScenarioTable::Group(number) => header_line(text, "[[group]]", number, among),
    };
    Part {
        table,
        kind: TextKind::Scenario,
        name,
        line,
    }
}
