//! What stands in a plan's text, as far as it has the shape of a plan.

use convoy_hints_sketch::{Ordinal, Quoted, ScenarioText, header_line};
use std::alloc::{AllocError, Global};
use std::fmt;
use toml::{Table, Value};

/// A plan's text, with the names in it.
#[derive(Drop)]
pub(crate) struct PlanText<'a> {
    pub(crate) source: ScenarioText<'a>,
    /// The names of the sites.
    pub(crate) sites: Vec<&'a str>,
    /// The names of the groups.
    pub(crate) groups: Vec<&'a str>,
    /// The tables that say at which sites groups may be.
    pub(crate) homes: Vec<Home<'a>>,
    /// The lists of groups that are to be apart.
    pub(crate) apart: Vec<Vec<&'a str>>,
    /// The messages.
    pub(crate) messages: Vec<Message<'a>>,
    /// The tables of links.
    pub(crate) links: Vec<Link<'a>>,
}

/// A table of a group.
#[derive(Drop)]
pub(crate) struct Home<'a> {
    pub(crate) part: HomePart<'a>,
    /// The sites at which the group may be.
    pub(crate) sites: Vec<&'a str>,
}

/// Where the table of a group stands, as a person finds it: `the 2nd group ("stock", line 9)`.
#[derive(Clone, Copy, Drop)]
pub(crate) struct HomePart<'a> {
    /// How many such tables stand before it.
    pub(crate) before: usize,
    /// The name of the group, where it has one.
    pub(crate) name: Option<&'a str>,
    /// The line of its header, where it has one.
    line: Option<usize>,
}

/// A message: which site or group sends it, and where it goes.
#[derive(Drop)]
pub(crate) struct Message<'a> {
    pub(crate) from: Option<&'a str>,
    pub(crate) to: Vec<&'a str>,
}

/// A table of links: from which sites to which they lead.
#[derive(Drop)]
pub(crate) struct Link<'a> {
    /// Whether it says from where they lead.
    pub(crate) has_from: bool,
    pub(crate) from: Vec<&'a str>,
    pub(crate) to: Vec<&'a str>,
    /// Whether they lead back as well.
    pub(crate) both: bool,
}

impl fmt::Display for HomePart<'_> {
    fn fmt<W: fmt::Write>(&self, f: &mut fmt::Formatter<W>) -> fmt::Result {
        let place = Ordinal(self.before.saturating_add(1));
        write!(f, "the {place} table [[group]]")?;
        match (self.name, self.line) {
            (Some(name), Some(line)) => {
                let name = Quoted(name);
                write!(f, " ({name}, line {line})")
            }
            (Some(name), None) => {
                let name = Quoted(name);
                write!(f, " ({name})")
            }
            (None, Some(line)) => write!(f, " (line {line})"),
            (None, None) => Ok(()),
        }
    }
}

impl<'a> PlanText<'a> {
    /// That text.
    pub(crate) fn of(alloc: Global, source: ScenarioText<'a>) -> Result<PlanText<'a>, AllocError> {
        let table = source.table;
        Ok(PlanText {
            source,
            sites: words_at(alloc, table, "sites")?,
            groups: words_at(alloc, table, "groups")?,
            homes: homes_in(alloc, source)?,
            apart: lists_in(alloc, items_at(table, "apart"))?,
            messages: messages_in(alloc, items_at(table, "multicast"))?,
            links: links_in(alloc, items_at(table, "link"))?,
        })
    }

    /// At which sites the group of that name may be; none where no table says so.
    pub(crate) fn sites_of(&self, group: &str) -> &[&'a str] {
        for home in &self.homes {
            if home.part.name == Some(group) {
                return &home.sites;
            }
        }
        &[]
    }
}

/// The items of the array at a key; none where there is no array.
pub(crate) fn items_at<'a>(table: &'a Table, key: &str) -> &'a [Value] {
    match table.get(key).and_then(Value::as_array) {
        Some(items) => items.as_slice(),
        None => &[],
    }
}

/// The texts at a key: one alone, or those of an array.
fn words_at<'a>(alloc: Global, table: &'a Table, key: &str) -> Result<Vec<&'a str>, AllocError> {
    match table.get(key).and_then(Value::as_str) {
        Some(word) => Ok(vec![in alloc; word]?),
        None => words_in(alloc, items_at(table, key)),
    }
}

/// The texts among values.
fn words_in<'a>(alloc: Global, items: &'a [Value]) -> Result<Vec<&'a str>, AllocError> {
    let mut words = Vec::new(alloc);
    for item in items {
        if let Some(word) = item.as_str() {
            words.push(word)?;
        }
    }
    Ok(words)
}

/// The tables of the groups.
fn homes_in<'a>(alloc: Global, source: ScenarioText<'a>) -> Result<Vec<Home<'a>>, AllocError> {
    let items = items_at(source.table, "group");
    let mut homes = Vec::new(alloc);
    for (before, item) in items.iter().enumerate() {
        let line = header_line(source.text, "[[group]]", before, items.len());
        homes.push(home_in(alloc, item, before, line)?)?;
    }
    Ok(homes)
}

/// The table of a group with so many before it.
fn home_in<'a>(
    alloc: Global,
    item: &'a Value,
    before: usize,
    line: Option<usize>,
) -> Result<Home<'a>, AllocError> {
    let (name, sites) = match item.as_table() {
        Some(table) => (
            table.get("name").and_then(Value::as_str),
            words_at(alloc, table, "sites")?,
        ),
        None => (None, Vec::new(alloc)),
    };
    Ok(Home {
        part: HomePart { before, name, line },
        sites,
    })
}

/// The lists of texts among values.
fn lists_in<'a>(alloc: Global, items: &'a [Value]) -> Result<Vec<Vec<&'a str>>, AllocError> {
    let mut lists = Vec::new(alloc);
    for item in items {
        if let Some(items) = item.as_array() {
            lists.push(words_in(alloc, items.as_slice())?)?;
        }
    }
    Ok(lists)
}

/// The messages among values.
fn messages_in<'a>(alloc: Global, items: &'a [Value]) -> Result<Vec<Message<'a>>, AllocError> {
    let mut messages = Vec::new(alloc);
    for item in items {
        if let Some(table) = item.as_table() {
            messages.push(Message {
                from: table.get("from").and_then(Value::as_str),
                to: words_at(alloc, table, "to")?,
            })?;
        }
    }
    Ok(messages)
}

/// The tables of links among values.
fn links_in<'a>(alloc: Global, items: &'a [Value]) -> Result<Vec<Link<'a>>, AllocError> {
    let mut links = Vec::new(alloc);
    for item in items {
        if let Some(table) = item.as_table() {
            links.push(Link {
                has_from: table.contains_key("from"),
                from: words_at(alloc, table, "from")?,
                to: words_at(alloc, table, "to")?,
                both: table.get("both").and_then(Value::as_bool) == Some(true),
            })?;
        }
    }
    Ok(links)
}

/// Whether a word is one of these.
pub(crate) fn is_among(word: &str, words: &[&str]) -> bool {
    words.iter().any(|other| *other == word)
}

/// The first of these words that stands there a second time.
pub(crate) fn first_twice<'a>(words: &[&'a str]) -> Option<&'a str> {
    for (place, word) in words.iter().enumerate() {
        if words.iter().take(place).any(|other| *other == *word) {
            return Some(*word);
        }
    }
    None
}

/// The first of these words that is none of the others.
pub(crate) fn first_stray<'a>(words: &[&'a str], others: &[&str]) -> Option<&'a str> {
    for word in words {
        if !is_among(word, others) {
            return Some(*word);
        }
    }
    None
}
