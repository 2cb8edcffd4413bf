//! The tables of links.

ghost use Rattle.std.specs.Prelude.{◌≡◌, map, option_map};
ghost use Rattle.toml.specs.Data.{get_member};
ghost use Rattle.toml.specs.View.{view, table_view};
ghost use Rattle.convoy_scenario.specs.Memory.{IsUnlessMemory};
ghost use Rattle.convoy_toml.specs.Shares.{outside_word};
ghost use Rattle.convoy_toml.specs.Shape.{need, as_names, as_both, both_of_table, ends_of_table, has_link_words, is_link_word, need_link_words, share_of_table, link_of_table, links_of, links_of_table, listed, stamps_of_table};

use super::durations::when;
use super::keys::{is_one_of, names_told, senders, tables_of, value_at};
use super::placed::{Placed, ScenarioTable, in_table};
use super::share::{OUTSIDE, share_told};
use super::written::{LinkEnds, WrittenLink};
use convoy_scenario::{Key, Name, ScenarioFault, Time};
use std::alloc::Global;
use toml::{Table, Value};

/// The groups to which the links of a table lead.
fn receivers(alloc: Global, table: &Table) -> Result<Vec<Name>, ScenarioFault>
    ensures { IsUnlessMemory ScenarioFault.Memory
        (need Key.To as_names (table_view table.now)) (listed result) }
{
    let value = value_at(table, Key::To).ok_or(ScenarioFault::Shape(Key::To))?;
    names_told(alloc, value, Key::To)
}

/// Whether links lead back as well: only where it is named who sends, since nothing is sent to other clients.
fn both_told(value: &Value, named_send: bool) -> Option<bool>
    ensures { result ≡ as_both named_send (view value.now) }
{
    let both = value.as_bool()?;
    if both && !named_send {
        None
    } else {
        Some(both)
    }
}

/// Whether the links of a table lead back as well; they do not where the key is absent.
fn both_of_table(table: &Table, named_send: bool) -> Result<bool, ScenarioFault>
    ensures { result ≡ both_of_table named_send (table_view table.now) }
{
    match value_at(table, Key::Both) {
        Some(value) => both_told(value, named_send).ok_or(ScenarioFault::Shape(Key::Both)),
        None => Ok(false),
    }
}

/// Where the links of a table lead.
pub(crate) fn ends_of_table(alloc: Global, table: &Table) -> Result<LinkEnds, ScenarioFault>
    ensures { IsUnlessMemory ScenarioFault.Memory (ends_of_table (table_view table.now)) result }
{
    let senders = senders(alloc, table)?;
    let to = receivers(alloc, table)?;
    let both = both_of_table(table, senders.is_some())?;
    Ok(LinkEnds { senders, to, both })
}

/// The value at the key of a table of links that tells a share.
fn outside_at(table: &Table) -> Option<&Value>
    ensures { option_map (λ v. view v.now) result ≡ get_member outside_word (table_view table.now) }
{
    table.get(OUTSIDE)
}

/// The share of the packets by the links of a table that may be outside their range, in billionths, where that is
/// written; what is no share is a fault of the table.
pub(crate) fn share_of_table(table: &Table) -> Result<Option<u64>, ScenarioFault>
    ensures { result ≡ share_of_table (table_view table.now) }
{
    let Some(value) = outside_at(table) else {
        return Ok(None);
    };
    let share = share_told(value).ok_or(ScenarioFault::Shape(Key::Link))?;
    Ok(Some(share))
}

/// Whether a group's own stamps go by the links of a table from a group to itself, too; they do not where the key is absent.
fn stamps_of_table(table: &Table) -> Result<bool, ScenarioFault>
    ensures { result ≡ stamps_of_table (table_view table.now) }
{
    match value_at(table, Key::Stamps) {
        Some(value) => value.as_bool().ok_or(ScenarioFault::Shape(Key::Stamps)),
        None => Ok(false),
    }
}

/// Whether a word is a key of a table of links.
fn is_link_word(word: &str) -> bool
    ensures { result ≡ is_link_word word.now }
{
    let keys = [
        Key::From,
        Key::To,
        Key::Both,
        Key::Least,
        Key::Most,
        Key::Stamps,
    ];
    is_one_of(word, &keys) || OUTSIDE == word
}

/// Whether each key of the table is one of these.
fn has_link_words(table: &Table) -> bool
    ensures { result ≡ has_link_words (table_view table.now) }
{
    table.keys().all(|word| is_link_word(word.as_str()))
}

fn need_link_words(table: &Table) -> Result<(), ScenarioFault>
    ensures { result ≡ need_link_words (table_view table.now) }
{
    if has_link_words(table) {
        Ok(())
    } else {
        Err(ScenarioFault::Shape(Key::Unknown))
    }
}

#[tactic(auto, unfolding(crate::specs::Shape::link_of_table))]
fn link_of_table(alloc: Global, table: &Table, time: Time) -> Result<WrittenLink, ScenarioFault>
    ensures { IsUnlessMemory ScenarioFault.Memory (link_of_table time (table_view table.now)) result }
{
    let ends = ends_of_table(alloc, table)?;
    let least = when(table, Key::Least, time)?;
    let most = when(table, Key::Most, time)?;
    let stamps = stamps_of_table(table)?;
    share_of_table(table)?;
    need_link_words(table)?;
    Ok(WrittenLink {
        ends,
        least,
        most,
        stamps,
    })
}

fn links_of(alloc: Global, tables: &[&Table], time: Time) -> Result<Vec<WrittenLink>, Placed>
    ensures { IsUnlessMemory ScenarioFault.Memory
        (links_of time (map (λ t. table_view t.now) tables.now)) (listed result) }
{
    let mut links = Vec::new(alloc);
    for table in tables {
        let place = ScenarioTable::Link(links.len());
        links.push(in_table(place, link_of_table(alloc, table, time))?)?;
    }
    Ok(links)
}

/// The tables of links of a scenario's table; none where the key is absent.
pub(crate) fn links_of_table(
    alloc: Global,
    table: &Table,
    time: Time,
) -> Result<Vec<WrittenLink>, Placed>
    ensures { IsUnlessMemory ScenarioFault.Memory
        (links_of_table time (table_view table.now)) (listed result) }
{
    let Some(value) = value_at(table, Key::Link) else {
        return Ok(Vec::new(alloc));
    };
    let items = value.as_array().ok_or(ScenarioFault::Shape(Key::Link))?;
    let tables = tables_of(alloc, items, Key::Link)?;
    links_of(alloc, &tables, time)
}
