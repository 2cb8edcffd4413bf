//! How sure the ranges of links are: the shares of packets that tables of links write.

ghost use Rattle.std.specs.Prelude.{◌≡◌, ◌≤◌, map, ok_or, IfSome, Ok};
ghost use Rattle.toml.specs.Data.{as_str, as_table};
ghost use Rattle.toml.specs.View.{array_view, table_view, view};
ghost use Rattle.convoy_draft.specs.declared.fault.ScenarioFault.TheVariants.{Memory};
ghost use Rattle.convoy_draft.specs.Durations.{digit_of};
ghost use Rattle.convoy_scenario.specs.Memory.{IsUnlessMemory};
ghost use Rattle.convoy_toml.specs.Outside.{share_in, shares_in, shares_of_table};
ghost use Rattle.convoy_toml.specs.Shape.{all_of, as_both, as_names, both_of_table, ends_of_table, listed, listed_if_there, names_in, need, need_all, share_of_table, tables_listed, wish};
ghost use Rattle.convoy_toml.specs.Shares.{as_share, share_after, share_digits, share_of_integer, share_of_text, within_whole};

use super::shape::value_at;
use convoy_scenario::{Key, Name, ScenarioFault};
use convoy_toml::{LinkEnds, LinkShare, WHOLE_SHARE};
use std::alloc::Global;
use toml::value::Array;
use toml::{Table, Value};

/// The word of the key of a table of links that tells a share.
const OUTSIDE: &str = "outside";

/// The share that a value tells, in billionths: 0 or 1, or a text with such a number in decimal digits, at most nine of
/// which stand after a point.
fn share_told(value: &Value) -> Option<u64>
    ensures share { result ≡ as_share (view value.now) }
    ensures bounded { IfSome result (λ billionths. billionths ≤ WHOLE_SHARE) }
{
    match value.as_integer() {
        Some(number) => share_of_integer(number),
        None => share_of_text(value.as_str()?.as_bytes()),
    }
}

/// None of packets, or all.
fn share_of_integer(number: i64) -> Option<u64>
    ensures share { result ≡ share_of_integer number }
    ensures bounded { IfSome result (λ billionths. billionths ≤ WHOLE_SHARE) }
{
    match number {
        0 => Some(0),
        1 => Some(WHOLE_SHARE),
        _ => None,
    }
}

/// The share that a text tells, in billionths.
fn share_of_text(text: &[u8]) -> Option<u64>
    ensures share { result ≡ share_of_text text.now }
    ensures bounded { IfSome result (λ billionths. billionths ≤ WHOLE_SHARE) }
{
    let (first, rest) = text.split_first()?;
    let total = within_whole(digit(*first)? * WHOLE_SHARE)?;
    share_after(total, rest)
}

/// What is told by what stands after a first digit, which counts so many billionths.
fn share_after(total: u64, text: &[u8]) -> Option<u64>
    requires { total ≤ WHOLE_SHARE }
    ensures share { result ≡ share_after total text.now }
    ensures bounded { IfSome result (λ billionths. billionths ≤ WHOLE_SHARE) }
{
    match text {
        [] => Some(total),
        [b'.', first, ..] => share_digits(total, &text[1..]),
        _ => None,
    }
}

/// What is told by digits after a point, added to so many billionths.
fn share_digits(before: u64, text: &[u8]) -> Option<u64>
    requires { before ≤ WHOLE_SHARE }
    ensures share { result ≡ share_digits 100000000 before text.now }
    ensures bounded { IfSome result (λ billionths. billionths ≤ WHOLE_SHARE) }
{
    let mut worth: u64 = 100_000_000;
    let mut total = before;
    let mut rest = text;
    while let Some((byte, tail)) = rest.split_first() {
        if worth == 0 {
            return None;
        }
        total = within_whole(total + digit(*byte)? * worth)?;
        worth /= 10;
        rest = tail;
    }
    Some(total)
}

/// What a digit counts.
fn digit(byte: u8) -> Option<u64>
    ensures value { result ≡ digit_of byte }
    ensures small { IfSome result (λ digit. digit ≤ 9) }
{
    if byte.is_ascii_digit() {
        Some(u64::from(byte - b'0'))
    } else {
        None
    }
}

/// The number, unless it is more billionths than a whole.
fn within_whole(billionths: u64) -> Option<u64>
    ensures value { result ≡ within_whole billionths }
    ensures bounded { IfSome result (λ within. within ≤ WHOLE_SHARE) }
{
    if billionths <= WHOLE_SHARE {
        Some(billionths)
    } else {
        None
    }
}

fn names_of(alloc: Global, items: &Array, key: Key) -> Result<Vec<Name>, ScenarioFault>
    ensures { IsUnlessMemory ScenarioFault.Memory
        (ok_or (all_of as_str (array_view items.now)) (ScenarioFault.Shape key)) (listed result) }
{
    let mut names = Vec::new(alloc);
    for item in items {
        let text = item.as_str().ok_or(ScenarioFault::Shape(key))?;
        names.push(Name::new(alloc, text)?)?;
    }
    Ok(names)
}

/// The names in an array, which has to have one.
fn names_in(alloc: Global, items: &Array, key: Key) -> Result<Vec<Name>, ScenarioFault>
    ensures { IsUnlessMemory ScenarioFault.Memory
        (ok_or (names_in (array_view items.now)) (ScenarioFault.Shape key)) (listed result) }
{
    let names = names_of(alloc, items, key)?;
    if 1 <= names.len() {
        Ok(names)
    } else {
        Err(ScenarioFault::Shape(key))
    }
}

/// The names that a value tells: a text tells one, and an array of texts those in it.
fn names_told(alloc: Global, value: &Value, key: Key) -> Result<Vec<Name>, ScenarioFault>
    ensures { IsUnlessMemory ScenarioFault.Memory
        (ok_or (as_names (view value.now)) (ScenarioFault.Shape key)) (listed result) }
{
    match value.as_str() {
        Some(text) => Ok(vec![in alloc; Name::new(alloc, text)?]?),
        None => {
            let items = value.as_array().ok_or(ScenarioFault::Shape(key))?;
            names_in(alloc, items, key)
        }
    }
}

/// The groups and places from which the links of a table lead, or none where clients of no named place send.
fn senders(alloc: Global, table: &Table) -> Result<Option<Vec<Name>>, ScenarioFault>
    ensures { IsUnlessMemory ScenarioFault.Memory
        (wish Key.From as_names (table_view table.now)) (listed_if_there result) }
{
    match value_at(table, Key::From.word()) {
        Some(value) => Ok(Some(names_told(alloc, value, Key::From)?)),
        None => Ok(None),
    }
}

/// The groups to which the links of a table lead.
fn receivers(alloc: Global, table: &Table) -> Result<Vec<Name>, ScenarioFault>
    ensures { IsUnlessMemory ScenarioFault.Memory
        (need Key.To as_names (table_view table.now)) (listed result) }
{
    let value = value_at(table, Key::To.word()).ok_or(ScenarioFault::Shape(Key::To))?;
    names_told(alloc, value, Key::To)
}

/// Whether links lead back as well: only where it is named who sends, since nothing is sent to other clients.
fn both_told(value: &Value, named_send: bool) -> Option<bool>
    ensures { result ≡ as_both named_send (view value.now) }
{
    let both = value.as_bool()?;
    if both && !named_send {
        None
    } else {
        Some(both)
    }
}

/// Whether the links of a table lead back as well; they do not where the key is absent.
fn both_of_table(table: &Table, named_send: bool) -> Result<bool, ScenarioFault>
    ensures { result ≡ both_of_table named_send (table_view table.now) }
{
    match value_at(table, Key::Both.word()) {
        Some(value) => both_told(value, named_send).ok_or(ScenarioFault::Shape(Key::Both)),
        None => Ok(false),
    }
}

/// Where the links of a table lead.
fn ends_of_table(alloc: Global, table: &Table) -> Result<LinkEnds, ScenarioFault>
    ensures { IsUnlessMemory ScenarioFault.Memory (ends_of_table (table_view table.now)) result }
{
    let senders = senders(alloc, table)?;
    let to = receivers(alloc, table)?;
    let both = both_of_table(table, senders.is_some())?;
    Ok(LinkEnds { senders, to, both })
}

/// The share of the packets by the links of a table that may be outside their range, in billionths, where that is
/// written; what is no share is a fault of the table.
fn share_of_table(table: &Table) -> Result<Option<u64>, ScenarioFault>
    ensures { result ≡ share_of_table (table_view table.now) }
{
    let Some(value) = value_at(table, OUTSIDE) else {
        return Ok(None);
    };
    let share = share_told(value).ok_or(ScenarioFault::Shape(Key::Link))?;
    Ok(Some(share))
}

fn tables_of<'a>(alloc: Global, items: &'a Array, key: Key) -> Result<Vec<&'a Table>, ScenarioFault>
    ensures { IsUnlessMemory ScenarioFault.Memory
        (ok_or (all_of as_table (array_view items.now)) (ScenarioFault.Shape key))
        (tables_listed result) }
{
    let mut tables = Vec::new(alloc);
    for item in items {
        let table = item.as_table().ok_or(ScenarioFault::Shape(key))?;
        tables.push(table)?;
    }
    Ok(tables)
}

/// The shares that tables of links write.
fn shares_in(alloc: Global, tables: &[&Table]) -> Result<Vec<LinkShare>, ScenarioFault>
    ensures { IsUnlessMemory Memory (Ok (shares_in (map (λ t. table_view t.now) tables.now))) (listed result) }
{
    let mut shares = Vec::new(alloc);
    for table in tables {
        if let Some(share) = share_in(alloc, table)? {
            shares.push(share)?;
        }
    }
    Ok(shares)
}

/// The share that a table of links writes, if it writes one.
fn share_in(alloc: Global, table: &Table) -> Result<Option<LinkShare>, ScenarioFault>
    ensures { IsUnlessMemory Memory (Ok (share_in (table_view table.now))) result }
{
    let Ok(Some(billionths)) = share_of_table(table) else {
        return Ok(None);
    };
    match ends_of_table(alloc, table) {
        Ok(ends) => Ok(Some(LinkShare { ends, billionths })),
        Err(ScenarioFault::Memory) => Err(ScenarioFault::Memory),
        Err(_) => Ok(None),
    }
}

/// The shares that the tables of links of a scenario's table write, in their order. The fault is that memory ran out.
pub(crate) fn shares_of_table(alloc: Global, table: &Table) -> Result<Vec<LinkShare>, ScenarioFault>
    ensures { IsUnlessMemory Memory (Ok (shares_of_table (table_view table.now))) (listed result) }
{
    match link_tables(alloc, table) {
        Ok(tables) => shares_in(alloc, &tables),
        Err(ScenarioFault::Memory) => Err(ScenarioFault::Memory),
        Err(_) => Ok(Vec::new(alloc)),
    }
}

/// The tables of links, as they stand in the text.
fn link_tables<'a>(alloc: Global, table: &'a Table) -> Result<Vec<&'a Table>, ScenarioFault>
    ensures { IsUnlessMemory ScenarioFault.Memory (need_all Key.Link as_table (table_view table.now)) (tables_listed result) }
{
    let value = value_at(table, Key::Link.word()).ok_or(ScenarioFault::Shape(Key::Link))?;
    let items = value.as_array().ok_or(ScenarioFault::Shape(Key::Link))?;
    tables_of(alloc, items, Key::Link)
}
