//! What stands at the keys of a table of a scenario text, and which keys those are.

ghost use Rattle.std.specs.Prelude.{◌≡◌, option_map, ok_or};
ghost use Rattle.std.specs.List.{list_any};
ghost use Rattle.std.specs.Str.{bytes_eq};
ghost use Rattle.std.specs.Result.{result_map_both};
ghost use Rattle.toml.specs.Data.{as_integer, as_str, as_array, as_table, get_member};
ghost use Rattle.toml.specs.View.{view, array_view, table_view};
ghost use Rattle.convoy_draft.specs.Keys.{key_word};
ghost use Rattle.convoy_scenario.specs.Memory.{IsUnlessMemory};
ghost use Rattle.convoy_toml.specs.Shape.{all_of, need, need_all, wish, wish_all, names_in, as_names, has_only, need_only, listed, listed_if_there, tables_listed};

use convoy_scenario::{Key, Name, ScenarioFault};
use std::alloc::Global;
use toml::value::Array;
use toml::{Table, Value};

/// The value at a key.
pub(crate) fn value_at(table: &Table, key: Key) -> Option<&Value>
    ensures { option_map (λ v. view v.now) result
        ≡ get_member (key_word key) (table_view table.now) }
{
    table.get(key.word())
}

fn text(table: &Table, key: Key) -> Result<&str, ScenarioFault>
    ensures { result_map_both (λ s. s.now) (λ e. e) result
        ≡ need key as_str (table_view table.now) }
{
    let value = value_at(table, key).ok_or(ScenarioFault::Shape(key))?;
    value.as_str().ok_or(ScenarioFault::Shape(key))
}

fn array(table: &Table, key: Key) -> Result<&Array, ScenarioFault>
    ensures { result_map_both (λ a. array_view a.now) (λ e. e) result
        ≡ need key as_array (table_view table.now) }
{
    let value = value_at(table, key).ok_or(ScenarioFault::Shape(key))?;
    value.as_array().ok_or(ScenarioFault::Shape(key))
}

pub(crate) fn inner_table(table: &Table, key: Key) -> Result<&Table, ScenarioFault>
    ensures { result_map_both (λ t. table_view t.now) (λ e. e) result
        ≡ need key as_table (table_view table.now) }
{
    let value = value_at(table, key).ok_or(ScenarioFault::Shape(key))?;
    value.as_table().ok_or(ScenarioFault::Shape(key))
}

pub(crate) fn name(alloc: Global, table: &Table, key: Key) -> Result<Name, ScenarioFault>
    ensures { IsUnlessMemory ScenarioFault.Memory (need key as_str (table_view table.now)) result }
{
    let text = text(table, key)?;
    Ok(Name::new(alloc, text)?)
}

pub(crate) fn names_of(alloc: Global, items: &Array, key: Key) -> Result<Vec<Name>, ScenarioFault>
    ensures { IsUnlessMemory ScenarioFault.Memory
        (ok_or (all_of as_str (array_view items.now)) (ScenarioFault.Shape key)) (listed result) }
{
    let mut names = Vec::new(alloc);
    for item in items {
        let text = item.as_str().ok_or(ScenarioFault::Shape(key))?;
        names.push(Name::new(alloc, text)?)?;
    }
    Ok(names)
}

pub(crate) fn names(alloc: Global, table: &Table, key: Key) -> Result<Vec<Name>, ScenarioFault>
    ensures { IsUnlessMemory ScenarioFault.Memory
        (need_all key as_str (table_view table.now)) (listed result) }
{
    let items = array(table, key)?;
    names_of(alloc, items, key)
}

pub(crate) fn tables_of<'a>(
    alloc: Global,
    items: &'a Array,
    key: Key,
) -> Result<Vec<&'a Table>, ScenarioFault>
    ensures { IsUnlessMemory ScenarioFault.Memory
        (ok_or (all_of as_table (array_view items.now)) (ScenarioFault.Shape key))
        (tables_listed result) }
{
    let mut tables = Vec::new(alloc);
    for item in items {
        let table = item.as_table().ok_or(ScenarioFault::Shape(key))?;
        tables.push(table)?;
    }
    Ok(tables)
}

pub(crate) fn tables<'a>(
    alloc: Global,
    table: &'a Table,
    key: Key,
) -> Result<Vec<&'a Table>, ScenarioFault>
    ensures { IsUnlessMemory ScenarioFault.Memory
        (need_all key as_table (table_view table.now)) (tables_listed result) }
{
    let items = array(table, key)?;
    tables_of(alloc, items, key)
}

fn integers_of(alloc: Global, items: &Array, key: Key) -> Result<Vec<i64>, ScenarioFault>
    ensures { IsUnlessMemory ScenarioFault.Memory
        (ok_or (all_of as_integer (array_view items.now)) (ScenarioFault.Shape key))
        (listed result) }
{
    let mut integers = Vec::new(alloc);
    for item in items {
        integers.push(item.as_integer().ok_or(ScenarioFault::Shape(key))?)?;
    }
    Ok(integers)
}

/// The members of an array of integers, where the key is there.
pub(crate) fn integers(
    alloc: Global,
    table: &Table,
    key: Key,
) -> Result<Option<Vec<i64>>, ScenarioFault>
    ensures { IsUnlessMemory ScenarioFault.Memory
        (wish_all key as_integer (table_view table.now)) (listed_if_there result) }
{
    let Some(value) = value_at(table, key) else {
        return Ok(None);
    };
    let items = value.as_array().ok_or(ScenarioFault::Shape(key))?;
    Ok(Some(integers_of(alloc, items, key)?))
}

pub(crate) fn is_one_of(word: &str, keys: &[Key]) -> bool
    ensures { result ≡ list_any (λ key. bytes_eq (key_word key) word.now) keys.now }
{
    keys.iter().any(|key| key.word() == word)
}

/// Whether each key of the table is one of these.
fn has_only(table: &Table, keys: &[Key]) -> bool
    ensures { result ≡ has_only keys.now (table_view table.now) }
{
    table.keys().all(|word| is_one_of(word.as_str(), keys))
}

pub(crate) fn need_only(table: &Table, keys: &[Key]) -> Result<(), ScenarioFault>
    ensures { result ≡ need_only keys.now (table_view table.now) }
{
    if has_only(table, keys) {
        Ok(())
    } else {
        Err(ScenarioFault::Shape(Key::Unknown))
    }
}

/// The names in an array, which has to have one.
fn names_in(alloc: Global, items: &Array, key: Key) -> Result<Vec<Name>, ScenarioFault>
    ensures { IsUnlessMemory ScenarioFault.Memory
        (ok_or (names_in (array_view items.now)) (ScenarioFault.Shape key)) (listed result) }
{
    let names = names_of(alloc, items, key)?;
    if 1 <= names.len() {
        Ok(names)
    } else {
        Err(ScenarioFault::Shape(key))
    }
}

/// The names that a value tells: a text tells one, and an array of texts those in it.
pub(crate) fn names_told(alloc: Global, value: &Value, key: Key) -> Result<Vec<Name>, ScenarioFault>
    ensures { IsUnlessMemory ScenarioFault.Memory
        (ok_or (as_names (view value.now)) (ScenarioFault.Shape key)) (listed result) }
{
    match value.as_str() {
        Some(text) => Ok(vec![in alloc; Name::new(alloc, text)?]?),
        None => {
            let items = value.as_array().ok_or(ScenarioFault::Shape(key))?;
            names_in(alloc, items, key)
        }
    }
}

/// The groups and places from which the links of a table lead, or none where clients of no named place send.
pub(crate) fn senders(alloc: Global, table: &Table) -> Result<Option<Vec<Name>>, ScenarioFault>
    ensures { IsUnlessMemory ScenarioFault.Memory
        (wish Key.From as_names (table_view table.now)) (listed_if_there result) }
{
    match value_at(table, Key::From) {
        Some(value) => Ok(Some(names_told(alloc, value, Key::From)?)),
        None => Ok(None),
    }
}
