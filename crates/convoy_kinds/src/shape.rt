//! What stands in the table of a kinds text.

ghost use Rattle.std.specs.Prelude.{◌≡◌, map, option_map, ok_or};
ghost use Rattle.std.specs.List.{list_any};
ghost use Rattle.std.specs.Str.{bytes_eq};
ghost use Rattle.toml.specs.Data.{as_integer, as_str, as_table, get_member};
ghost use Rattle.toml.specs.View.{array_view, table_view, view};
ghost use Rattle.convoy_draft.specs.declared.fault.Key.TheVariants.{From, Name};
ghost use Rattle.convoy_draft.specs.declared.fault.ScenarioFault.TheVariants as scenario;
ghost use Rattle.convoy_scenario.specs.Memory.{IsUnlessMemory};
ghost use Rattle.convoy_draft.specs.Keys.{key_word};
ghost use Rattle.convoy_toml.specs.Shape.{all_of, as_names, names_in, need, setting_of_table, wish, wish_all};
ghost use Rattle.convoy_kinds.specs.declared.fault.KindsFault.TheVariants.{Scenario, Shape};
ghost use Rattle.convoy_kinds.specs.declared.fault.KindsKey.TheVariants.{Kind, ToAny};
ghost use Rattle.convoy_kinds.specs.Shape.{as_sizes, has_only, kind_of_table, kind_tables, kinds_of_tables, listed, listed_if_there, need_one_to, need_only, of_scenario, sizes_of_table, tables_listed, written_of_table};

use super::fault::{KindsFault, KindsKey};
use super::written::{WrittenKind, WrittenKinds};
use convoy_scenario::{Key, Name, ScenarioFault};
use convoy_toml::{WrittenScenario, setting_of_table};
use std::alloc::Global;
use toml::value::Array;
use toml::{Table, Value};

/// The value at a key.
fn value_at<'a>(table: &'a Table, word: &str) -> Option<&'a Value>
    ensures { option_map (λ v. view v.now) result ≡ get_member word.now (table_view table.now) }
{
    table.get(word)
}

fn name(alloc: Global, table: &Table) -> Result<Name, KindsFault>
    ensures { IsUnlessMemory (Scenario scenario.Memory) (of_scenario (need Key.Name as_str (table_view table.now))) result }
{
    let fault = KindsFault::Scenario(ScenarioFault::Shape(Key::Name));
    let value = value_at(table, Key::Name.word()).ok_or(fault)?;
    let text = value.as_str().ok_or(fault)?;
    Ok(Name::new(alloc, text)?)
}

/// The texts in an array.
fn texts_of(alloc: Global, items: &Array, key: Key) -> Result<Vec<Name>, KindsFault>
    ensures { IsUnlessMemory (Scenario scenario.Memory)
        (ok_or (all_of as_str (array_view items.now)) (Scenario (scenario.Shape key))) (listed result) }
{
    let mut names = Vec::new(alloc);
    for item in items {
        let text = item
            .as_str()
            .ok_or(KindsFault::Scenario(ScenarioFault::Shape(key)))?;
        names.push(Name::new(alloc, text)?)?;
    }
    Ok(names)
}

/// The names in an array, which has to have one.
fn names_in(alloc: Global, items: &Array, key: Key) -> Result<Vec<Name>, KindsFault>
    ensures { IsUnlessMemory (Scenario scenario.Memory)
        (ok_or (names_in (array_view items.now)) (Scenario (scenario.Shape key))) (listed result) }
{
    let names = texts_of(alloc, items, key)?;
    if 1 <= names.len() {
        Ok(names)
    } else {
        Err(KindsFault::Scenario(ScenarioFault::Shape(key)))
    }
}

/// The names that a value tells: a text tells one, and an array of texts those in it.
fn names_told(alloc: Global, value: &Value, key: Key) -> Result<Vec<Name>, KindsFault>
    ensures { IsUnlessMemory (Scenario scenario.Memory)
        (ok_or (as_names (view value.now)) (Scenario (scenario.Shape key))) (listed result) }
{
    match value.as_str() {
        Some(text) => Ok(vec![in alloc; Name::new(alloc, text)?]?),
        None => {
            let items = value
                .as_array()
                .ok_or(KindsFault::Scenario(ScenarioFault::Shape(key)))?;
            names_in(alloc, items, key)
        }
    }
}

/// The names at a key that may be absent.
fn names_at(alloc: Global, table: &Table, key: Key) -> Result<Option<Vec<Name>>, KindsFault>
    ensures { IsUnlessMemory (Scenario scenario.Memory)
        (of_scenario (wish key as_names (table_view table.now))) (listed_if_there result) }
{
    let Some(value) = value_at(table, key.word()) else {
        return Ok(None);
    };
    let names = names_told(alloc, value, key)?;
    Ok(Some(names))
}

/// The texts in an array at a key that may be absent.
fn texts_at(alloc: Global, table: &Table, key: Key) -> Result<Option<Vec<Name>>, KindsFault>
    ensures { IsUnlessMemory (Scenario scenario.Memory)
        (of_scenario (wish_all key as_str (table_view table.now))) (listed_if_there result) }
{
    let Some(value) = value_at(table, key.word()) else {
        return Ok(None);
    };
    let items = value
        .as_array()
        .ok_or(KindsFault::Scenario(ScenarioFault::Shape(key)))?;
    let names = texts_of(alloc, items, key)?;
    Ok(Some(names))
}

/// The numbers in an array.
fn integers_of(alloc: Global, items: &Array) -> Result<Vec<i64>, KindsFault>
    ensures { IsUnlessMemory (Scenario scenario.Memory)
        (ok_or (all_of as_integer (array_view items.now)) (Shape ToAny)) (listed result) }
{
    let mut integers = Vec::new(alloc);
    for item in items {
        integers.push(item.as_integer().ok_or(KindsFault::Shape(KindsKey::ToAny))?)?;
    }
    Ok(integers)
}

/// The numbers at the key for how many groups, where it is there.
fn sizes_of_table(alloc: Global, table: &Table) -> Result<Option<Vec<i64>>, KindsFault>
    ensures { IsUnlessMemory (Scenario scenario.Memory) (sizes_of_table (table_view table.now)) (listed_if_there result) }
{
    let Some(value) = value_at(table, KindsKey::ToAny.word()) else {
        return Ok(None);
    };
    let items = value.as_array().ok_or(KindsFault::Shape(KindsKey::ToAny))?;
    let sizes = integers_of(alloc, items)?;
    Ok(Some(sizes))
}

/// Just one of the two has to be there.
fn need_one_to(to: &Option<Vec<Name>>, sizes: &Option<Vec<i64>>) -> Result<(), KindsFault>
    ensures { result ≡ need_one_to (option_map (λ names. names.items) to.now) (option_map (λ sizes. sizes.items) sizes.now) }
{
    match (to, sizes) {
        (Some(_), None) => Ok(()),
        (None, Some(_)) => Ok(()),
        (Some(_), Some(_)) => Err(KindsFault::NotOneTo),
        (None, None) => Err(KindsFault::NotOneTo),
    }
}

fn is_one_of(word: &str, words: &[&str]) -> bool
    ensures { result ≡ list_any (λ known. bytes_eq known word.now) (map (λ w. w.now) words.now) }
{
    words.iter().any(|known| *known == word)
}

/// Whether each key of the table is one of these.
fn has_only(table: &Table, words: &[&str]) -> bool
    ensures { result ≡ has_only (map (λ w. w.now) words.now) (table_view table.now) }
{
    table.keys().all(|word| is_one_of(word.as_str(), words))
}

fn need_only(table: &Table, words: &[&str]) -> Result<(), KindsFault>
    ensures { result ≡ need_only (map (λ w. w.now) words.now) (table_view table.now) }
{
    if has_only(table, words) {
        Ok(())
    } else {
        Err(KindsFault::Scenario(ScenarioFault::Shape(Key::Unknown)))
    }
}

/// A table of kinds.
fn kind_of_table(alloc: Global, table: &Table) -> Result<WrittenKind, KindsFault>
    ensures { IsUnlessMemory (Scenario scenario.Memory) (kind_of_table (table_view table.now)) result }
{
    let name = name(alloc, table)?;
    let senders = names_at(alloc, table, Key::From)?;
    let to = texts_at(alloc, table, Key::To)?;
    let sizes = sizes_of_table(alloc, table)?;
    need_one_to(&to, &sizes)?;
    need_only(table, &["name", "from", "to", "to_any"])?;
    Ok(WrittenKind {
        name,
        senders,
        to,
        sizes,
    })
}

/// The tables in an array.
fn tables_of<'a>(alloc: Global, items: &'a Array) -> Result<Vec<&'a Table>, KindsFault>
    ensures { IsUnlessMemory (Scenario scenario.Memory)
        (ok_or (all_of as_table (array_view items.now)) (Shape Kind)) (tables_listed result) }
{
    let mut tables = Vec::new(alloc);
    for item in items {
        let table = item.as_table().ok_or(KindsFault::Shape(KindsKey::Kind))?;
        tables.push(table)?;
    }
    Ok(tables)
}

/// The tables of kinds, as they stand in the text.
fn kind_tables<'a>(alloc: Global, table: &'a Table) -> Result<Vec<&'a Table>, KindsFault>
    ensures { IsUnlessMemory (Scenario scenario.Memory) (kind_tables (table_view table.now)) (tables_listed result) }
{
    let value = value_at(table, KindsKey::Kind.word()).ok_or(KindsFault::Shape(KindsKey::Kind))?;
    let items = value.as_array().ok_or(KindsFault::Shape(KindsKey::Kind))?;
    tables_of(alloc, items)
}

/// The tables of kinds, unless one is at fault.
fn kinds_of_tables(alloc: Global, tables: &[&Table]) -> Result<Vec<WrittenKind>, KindsFault>
    ensures { IsUnlessMemory (Scenario scenario.Memory)
        (kinds_of_tables (map (λ t. table_view t.now) tables.now)) (listed result) }
{
    let mut kinds = Vec::new(alloc);
    for table in tables {
        kinds.push(kind_of_table(alloc, table)?)?;
    }
    Ok(kinds)
}

/// What is written in the table of a text, or the first key that is at fault (docs/FORMATS.md, "Kinds text").
pub(crate) fn written_of_table(alloc: Global, table: &Table) -> Result<WrittenKinds, KindsFault>
    ensures { IsUnlessMemory (Scenario scenario.Memory) (written_of_table (table_view table.now)) result }
{
    let setting = setting_in(alloc, table)?;
    let tables = kind_tables(alloc, table)?;
    let kinds = kinds_of_tables(alloc, &tables)?;
    need_only(
        table,
        &[
            "time", "tick", "delay", "least", "groups", "places", "link", "group", "kind",
        ],
    )?;
    Ok(WrittenKinds {
        setting,
        tables: kinds,
    })
}

/// What the kinds share.
fn setting_in(alloc: Global, table: &Table) -> Result<WrittenScenario, KindsFault>
    ensures { IsUnlessMemory (Scenario scenario.Memory) (of_scenario (setting_of_table (table_view table.now))) result }
{
    match setting_of_table(alloc, table) {
        Ok(setting) => Ok(setting),
        Err(placed) => Err(KindsFault::from(ScenarioFault::from(placed))),
    }
}
