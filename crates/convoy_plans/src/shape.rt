//! What stands in a plan's table.

ghost use Rattle.std.specs.Prelude.{◌≡◌, map, option_map, ok_or};
ghost use Rattle.std.specs.List.{list_any};
ghost use Rattle.std.specs.Str.{bytes_eq};
ghost use Rattle.toml.specs.Data.{as_str, as_table, get_member};
ghost use Rattle.toml.specs.View.{array_view, table_view, view};
ghost use Rattle.convoy_draft.specs.declared.fault.ScenarioFault.TheVariants.{Memory};
ghost use Rattle.convoy_scenario.specs.Memory.{IsUnlessMemory};
ghost use Rattle.convoy_toml.specs.Shape.{all_of, as_names, names_in};
ghost use Rattle.convoy_toml.specs.Slow.{scenario_without_slow};
ghost use Rattle.convoy_plans.specs.declared.fault.PlanKey.TheVariants.{Group, Sites};
ghost use Rattle.convoy_plans.specs.declared.fault.PlanFault.TheVariants.{Scenario, Shape};
ghost use Rattle.convoy_plans.specs.Shape.{apart_of_table, as_tables, as_texts, has_only, home_of_table, homes_of, listed, need, need_only, of_scenario, plan_of_table, plan_word, tables_listed};

use super::fault::{PlanFault, PlanKey};
use super::lists::Names;
use super::written::{Home, WrittenPlan};
use convoy_scenario::{Key, Name, ScenarioFault};
use convoy_toml::{TargetKey, WrittenScenario, scenario_without_slow};
use std::alloc::Global;
use toml::value::Array;
use toml::{Table, Value};

/// The value at a key.
fn value_at(table: &Table, key: PlanKey) -> Option<&Value>
    ensures { option_map (λ v. view v.now) result
        ≡ get_member (plan_word key) (table_view table.now) }
{
    table.get(key.word())
}

fn name(alloc: Global, table: &Table) -> Result<Name, PlanFault>
    ensures { IsUnlessMemory (Scenario Memory) (need PlanKey.Name as_str (table_view table.now)) result }
{
    let value = value_at(table, PlanKey::Name).ok_or(PlanFault::Shape(PlanKey::Name))?;
    let text = value.as_str().ok_or(PlanFault::Shape(PlanKey::Name))?;
    Ok(Name::new(alloc, text)?)
}

/// The texts in an array.
fn texts_of(alloc: Global, items: &Array, key: PlanKey) -> Result<Vec<Name>, PlanFault>
    ensures { IsUnlessMemory (Scenario Memory)
        (ok_or (all_of as_str (array_view items.now)) (Shape key)) (listed result) }
{
    let mut names = Vec::new(alloc);
    for item in items {
        let text = item.as_str().ok_or(PlanFault::Shape(key))?;
        names.push(Name::new(alloc, text)?)?;
    }
    Ok(names)
}

fn texts_told(alloc: Global, value: &Value, key: PlanKey) -> Result<Vec<Name>, PlanFault>
    ensures { IsUnlessMemory (Scenario Memory)
        (ok_or (as_texts (view value.now)) (Shape key)) (listed result) }
{
    let items = value.as_array().ok_or(PlanFault::Shape(key))?;
    texts_of(alloc, items, key)
}

/// The names of the sites.
fn sites(alloc: Global, table: &Table) -> Result<Vec<Name>, PlanFault>
    ensures { IsUnlessMemory (Scenario Memory) (need Sites as_texts (table_view table.now)) (listed result) }
{
    let value = value_at(table, PlanKey::Sites).ok_or(PlanFault::Shape(PlanKey::Sites))?;
    texts_told(alloc, value, PlanKey::Sites)
}

/// The names in an array, which has to have one.
fn names_in(alloc: Global, items: &Array, key: PlanKey) -> Result<Vec<Name>, PlanFault>
    ensures { IsUnlessMemory (Scenario Memory)
        (ok_or (names_in (array_view items.now)) (Shape key)) (listed result) }
{
    let names = texts_of(alloc, items, key)?;
    if 1 <= names.len() {
        Ok(names)
    } else {
        Err(PlanFault::Shape(key))
    }
}

/// The names that a value tells: a text tells one, and an array of texts those in it.
fn names_told(alloc: Global, value: &Value, key: PlanKey) -> Result<Vec<Name>, PlanFault>
    ensures { IsUnlessMemory (Scenario Memory)
        (ok_or (as_names (view value.now)) (Shape key)) (listed result) }
{
    match value.as_str() {
        Some(text) => Ok(vec![in alloc; Name::new(alloc, text)?]?),
        None => {
            let items = value.as_array().ok_or(PlanFault::Shape(key))?;
            names_in(alloc, items, key)
        }
    }
}

/// The names of the sites at which a group may be.
fn home_sites(alloc: Global, table: &Table) -> Result<Vec<Name>, PlanFault>
    ensures { IsUnlessMemory (Scenario Memory) (need Sites as_names (table_view table.now)) (listed result) }
{
    let value = value_at(table, PlanKey::Sites).ok_or(PlanFault::Shape(PlanKey::Sites))?;
    names_told(alloc, value, PlanKey::Sites)
}

fn is_one_of(word: &str, words: &[&str]) -> bool
    ensures { result ≡ list_any (λ known. bytes_eq known word.now) (map (λ w. w.now) words.now) }
{
    words.iter().any(|known| *known == word)
}

/// Whether each key of the table is one of these.
fn has_only(table: &Table, words: &[&str]) -> bool
    ensures { result ≡ has_only (map (λ w. w.now) words.now) (table_view table.now) }
{
    table.keys().all(|word| is_one_of(word.as_str(), words))
}

fn need_only(table: &Table, words: &[&str]) -> Result<(), PlanFault>
    ensures { result ≡ need_only (map (λ w. w.now) words.now) (table_view table.now) }
{
    if has_only(table, words) {
        Ok(())
    } else {
        Err(PlanFault::Scenario(ScenarioFault::Shape(Key::Unknown)))
    }
}

/// The table of a group.
fn home_of_table(alloc: Global, table: &Table) -> Result<Home, PlanFault>
    ensures { IsUnlessMemory (Scenario Memory) (home_of_table (table_view table.now)) result }
{
    let name = name(alloc, table)?;
    let sites = home_sites(alloc, table)?;
    need_only(table, &["name", "sites"])?;
    Ok(Home { name, sites })
}

fn tables_of<'a>(alloc: Global, items: &'a Array, key: PlanKey) -> Result<Vec<&'a Table>, PlanFault>
    ensures { IsUnlessMemory (Scenario Memory)
        (ok_or (all_of as_table (array_view items.now)) (Shape key))
        (tables_listed result) }
{
    let mut tables = Vec::new(alloc);
    for item in items {
        let table = item.as_table().ok_or(PlanFault::Shape(key))?;
        tables.push(table)?;
    }
    Ok(tables)
}

/// The tables of the groups, as they stand in the text.
fn home_tables<'a>(alloc: Global, table: &'a Table) -> Result<Vec<&'a Table>, PlanFault>
    ensures { IsUnlessMemory (Scenario Memory) (need Group as_tables (table_view table.now)) (tables_listed result) }
{
    let value = value_at(table, PlanKey::Group).ok_or(PlanFault::Shape(PlanKey::Group))?;
    let items = value.as_array().ok_or(PlanFault::Shape(PlanKey::Group))?;
    tables_of(alloc, items, PlanKey::Group)
}

/// The tables of the groups, unless one is at fault.
fn homes_of(alloc: Global, tables: &[&Table]) -> Result<Vec<Home>, PlanFault>
    ensures { IsUnlessMemory (Scenario Memory)
        (homes_of (map (λ t. table_view t.now) tables.now)) (listed result) }
{
    let mut homes = Vec::new(alloc);
    for table in tables {
        homes.push(home_of_table(alloc, table)?)?;
    }
    Ok(homes)
}

/// The lists of texts in an array.
fn lists_of(alloc: Global, items: &Array, key: PlanKey) -> Result<Vec<Names>, PlanFault>
    ensures { IsUnlessMemory (Scenario Memory)
        (ok_or (all_of as_texts (array_view items.now)) (Shape key)) (listed result) }
{
    let mut lists = Vec::new(alloc);
    for item in items {
        let items = texts_told(alloc, item, key)?;
        lists.push(Names { items })?;
    }
    Ok(lists)
}

/// The lists of groups that are to be apart; none where the key is absent.
fn apart_of_table(alloc: Global, table: &Table) -> Result<Vec<Names>, PlanFault>
    ensures { IsUnlessMemory (Scenario Memory) (apart_of_table (table_view table.now)) (listed result) }
{
    let Some(value) = value_at(table, PlanKey::Apart) else {
        return Ok(Vec::new(alloc));
    };
    let items = value.as_array().ok_or(PlanFault::Shape(PlanKey::Apart))?;
    lists_of(alloc, items, PlanKey::Apart)
}

/// What is written in a plan's table, in which the target has to be written or not; or the first key that is at fault
/// (docs/FORMATS.md, "Plan text").
pub(crate) fn plan_of_table(
    alloc: Global,
    table: &Table,
    target: &TargetKey,
) -> Result<WrittenPlan, PlanFault>
    ensures { IsUnlessMemory (Scenario Memory) (plan_of_table target.now (table_view table.now)) result }
{
    let scenario = scenario_in(alloc, table, target)?;
    let sites = sites(alloc, table)?;
    let tables = home_tables(alloc, table)?;
    let homes = homes_of(alloc, &tables)?;
    let apart = apart_of_table(alloc, table)?;
    need_only(
        table,
        &[
            "time",
            "tick",
            "delay",
            "least",
            "groups",
            "multicast",
            "target",
            "link",
            "sites",
            "group",
            "apart",
        ],
    )?;
    Ok(WrittenPlan {
        scenario,
        sites,
        homes,
        apart,
    })
}

/// What a scenario's table has too.
fn scenario_in(
    alloc: Global,
    table: &Table,
    target: &TargetKey,
) -> Result<WrittenScenario, PlanFault>
    ensures { IsUnlessMemory (Scenario Memory)
        (of_scenario (scenario_without_slow target.now (table_view table.now))) result }
{
    match scenario_without_slow(alloc, table, target) {
        Ok(scenario) => Ok(scenario),
        Err(placed) => Err(PlanFault::from(ScenarioFault::from(placed))),
    }
}
