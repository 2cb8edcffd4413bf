//! The tables of groups: what their replicas need to agree, or how far they are where groups are replicated by white box.

ghost use Rattle.std.specs.Prelude.{◌≡◌, false, map, ok_or, IfOk};
ghost use Rattle.std.specs.List.{list_all, list_any};
ghost use Rattle.std.specs.Option.{option_map_or};
ghost use Rattle.std.specs.Str.{bytes_eq};
ghost use Rattle.toml.specs.Data.{as_str};
ghost use Rattle.toml.specs.View.{view, array_view, table_view};
ghost use Rattle.convoy_draft.specs.Checks.{all_differ, is_among};
ghost use Rattle.convoy_scenario.specs.Memory.{IsUnlessMemory};
ghost use Rattle.convoy_toml.specs.Shape.{accept_word, accepting_groups, acceptance_of_table, acceptances_in, acceptances_of_table, acceptances_told, accepts_by_table, agreement_of_table, agreements_in, agreements_of_table, agreements_unless, as_long, as_names, as_range, as_steps, group_tables, is_accepting, listed, need, need_accept, need_accepting, steps_of_table, tables_listed, twice_named};

use super::copying::copy_names;
use super::durations::{time_lasting, time_of_table, time_written};
use super::keys::{names_told, need_only, tables_of, value_at};
use super::placed::{Placed, ScenarioTable, in_table};
use super::written::{WrittenAcceptance, WrittenAgreement, WrittenTime};
use convoy_scenario::{Key, Name, ScenarioFault, Time};
use std::alloc::{AllocError, Global};
use toml::{Table, Value};

/// The word for replicas that agree on each message and on each proposal that comes, as they do where the key is absent.
const LOG: &str = "log";

/// The word for those that agree once more before a message is committed.
const TWICE: &str = "twice";

/// The word for groups that are replicated by white box.
const ACCEPT: &str = "accept";

/// The tables of groups of a scenario's table; none where the key is absent.
pub(crate) fn group_tables<'a>(
    alloc: Global,
    table: &'a Table,
) -> Result<Vec<&'a Table>, ScenarioFault>
    ensures { IsUnlessMemory ScenarioFault.Memory (group_tables (table_view table.now)) (tables_listed result) }
{
    let Some(value) = value_at(table, Key::Group) else {
        return Ok(Vec::new(alloc));
    };
    let items = value.as_array().ok_or(ScenarioFault::Shape(Key::Group))?;
    tables_of(alloc, items, Key::Group)
}

/// What replicas agree on by the tables of groups of a scenario's table.
pub(crate) fn agreements_of_table(
    alloc: Global,
    table: &Table,
    time: Time,
) -> Result<Vec<WrittenAgreement>, Placed>
    ensures { IsUnlessMemory ScenarioFault.Memory
        (agreements_of_table time (table_view table.now)) (listed result) }
{
    let tables = group_tables(alloc, table)?;
    agreements_in(alloc, &tables, time)
}

/// What the replicas of groups need to agree; where groups may be replicated by white box and one table says so all have to,
/// and there is nothing that they need to.
pub(crate) fn agreements_unless(
    alloc: Global,
    accepted: bool,
    groups: &[Name],
    tables: &[&Table],
    time: Time,
) -> Result<Vec<WrittenAgreement>, Placed>
    ensures { IsUnlessMemory ScenarioFault.Memory
        (agreements_unless accepted time groups.now (map (λ t. table_view t.now) tables.now)) (listed result) }
{
    if accepted && some_accept(tables) {
        let acceptances = acceptances_in(alloc, tables, time)?;
        let accepting = accepting_groups(alloc, &acceptances)?;
        need_accepting(groups, &accepting)?;
        return Ok(Vec::new(alloc));
    }
    agreements_in(alloc, tables, time)
}

/// The groups of which tables say that they are replicated by white box.
fn accepting_groups(
    alloc: Global,
    acceptances: &[WrittenAcceptance],
) -> Result<Vec<Name>, AllocError>
    ensures { IfOk result (λ names. names.items ≡ accepting_groups acceptances.now) }
{
    let mut names = Vec::new(alloc);
    for acceptance in acceptances {
        let mut more = copy_names(alloc, &acceptance.groups)?;
        names.append(&mut more)?;
    }
    Ok(names)
}

/// Each of them is one of the groups, and is named once.
fn need_accepting(groups: &[Name], accepting: &[Name]) -> Result<(), ScenarioFault>
    ensures { result ≡ need_accepting groups.now accepting.now }
{
    if !are_among(groups, accepting) {
        return Err(ScenarioFault::UnknownGroup);
    }
    if !all_differ(accepting) {
        return Err(ScenarioFault::DoubleName);
    }
    Ok(())
}

/// Whether each of the names is one of the groups.
fn are_among(groups: &[Name], names: &[Name]) -> bool
    ensures { result ≡ list_all (λ name. is_among name groups.now) names.now }
{
    names.iter().all(|name| name.is_among(groups))
}

/// Whether no two of the names are the same.
fn all_differ(names: &[Name]) -> bool
    ensures { result ≡ all_differ names.now }
{
    let mut rest = names;
    while let Some((name, tail)) = rest.split_first() {
        if name.is_among(tail) {
            return false;
        }
        rest = tail;
    }
    true
}

/// Whether a table says of its groups that they are replicated by white box.
fn some_accept(tables: &[&Table]) -> bool
    ensures { result ≡ list_any is_accepting (map (λ t. table_view t.now) tables.now) }
{
    for table in tables {
        if is_accepting(table) {
            return true;
        }
    }
    false
}

/// Whether the table says so.
fn is_accepting(table: &Table) -> bool
    ensures { result ≡ is_accepting (table_view table.now) }
{
    match value_at(table, Key::Steps) {
        Some(value) => is_accept_word(value),
        None => false,
    }
}

/// Whether a value is the word for such groups.
fn is_accept_word(value: &Value) -> bool
    ensures { result ≡ option_map_or (bytes_eq accept_word) (as_str (view value.now)) false }
{
    match value.as_str() {
        Some(word) => ACCEPT == word,
        None => false,
    }
}

/// Whether a table of groups of a scenario's table says that they are replicated by white box. Fails where memory runs
/// out, and else never.
pub(crate) fn accepts_by_table(alloc: Global, table: &Table) -> Result<bool, AllocError>
    ensures { IfOk result (λ accepts. accepts ≡ accepts_by_table (table_view table.now)) }
{
    match group_tables(alloc, table) {
        Ok(tables) => Ok(some_accept(&tables)),
        Err(ScenarioFault::Memory) => Err(AllocError),
        Err(_) => Ok(false),
    }
}

/// The groups that are replicated by white box, and how far their replicas are, where the tables of groups of a scenario's
/// table say so; none where one is at fault.
pub(crate) fn acceptances_of_table(
    alloc: Global,
    table: &Table,
) -> Result<Vec<WrittenAcceptance>, AllocError>
    ensures { IfOk result (λ acceptances. acceptances.items ≡ acceptances_of_table (table_view table.now)) }
{
    let Ok(time) = time_of_table(table) else {
        return Ok(Vec::new(alloc));
    };
    match group_tables(alloc, table) {
        Ok(tables) => acceptances_told(alloc, &tables, time),
        Err(ScenarioFault::Memory) => Err(AllocError),
        Err(_) => Ok(Vec::new(alloc)),
    }
}

/// The same of the tables of groups.
fn acceptances_told(
    alloc: Global,
    tables: &[&Table],
    time: Time,
) -> Result<Vec<WrittenAcceptance>, AllocError>
    ensures { IfOk result (λ acceptances. acceptances.items
        ≡ acceptances_told time (map (λ t. table_view t.now) tables.now)) }
{
    if !some_accept(tables) {
        return Ok(Vec::new(alloc));
    }
    match acceptances_in(alloc, tables, time) {
        Ok(acceptances) => Ok(acceptances),
        Err(placed) => match placed.fault {
            ScenarioFault::Memory => Err(AllocError),
            _ => Ok(Vec::new(alloc)),
        },
    }
}

fn acceptances_in(
    alloc: Global,
    tables: &[&Table],
    time: Time,
) -> Result<Vec<WrittenAcceptance>, Placed>
    ensures { IsUnlessMemory ScenarioFault.Memory
        (acceptances_in time (map (λ t. table_view t.now) tables.now)) (listed result) }
{
    let mut acceptances = Vec::new(alloc);
    for table in tables {
        let place = ScenarioTable::Group(acceptances.len());
        acceptances.push(in_table(place, acceptance_of_table(alloc, table, time))?)?;
    }
    Ok(acceptances)
}

#[tactic(auto, unfolding(crate::specs::Shape::acceptance_of_table))]
fn acceptance_of_table(
    alloc: Global,
    table: &Table,
    time: Time,
) -> Result<WrittenAcceptance, ScenarioFault>
    ensures { IsUnlessMemory ScenarioFault.Memory (acceptance_of_table time (table_view table.now)) result }
{
    let groups = groups_of_table(alloc, table)?;
    need_accept(table)?;
    let replicas = replicas_of_table(table, time)?;
    need_only(table, &[Key::Name, Key::Steps, Key::Replicas])?;
    Ok(WrittenAcceptance { groups, replicas })
}

/// The table says of its groups that they are replicated by white box.
fn need_accept(table: &Table) -> Result<(), ScenarioFault>
    ensures { result ≡ need_accept (table_view table.now) }
{
    if is_accepting(table) {
        Ok(())
    } else {
        Err(ScenarioFault::Shape(Key::Steps))
    }
}

/// What a packet between the leader of a group and its replicas takes at most.
fn replicas_of_table(table: &Table, time: Time) -> Result<WrittenTime, ScenarioFault>
    ensures { result ≡ need Key.Replicas (as_long time) (table_view table.now) }
{
    let value = value_at(table, Key::Replicas).ok_or(ScenarioFault::Shape(Key::Replicas))?;
    time_lasting(value, time).ok_or(ScenarioFault::Shape(Key::Replicas))
}

fn agreements_in(
    alloc: Global,
    tables: &[&Table],
    time: Time,
) -> Result<Vec<WrittenAgreement>, Placed>
    ensures { IsUnlessMemory ScenarioFault.Memory
        (agreements_in time (map (λ t. table_view t.now) tables.now)) (listed result) }
{
    let mut agreements = Vec::new(alloc);
    for table in tables {
        let place = ScenarioTable::Group(agreements.len());
        agreements.push(in_table(place, agreement_of_table(alloc, table, time))?)?;
    }
    Ok(agreements)
}

#[tactic(auto, unfolding(crate::specs::Shape::agreement_of_table))]
fn agreement_of_table(
    alloc: Global,
    table: &Table,
    time: Time,
) -> Result<WrittenAgreement, ScenarioFault>
    ensures { IsUnlessMemory ScenarioFault.Memory (agreement_of_table time (table_view table.now)) result }
{
    let groups = groups_of_table(alloc, table)?;
    let (least, most) = range_of_table(table, time)?;
    let twice = steps_of_table(table)?;
    need_only(table, &[Key::Name, Key::Agree, Key::Steps])?;
    Ok(WrittenAgreement {
        groups,
        least,
        most,
        twice,
    })
}

/// The groups of which a table tells.
fn groups_of_table(alloc: Global, table: &Table) -> Result<Vec<Name>, ScenarioFault>
    ensures { IsUnlessMemory ScenarioFault.Memory
        (need Key.Name as_names (table_view table.now)) (listed result) }
{
    let value = value_at(table, Key::Name).ok_or(ScenarioFault::Shape(Key::Name))?;
    names_told(alloc, value, Key::Name)
}

/// The least and the greatest time in which replicas agree on an entry.
fn range_of_table(table: &Table, time: Time) -> Result<(WrittenTime, WrittenTime), ScenarioFault>
    ensures { result ≡ need Key.Agree (as_range time) (table_view table.now) }
{
    let value = value_at(table, Key::Agree).ok_or(ScenarioFault::Shape(Key::Agree))?;
    range_told(value, time).ok_or(ScenarioFault::Shape(Key::Agree))
}

/// The two times that an array of just two tells.
fn range_told(value: &Value, time: Time) -> Option<(WrittenTime, WrittenTime)>
    ensures { result ≡ as_range time (view value.now) }
{
    match value.as_array()?.as_slice() {
        [least, most] => {
            let least = time_written(least, time)?;
            let most = time_written(most, time)?;
            Some((least, most))
        }
        [] => None,
        [_] => None,
        [_, _, _, ..] => None,
    }
}

/// Whether replicas agree twice, by the word for it.
fn twice_named(word: &str) -> Option<bool>
    ensures { result ≡ twice_named word.now }
{
    if word == LOG {
        Some(false)
    } else if word == TWICE {
        Some(true)
    } else {
        None
    }
}

/// The same of a value.
fn steps_told(value: &Value) -> Option<bool>
    ensures { result ≡ as_steps (view value.now) }
{
    twice_named(value.as_str()?)
}

/// Whether the replicas of a table's groups agree twice; they do not where the key is absent.
fn steps_of_table(table: &Table) -> Result<bool, ScenarioFault>
    ensures { result ≡ steps_of_table (table_view table.now) }
{
    match value_at(table, Key::Steps) {
        Some(value) => steps_told(value).ok_or(ScenarioFault::Shape(Key::Steps)),
        None => Ok(false),
    }
}
