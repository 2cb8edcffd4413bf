//! The tables of messages: what each says, and who sends it.

ghost use Rattle.std.specs.Prelude.{◌≡◌, map, IfOk};
ghost use Rattle.toml.specs.Data.{as_str};
ghost use Rattle.toml.specs.View.{table_view};
ghost use Rattle.convoy_scenario.specs.Memory.{IsUnlessMemory};
ghost use Rattle.convoy_toml.specs.Shape.{wish, case_after, sender_count, sender_in, sender_of_table, message_of_table, messages_of, longer_of_table, both_or_none, listed};

use super::durations::{when, when_written};
use super::keys::{name, names, names_told, need_only, senders, value_at};
use super::placed::{Placed, ScenarioTable, in_table};
use super::written::{WrittenMulticast, WrittenRange, WrittenTime};
use convoy_scenario::{Key, Name, ScenarioFault, Time};
use std::alloc::{AllocError, Global};
use toml::Table;

fn sender(alloc: Global, table: &Table) -> Result<Option<Name>, ScenarioFault>
    ensures { IsUnlessMemory ScenarioFault.Memory
        (wish Key.From as_str (table_view table.now)) result }
{
    match value_at(table, Key::From) {
        Some(value) => {
            let text = value.as_str().ok_or(ScenarioFault::Shape(Key::From))?;
            Ok(Some(Name::new(alloc, text)?))
        }
        None => Ok(None),
    }
}

/// The least and the greatest time, where both are written; one alone is a fault of the other.
fn both_or_none(
    least: Option<WrittenTime>,
    most: Option<WrittenTime>,
) -> Result<Option<WrittenRange>, ScenarioFault>
    ensures { result ≡ both_or_none least most }
{
    match (least, most) {
        (None, None) => Ok(None),
        (None, Some(_)) => Err(ScenarioFault::Shape(Key::Least)),
        (Some(_), None) => Err(ScenarioFault::Shape(Key::Most)),
        (Some(least), Some(most)) => Ok(Some(WrittenRange { least, most })),
    }
}

/// How much longer than a link says the packets of a message take from its sender, where that is written.
fn longer_of_table(table: &Table, time: Time) -> Result<Option<WrittenRange>, ScenarioFault>
    ensures { result ≡ longer_of_table time (table_view table.now) }
{
    let least = when_written(table, Key::Least, time)?;
    let most = when_written(table, Key::Most, time)?;
    both_or_none(least, most)
}

/// How many may send the message of a table: one where none is named.
pub(crate) fn sender_count(alloc: Global, table: &Table) -> Result<u64, AllocError>
    ensures { IfOk result (λ count. count ≡ sender_count (table_view table.now)) }
{
    let Some(value) = value_at(table, Key::From) else {
        return Ok(1);
    };
    match names_told(alloc, value, Key::From) {
        Ok(names) => Ok(names.len() as u64),
        Err(ScenarioFault::Memory) => Err(AllocError),
        Err(_) => Ok(1),
    }
}

/// Who of several sends in that case.
fn sender_in(case: u64, names: &[Name]) -> Result<Option<Name>, AllocError>
    ensures { IfOk result (λ name. name ≡ sender_in case names.now) }
{
    if names.is_empty() {
        return Ok(None);
    }
    let place = case % names.len() as u64;
    match names.get(place as usize) {
        Some(name) => Ok(Some(name.copy()?)),
        None => Ok(None),
    }
}

/// Who sends the message of a table: where no case is asked about it names one at most, and else the one of that case.
fn sender_of_table(
    alloc: Global,
    table: &Table,
    case: Option<u64>,
) -> Result<Option<Name>, ScenarioFault>
    ensures { IsUnlessMemory ScenarioFault.Memory
        (sender_of_table case (table_view table.now)) result }
{
    let Some(case) = case else {
        return sender(alloc, table);
    };
    match senders(alloc, table)? {
        Some(names) => Ok(sender_in(case, &names)?),
        None => Ok(None),
    }
}

/// The case of the messages below that of a table.
fn case_after(alloc: Global, table: &Table, case: Option<u64>) -> Result<Option<u64>, AllocError>
    ensures { IfOk result (λ after. after ≡ case_after case (table_view table.now)) }
{
    let Some(case) = case else {
        return Ok(None);
    };
    let count = sender_count(alloc, table)?;
    Ok(Some(case.checked_div(count).unwrap_or(0)))
}

fn multicast_of_table(
    alloc: Global,
    table: &Table,
    case: Option<u64>,
    time: Time,
) -> Result<WrittenMulticast, ScenarioFault>
    ensures { IsUnlessMemory ScenarioFault.Memory
        (message_of_table case time (table_view table.now)) result }
{
    let name = name(alloc, table, Key::Name)?;
    let sender = sender_of_table(alloc, table, case)?;
    let to = names(alloc, table, Key::To)?;
    let at = when(table, Key::At, time)?;
    let until = when_written(table, Key::Until, time)?;
    let within = when_written(table, Key::Within, time)?;
    let longer = longer_of_table(table, time)?;
    need_only(
        table,
        &[
            Key::Name,
            Key::From,
            Key::To,
            Key::At,
            Key::Until,
            Key::Within,
            Key::Least,
            Key::Most,
        ],
    )?;
    Ok(WrittenMulticast {
        name,
        sender,
        to,
        at,
        until,
        within,
        longer,
    })
}

pub(crate) fn multicasts_of(
    alloc: Global,
    tables: &[&Table],
    case: Option<u64>,
    time: Time,
) -> Result<Vec<WrittenMulticast>, Placed>
    ensures { IsUnlessMemory ScenarioFault.Memory
        (messages_of case time (map (λ t. table_view t.now) tables.now)) (listed result) }
{
    let mut multicasts = Vec::new(alloc);
    let mut left = case;
    for table in tables {
        let place = ScenarioTable::Multicast(multicasts.len());
        multicasts.push(in_table(place, multicast_of_table(alloc, table, left, time))?)?;
        left = case_after(alloc, table, left)?;
    }
    Ok(multicasts)
}
