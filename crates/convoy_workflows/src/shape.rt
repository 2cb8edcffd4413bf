//! What stands in the table of a workflow text.

ghost use Rattle.std.specs.Prelude.{◌≡◌, map, option_map, ok_or, IfOk, is_none, find, option_copied, slice_index_or, []};
ghost use Rattle.std.specs.List.{list_any};
ghost use Rattle.std.specs.Str.{bytes_eq};
ghost use Rattle.toml.specs.Data.{as_str, as_table, get_member};
ghost use Rattle.toml.specs.View.{array_view, table_view, view};
ghost use Rattle.convoy_draft.specs.declared.fault.Key.TheVariants.{Multicast, To};
ghost use Rattle.convoy_draft.specs.declared.fault.ScenarioFault.TheVariants as faults;
ghost use Rattle.convoy_scenario.specs.Memory.{IsUnlessMemory};
ghost use Rattle.convoy_toml.specs.Shape.{all_of, as_duration, as_when, first_known, first_target, need, need_all, setting_of_table, wish};
ghost use Rattle.convoy_workflow_words.specs.declared.fault.WorkflowFault.TheVariants.{Scenario, Shape};
ghost use Rattle.convoy_workflow_words.specs.declared.fault.WorkflowKey.TheVariants.{After, On};
ghost use Rattle.convoy_workflows.specs.Shape.{aim_of_table, as_event, cause_between, cause_of_table, causes_of_steps, event_named, has_only, listed, message_of_table, messages_of_steps, need_only, of_scenario, own_aim, step_of_table, steps_of_tables, tables_listed, wish_own, written_aim, written_of_table};

use super::written::{WrittenAim, WrittenCause, WrittenStep, WrittenWorkflow};
use convoy_causes::Event;
use convoy_scenario::{Duration, Key, Name, ScenarioFault, Time};
use convoy_toml::{TargetKey, WrittenMulticast, WrittenScenario, WrittenTime, setting_of_table};
use convoy_workflow_words::{WorkflowFault, WorkflowKey};
use std::alloc::{AllocError, Global};
use toml::value::Array;
use toml::{Table, Value};

/// The value at a key.
pub(crate) fn value_at<'a>(table: &'a Table, word: &str) -> Option<&'a Value>
    ensures { option_map (λ v. view v.now) result ≡ get_member word.now (table_view table.now) }
{
    table.get(word)
}

/// The fault of a key that a scenario text has, too.
fn fault_at(key: Key) -> WorkflowFault
    ensures { result ≡ Scenario (faults.Shape key) }
{
    WorkflowFault::Scenario(ScenarioFault::Shape(key))
}

/// The text at a key.
fn name(alloc: Global, table: &Table, key: Key) -> Result<Name, WorkflowFault>
    ensures { IsUnlessMemory (Scenario faults.Memory) (of_scenario (need key as_str (table_view table.now))) result }
{
    let value = value_at(table, key.word()).ok_or(fault_at(key))?;
    let text = value.as_str().ok_or(fault_at(key))?;
    Ok(Name::new(alloc, text)?)
}

/// The text at a key that may be absent.
fn name_written(alloc: Global, table: &Table, key: Key) -> Result<Option<Name>, WorkflowFault>
    ensures { IsUnlessMemory (Scenario faults.Memory) (of_scenario (wish key as_str (table_view table.now))) result }
{
    let Some(value) = value_at(table, key.word()) else {
        return Ok(None);
    };
    let text = value.as_str().ok_or(fault_at(key))?;
    Ok(Some(Name::new(alloc, text)?))
}

/// The texts in an array.
fn names_of(alloc: Global, items: &Array, key: Key) -> Result<Vec<Name>, WorkflowFault>
    ensures { IsUnlessMemory (Scenario faults.Memory)
        (ok_or (all_of as_str (array_view items.now)) (Scenario (faults.Shape key))) (listed result) }
{
    let mut names = Vec::new(alloc);
    for item in items {
        let text = item.as_str().ok_or(fault_at(key))?;
        names.push(Name::new(alloc, text)?)?;
    }
    Ok(names)
}

/// The groups to which a message goes.
fn destinations(alloc: Global, table: &Table) -> Result<Vec<Name>, WorkflowFault>
    ensures { IsUnlessMemory (Scenario faults.Memory)
        (of_scenario (need_all To as_str (table_view table.now))) (listed result) }
{
    let value = value_at(table, Key::To.word()).ok_or(fault_at(Key::To))?;
    let items = value.as_array().ok_or(fault_at(Key::To))?;
    names_of(alloc, items, Key::To)
}

/// The duration that a text tells, where time is real.
fn duration(value: &Value, time: Time) -> Option<Duration>
    ensures { result ≡ as_duration time (view value.now) }
{
    match time {
        Time::Ticks => None,
        Time::Real => Duration::read(value.as_str()?.as_bytes()),
    }
}

/// A number of ticks, or where time is real a duration.
fn time_told(value: &Value, time: Time) -> Option<WrittenTime>
    ensures { result ≡ as_when time (view value.now) }
{
    match value.as_integer() {
        Some(ticks) => Some(WrittenTime::Count(ticks)),
        None => Some(WrittenTime::Lasting(duration(value, time)?)),
    }
}

/// The time at a key.
fn when(table: &Table, key: Key, time: Time) -> Result<WrittenTime, WorkflowFault>
    ensures { result ≡ of_scenario (need key (as_when time) (table_view table.now)) }
{
    let value = value_at(table, key.word()).ok_or(fault_at(key))?;
    time_told(value, time).ok_or(fault_at(key))
}

/// The time at a key that may be absent.
fn when_written(table: &Table, key: Key, time: Time) -> Result<Option<WrittenTime>, WorkflowFault>
    ensures { result ≡ of_scenario (wish key (as_when time) (table_view table.now)) }
{
    let Some(value) = value_at(table, key.word()) else {
        return Ok(None);
    };
    let when = time_told(value, time).ok_or(fault_at(key))?;
    Ok(Some(when))
}

fn is_one_of(word: &str, words: &[&str]) -> bool
    ensures { result ≡ list_any (λ known. bytes_eq known word.now) (map (λ w. w.now) words.now) }
{
    words.iter().any(|known| *known == word)
}

/// Whether each key of the table is one of these.
fn has_only(table: &Table, words: &[&str]) -> bool
    ensures { result ≡ has_only (map (λ w. w.now) words.now) (table_view table.now) }
{
    table.keys().all(|word| is_one_of(word.as_str(), words))
}

fn need_only(table: &Table, words: &[&str]) -> Result<(), WorkflowFault>
    ensures { result ≡ need_only (map (λ w. w.now) words.now) (table_view table.now) }
{
    if has_only(table, words) {
        Ok(())
    } else {
        Err(fault_at(Key::Unknown))
    }
}

/// The event that a word names.
fn event_named(word: &str) -> Option<Event>
    ensures { result ≡ event_named word.now }
{
    if word == "issue" {
        Some(Event::Issue)
    } else if word == "arrival" {
        Some(Event::Arrival)
    } else if word == "commit" {
        Some(Event::Commit)
    } else if word == "delivery" {
        Some(Event::Delivery)
    } else {
        None
    }
}

/// The event that a value names.
fn event_told(value: &Value) -> Option<Event>
    ensures { result ≡ as_event (view value.now) }
{
    event_named(value.as_str()?)
}

/// The name of the message that is followed, where it is written.
fn followed(alloc: Global, table: &Table) -> Result<Option<Name>, WorkflowFault>
    ensures { IsUnlessMemory (Scenario faults.Memory) (wish_own After as_str (table_view table.now)) result }
{
    let Some(value) = value_at(table, WorkflowKey::After.word()) else {
        return Ok(None);
    };
    let text = value
        .as_str()
        .ok_or(WorkflowFault::Shape(WorkflowKey::After))?;
    Ok(Some(Name::new(alloc, text)?))
}

/// The event that is followed, where it is written.
fn event_written(table: &Table) -> Result<Option<Event>, WorkflowFault>
    ensures { result ≡ wish_own On as_event (table_view table.now) }
{
    let Some(value) = value_at(table, WorkflowKey::On.word()) else {
        return Ok(None);
    };
    let event = event_told(value).ok_or(WorkflowFault::Shape(WorkflowKey::On))?;
    Ok(Some(event))
}

/// What a message follows: an event is named only of a message that is followed, and is its issue where none is named.
fn cause_between(
    message: Option<Name>,
    event: Option<Event>,
) -> Result<Option<WrittenCause>, WorkflowFault>
    ensures { result ≡ cause_between message event }
{
    match (message, event) {
        (Some(message), event) => Ok(Some(WrittenCause {
            message,
            event: event.unwrap_or(Event::Issue),
        })),
        (None, Some(_)) => Err(WorkflowFault::Shape(WorkflowKey::On)),
        (None, None) => Ok(None),
    }
}

/// What the message of a table follows.
fn cause_of_table(alloc: Global, table: &Table) -> Result<Option<WrittenCause>, WorkflowFault>
    ensures { IsUnlessMemory (Scenario faults.Memory) (cause_of_table (table_view table.now)) result }
{
    let message = followed(alloc, table)?;
    let event = event_written(table)?;
    cause_between(message, event)
}

/// A message as it is written, whatever else stands in its table.
fn multicast_of_table(
    alloc: Global,
    table: &Table,
    time: Time,
) -> Result<WrittenMulticast, WorkflowFault>
    ensures { IsUnlessMemory (Scenario faults.Memory) (message_of_table time (table_view table.now)) result }
{
    let name = name(alloc, table, Key::Name)?;
    let sender = name_written(alloc, table, Key::From)?;
    let to = destinations(alloc, table)?;
    let at = when(table, Key::At, time)?;
    let until = when_written(table, Key::Until, time)?;
    let within = when_written(table, Key::Within, time)?;
    Ok(WrittenMulticast {
        name,
        sender,
        to,
        at,
        until,
        within,
        longer: None,
    })
}

/// A message as it is written, and what it follows.
fn step_of_table(alloc: Global, table: &Table, time: Time) -> Result<WrittenStep, WorkflowFault>
    ensures { IsUnlessMemory (Scenario faults.Memory) (step_of_table time (table_view table.now)) result }
{
    let multicast = multicast_of_table(alloc, table, time)?;
    let cause = cause_of_table(alloc, table)?;
    need_only(
        table,
        &["name", "from", "to", "at", "until", "within", "after", "on"],
    )?;
    Ok(WrittenStep { multicast, cause })
}

/// The tables in an array.
fn tables_of<'a>(alloc: Global, items: &'a Array) -> Result<Vec<&'a Table>, WorkflowFault>
    ensures { IsUnlessMemory (Scenario faults.Memory)
        (ok_or (all_of as_table (array_view items.now)) (Scenario (faults.Shape Multicast))) (tables_listed result) }
{
    let mut tables = Vec::new(alloc);
    for item in items {
        let table = item.as_table().ok_or(fault_at(Key::Multicast))?;
        tables.push(table)?;
    }
    Ok(tables)
}

/// The tables of messages, as they stand in the text.
fn multicast_tables<'a>(alloc: Global, table: &'a Table) -> Result<Vec<&'a Table>, WorkflowFault>
    ensures { IsUnlessMemory (Scenario faults.Memory)
        (of_scenario (need_all Multicast as_table (table_view table.now))) (tables_listed result) }
{
    let value = value_at(table, Key::Multicast.word()).ok_or(fault_at(Key::Multicast))?;
    let items = value.as_array().ok_or(fault_at(Key::Multicast))?;
    tables_of(alloc, items)
}

/// The messages, unless one is at fault.
fn steps_of_tables(
    alloc: Global,
    tables: &[&Table],
    time: Time,
) -> Result<Vec<WrittenStep>, WorkflowFault>
    ensures { IsUnlessMemory (Scenario faults.Memory)
        (steps_of_tables time (map (λ t. table_view t.now) tables.now)) (listed result) }
{
    let mut steps = Vec::new(alloc);
    for table in tables {
        steps.push(step_of_table(alloc, table, time)?)?;
    }
    Ok(steps)
}

/// The messages of steps, and what each of them follows.
fn parts_of_steps(
    alloc: Global,
    steps: Vec<WrittenStep>,
) -> Result<(Vec<WrittenMulticast>, Vec<Option<WrittenCause>>), AllocError>
    ensures messages { IfOk result (λ parts. parts.0.items ≡ messages_of_steps steps.items) }
    ensures causes { IfOk result (λ parts. parts.1.items ≡ causes_of_steps steps.items) }
{
    let mut multicasts = Vec::new(alloc);
    let mut causes = Vec::new(alloc);
    for step in steps {
        multicasts.push(step.multicast)?;
        causes.push(step.cause)?;
    }
    Ok((multicasts, causes))
}

/// The target that is written in a table.
fn written_aim(alloc: Global, table: &Table) -> Result<WrittenAim, WorkflowFault>
    ensures { IsUnlessMemory (Scenario faults.Memory) (written_aim (table_view table.now)) result }
{
    let value = value_at(table, Key::Target.word()).ok_or(fault_at(Key::Target))?;
    let target = value.as_table().ok_or(fault_at(Key::Target))?;
    let message = name(alloc, target, Key::Message)?;
    let group = name(alloc, target, Key::Group)?;
    let origin = name_written(alloc, target, Key::From)?;
    need_only(target, &["message", "group", "from"])?;
    Ok(WrittenAim {
        message,
        group,
        origin,
    })
}

/// The first message that is issued at a time that is written.
fn find_known(multicasts: &[WrittenMulticast]) -> Option<&WrittenMulticast>
    ensures { option_copied result ≡ find (λ m. is_none m.until) multicasts.now }
{
    multicasts.iter().find(|m| m.until.is_none())
}

/// The first message that is issued at a time that is written, or the first of all where there is none such.
fn first_known(multicasts: &[WrittenMulticast]) -> Option<&WrittenMulticast>
    ensures { option_copied result ≡ first_known multicasts.now }
{
    match find_known(multicasts) {
        Some(multicast) => Some(multicast),
        None => multicasts.first(),
    }
}

/// The first of the names, or of the others where there are none; else a name without a letter.
fn first_of(alloc: Global, names: &[Name], others: &[Name]) -> Result<Name, AllocError>
    ensures { IfOk result (λ name. name ≡ slice_index_or names.now 0 (slice_index_or others.now 0 [])) }
{
    match names.first().or(others.first()) {
        Some(name) => name.copy(),
        None => Name::new(alloc, ""),
    }
}

/// The first target: the first message that is issued at a time that is written, or the first of all where there is none
/// such, at the first group that it goes to.
fn first_aim(
    alloc: Global,
    groups: &[Name],
    multicasts: &[WrittenMulticast],
) -> Result<WrittenAim, AllocError>
    ensures { IfOk result (λ aim. aim ≡ own_aim (first_target groups.now multicasts.now)) }
{
    match first_known(multicasts) {
        Some(multicast) => Ok(WrittenAim {
            message: multicast.name.copy()?,
            group: first_of(alloc, &multicast.to, groups)?,
            origin: None,
        }),
        None => Ok(WrittenAim {
            message: Name::new(alloc, "")?,
            group: Name::new(alloc, "")?,
            origin: None,
        }),
    }
}

/// The target of a table: what is written, or the first target where that may be left out and is, or the one that is named
/// beside it.
fn aim_of_table(
    alloc: Global,
    table: &Table,
    target: &TargetKey,
    groups: &[Name],
    multicasts: &[WrittenMulticast],
) -> Result<WrittenAim, WorkflowFault>
    ensures { IsUnlessMemory (Scenario faults.Memory)
        (aim_of_table target.now (table_view table.now) groups.now multicasts.now) result }
{
    match target {
        TargetKey::Named { message, group } => Ok(WrittenAim {
            message: message.copy()?,
            group: group.copy()?,
            origin: None,
        }),
        TargetKey::Optional if value_at(table, Key::Target.word()).is_none() => {
            Ok(first_aim(alloc, groups, multicasts)?)
        }
        TargetKey::Required | TargetKey::Optional => written_aim(alloc, table),
    }
}

/// The setting with these messages and this target.
fn with_messages(
    setting: WrittenScenario,
    multicasts: Vec<WrittenMulticast>,
    message: Name,
    group: Name,
) -> WrittenScenario
    ensures { result ≡ (record setting { messages = multicasts.items; target_message = message; target_group = group }) }
{
    WrittenScenario {
        multicasts,
        target_message: message,
        target_group: group,
        ..setting
    }
}

/// What is written in the table of a text, in which the target has to be written or not, or the first key that is at fault
/// (docs/FORMATS.md, "Workflow text").
pub(crate) fn written_of_table(
    alloc: Global,
    table: &Table,
    target: &TargetKey,
) -> Result<WrittenWorkflow, WorkflowFault>
    ensures { IsUnlessMemory (Scenario faults.Memory) (written_of_table target.now (table_view table.now)) result }
{
    let setting = setting_in(alloc, table)?;
    let tables = multicast_tables(alloc, table)?;
    let steps = steps_of_tables(alloc, &tables, setting.time)?;
    let (multicasts, causes) = parts_of_steps(alloc, steps)?;
    let aim = aim_of_table(alloc, table, target, &setting.groups, &multicasts)?;
    need_only(
        table,
        &[
            "time",
            "tick",
            "delay",
            "least",
            "groups",
            "places",
            "multicast",
            "target",
            "link",
            "group",
        ],
    )?;
    Ok(WrittenWorkflow {
        scenario: with_messages(setting, multicasts, aim.message, aim.group),
        causes,
        origin: aim.origin,
    })
}

/// What the text has beside messages and a target.
fn setting_in(alloc: Global, table: &Table) -> Result<WrittenScenario, WorkflowFault>
    ensures { IsUnlessMemory (Scenario faults.Memory) (of_scenario (setting_of_table (table_view table.now))) result }
{
    match setting_of_table(alloc, table) {
        Ok(setting) => Ok(setting),
        Err(placed) => Err(WorkflowFault::from(ScenarioFault::from(placed))),
    }
}
