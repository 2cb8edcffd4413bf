ghost use Rattle.std.specs.Prelude.{◌≡◌, ◌++◌, is_none, slice_index_or, [], map, filter, option_map, Some, IfOk, OnOk};
ghost use Rattle.std.specs.List.{list_any};
ghost use Rattle.convoy_draft.specs.declared.fault.ScenarioFault.TheVariants.{Memory};
ghost use Rattle.convoy_scenario.specs.Memory.{IsUnlessMemory};
ghost use Rattle.convoy_scenario.specs.WellFormed.{IsScenario};
ghost use Rattle.convoy_toml.specs.Reading.{scenario_of_written};
ghost use Rattle.convoy_toml.specs.Times.{tick_of};
ghost use Rattle.convoy_kinds.specs.Kinds.{IsKinds, IsKindsIfCounted};
ghost use Rattle.convoy_kinds.specs.Numbering.{table_names};
ghost use Rattle.convoy_kinds.specs.Reading.{checked_kinds, counted, kinds_of_text, kinds_of_written, names_sender, sends, setting_message, setting_messages, setting_sender, written_setting};
ghost use Rattle.convoy_kinds.specs.Shape.{listed, of_scenario};

use super::checks::check;
use super::fault::{KindsFault, KindsLimit};
use super::kinds::{Kind, Kinds};
use super::limits::MOST_KINDS;
use super::numbers::{kinds_of, table_names};
use super::shape::written_of_table;
use super::written::{WrittenKind, WrittenKinds};
use convoy_scenario::naming::{draft_groups, draft_places};
use convoy_scenario::{Duration, Name, Scenario, ScenarioFault, TimeUnit};
use convoy_toml::{
    WrittenMulticast, WrittenScenario, WrittenTime, copy_names, read_table, scenario_of_written,
    tick_of, unit_of_table,
};
use std::alloc::{AllocError, Global};

/// Reads a kinds text, which is TOML (docs/FORMATS.md, "Kinds text").
///
/// Of a faulty text the first fault is told: of its shape, of its times, of what the kinds share, and then of its tables; where
/// memory runs out, `ScenarioFault::Memory` is the answer, and says nothing of the text.
pub fn read_kinds(alloc: Global, text: &[u8]) -> Result<Kinds, KindsFault>
    ensures value { IsUnlessMemory (KindsFault.Scenario Memory) (kinds_of_text text.now) result }
    ensures lawful { IfOk result (λ kinds. IsKinds kinds) }
{
    let table = read_table(alloc, text)?;
    let unit = unit_of_table(&table);
    let written = written_of_table(alloc, &table)?;
    kinds_of_written(alloc, unit, written)
}

/// The kinds of what is written, with this unit of D.
fn kinds_of_written(
    alloc: Global,
    unit: Option<TimeUnit>,
    written: WrittenKinds,
) -> Result<Kinds, KindsFault>
    ensures value { IsUnlessMemory (KindsFault.Scenario Memory) (kinds_of_written unit written) result }
    ensures lawful { IfOk result (λ kinds. IsKinds kinds) }
{
    let WrittenKinds { setting, tables } = written;
    let tick = tick_in(alloc, &setting)?;
    let setting = setting_in(alloc, written_setting(alloc, setting, &tables, tick)?)?;
    let names = table_names(alloc, &tables)?;
    let kinds = checked_kinds(alloc, &setting, unit, &names, &tables)?;
    counted(setting, unit, names, kinds)
}

/// The kinds of tables with these names, unless the tables break a rule.
fn checked_kinds(
    alloc: Global,
    setting: &Scenario,
    _unit: Option<TimeUnit>,
    names: &[Name],
    tables: &[WrittenKind],
) -> Result<Vec<Kind>, KindsFault>
    requires { names.now ≡ table_names tables.now }
    ensures value { IsUnlessMemory (KindsFault.Scenario Memory) (checked_kinds setting.now.groups setting.now.places tables.now) (listed result) }
    ensures formed { IfOk result (λ kinds. IsKindsIfCounted (record { setting = setting.now; unit = _unit; tables = names.now; kinds = kinds.items })) }
{
    let _count = setting.group_count();
    let groups = draft_groups(alloc, setting)?;
    let places = draft_places(alloc, setting)?;
    check(&groups, &places, names, tables)?;
    Ok(kinds_of(alloc, &groups, &places, tables)?)
}

/// The kinds, if there are as many as there may be.
fn counted(
    setting: Scenario,
    unit: Option<TimeUnit>,
    tables: Vec<Name>,
    kinds: Vec<Kind>,
) -> Result<Kinds, KindsFault>
    requires { IsKindsIfCounted (record { setting = setting; unit = unit; tables = tables.items; kinds = kinds.items }) }
    ensures value { result ≡ counted (record { setting = setting; unit = unit; tables = tables.items; kinds = kinds.items }) }
    ensures lawful { IfOk result (λ kinds. IsKinds kinds) }
{
    if 1 <= kinds.len() && kinds.len() <= MOST_KINDS {
        Ok(Kinds {
            setting,
            unit,
            tables,
            kinds,
        })
    } else {
        Err(KindsFault::OverLimit(KindsLimit::Kinds))
    }
}

/// What the kinds share as a scenario of the setting's messages, where a tick has this length.
fn written_setting(
    alloc: Global,
    setting: WrittenScenario,
    tables: &[WrittenKind],
    tick: Option<Duration>,
) -> Result<WrittenScenario, AllocError>
    ensures { IfOk result (λ whole. whole
        ≡ written_setting (record { setting = setting; tables = tables.now }) tick) }
{
    let messages = setting_messages(alloc, &setting, tables)?;
    let group = first_of(alloc, &setting.groups)?;
    Ok(WrittenScenario {
        tick,
        multicasts: messages,
        target_message: Name::new(alloc, FIRST)?,
        target_group: group,
        ..setting
    })
}

/// The name of the first message of the setting, which no place has.
const FIRST: &str = "client";

/// The messages of the setting: one from clients of no named place where these send, else from the first group, and one
/// from clients at each place that sends.
fn setting_messages(
    alloc: Global,
    setting: &WrittenScenario,
    tables: &[WrittenKind],
) -> Result<Vec<WrittenMulticast>, AllocError>
    ensures { IfOk result (λ messages. messages.items
        ≡ setting_messages (record { setting = setting.now; tables = tables.now })) }
{
    let sender = setting_sender(setting, tables)?;
    let first = setting_message(alloc, setting, Name::new(alloc, FIRST)?, sender)?;
    let places = sending(alloc, tables, &setting.places)?;
    let mut messages = vec![in alloc; first]?;
    push_messages_from(alloc, setting, &places, &mut messages)?;
    Ok(messages)
}

/// Those of the places that send messages of some table.
fn sending(alloc: Global, tables: &[WrittenKind], places: &[Name]) -> Result<Vec<Name>, AllocError>
    ensures { IfOk result (λ names. names.items ≡ filter (sends tables.now) places.now) }
{
    let mut names = Vec::new(alloc);
    for place in places {
        if sends(tables, place) {
            names.push(place.copy()?)?;
        }
    }
    Ok(names)
}

/// Whether messages of some table come from what has the name.
fn sends(tables: &[WrittenKind], name: &Name) -> bool
    ensures { result ≡ sends tables.now name.now }
{
    tables
        .iter()
        .any(|table| names_sender(name, &table.senders))
}

/// Whether the name is one of those that send.
fn names_sender(name: &Name, senders: &Option<Vec<Name>>) -> bool
    ensures { result ≡ names_sender name.now (option_map (λ names. names.items) senders.now) }
{
    match senders {
        Some(names) => name.is_among(names),
        None => false,
    }
}

/// Appends a message from clients at each of the places, under its name.
fn push_messages_from(
    alloc: Global,
    setting: &WrittenScenario,
    places: &[Name],
    messages: &mut Vec<WrittenMulticast>,
) -> Result<(), AllocError>
    ensures { OnOk result (messages.new.items
        ≡ messages.old.items ++ map (λ place. setting_message setting.now place (Some place)) places.now) }
{
    for place in places {
        messages.push(message_from(alloc, setting, place)?)?;
    }
    Ok(())
}

/// A message from clients at that place, under its name.
fn message_from(
    alloc: Global,
    setting: &WrittenScenario,
    place: &Name,
) -> Result<WrittenMulticast, AllocError>
    ensures { IfOk result (λ message. message ≡ setting_message setting.now place.now (Some place.now)) }
{
    setting_message(alloc, setting, place.copy()?, Some(place.copy()?))
}

/// A message of the setting, which goes to all groups.
fn setting_message(
    alloc: Global,
    setting: &WrittenScenario,
    name: Name,
    sender: Option<Name>,
) -> Result<WrittenMulticast, AllocError>
    ensures { IfOk result (λ message. message ≡ setting_message setting.now name sender) }
{
    Ok(WrittenMulticast {
        name,
        sender,
        to: copy_names(alloc, &setting.groups)?,
        at: WrittenTime::Count(0),
        until: None,
        within: None,
        longer: None,
    })
}

/// Who sends the first message: a client of no named place where some table is one of these, else the first group.
fn setting_sender(
    setting: &WrittenScenario,
    tables: &[WrittenKind],
) -> Result<Option<Name>, AllocError>
    ensures { IfOk result (λ sender. sender
        ≡ setting_sender (record { setting = setting.now; tables = tables.now })) }
{
    if some_are_of_clients(tables) {
        return Ok(None);
    }
    match setting.groups.first() {
        Some(group) => Ok(Some(group.copy()?)),
        None => Ok(None),
    }
}

/// Whether some table is one of clients of no named place.
fn some_are_of_clients(tables: &[WrittenKind]) -> bool
    ensures { result ≡ list_any (λ table. is_none table.senders) tables.now }
{
    tables.iter().any(|table| table.senders.is_none())
}

/// The first of the names, or one without a letter where there are none.
fn first_of(alloc: Global, names: &[Name]) -> Result<Name, AllocError>
    ensures { IfOk result (λ name. name ≡ slice_index_or names.now 0 []) }
{
    match names.first() {
        Some(name) => name.copy(),
        None => Name::new(alloc, ""),
    }
}

/// The length of a tick, if it has one.
fn tick_in(alloc: Global, setting: &WrittenScenario) -> Result<Option<Duration>, KindsFault>
    ensures { IsUnlessMemory (KindsFault.Scenario Memory) (of_scenario (tick_of setting.now)) result }
{
    match tick_of(alloc, setting) {
        Ok(tick) => Ok(tick),
        Err(fault) => Err(KindsFault::from(fault)),
    }
}

/// What the kinds share as a scenario.
fn setting_in(alloc: Global, setting: WrittenScenario) -> Result<Scenario, KindsFault>
    ensures { IsUnlessMemory (KindsFault.Scenario Memory) (of_scenario (scenario_of_written setting)) result }
{
    match scenario_of_written(alloc, &setting) {
        Ok(setting) => Ok(setting),
        Err(placed) => Err(KindsFault::from(ScenarioFault::from(placed))),
    }
}
