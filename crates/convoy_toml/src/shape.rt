//! The tables of a scenario text: what is written in it, or the first key that is at fault.

ghost use Rattle.std.specs.Prelude.{◌≡◌, option_map};
ghost use Rattle.std.specs.Result.{result_map_both};
ghost use Rattle.toml.specs.Data.{as_str};
ghost use Rattle.toml.specs.View.{table_view};
ghost use Rattle.convoy_scenario.specs.Memory.{IsUnlessMemory};
ghost use Rattle.convoy_toml.specs.Shape.{wish, places_of_table, written_target, target_of_table, scenario_of_table, setting_of_table, shape_of_table, listed};

use super::asked::Asked;
use super::durations::{
    delay_of_table, least_of_table, outage_of_table, tick_of_table, time_of_table,
};
use super::group_tables::{agreements_of_table, agreements_unless, group_tables};
use super::keys::{inner_table, integers, name, names, names_of, need_only, tables, value_at};
use super::link_tables::links_of_table;
use super::messages::multicasts_of;
use super::placed::{Placed, ScenarioTable, in_table};
use super::target::{TargetKey, at_one_group, first_target};
use super::written::{WrittenInput, WrittenMulticast, WrittenScenario, WrittenTarget};
use convoy_scenario::{Key, Name, ScenarioFault, Time};
use std::alloc::Global;
use toml::Table;

/// The places of clients in a scenario's table; none where the key is absent.
fn places_of_table(alloc: Global, table: &Table) -> Result<Vec<Name>, ScenarioFault>
    ensures { IsUnlessMemory ScenarioFault.Memory (places_of_table (table_view table.now)) (listed result) }
{
    let Some(value) = value_at(table, Key::Places) else {
        return Ok(Vec::new(alloc));
    };
    let items = value.as_array().ok_or(ScenarioFault::Shape(Key::Places))?;
    names_of(alloc, items, Key::Places)
}

/// The client whose answer is asked for, where the table of a target names one.
pub(crate) fn reply_of_target(target: &Table) -> Result<Option<&str>, ScenarioFault>
    ensures { result_map_both (λ client. option_map (λ s. s.now) client) (λ e. e) result
        ≡ wish Key.Reply as_str (table_view target.now) }
{
    match value_at(target, Key::Reply) {
        Some(value) => {
            let client = value.as_str().ok_or(ScenarioFault::Shape(Key::Reply))?;
            Ok(Some(client))
        }
        None => Ok(None),
    }
}

/// The target that is written in a scenario's table.
fn written_target(alloc: Global, table: &Table) -> Result<WrittenTarget, Placed>
    ensures { IsUnlessMemory ScenarioFault.Memory (written_target (table_view table.now)) result }
{
    let target = inner_table(table, Key::Target)?;
    let message = in_table(ScenarioTable::Target, name(alloc, target, Key::Message))?;
    let group = in_table(ScenarioTable::Target, name(alloc, target, Key::Group))?;
    in_table(ScenarioTable::Target, reply_of_target(target))?;
    let only = need_only(target, &[Key::Message, Key::Group, Key::Reply]);
    in_table(ScenarioTable::Target, only)?;
    Ok(WrittenTarget { message, group })
}

/// The target of a scenario's table: what is written, or where that may be left out the first target if it is, and one
/// group if all are asked for, or the target that is named beside it.
fn target_of_table(
    alloc: Global,
    table: &Table,
    target: &TargetKey,
    groups: &[Name],
    multicasts: &[WrittenMulticast],
) -> Result<WrittenTarget, Placed>
    ensures { IsUnlessMemory ScenarioFault.Memory
        (target_of_table target.now (table_view table.now) groups.now multicasts.now) result }
{
    match target {
        TargetKey::Named { message, group } => Ok(WrittenTarget {
            message: message.copy()?,
            group: group.copy()?,
        }),
        TargetKey::Required => written_target(alloc, table),
        TargetKey::Optional if value_at(table, Key::Target).is_none() => {
            Ok(first_target(alloc, groups, multicasts)?)
        }
        TargetKey::Optional => {
            let target = written_target(alloc, table)?;
            Ok(at_one_group(alloc, groups, multicasts, target)?)
        }
    }
}

/// What is written in a table, in which the target has to be written or not, with each message sent by who is written to
/// send it, or in the case that is asked about by who does then; or the first key that is at fault (docs/FORMATS.md, "Scenario text").
pub(crate) fn shape_of_table(
    alloc: Global,
    table: &Table,
    asked: &Asked,
) -> Result<WrittenInput, Placed>
    ensures { IsUnlessMemory ScenarioFault.Memory
        (shape_of_table asked.now (table_view table.now)) result }
{
    let mut scenario = scenario_of_table(alloc, table, asked.case, &asked.target)?;
    let groups = group_tables(alloc, table)?;
    scenario.agreements = agreements_unless(
        alloc,
        asked.accept,
        &scenario.groups,
        &groups,
        scenario.time,
    )?;
    let schedule = integers(alloc, table, Key::Schedule)?;
    let order = integers(alloc, table, Key::Order)?;
    outage_of_table(table, scenario.time)?;
    need_only(
        table,
        &[
            Key::Time,
            Key::Tick,
            Key::Delay,
            Key::Least,
            Key::Groups,
            Key::Places,
            Key::Multicast,
            Key::Target,
            Key::Link,
            Key::Group,
            Key::Outage,
            Key::Schedule,
            Key::Order,
        ],
    )?;
    Ok(WrittenInput {
        scenario,
        schedule,
        order,
    })
}

/// The scenario as it is written in a table, sent as in that case, but for what the replicas of groups need to agree, whatever else stands there: of
/// a faulty one the first fault of its shape, with the table that it is of; and `ScenarioFault::Memory` where memory runs out.
pub fn scenario_of_table(
    alloc: Global,
    table: &Table,
    case: Option<u64>,
    target: &TargetKey,
) -> Result<WrittenScenario, Placed>
    ensures { IsUnlessMemory ScenarioFault.Memory
        (scenario_of_table case target.now (table_view table.now)) result }
{
    let time = time_of_table(table)?;
    let tick = tick_of_table(table, time)?;
    let delay = delay_of_table(table, time)?;
    let least = least_of_table(table, time)?;
    let groups = names(alloc, table, Key::Groups)?;
    let places = places_of_table(alloc, table)?;
    let tables = tables(alloc, table, Key::Multicast)?;
    let multicasts = multicasts_of(alloc, &tables, case, time)?;
    let target = target_of_table(alloc, table, target, &groups, &multicasts)?;
    let links = links_of_table(alloc, table, time)?;
    Ok(WrittenScenario {
        time,
        tick,
        delay,
        least,
        groups,
        places,
        links,
        agreements: Vec::new(alloc),
        multicasts,
        target_message: target.message,
        target_group: target.group,
    })
}

/// What a table writes beside messages and a target, whatever else stands there: how time goes, the length of a tick, D,
/// the least delay of what goes by no link, the groups, the places of clients, the links, and what the replicas of groups
/// need to agree. A faulty one has the first fault of its shape, with the table that it is of; and `ScenarioFault::Memory`
/// where memory runs out.
pub fn setting_of_table(alloc: Global, table: &Table) -> Result<WrittenScenario, Placed>
    ensures { IsUnlessMemory ScenarioFault.Memory (setting_of_table (table_view table.now)) result }
{
    let time = time_of_table(table)?;
    let tick = tick_of_table(table, time)?;
    let delay = delay_of_table(table, time)?;
    let least = least_of_table(table, time)?;
    let groups = names(alloc, table, Key::Groups)?;
    let places = places_of_table(alloc, table)?;
    let links = links_of_table(alloc, table, time)?;
    let agreements = agreements_of_table(alloc, table, time)?;
    Ok(WrittenScenario {
        time,
        tick,
        delay,
        least,
        groups,
        places,
        links,
        agreements,
        multicasts: Vec::new(alloc),
        target_message: Name::new(alloc, "")?,
        target_group: Name::new(alloc, "")?,
    })
}
