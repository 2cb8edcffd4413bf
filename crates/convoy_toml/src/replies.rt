//! The word of a group that comes back to a client, where a text asks for that.

ghost use Rattle.std.specs.Prelude.{◌≡◌, option_map};
ghost use Rattle.toml.specs.View.{table_view};
ghost use Rattle.convoy_draft.specs.declared.fault.ScenarioFault.TheVariants.{Memory};
ghost use Rattle.convoy_scenario.specs.Memory.{IsUnlessMemory};
ghost use Rattle.convoy_toml.specs.Replies.{client_of_table, most_of_way, reply_of_text, reply_of_written, time_back, way_back};

use super::asked::Asked;
use super::keys::value_at;
use super::placed::Placed;
use super::read::read_table;
use super::shape::{reply_of_target, shape_of_table};
use super::slow::range_along;
use super::ways::Way;
use super::written::{WrittenRange, WrittenScenario, WrittenTime};
use convoy_scenario::{Key, Name, ScenarioFault};
use std::alloc::{AllocError, Global};
use toml::Table;

/// The word for the clients of no named place.
const CLIENT: &str = "client";

/// How long the word of the target's group takes at most to the client that the key `reply` of a scenario text names, as it
/// is written there, where that is asked (docs/FORMATS.md, "Replies"); none where the key is absent or at fault. The
/// faults are those of the text's shape; `ScenarioFault::UnknownGroup` where the client is none; `ScenarioFault::NoRange`
/// where nothing tells how long its way takes; and `ScenarioFault::Memory`.
pub fn reply_of_text(
    alloc: Global,
    text: &[u8],
    asked: &Asked,
) -> Result<Option<WrittenTime>, ScenarioFault>
    ensures { IsUnlessMemory Memory (reply_of_text asked.now text.now) result }
{
    let table = read_table(alloc, text)?;
    let written = shape_of_table(alloc, &table, asked)?;
    reply_of_written(alloc, &written.scenario, client_of_table(&table))
}

/// The client to which the word of the target's group comes back, where the table of the target names one.
fn client_of_table(table: &Table) -> Option<&str>
    ensures { option_map (λ s. s.now) result ≡ client_of_table (table_view table.now) }
{
    let target = value_at(table, Key::Target)?.as_table()?;
    reply_of_target(target).ok()?
}

/// How long the word of the target's group takes to the client, where one is named.
fn reply_of_written(
    alloc: Global,
    scenario: &WrittenScenario,
    client: Option<&str>,
) -> Result<Option<WrittenTime>, ScenarioFault>
    ensures { IsUnlessMemory Memory (reply_of_written scenario.now (option_map (λ s. s.now) client.entry)) result }
{
    let Some(client) = client else {
        return Ok(None);
    };
    let client = Name::new(alloc, client)?;
    let time = time_back(alloc, scenario, &scenario.target_group, &client)?;
    Ok(Some(time))
}

/// How long the group's word takes to the client at most.
fn time_back(
    alloc: Global,
    scenario: &WrittenScenario,
    group: &Name,
    client: &Name,
) -> Result<WrittenTime, ScenarioFault>
    ensures { IsUnlessMemory Memory (time_back scenario.now group.now client.now) result }
{
    let way = way_back(scenario, group, client)?;
    let range = range_along(alloc, scenario, &way)?;
    Ok(most_of_way(range))
}

/// The way by which a group's word comes back to a client.
fn way_back(scenario: &WrittenScenario, group: &Name, client: &Name) -> Result<Way, ScenarioFault>
    ensures { IsUnlessMemory Memory (way_back scenario.now group.now client.now) result }
{
    if client.is_among(&scenario.groups) {
        return Ok(Way {
            sender: Some(group.copy()?),
            to: client.copy()?,
        });
    }
    if client.is_among(&scenario.places) {
        return Ok(Way {
            sender: Some(client.copy()?),
            to: group.copy()?,
        });
    }
    if client.as_str() == CLIENT {
        return Ok(Way {
            sender: None,
            to: group.copy()?,
        });
    }
    Err(ScenarioFault::UnknownGroup)
}

/// How long a word takes at most on a way with that range: no time where there is none.
fn most_of_way(range: Option<WrittenRange>) -> WrittenTime
    ensures { result ≡ most_of_way range }
{
    match range {
        Some(range) => range.most,
        None => WrittenTime::Count(0),
    }
}
