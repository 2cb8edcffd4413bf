//! The cases of a text: in which of them who sends each message that several may send, and at which groups its target is
//! asked about.

ghost use Rattle.std.specs.Prelude.{◌≡◌, map, unwrap_or, IfOk, []};
ghost use Rattle.std.specs.Result.{result_ok};
ghost use Rattle.toml.specs.Data.{as_table};
ghost use Rattle.toml.specs.View.{table_view};
ghost use Rattle.convoy_draft.specs.declared.fault.ScenarioFault.TheVariants.{Memory};
ghost use Rattle.convoy_draft.specs.declared.fault.Key.TheVariants.{Multicast};
ghost use Rattle.convoy_scenario.specs.Memory.{IsUnlessMemory};
ghost use Rattle.convoy_toml.specs.Cases.{at_groups, cases_from, cases_of_table, cases_of_text, targets_of_text, targets_of_written};
ghost use Rattle.convoy_toml.specs.Shape.{listed, need_all};

use super::asked::Asked;
use super::keys::tables;
use super::messages::sender_count;
use super::placed::Placed;
use super::read::read_table;
use super::shape::shape_of_table;
use super::target::{ALL_GROUPS, message_named};
use super::written::{WrittenScenario, WrittenTarget};
use convoy_scenario::{Key, Name, ScenarioFault};
use std::alloc::{AllocError, Global};
use toml::Table;

/// The most cases of a text that are asked about.
pub const MOST_CASES: u64 = 64;

/// How many cases a scenario text has, in each of which each message has one sender: as many as there are ways to choose who
/// sends the messages that several may send (docs/FORMATS.md, "Several senders"); 1 where there are none, or the text is
/// at fault there. More than [`MOST_CASES`] are told as one more than these. Fails where memory runs out, and else never.
pub fn cases_of_text(alloc: Global, text: &[u8]) -> Result<u64, AllocError>
    ensures { IfOk result (λ cases. cases ≡ cases_of_text text.now) }
{
    match read_table(alloc, text) {
        Ok(table) => cases_of_table(alloc, &table),
        Err(ScenarioFault::Memory) => Err(AllocError),
        Err(_) => Ok(1),
    }
}

/// The same of its table.
fn cases_of_table(alloc: Global, table: &Table) -> Result<u64, AllocError>
    ensures { IfOk result (λ cases. cases ≡ cases_of_table (table_view table.now)) }
{
    match tables(alloc, table, Key::Multicast) {
        Ok(tables) => cases_from(alloc, &tables),
        Err(ScenarioFault::Memory) => Err(AllocError),
        Err(_) => Ok(1),
    }
}

/// The same of the tables of its messages.
fn cases_from(alloc: Global, tables: &[&Table]) -> Result<u64, AllocError>
    ensures { IfOk result (λ cases. cases ≡ cases_from 1 (map (λ t. table_view t.now) tables.now)) }
{
    let mut cases: u64 = 1;
    for table in tables {
        let count = sender_count(alloc, table)?;
        cases = cases.saturating_mul(count).min(MOST_CASES + 1);
    }
    Ok(cases)
}

/// The target of a scenario text, where that is asked, or where it is asked about at all groups of its message one for each
/// of them, in the order in which they are written. The faults are those of its shape.
pub fn targets_of_text(
    alloc: Global,
    text: &[u8],
    asked: &Asked,
) -> Result<Vec<WrittenTarget>, ScenarioFault>
    ensures { IsUnlessMemory Memory (targets_of_text asked.now text.now) (listed result) }
{
    let table = read_table(alloc, text)?;
    let written = shape_of_table(alloc, &table, asked)?;
    Ok(targets_of_written(alloc, &written.scenario)?)
}

/// The target of a scenario, or where it is asked about at all groups of its message one for each of them.
fn targets_of_written(
    alloc: Global,
    scenario: &WrittenScenario,
) -> Result<Vec<WrittenTarget>, AllocError>
    ensures { IfOk result (λ targets. targets.items ≡ targets_of_written scenario.now) }
{
    if scenario.target_group.as_str() == ALL_GROUPS
        && let Some(multicast) = message_named(&scenario.multicasts, &scenario.target_message)
        && !multicast.to.is_empty()
    {
        return at_groups(alloc, &scenario.target_message, &multicast.to);
    }
    let target = WrittenTarget {
        message: scenario.target_message.copy()?,
        group: scenario.target_group.copy()?,
    };
    Ok(vec![in alloc; target]?)
}

/// A message at each of the groups.
fn at_groups(
    alloc: Global,
    message: &Name,
    groups: &[Name],
) -> Result<Vec<WrittenTarget>, AllocError>
    ensures { IfOk result (λ targets. targets.items ≡ at_groups message.now groups.now) }
{
    let mut targets = Vec::new(alloc);
    for group in groups {
        targets.push(WrittenTarget {
            message: message.copy()?,
            group: group.copy()?,
        })?;
    }
    Ok(targets)
}
