//! Whether a text is to be read as a workflow.

ghost use Rattle.std.specs.Prelude.{◌≡◌, option_and_then, Ok, false};
ghost use Rattle.std.specs.Option.{option_map_or};
ghost use Rattle.toml.specs.Data.{as_array, as_table};
ghost use Rattle.toml.specs.View.{array_view, table_view, view};
ghost use Rattle.convoy_draft.specs.declared.fault.ScenarioFault.TheVariants.{Memory};
ghost use Rattle.convoy_draft.specs.declared.fault.Key.TheVariants.{Multicast, Target};
ghost use Rattle.convoy_draft.specs.Keys.{key_word};
ghost use Rattle.convoy_scenario.specs.Memory.{IsUnlessMemory};
ghost use Rattle.toml.specs.Data.{get_member};
ghost use Rattle.convoy_workflows.specs.Reading.{has_cause, has_origin, is_workflow_table, is_workflow_text, some_follow};

use super::shape::value_at;
use convoy_scenario::{Key, ScenarioFault};
use convoy_toml::read_table;
use convoy_workflow_words::WorkflowKey;
use std::alloc::Global;
use toml::value::Array;
use toml::{Table, Value};

/// Whether a text has what only workflow texts have: a message in it follows another, or its target's time counts from the
/// issue of another message. No other text has to be read as a workflow, and one that is no TOML has not. The fault is that
/// memory ran out.
pub fn is_workflow(alloc: Global, text: &[u8]) -> Result<bool, ScenarioFault>
    ensures { IsUnlessMemory Memory (Ok (is_workflow_text text.now)) result }
{
    match read_table(alloc, text) {
        Ok(table) => Ok(is_workflow_table(&table)),
        Err(ScenarioFault::Memory) => Err(ScenarioFault::Memory),
        Err(_) => Ok(false),
    }
}

fn is_workflow_table(table: &Table) -> bool
    ensures { result ≡ is_workflow_table (table_view table.now) }
{
    messages_follow(table) || target_has_origin(table)
}

/// Whether some table of messages says that its message follows another.
fn messages_follow(table: &Table) -> bool
    ensures { result ≡ option_map_or some_follow (option_and_then as_array (get_member (key_word Multicast) (table_view table.now))) false }
{
    match value_at(table, Key::Multicast.word()) {
        Some(value) => follow_in(value),
        None => false,
    }
}

/// Whether a value is an array with a table of a message that follows another.
fn follow_in(value: &Value) -> bool
    ensures { result ≡ option_map_or some_follow (as_array (view value.now)) false }
{
    match value.as_array() {
        Some(items) => some_follow(items),
        None => false,
    }
}

/// Whether some item is the table of a message that follows another.
fn some_follow(items: &Array) -> bool
    ensures { result ≡ some_follow (array_view items.now) }
{
    for item in items {
        if follows_in(item) {
            return true;
        }
    }
    false
}

/// Whether a value is the table of a message that follows another.
fn follows_in(value: &Value) -> bool
    ensures { result ≡ option_map_or has_cause (as_table (view value.now)) false }
{
    match value.as_table() {
        Some(table) => has_cause(table),
        None => false,
    }
}

fn has_cause(table: &Table) -> bool
    ensures { result ≡ has_cause (table_view table.now) }
{
    value_at(table, WorkflowKey::After.word()).is_some()
        || value_at(table, WorkflowKey::On.word()).is_some()
}

/// Whether the table of a target says from whose issue its time counts.
fn target_has_origin(table: &Table) -> bool
    ensures { result ≡ option_map_or has_origin (option_and_then as_table (get_member (key_word Target) (table_view table.now))) false }
{
    match value_at(table, Key::Target.word()) {
        Some(value) => has_origin_in(value),
        None => false,
    }
}

fn has_origin_in(value: &Value) -> bool
    ensures { result ≡ option_map_or has_origin (as_table (view value.now)) false }
{
    match value.as_table() {
        Some(target) => value_at(target, Key::From.word()).is_some(),
        None => false,
    }
}
