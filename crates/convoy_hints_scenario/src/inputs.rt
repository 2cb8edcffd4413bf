use std::alloc::Global;
use toml::{Table, Value};

/// Whether a text is meant as a certificate: it begins with the word of one, in whatever version, and
/// damaged though it may be. What a text that was not damaged is, `form_of` tells.
pub fn is_meant_as_certificate(text: &[u8]) -> bool {
    text.starts_with(b"convoy ")
}

/// Whether a text that is given as something else seems to be a scenario: TOML with the key `groups` or
/// `multicast`. Not so where memory ran out.
pub fn is_meant_as_scenario(alloc: Global, text: &[u8]) -> bool {
    match toml::table_from_slice(alloc, text) {
        Ok(table) => table.contains_key("groups") || table.contains_key("multicast"),
        Err(_) => false,
    }
}

/// Whether a text is given as something else, and seems to be a plan. Not so where memory ran out.
pub fn is_text_of_plan(alloc: Global, text: &[u8]) -> bool {
    match toml::table_from_slice(alloc, text) {
        Ok(table) => is_meant_as_plan(&table),
        Err(_) => false,
    }
}

/// Whether the table of a text seems to be that of a plan: it has the key `sites`, or tables of groups, of which none says
/// what replicas need to agree.
pub fn is_meant_as_plan(table: &Table) -> bool {
    table.contains_key("sites") || table.get("group").is_some_and(has_tables_of_plan)
}

/// Whether a value is an array that begins with a table, and none in it says what replicas need to agree.
fn has_tables_of_plan(value: &Value) -> bool {
    match value.as_array() {
        Some(items) => {
            items.first().is_some_and(Value::is_table) && !items.iter().any(is_of_replicas)
        }
        None => false,
    }
}

/// Whether a value is a table that says what replicas need to agree.
fn is_of_replicas(value: &Value) -> bool {
    match value.as_table() {
        Some(table) => table.contains_key("agree") || table.contains_key("steps"),
        None => false,
    }
}
