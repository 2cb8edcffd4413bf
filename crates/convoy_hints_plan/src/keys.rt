//! What is wrong at a key that only plans have.

use super::lists::{HomePart, PlanText, is_among, items_at};
use convoy_hints_sketch::{Hint, Quoted, nearest};
use convoy_plans::PlanKey;
use std::alloc::{AllocError, Global};
use toml::{Table, Value};

/// What is wrong at such a key.
pub(crate) fn hint_for_key(alloc: Global, plan: &PlanText<'_>, key: PlanKey) -> Hint {
    match key {
        PlanKey::Sites => hint_for_sites(alloc, plan),
        PlanKey::Group => hint_for_group(alloc, plan).map(Some),
        PlanKey::Name => hint_for_name(alloc, plan),
        PlanKey::Apart => String::from_str(
            alloc,
            "'apart' is an array of arrays of groups, no two of which are to be at one site: write it above the first header, as 'apart = [[\"orders\", \"stock\"]]'",
        )
        .map(Some),
    }
}

/// How the name of a group is written.
const NAME: &str = "'name = \"orders\"'";

/// How sites are written.
const SITES: &str = "'sites = [\"ireland\", \"virginia\"]'";

/// What is wrong with the names of the sites, or with those at which a group may be.
fn hint_for_sites(alloc: Global, plan: &PlanText<'_>) -> Hint {
    let table = plan.source.table;
    match table.get("sites") {
        None => hint_for_no_sites(alloc, table).map(Some),
        Some(value) if !is_list(value) => format!(in alloc;
            "'sites' in the plan is no array of strings: write the names of all sites, as {SITES}"
        ).map(Some),
        Some(_) => hint_for_home_sites(alloc, plan),
    }
}

/// A plan does not name its sites.
fn hint_for_no_sites(alloc: Global, table: &Table) -> Result<String, AllocError> {
    match nearest(alloc, "sites", &keys_in(alloc, table)?)? {
        Some(near) => {
            let near = Quoted(near);
            format!(in alloc; "the plan has no key 'sites', but {near}: did you mean 'sites'?")
        }
        None => format!(in alloc;
            "the plan has no key 'sites': write the names of all sites above the first header, as {SITES}"
        ),
    }
}

/// What is wrong with the tables of groups as a whole.
fn hint_for_group(alloc: Global, plan: &PlanText<'_>) -> Result<String, AllocError> {
    let hint = match plan.source.table.get("group") {
        None =>
            "the plan has no table [[group]]: write one for each group, with its 'name' and in 'sites' the sites at which it may be",
        Some(Value::Table(_)) =>
            "'group' is one table, and there is one for each group: write the header '[[group]]', in double brackets",
        Some(_) =>
            "'group' is no array of tables: write the header '[[group]]' for each group, and below it its 'name' and in 'sites' the sites at which it may be",
    };
    String::from_str(alloc, hint)
}

/// Which table of a group does not name it.
fn hint_for_name(alloc: Global, plan: &PlanText<'_>) -> Hint {
    for (table, home) in tables_of(alloc, plan)? {
        match table.get("name") {
            None => return hint_for_absent(alloc, table, home, "name", NAME).map(Some),
            Some(value) if !value.is_str() => {
                return format!(in alloc;
                    "'name' in {home} is no string: write the group, as {NAME}"
                ).map(Some);
            }
            Some(_) => {}
        }
    }
    Ok(None)
}

/// Which table of a group does not say at which sites it may be.
fn hint_for_home_sites(alloc: Global, plan: &PlanText<'_>) -> Hint {
    for (table, home) in tables_of(alloc, plan)? {
        match table.get("sites") {
            None => return hint_for_absent(alloc, table, home, "sites", SITES).map(Some),
            Some(value) if !names_some(value) => {
                return format!(in alloc;
                    "'sites' in {home} names no site: write those at which the group may be, as {SITES}"
                ).map(Some);
            }
            Some(_) => {}
        }
    }
    Ok(None)
}

/// The tables of groups, each with where it stands.
fn tables_of<'a>(
    alloc: Global,
    plan: &PlanText<'a>,
) -> Result<Vec<(&'a Table, HomePart<'a>)>, AllocError> {
    let mut tables = Vec::new(alloc);
    let items = items_at(plan.source.table, "group");
    for (item, home) in items.iter().zip(&plan.homes) {
        if let Some(table) = item.as_table() {
            tables.push((table, home.part))?;
        }
    }
    Ok(tables)
}

/// A key is absent in the table of a group.
fn hint_for_absent(
    alloc: Global,
    table: &Table,
    home: HomePart<'_>,
    key: &str,
    sample: &str,
) -> Result<String, AllocError> {
    match nearest(alloc, key, &keys_in(alloc, table)?)? {
        Some(near) => {
            let near = Quoted(near);
            format!(in alloc; "{home} has no key '{key}', but {near}: did you mean '{key}'?")
        }
        None => format!(in alloc; "{home} has no key '{key}': write it as {sample}"),
    }
}

/// The keys of a table, in their order.
fn keys_in(alloc: Global, table: &Table) -> Result<Vec<&str>, AllocError> {
    let mut words = Vec::new(alloc);
    for word in table.keys() {
        words.push(word.as_str())?;
    }
    Ok(words)
}

/// Whether a value is an array of texts.
fn is_list(value: &Value) -> bool {
    match value.as_array() {
        Some(items) => items.iter().all(Value::is_str),
        None => false,
    }
}

/// Whether a value is a text, or an array of such with one at least.
fn names_some(value: &Value) -> bool {
    match value.as_array() {
        Some(items) => !items.is_empty() && is_list(value),
        None => value.is_str(),
    }
}

/// The keys of a table of a group.
const OF_GROUP: [&str; 2] = ["name", "sites"];

/// The keys above the first header of a plan, and those of its tables.
const OF_PLAN: [&str; 11] = [
    "time",
    "tick",
    "delay",
    "least",
    "sites",
    "groups",
    "apart",
    "group",
    "link",
    "multicast",
    "target",
];

/// The first key that a plan, or a table of a group in it, may not have.
pub(crate) fn hint_for_unknown_key(alloc: Global, plan: &PlanText<'_>) -> Hint {
    for (table, home) in tables_of(alloc, plan)? {
        for word in table.keys() {
            if !is_among(word.as_str(), &OF_GROUP) {
                return hint_for_strange_of_group(alloc, home, word.as_str()).map(Some);
            }
        }
    }
    for word in plan.source.table.keys() {
        if !is_among(word.as_str(), &OF_PLAN) {
            return hint_for_strange(alloc, word.as_str()).map(Some);
        }
    }
    Ok(None)
}

/// A key is none of those that the table of a group has.
fn hint_for_strange_of_group(
    alloc: Global,
    home: HomePart<'_>,
    word: &str,
) -> Result<String, AllocError> {
    if is_among(word, &OF_PLAN) {
        return format!(in alloc;
            "'{word}' stands below the header of {home}, and so belongs to that: write it above the first header"
        );
    }
    let shown = Quoted(word);
    match nearest(alloc, word, &OF_GROUP)? {
        Some(near) => format!(in alloc;
            "{home} has an unknown key, {shown}: did you mean '{near}'?"
        ),
        None => format!(in alloc;
            "{home} has an unknown key, {shown}: its keys are 'name' and 'sites'"
        ),
    }
}

/// A key is none of those that a plan has.
fn hint_for_strange(alloc: Global, word: &str) -> Result<String, AllocError> {
    if is_among(word, &["schedule", "order"]) {
        return format!(in alloc;
            "'{word}' is a key of a scenario, and a plan has none: each of its placements has a scenario of its own"
        );
    }
    let shown = Quoted(word);
    match nearest(alloc, word, &OF_PLAN)? {
        Some(near) => format!(in alloc;
            "the plan has an unknown key, {shown}: did you mean '{near}'?"
        ),
        None => format!(in alloc;
            "the plan has an unknown key, {shown}: those that no scenario has too are 'sites', 'group' and 'apart'"
        ),
    }
}
