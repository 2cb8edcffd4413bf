use super::references::hint_for_no_such;
use super::scenario_hints::with_label;
use convoy_hints_sketch::{Hint, Quoted};
use convoy_scenario::{Scenario, ScenarioFault};
use convoy_toml::{Asked, read_toml_asked};
use std::alloc::{AllocError, Global};

/// What is wrong with the group at which a command line asks for the ceilings of the scenario of that text, in one line
/// `hint: ..`: that the scenario has none of that name, or that this is the name of a file where no text was given. None
/// where the scenario has such a group, or the text has a fault of its own.
pub fn hint_for_named_group(alloc: Global, text: &[u8], name: &str, fault: ScenarioFault) -> Hint {
    let asked = Asked::of_any_target();
    match (fault, read_toml_asked(alloc, text, &asked)) {
        (ScenarioFault::UnknownGroup, Ok(input)) => hint_for_group(alloc, &input.scenario, name),
        (_, Err(_)) if is_name_of_file(name) && is_blank(text) => {
            hint_for_file_as_group(alloc, name).map(Some)
        }
        _ => Ok(None),
    }
}

/// Whether a text has nothing in it.
fn is_blank(text: &[u8]) -> bool {
    text.iter().all(|byte| byte.is_ascii_whitespace())
}

/// Whether a name has a sign that those of files have, and those of groups do not.
pub fn is_name_of_file(name: &str) -> bool {
    name.contains('.') || name.contains('/')
}

/// What to write where a file is named in place of a group, in one line `hint: ..`.
pub fn hint_for_file_as_group(alloc: Global, name: &str) -> Result<String, AllocError> {
    let name = Quoted(name);
    format!(in alloc;
        "hint: '--group' names a group, and {name} seems to be a file: convoy ceiling --group GROUP FILE\n"
    )
}

/// That the scenario has no group of that name; None where it has.
fn hint_for_group(alloc: Global, scenario: &Scenario, name: &str) -> Hint {
    let groups = groups_of(alloc, scenario)?;
    if groups.iter().any(|group| *group == name) {
        return Ok(None);
    }
    if is_name_of_file(name) {
        return hint_for_file_as_group(alloc, name).map(Some);
    }
    let hint = hint_for_no_such(alloc, "'--group'", "group", name, &groups)?;
    with_label(alloc, Some(hint))
}

/// The names of the groups of a scenario.
fn groups_of(alloc: Global, scenario: &Scenario) -> Result<Vec<&str>, AllocError> {
    let mut groups = Vec::new(alloc);
    for group in 0..scenario.group_count() {
        groups.push(scenario.group_name(group))?;
    }
    Ok(groups)
}
