//! Cells of kinds.

ghost use Rattle.std.specs.Prelude.{◌≡◌, ◌<◌, ◌++◌, length, IfOk, OnOk, string_bytes};
ghost use Rattle.convoy_kinds_told.specs.KindTables.{kind_cells, names_text};

use convoy_kinds::Kinds;
use convoy_scenario::Scenario;
use convoy_scenario::naming::{group_name, sender_word};
use convoy_tables::Row;
use std::alloc::{AllocError, Global};

/// Puts the name of the table of a kind, who sends a message of it, and where it goes at the end of a row. Fails where memory
/// runs out, and else never.
pub fn push_kind(
    alloc: Global,
    kinds: &Kinds,
    kind: usize,
    cells: &mut Row,
) -> Result<(), AllocError>
    requires { kind < length kinds.now.kinds }
    ensures { OnOk result (cells.new ≡ cells.old ++ kind_cells kinds.now kind) }
{
    cells.push_word(kinds.kind_name(kind))?;
    cells.push_word(sender_word(kinds.setting(), kinds.sender(kind)))?;
    let names = names_text(alloc, kinds.setting(), kinds.destinations(kind))?;
    cells.push_word(names.as_str())
}

/// The names of groups, with a space between them. Fails where memory runs out, and else never.
fn names_text(alloc: Global, setting: &Scenario, groups: &[usize]) -> Result<String, AllocError>
    ensures { IfOk result (λ text. string_bytes text ≡ names_text setting.now groups.now) }
{
    match groups {
        [] => Ok(String::new(alloc)),
        [first, rest @ ..] => {
            let mut text = String::from_str(alloc, group_name(setting, *first))?;
            push_names(setting, rest, &mut text)?;
            Ok(text)
        }
    }
}

ghost use Rattle.std.specs.List.{flat_map};
ghost use Rattle.convoy_lines.specs.Texts.{spaced};
ghost use Rattle.convoy_scenario.specs.Scenario.{group_name_at};

/// Appends the names of groups, each after a space.
fn push_names(setting: &Scenario, groups: &[usize], text: &mut String) -> Result<(), AllocError>
    ensures { OnOk result (string_bytes text.new
        ≡ string_bytes text.old ++ flat_map (λ g. spaced (group_name_at setting.now g)) groups.now) }
{
    for group in groups {
        push_name(setting, *group, text)?;
    }
    Ok(())
}

/// Appends the name of a group after a space.
fn push_name(setting: &Scenario, group: usize, text: &mut String) -> Result<(), AllocError>
    ensures { OnOk result (string_bytes text.new
        ≡ string_bytes text.old ++ spaced (group_name_at setting.now group)) }
{
    text.push_str(" ")?;
    text.push_str(group_name(setting, group))
}
