//! Lists in a text, with commas between what they hold.

ghost use Rattle.std.specs.Prelude.{◌≡◌, ◌++◌, map, decimal, IfOk, string_bytes};
ghost use Rattle.std.specs.List.{flat_map};
ghost use Rattle.convoy_toml_writer.specs.Text.{further, names_text, numbers_text, quoted};

use convoy_scenario::Name;
use std::alloc::{AllocError, Global};

/// Numbers, with commas between them.
pub(crate) fn numbers_text(alloc: Global, numbers: &[u16]) -> Result<String, AllocError>
    ensures { IfOk result (λ text. string_bytes text ≡ numbers_text numbers.now) }
{
    match numbers {
        [] => Ok(String::new(alloc)),
        [first, rest @ ..] => with_further_numbers(alloc, format!(in alloc; "{first}")?, rest),
    }
}

/// A text with further numbers after it.
fn with_further_numbers(
    alloc: Global,
    mut text: String,
    numbers: &[u16],
) -> Result<String, AllocError>
    ensures { IfOk result (λ longer. string_bytes longer
        ≡ string_bytes text ++ flat_map further (map decimal numbers.now)) }
{
    for number in numbers {
        let word = format!(in alloc; ", {number}")?;
        text.push_str(word.as_str())?;
    }
    Ok(text)
}

/// Names, each in quotes, with commas between them.
pub(crate) fn names_text(alloc: Global, names: &[Name]) -> Result<String, AllocError>
    ensures { IfOk result (λ text. string_bytes text ≡ names_text names.now) }
{
    match names {
        [] => Ok(String::new(alloc)),
        [first, rest @ ..] => {
            let first = first.as_str();
            with_further_names(alloc, format!(in alloc; "\"{first}\"")?, rest)
        }
    }
}

/// A text with further names after it, each in quotes.
fn with_further_names(alloc: Global, mut text: String, names: &[Name]) -> Result<String, AllocError>
    ensures { IfOk result (λ longer. string_bytes longer
        ≡ string_bytes text ++ flat_map further (map quoted names.now)) }
{
    for name in names {
        let further = name.as_str();
        let word = format!(in alloc; ", \"{further}\"")?;
        text.push_str(word.as_str())?;
    }
    Ok(text)
}
