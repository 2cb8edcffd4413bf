//! The names of the columns of the table of a sweep.

ghost use Rattle.std.specs.Prelude.{◌≡◌, ◌++◌, codes, is_some, IfOk, OnOk, string_bytes};
ghost use Rattle.convoy_sweep.specs.Cells.{columns_of, key_columns, last_name, second_columns, value_columns};
ghost use Rattle.convoy_sweep.specs.Keys.{dotted, key_name};

use super::kinds::{Setting, Sweep, SweepKey};
use convoy_scenario::{Key, Name};
use convoy_survey::{Times, push_finding_columns, push_verdict_columns};
use convoy_tables::Row;
use std::alloc::{AllocError, Global};

/// The names of the columns: those of the keys, and then those of a survey, judged where the target has a deadline.
pub(crate) fn columns_of(
    alloc: Global,
    envelope: bool,
    times: &Times,
    deadline: Option<u32>,
    sweep: &Sweep,
) -> Result<Row, AllocError>
    ensures { IfOk result (λ columns. columns ≡ columns_of envelope times.now deadline sweep.now) }
{
    let mut columns = Row::new(alloc);
    push_key(alloc, envelope, times, &sweep.first.key, &mut columns)?;
    push_second(alloc, envelope, times, &sweep.second, &mut columns)?;
    push_finding_columns(times, &mut columns)?;
    push_verdict_columns(deadline.is_some(), times, &mut columns)?;
    Ok(columns)
}

/// Puts the names of the columns for a second key, if there is one, at the end of a row.
fn push_second(
    alloc: Global,
    envelope: bool,
    times: &Times,
    setting: &Option<Setting>,
    columns: &mut Row,
) -> Result<(), AllocError>
    ensures { OnOk result (columns.new ≡ columns.old ++ second_columns envelope times.now setting.now) }
{
    match setting {
        Some(setting) => push_key(alloc, envelope, times, &setting.key, columns),
        None => Ok(()),
    }
}

/// Puts the names of the columns for what a key is given at the end of a row.
fn push_key(
    alloc: Global,
    envelope: bool,
    times: &Times,
    key: &SweepKey,
    columns: &mut Row,
) -> Result<(), AllocError>
    ensures { OnOk result (columns.new ≡ columns.old ++ key_columns envelope times.now key.now) }
{
    let name = key_name(alloc, key)?;
    push_value_columns(alloc, times, name.as_str(), columns)?;
    if envelope {
        let last = last_name(alloc, key)?;
        push_value_columns(alloc, times, last.as_str(), columns)?;
    }
    Ok(())
}

/// Puts the names of the columns for a number of ticks, and where times are told for the same as a time, at the end of a
/// row.
fn push_value_columns(
    alloc: Global,
    times: &Times,
    name: &str,
    columns: &mut Row,
) -> Result<(), AllocError>
    ensures { OnOk result (columns.new ≡ columns.old ++ value_columns times.now name.now) }
{
    columns.push_word(name)?;
    if times.are_told {
        let time = format!(in alloc; "{name}_time")?;
        columns.push_word(time.as_str())?;
    }
    Ok(())
}

/// The words for a key, as in a setting.
pub(crate) fn key_name(alloc: Global, key: &SweepKey) -> Result<String, AllocError>
    ensures { IfOk result (λ name. string_bytes name ≡ key_name key.now) }
{
    match key {
        SweepKey::Delay => String::from_str(alloc, Key::Delay.word()),
        SweepKey::At(name) => dotted(alloc, name, Key::At),
        SweepKey::Until(name) => dotted(alloc, name, Key::Until),
        SweepKey::Least(name) => dotted(alloc, name, Key::Least),
        SweepKey::Most(name) => dotted(alloc, name, Key::Most),
    }
}

/// The words for the end of the windows that a key is given.
fn last_name(alloc: Global, key: &SweepKey) -> Result<String, AllocError>
    ensures { IfOk result (λ name. string_bytes name ≡ last_name key.now) }
{
    match key {
        SweepKey::At(name) => dotted(alloc, name, Key::Until),
        _ => String::from_str(alloc, ""),
    }
}

/// A name and a key's word with a point between them.
fn dotted(alloc: Global, name: &Name, key: Key) -> Result<String, AllocError>
    ensures { IfOk result (λ text. string_bytes text ≡ dotted name.now key) }
{
    let (name, word) = (name.as_str(), key.word());
    format!(in alloc; "{name}.{word}")
}
