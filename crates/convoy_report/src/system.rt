//! The tables that tell what a system is.

ghost use Rattle.std.specs.Prelude.{◌≡◌, ◌<◌, ◌∷◌, [], ◌++◌, length, map, IfOk, OnOk, string_bytes};
ghost use Rattle.convoy_scenario.specs.Scenario.{message_at};
ghost use Rattle.convoy_commands.specs.Verdicts.{deadline_at};
ghost use Rattle.convoy_report.specs.Systems.{destinations_text, issue_cells, message_cells, message_columns, message_table, way_cells, way_columns, way_table};

use convoy_budget::Way;
use convoy_commands::deadline_at;
use convoy_scenario::Scenario;
use convoy_scenario::lookup::window;
use convoy_scenario::naming::{group_name, sender_word};
use convoy_survey::{Times, push_columns_if_told, push_count, push_time_if_told, push_time_pair};
use convoy_tables::{Row, Table};
use std::alloc::{AllocError, Global};

/// The table of all messages.
pub(crate) fn message_table(
    alloc: Global,
    times: &Times,
    deadlines: &[Option<u32>],
    scenario: &Scenario,
) -> Result<Table, AllocError>
    ensures { IfOk result (λ table. table ≡ message_table times.now deadlines.now scenario.now) }
{
    let mut table = Table::new(alloc, message_columns(alloc, times)?);
    for message in 0..scenario.message_count() {
        let cells = message_cells(alloc, times, deadlines, scenario, message)?;
        table.push(cells)?;
    }
    Ok(table)
}

/// The names of its columns.
fn message_columns(alloc: Global, times: &Times) -> Result<Row, AllocError>
    ensures { IfOk result (λ columns. columns ≡ message_columns times.now) }
{
    let mut columns = Row::new(alloc);
    columns.push_words(&["message", "from", "to", "issued", "until", "within"])?;
    push_columns_if_told(
        times,
        &["issued_time", "until_time", "unit", "within_time"],
        &mut columns,
    )?;
    Ok(columns)
}

/// The cells of a message.
fn message_cells(
    alloc: Global,
    times: &Times,
    deadlines: &[Option<u32>],
    scenario: &Scenario,
    message: usize,
) -> Result<Row, AllocError>
    requires { message < length scenario.now.multicasts }
    ensures { IfOk result (λ cells. cells ≡ message_cells times.now deadlines.now scenario.now message) }
{
    let mut cells = Row::new(alloc);
    cells.push_word(scenario.message_name(message))?;
    cells.push_word(sender_word(scenario, scenario.sender(message)))?;
    let destinations = destinations(alloc, scenario, message)?;
    cells.push_word(&destinations)?;
    push_issue(alloc, times, deadlines, scenario, message, &mut cells)?;
    Ok(cells)
}

/// Puts the ticks at which a message may be issued and its deadline at the end of a row, and then the same as times.
fn push_issue(
    alloc: Global,
    times: &Times,
    deadlines: &[Option<u32>],
    scenario: &Scenario,
    message: usize,
    cells: &mut Row,
) -> Result<(), AllocError>
    requires { message < length scenario.now.multicasts }
    ensures { OnOk result (cells.new ≡ cells.old
        ++ issue_cells times.now (message_at scenario.now message) (deadline_at deadlines.now message)) }
{
    let (first, last) = window(scenario, message);
    let deadline = deadline_at(deadlines, message);
    cells.push_number(u64::from(first))?;
    cells.push_number(u64::from(last))?;
    push_count(deadline, cells)?;
    push_time_pair(alloc, times, Some(first), Some(last), cells)?;
    push_time_if_told(alloc, times, deadline, cells)
}

/// The names of the groups that a message goes to.
fn destinations(alloc: Global, scenario: &Scenario, message: usize) -> Result<String, AllocError>
    requires { message < length scenario.now.multicasts }
    ensures { IfOk result (λ text. string_bytes text ≡ destinations_text scenario.now message) }
{
    let groups = scenario.destinations(message);
    let mut text = String::new(alloc);
    for i in 0..groups.len() {
        text.push_str(if i == 0 { "" } else { ", " })?;
        text.push_str(group_name(scenario, groups[i]))?;
    }
    Ok(text)
}

/// The table of ways.
pub(crate) fn way_table(
    alloc: Global,
    times: &Times,
    scenario: &Scenario,
    ways: &[Way],
) -> Result<Table, AllocError>
    ensures { IfOk result (λ table. table ≡ way_table times.now scenario.now ways.now) }
{
    let mut table = Table::new(alloc, way_columns(alloc, times)?);
    for way in ways {
        let cells = way_cells(alloc, times, scenario, *way)?;
        table.push(cells)?;
    }
    Ok(table)
}

/// The names of its columns.
fn way_columns(alloc: Global, times: &Times) -> Result<Row, AllocError>
    ensures { IfOk result (λ columns. columns ≡ way_columns times.now) }
{
    let mut columns = Row::new(alloc);
    columns.push_words(&["from", "to", "least", "most"])?;
    push_columns_if_told(times, &["least_time", "most_time", "unit"], &mut columns)?;
    Ok(columns)
}

/// The cells of a way.
fn way_cells(alloc: Global, times: &Times, scenario: &Scenario, way: Way) -> Result<Row, AllocError>
    ensures { IfOk result (λ cells. cells ≡ way_cells times.now scenario.now way) }
{
    let (least, most) = scenario.range_between(way.sender, way.to);
    let (least, most) = (u32::from(least), u32::from(most));
    let mut cells = Row::new(alloc);
    cells.push_word(sender_word(scenario, way.sender))?;
    cells.push_word(group_name(scenario, way.to))?;
    cells.push_number(u64::from(least))?;
    cells.push_number(u64::from(most))?;
    push_time_pair(alloc, times, Some(least), Some(most), &mut cells)?;
    Ok(cells)
}
