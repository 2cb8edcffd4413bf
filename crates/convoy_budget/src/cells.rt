//! The cells of the table of budgets.

ghost use Rattle.std.specs.Prelude.{◌≡◌, ◌∷◌, [], ◌++◌, IfOk, OnOk};
ghost use Rattle.convoy_survey.specs.Times.{where_told};
ghost use Rattle.convoy_budget.specs.Cells.{limit_cell, name_cells, row_cells, tick_cells, time_cells};

use super::kinds::{Budget, Room};
use convoy_scenario::Scenario;
use convoy_scenario::naming::{group_name, message_name, sender_word};
use convoy_survey::{Times, push_count, push_time, push_unit};
use convoy_tables::Row;
use std::alloc::{AllocError, Global};

/// The cells of a row.
#[tactic(auto, unfolding(crate::specs::Cells::row_cells))]
pub(crate) fn row_cells(
    alloc: Global,
    times: &Times,
    scenario: &Scenario,
    row: &Budget,
) -> Result<Row, AllocError>
    ensures { IfOk result (λ cells. cells ≡ row_cells times.now scenario.now row.now) }
{
    let mut cells = Row::new(alloc);
    push_names(scenario, row, &mut cells)?;
    push_ticks(row, &mut cells)?;
    push_times_if_told(alloc, times, row, &mut cells)?;
    Ok(cells)
}

/// Puts the target, the two ends of the way, and what is known, at the end of a row.
fn push_names(scenario: &Scenario, row: &Budget, cells: &mut Row) -> Result<(), AllocError>
    ensures { OnOk result (cells.new ≡ cells.old ++ name_cells scenario.now row.now) }
{
    cells.push_word(message_name(scenario, row.target.message))?;
    cells.push_word(group_name(scenario, row.target.group))?;
    cells.push_word(sender_word(scenario, row.way.sender))?;
    cells.push_word(group_name(scenario, row.way.to))?;
    cells.push_word(row.answer())
}

/// Puts the range of a way and its limits, in ticks, at the end of a row.
fn push_ticks(row: &Budget, cells: &mut Row) -> Result<(), AllocError>
    ensures { OnOk result (cells.new ≡ cells.old ++ tick_cells row.now) }
{
    cells.push_number(u64::from(row.least))?;
    cells.push_number(u64::from(row.most))?;
    push_limit(row.later, row.most_until(), cells)?;
    push_count(row.left_over(), cells)?;
    push_limit(row.earlier, row.least_from(), cells)
}

/// Puts the most of a way, its limit and what is left as times at the end of a row, and their unit, where times are told.
fn push_times_if_told(
    alloc: Global,
    times: &Times,
    row: &Budget,
    cells: &mut Row,
) -> Result<(), AllocError>
    ensures { OnOk result (cells.new ≡ cells.old ++ where_told times.now (time_cells times.now row.now)) }
{
    if times.are_told {
        push_times(alloc, times, row, cells)
    } else {
        Ok(())
    }
}

/// The same in any case.
fn push_times(alloc: Global, times: &Times, row: &Budget, cells: &mut Row) -> Result<(), AllocError>
    ensures { OnOk result (cells.new ≡ cells.old ++ time_cells times.now row.now) }
{
    push_time(alloc, times.measure, Some(u32::from(row.most)), cells)?;
    push_time(alloc, times.measure, row.most_until(), cells)?;
    push_time(alloc, times.measure, row.left_over(), cells)?;
    push_unit(times.measure, cells)
}

/// Puts the end of a range that is known to keep the deadline at the end of a row, or whether any does, or none.
fn push_limit(room: Room, limit: Option<u32>, cells: &mut Row) -> Result<(), AllocError>
    ensures { OnOk result (cells.new ≡ cells.old ++ limit_cell room limit ∷ []) }
{
    match room {
        Room::Any => cells.push_word("any"),
        Room::Never => cells.push_word("none"),
        Room::Until { .. } | Room::AtLeast { .. } => push_count(limit, cells),
        Room::Unknown | Room::OutOfMemory => cells.push_nothing(),
    }
}
