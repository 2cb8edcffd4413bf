//! The cells of the table of a sweep.

ghost use Rattle.std.specs.Prelude.{◌≡◌, ◌++◌, IfOk, OnOk};
ghost use Rattle.convoy_sweep.specs.Cells.{given_cells, last_cells, row_cells, second_cells, value_cells};

use super::kinds::{Given, Swept};
use convoy_scenario::Scenario;
use convoy_survey::{Times, push_finding, push_time_if_told, push_verdict_cells};
use convoy_tables::Row;
use std::alloc::{AllocError, Global};

/// The cells of a row, by the deadline of the target: messages are named as in the scenario.
pub(crate) fn row_cells(
    alloc: Global,
    times: &Times,
    deadline: Option<u32>,
    scenario: &Scenario,
    row: &Swept,
) -> Result<Row, AllocError>
    ensures { IfOk result (λ cells. cells ≡ row_cells times.now deadline scenario.now row.now) }
{
    let mut cells = Row::new(alloc);
    push_given(alloc, times, row.point.first, &mut cells)?;
    push_second(alloc, times, row.point.second, &mut cells)?;
    push_finding(alloc, times, scenario, row.finding, &mut cells)?;
    let (least, most) = (row.finding.least(), row.finding.most());
    push_verdict_cells(
        alloc,
        deadline.is_some(),
        times,
        deadline,
        least,
        most,
        &mut cells,
    )?;
    Ok(cells)
}

/// Puts what a second key is given, if there is one, at the end of a row.
fn push_second(
    alloc: Global,
    times: &Times,
    given: Option<Given>,
    cells: &mut Row,
) -> Result<(), AllocError>
    ensures { OnOk result (cells.new ≡ cells.old ++ second_cells times.now given) }
{
    match given {
        Some(given) => push_given(alloc, times, given, cells),
        None => Ok(()),
    }
}

/// Puts what a key is given at the end of a row.
fn push_given(alloc: Global, times: &Times, given: Given, cells: &mut Row) -> Result<(), AllocError>
    ensures { OnOk result (cells.new ≡ cells.old ++ given_cells times.now given) }
{
    push_value(alloc, times, given.value, cells)?;
    push_last(alloc, times, given.last, cells)
}

/// Puts the end of a window, if it is one, at the end of a row.
fn push_last(
    alloc: Global,
    times: &Times,
    last: Option<u32>,
    cells: &mut Row,
) -> Result<(), AllocError>
    ensures { OnOk result (cells.new ≡ cells.old ++ last_cells times.now last) }
{
    match last {
        Some(ticks) => push_value(alloc, times, ticks, cells),
        None => Ok(()),
    }
}

/// Puts a number of ticks at the end of a row, and the same as a time where times are told.
fn push_value(alloc: Global, times: &Times, ticks: u32, cells: &mut Row) -> Result<(), AllocError>
    ensures { OnOk result (cells.new ≡ cells.old ++ value_cells times.now ticks) }
{
    cells.push_number(u64::from(ticks))?;
    push_time_if_told(alloc, times, Some(ticks), cells)
}
