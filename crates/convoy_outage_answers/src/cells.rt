//! The cells of the table.

ghost use Rattle.std.specs.Prelude.{◌≡◌, ◌<◌, ◌++◌, length, IfOk, OnOk};
ghost use Rattle.std.specs.List.{All};
ghost use Rattle.convoy_outage_answers.specs.RowsThrough.{surveyed_of};
ghost use Rattle.convoy_outage_answers.specs.TablesThrough.{at_all_cells_through, cells_through, through_at_all, through_cells, through_columns};

use super::row_through::RowThrough;
use convoy_ceiling::ceiling;
use convoy_scenario::Scenario;
use convoy_survey::{
    AtAll, Surveyed, Times, ceiling_at_all, greater, push_ceiling_if, push_columns_if_told,
    push_count, push_finding, push_judged, push_known, push_target, push_target_at_all,
    push_time_if_told,
};
use convoy_tables::Row;
use std::alloc::{AllocError, Global};

/// The cells of a row, with the verdict on it where there are deadlines, and its ceiling where that is asked for.
pub(crate) fn cells_through(
    alloc: Global,
    with_ceilings: bool,
    times: &Times,
    deadlines: &[Option<u32>],
    scenario: &Scenario,
    row: &RowThrough,
) -> Result<Row, AllocError>
    requires { row.now.surveyed.message < length scenario.now.multicasts }
    ensures { IfOk result (λ cells. cells ≡ cells_through with_ceilings times.now deadlines.now scenario.now row.now) }
{
    let mut cells = Row::new(alloc);
    let (message, group) = (row.surveyed.message, row.surveyed.group);
    push_target(scenario, message, group, &mut cells)?;
    push_finding(alloc, times, scenario, row.surveyed.finding, &mut cells)?;
    push_through(alloc, times, row.through, &mut cells)?;
    let least = row.surveyed.finding.least();
    push_judged(
        alloc,
        deadlines,
        times,
        message,
        least,
        row.through,
        &mut cells,
    )?;
    let ceiling = ceiling(scenario, message, group);
    push_ceiling_if(alloc, with_ceilings, times, ceiling, &mut cells)?;
    Ok(cells)
}

/// The cells of the row of a message at all the groups that it goes to, of which these are its rows, with the verdict on
/// it where there are deadlines, and the greatest of their ceilings where these are asked for.
pub(crate) fn at_all_cells_through(
    alloc: Global,
    with_ceilings: bool,
    times: &Times,
    deadlines: &[Option<u32>],
    scenario: &Scenario,
    message: usize,
    rows: &[RowThrough],
) -> Result<Row, AllocError>
    requires { All (λ row. row.surveyed.message < length scenario.now.multicasts) rows.now }
    ensures { IfOk result (λ cells. cells
        ≡ at_all_cells_through with_ceilings times.now deadlines.now scenario.now message rows.now) }
{
    let mut cells = Row::new(alloc);
    let surveyed = surveyed_of(alloc, rows)?;
    push_target_at_all(scenario, message, &mut cells)?;
    let known = AtAll::of(&surveyed);
    push_known(alloc, times, scenario, known, &mut cells)?;
    let through = through_at_all(rows);
    push_through(alloc, times, through, &mut cells)?;
    push_judged(
        alloc,
        deadlines,
        times,
        message,
        known.least,
        through,
        &mut cells,
    )?;
    let ceiling = ceiling_at_all(scenario, &surveyed);
    push_ceiling_if(alloc, with_ceilings, times, ceiling, &mut cells)?;
    Ok(cells)
}

/// The rows without their latencies through outages.
fn surveyed_of(alloc: Global, rows: &[RowThrough]) -> Result<Vec<Surveyed>, AllocError>
    ensures { IfOk result (λ surveyed. surveyed.items ≡ surveyed_of rows.now) }
{
    let mut surveyed = Vec::new(alloc);
    for row in rows {
        surveyed.push(row.surveyed)?;
    }
    Ok(surveyed)
}

/// The greatest of the latencies of some rows through outages, in ticks, where all of them are known.
fn through_at_all(rows: &[RowThrough]) -> Option<u32>
    ensures { result ≡ through_at_all rows.now }
{
    let mut through = Some(0);
    for row in rows {
        through = greater(through, row.through);
    }
    through
}

/// Puts a latency through outages that may not be known at the end of a row, in ticks and as a time.
fn push_through(
    alloc: Global,
    times: &Times,
    through: Option<u32>,
    cells: &mut Row,
) -> Result<(), AllocError>
    ensures { OnOk result (cells.new ≡ cells.old ++ through_cells times.now through) }
{
    push_count(through, cells)?;
    push_time_if_told(alloc, times, through, cells)
}

/// Puts the names of the columns of a latency through outages at the end of a row.
pub(crate) fn push_through_columns(times: &Times, columns: &mut Row) -> Result<(), AllocError>
    ensures { OnOk result (columns.new ≡ columns.old ++ through_columns times.now) }
{
    columns.push_word("outage_latency")?;
    push_columns_if_told(times, &["outage_latency_time"], columns)
}
