//! The cells of the tables.

ghost use Rattle.std.specs.Prelude.{◌≡◌, ◌<◌, ◌∷◌, [], ◌++◌, length, OnOk, IfOk, All};
ghost use Rattle.convoy_ceiling.specs.Ceiling.{ceiling_at};
ghost use Rattle.convoy_survey.specs.AtAll.{ceiling_at_all};
ghost use Rattle.convoy_survey.specs.Cells.{at_all_cells, at_all_target_cells, cause_cells, ceiling_cells_if, cells_of, finding_cells, known_cells, name_cell, node_cells, rival_cells, target_cells, tick_cells, time_cells};
ghost use Rattle.convoy_survey.specs.Times.{count_cell};

use super::at_all::{AtAll, ceiling_at_all};
use super::finding::{Cause, Finding, Surveyed, rival_in, tied_in};
use super::judgements::push_judged;
use super::time_cells::{push_time_if_told, push_time_pair};
use super::times::Times;
use convoy_ceiling::ceiling;
use convoy_scenario::Scenario;
use convoy_scenario::naming::{group_name, message_name};
use convoy_tables::Row;
use std::alloc::{AllocError, Global};

/// The cells of a row, with the verdict on it where there are deadlines, and its ceiling where that is asked for.
pub(crate) fn cells_of(
    alloc: Global,
    with_ceilings: bool,
    times: &Times,
    deadlines: &[Option<u32>],
    scenario: &Scenario,
    row: &Surveyed,
) -> Result<Row, AllocError>
    requires { row.now.message < length scenario.now.multicasts }
    ensures { IfOk result (λ cells. cells ≡ cells_of with_ceilings times.now deadlines.now scenario.now row.now) }
{
    let mut cells = Row::new(alloc);
    push_target(scenario, row.message, row.group, &mut cells)?;
    push_finding(alloc, times, scenario, row.finding, &mut cells)?;
    let (least, most) = (row.finding.least(), row.finding.most());
    push_judged(
        alloc,
        deadlines,
        times,
        row.message,
        least,
        most,
        &mut cells,
    )?;
    let ceiling = ceiling(scenario, row.message, row.group);
    push_ceiling_if(alloc, with_ceilings, times, ceiling, &mut cells)?;
    Ok(cells)
}

/// The cells of the row of a message at all the groups that it goes to, of which these are its rows, with the verdict on
/// it where there are deadlines, and the greatest of their ceilings where these are asked for.
pub(crate) fn at_all_cells(
    alloc: Global,
    with_ceilings: bool,
    times: &Times,
    deadlines: &[Option<u32>],
    scenario: &Scenario,
    message: usize,
    rows: &[Surveyed],
) -> Result<Row, AllocError>
    requires { All (λ row. row.message < length scenario.now.multicasts) rows.now }
    ensures { IfOk result (λ cells. cells ≡ at_all_cells with_ceilings times.now deadlines.now scenario.now message rows.now) }
{
    let mut cells = Row::new(alloc);
    push_target_at_all(scenario, message, &mut cells)?;
    let known = AtAll::of(rows);
    push_known(alloc, times, scenario, known, &mut cells)?;
    push_judged(
        alloc,
        deadlines,
        times,
        message,
        known.least,
        known.most,
        &mut cells,
    )?;
    let ceiling = ceiling_at_all(scenario, rows);
    push_ceiling_if(alloc, with_ceilings, times, ceiling, &mut cells)?;
    Ok(cells)
}

/// Puts a ceiling at the end of a row, in ticks and as a time, where ceilings are asked for. Fails where memory runs out,
/// and else never.
pub fn push_ceiling_if(
    alloc: Global,
    with_ceilings: bool,
    times: &Times,
    ceiling: u32,
    cells: &mut Row,
) -> Result<(), AllocError>
    ensures { OnOk result (cells.new ≡ cells.old ++ ceiling_cells_if with_ceilings times.now ceiling) }
{
    if !with_ceilings {
        return Ok(());
    }
    cells.push_number(u64::from(ceiling))?;
    push_time_if_told(alloc, times, Some(ceiling), cells)
}

/// Puts a message and a group at the end of a row, by their names, or an empty word for a number that is none. Fails where
/// memory runs out, and else never.
pub fn push_target(
    scenario: &Scenario,
    message: usize,
    group: usize,
    cells: &mut Row,
) -> Result<(), AllocError>
    ensures { OnOk result (cells.new ≡ cells.old ++ target_cells scenario.now message group) }
{
    cells.push_word(message_name(scenario, message))?;
    cells.push_word(group_name(scenario, group))
}

/// Puts a message, by its name, at all groups at the end of a row. Fails where memory runs out, and else never.
pub fn push_target_at_all(
    scenario: &Scenario,
    message: usize,
    cells: &mut Row,
) -> Result<(), AllocError>
    ensures { OnOk result (cells.new ≡ cells.old ++ at_all_target_cells scenario.now message) }
{
    cells.push_word(message_name(scenario, message))?;
    cells.push_word("*")
}

/// Puts what was found at the end of a row: the cells of the columns that
/// [`push_finding_columns`](crate::push_finding_columns) names. The messages of its cause are those of the
/// scenario. Fails where memory runs out, and else never.
pub fn push_finding(
    alloc: Global,
    times: &Times,
    scenario: &Scenario,
    finding: Finding,
    cells: &mut Row,
) -> Result<(), AllocError>
    ensures { OnOk result (cells.new ≡ cells.old ++ finding_cells times.now scenario.now finding) }
{
    cells.push_word(finding.answer())?;
    push_ticks(finding, cells)?;
    push_times(alloc, times, finding, cells)?;
    push_cause(scenario, finding, cells)
}

/// Puts what is known of a message at all its groups at the end of a row: the cells of the same columns. Fails where memory
/// runs out, and else never.
pub fn push_known(
    alloc: Global,
    times: &Times,
    scenario: &Scenario,
    known: AtAll,
    cells: &mut Row,
) -> Result<(), AllocError>
    ensures { OnOk result (cells.new ≡ cells.old ++ known_cells times.now scenario.now known) }
{
    cells.push_word(known.answer())?;
    push_count(known.least, cells)?;
    push_count(known.most, cells)?;
    push_time_pair(alloc, times, known.least, known.most, cells)?;
    push_rivals(scenario, known.cause, cells)?;
    cells.push_nothing()
}

/// Puts the least and the most that the greatest latency may be, in ticks, at the end of a row: two cells,
/// with nothing where memory ran out. Fails where memory runs out, and else never.
pub fn push_ticks(finding: Finding, cells: &mut Row) -> Result<(), AllocError>
    ensures { OnOk result (cells.new ≡ cells.old ++ tick_cells finding) }
{
    push_count(finding.least(), cells)?;
    push_count(finding.most(), cells)
}

/// Puts the same as times at the end of a row, and their unit, where times are told: the cells of the columns that
/// [`push_time_columns`](crate::push_time_columns) names, with nothing where memory ran out, or where there is no
/// measure. Fails where memory runs out, and else never.
pub fn push_times(
    alloc: Global,
    times: &Times,
    finding: Finding,
    cells: &mut Row,
) -> Result<(), AllocError>
    ensures { OnOk result (cells.new ≡ cells.old ++ time_cells times.now finding) }
{
    push_time_pair(alloc, times, finding.least(), finding.most(), cells)
}

/// Puts the message that holds the target back, the one after which it gets its stamp in a tie, and the
/// number of nodes at the end of a row: three cells, each with nothing where there is none. The messages are
/// those of the scenario. Fails where memory runs out, and else never.
pub fn push_cause(scenario: &Scenario, finding: Finding, cells: &mut Row) -> Result<(), AllocError>
    ensures { OnOk result (cells.new ≡ cells.old ++ cause_cells scenario.now finding) }
{
    push_rivals(scenario, finding.cause(), cells)?;
    push_nodes(finding, cells)
}

/// Puts the number of nodes that show what was found at the end of a row, or nothing where there is none. Fails where
/// memory runs out, and else never.
pub fn push_nodes(finding: Finding, cells: &mut Row) -> Result<(), AllocError>
    ensures { OnOk result (cells.new ≡ cells.old ++ node_cells finding) }
{
    match finding.nodes() {
        Some(nodes) => cells.push_number(nodes as u64),
        None => cells.push_nothing(),
    }
}

/// Puts the two messages of a cause that may not be known at the end of a row, each with nothing where there is none.
fn push_rivals(scenario: &Scenario, cause: Option<Cause>, cells: &mut Row) -> Result<(), AllocError>
    ensures { OnOk result (cells.new ≡ cells.old ++ rival_cells scenario.now cause) }
{
    push_name(scenario, rival_in(cause), cells)?;
    push_name(scenario, tied_in(cause), cells)
}

/// Puts a number that may not be known at the end of a row. Fails where memory runs out, and else never.
pub fn push_count(count: Option<u32>, cells: &mut Row) -> Result<(), AllocError>
    ensures { OnOk result (cells.new ≡ cells.old ++ count_cell count ∷ []) }
{
    match count {
        Some(count) => cells.push_number(u64::from(count)),
        None => cells.push_nothing(),
    }
}

/// Puts the name of a message that there may not be at the end of a row: nothing where there is none. Fails
/// where memory runs out, and else never.
pub fn push_name(
    scenario: &Scenario,
    message: Option<usize>,
    cells: &mut Row,
) -> Result<(), AllocError>
    ensures { OnOk result (cells.new ≡ cells.old ++ name_cell scenario.now message ∷ []) }
{
    match message {
        Some(message) => cells.push_word(message_name(scenario, message)),
        None => cells.push_nothing(),
    }
}
