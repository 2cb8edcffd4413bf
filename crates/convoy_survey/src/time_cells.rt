//! Cells of times.

ghost use Rattle.std.specs.Prelude.{◌≡◌, ◌∷◌, [], ◌++◌, map, OnOk};
ghost use Rattle.convoy_tables.specs.Tables.{numeral, word};
ghost use Rattle.convoy_times.specs.Measures.{told_ticks};
ghost use Rattle.convoy_survey.specs.Times.{time_cell, time_pair, unit_cell, where_told};

use super::times::Times;
use convoy_tables::Row;
use convoy_times::Measure;
use convoy_times::time_laws::times_are_decimals;
use std::alloc::{AllocError, Global};

/// Puts two numbers of ticks, each of which may not be known, as times at the end of a row, and their unit, where
/// times are told. Fails where memory runs out, and else never.
pub fn push_time_pair(
    alloc: Global,
    times: &Times,
    one: Option<u32>,
    other: Option<u32>,
    cells: &mut Row,
) -> Result<(), AllocError>
    ensures { OnOk result (cells.new ≡ cells.old ++ time_pair times.now one other) }
{
    if !times.are_told {
        return Ok(());
    }
    push_time(alloc, times.measure, one, cells)?;
    push_time(alloc, times.measure, other, cells)?;
    push_unit(times.measure, cells)
}

/// Puts names of columns of times at the end of a row, where times are told. Fails where memory runs out, and else
/// never.
pub fn push_columns_if_told(
    times: &Times,
    names: &[&str],
    columns: &mut Row,
) -> Result<(), AllocError>
    ensures { OnOk result (columns.new
        ≡ columns.old ++ where_told times.now (map (λ name. word name.now) names.now)) }
{
    if times.are_told {
        columns.push_words(names)
    } else {
        Ok(())
    }
}

/// Puts a number of ticks, which may not be known, as a time at the end of a row, where times are told. Fails where
/// memory runs out, and else never.
pub fn push_time_if_told(
    alloc: Global,
    times: &Times,
    ticks: Option<u32>,
    cells: &mut Row,
) -> Result<(), AllocError>
    ensures { OnOk result (cells.new ≡ cells.old ++ where_told times.now (time_cell times.now.measure ticks ∷ [])) }
{
    if times.are_told {
        push_time(alloc, times.measure, ticks, cells)
    } else {
        Ok(())
    }
}

/// Puts ticks that may not be known in the unit of a measure at the end of a row; nothing where one of both is not
/// known.
pub fn push_time(
    alloc: Global,
    measure: Option<Measure>,
    ticks: Option<u32>,
    cells: &mut Row,
) -> Result<(), AllocError>
    ensures { OnOk result (cells.new ≡ cells.old ++ time_cell measure ticks ∷ []) }
{
    match (measure, ticks) {
        (Some(measure), Some(ticks)) => push_told(alloc, measure, ticks, cells),
        (Some(_), None) | (None, _) => cells.push_nothing(),
    }
}

/// Puts ticks in the unit of a measure at the end of a row.
fn push_told(alloc: Global, measure: Measure, ticks: u32, cells: &mut Row) -> Result<(), AllocError>
    ensures { OnOk result (cells.new ≡ cells.old ++ numeral (told_ticks measure ticks) ∷ []) }
{
    times_are_decimals();
    // A duration has a length that is bounded.
    let _nanoseconds = measure.tick.nanoseconds();
    let told = measure.text(alloc, ticks)?;
    cells.push_decimal(told.as_str())
}

/// Puts the unit of a measure at the end of a row, where there is one.
pub fn push_unit(measure: Option<Measure>, cells: &mut Row) -> Result<(), AllocError>
    ensures { OnOk result (cells.new ≡ cells.old ++ unit_cell measure ∷ []) }
{
    match measure {
        Some(measure) => cells.push_word(measure.unit.word()),
        None => cells.push_nothing(),
    }
}
