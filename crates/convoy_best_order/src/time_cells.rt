//! Cells of times.

ghost use Rattle.std.specs.Prelude.{◌≡◌, ◌∷◌, [], ◌++◌, OnOk};
ghost use Rattle.convoy_tables.specs.Tables.{numeral};
ghost use Rattle.convoy_times.specs.Measures.{told_ticks};
ghost use Rattle.convoy_survey.specs.Times.{time_cell, unit_cell};

use convoy_tables::Row;
use convoy_times::Measure;
use convoy_times::time_laws::times_are_decimals;
use std::alloc::{AllocError, Global};

/// Puts ticks that may not be known in the unit of a measure at the end of a row; nothing where one of both is not
/// known.
pub(crate) fn push_time(
    alloc: Global,
    measure: Option<Measure>,
    ticks: Option<u32>,
    cells: &mut Row,
) -> Result<(), AllocError>
    ensures { OnOk result (cells.new ≡ cells.old ++ time_cell measure ticks ∷ []) }
{
    match (measure, ticks) {
        (Some(measure), Some(ticks)) => push_told(alloc, measure, ticks, cells),
        (Some(_), None) | (None, _) => cells.push_nothing(),
    }
}

/// Puts ticks in the unit of a measure at the end of a row.
fn push_told(alloc: Global, measure: Measure, ticks: u32, cells: &mut Row) -> Result<(), AllocError>
    ensures { OnOk result (cells.new ≡ cells.old ++ numeral (told_ticks measure ticks) ∷ []) }
{
    times_are_decimals();
    // A duration has a length that is bounded.
    let _nanoseconds = measure.tick.nanoseconds();
    let told = measure.text(alloc, ticks)?;
    cells.push_decimal(told.as_str())
}

/// Puts the unit of a measure at the end of a row, where there is one.
pub(crate) fn push_unit(measure: Option<Measure>, cells: &mut Row) -> Result<(), AllocError>
    ensures { OnOk result (cells.new ≡ cells.old ++ unit_cell measure ∷ []) }
{
    match measure {
        Some(measure) => cells.push_word(measure.unit.word()),
        None => cells.push_nothing(),
    }
}
