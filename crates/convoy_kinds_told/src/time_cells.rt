//! Cells of times.

ghost use Rattle.std.specs.Prelude.{◌≡◌, ◌∷◌, [], ◌++◌, OnOk};
ghost use Rattle.convoy_tables.specs.Tables.{numeral};
ghost use Rattle.convoy_times.specs.Measures.{told_ticks};
ghost use Rattle.convoy_kinds_told.specs.KindTables.{has_times, ticks_cell, time_cells, unit_cell, where_told};

use convoy_tables::{Format, Row};
use convoy_times::Measure;
use convoy_times::time_laws::times_are_decimals;
use std::alloc::{AllocError, Global};

/// Whether a table in this format has columns of times: as CSV and as JSON in any case, so that the names of its columns do not
/// depend on the text, and in text and in HTML where there is a measure.
pub fn has_times(format: Format, measure: Option<Measure>) -> bool
    ensures { result ≡ has_times format measure }
{
    match format {
        Format::Text | Format::Html => measure.is_some(),
        Format::Csv | Format::Json => true,
    }
}

/// Puts ticks as a time, and its unit, at the end of a row, where times are told. Fails where memory runs out, and else never.
pub fn push_time_if_told(
    alloc: Global,
    told: bool,
    measure: &Option<Measure>,
    ticks: u32,
    cells: &mut Row,
) -> Result<(), AllocError>
    ensures { OnOk result (cells.new ≡ cells.old ++ where_told told (time_cells measure.now ticks)) }
{
    if told {
        push_time(alloc, measure, ticks, cells)
    } else {
        Ok(())
    }
}

/// Puts ticks as a time, and its unit, at the end of a row.
fn push_time(
    alloc: Global,
    measure: &Option<Measure>,
    ticks: u32,
    cells: &mut Row,
) -> Result<(), AllocError>
    ensures { OnOk result (cells.new ≡ cells.old ++ time_cells measure.now ticks) }
{
    push_ticks(alloc, *measure, ticks, cells)?;
    push_unit(*measure, cells)
}

/// Puts ticks in the unit of the measure at the end of a row; nothing where there is no measure.
fn push_ticks(
    alloc: Global,
    measure: Option<Measure>,
    ticks: u32,
    cells: &mut Row,
) -> Result<(), AllocError>
    ensures { OnOk result (cells.new ≡ cells.old ++ ticks_cell measure ticks ∷ []) }
{
    match measure {
        Some(measure) => push_told(alloc, measure, ticks, cells),
        None => cells.push_nothing(),
    }
}

/// Puts the unit of the measure at the end of a row, where there is one.
fn push_unit(measure: Option<Measure>, cells: &mut Row) -> Result<(), AllocError>
    ensures { OnOk result (cells.new ≡ cells.old ++ unit_cell measure ∷ []) }
{
    match measure {
        Some(measure) => cells.push_word(measure.unit.word()),
        None => cells.push_nothing(),
    }
}

/// Puts ticks in the unit of a measure at the end of a row.
fn push_told(alloc: Global, measure: Measure, ticks: u32, cells: &mut Row) -> Result<(), AllocError>
    ensures { OnOk result (cells.new ≡ cells.old ++ numeral (told_ticks measure ticks) ∷ []) }
{
    times_are_decimals();
    // A duration has a length that is bounded.
    let _nanoseconds = measure.tick.nanoseconds();
    let told = measure.text(alloc, ticks)?;
    cells.push_decimal(told.as_str())
}
