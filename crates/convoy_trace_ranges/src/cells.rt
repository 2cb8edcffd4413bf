//! Cells of tables of links.

ghost use Rattle.std.specs.Prelude.{◌≡◌, ◌∷◌, [], ◌++◌, ◌≤◌, OnOk};
ghost use Rattle.convoy_draft.specs.declared.duration.TheConstants.{LONGEST_DURATION};
ghost use Rattle.convoy_tables.specs.Tables.{numeral};
ghost use Rattle.convoy_times.specs.Measures.{told_ticks};
ghost use Rattle.convoy_trace_ranges.specs.Cells.{place_word, time_cell};

use super::links::Link;
use convoy_draft::{Duration, TimeUnit};
use convoy_tables::Row;
use convoy_times::Measure;
use convoy_times::time_laws::times_are_decimals;
use std::alloc::{AllocError, Global};

/// Puts ticks in the unit of a measure at the end of a row. Fails where memory runs out, and else never.
pub(crate) fn push_ticks(
    alloc: Global,
    measure: Measure,
    ticks: u32,
    cells: &mut Row,
) -> Result<(), AllocError>
    ensures { OnOk result (cells.new ≡ cells.old ++ numeral (told_ticks measure ticks) ∷ []) }
{
    times_are_decimals();
    // A duration has a length that is bounded.
    let _nanoseconds = measure.tick.nanoseconds();
    let told = measure.text(alloc, ticks)?;
    cells.push_decimal(told.as_str())
}

/// Puts so many nanoseconds in a unit at the end of a row. Fails where memory runs out, and else never.
pub(crate) fn push_time(
    alloc: Global,
    unit: TimeUnit,
    time: u64,
    cells: &mut Row,
) -> Result<(), AllocError>
    requires { time ≤ LONGEST_DURATION }
    ensures { OnOk result (cells.new ≡ cells.old ++ time_cell unit time ∷ []) }
{
    let Some(tick) = Duration::from_nanoseconds(time) else {
        unreachable!()
    };
    push_ticks(alloc, Measure { tick, unit }, 1, cells)
}

/// Who sends: a group, or clients.
pub(crate) fn place_word(link: &Link) -> &str
    ensures { result.now ≡ place_word link.now.from }
{
    let name = link.from().as_str();
    if name.is_empty() { "client" } else { name }
}
