//! Changes that change nothing.

ghost use Rattle.std.specs.Prelude.{◌≡◌, filter, length};
ghost use Rattle.convoy_what_if.specs.Cells.{folded_latency, is_nothing, is_same, latency_of, leaves_latency, unchanged_latency};

use super::kinds::Change;
use super::tried::Tried;
use convoy_survey::Finding;

/// The latency, in ticks, at which changes that leave it are folded, if they are.
pub(crate) fn folded_latency(shows_all: bool, rows: &[Tried]) -> Option<u32>
    ensures { result ≡ folded_latency shows_all rows.now }
{
    if shows_all {
        None
    } else {
        unchanged_latency(rows)
    }
}

/// The greatest latency of the scenario as it is, in ticks, where the row of no change tells it.
pub(crate) fn unchanged_latency(rows: &[Tried]) -> Option<u32>
    ensures { result ≡ unchanged_latency rows.now }
{
    for row in rows {
        if is_nothing(row.change) {
            return latency_of(row.finding);
        }
    }
    None
}

/// How many of these rows are those of changes that leave the greatest latency as it is, at this number of ticks.
pub(crate) fn count_leaving(unchanged: Option<u32>, rows: &[Tried]) -> usize
    ensures { result ≡ length (filter (leaves_latency unchanged) rows.now) }
{
    let mut count: usize = 0;
    for row in rows {
        if leaves_latency(unchanged, row) {
            count += 1;
        }
    }
    count
}

/// Whether the row is that of a change which leaves the greatest latency as it is, at this number of ticks.
pub(crate) fn leaves_latency(unchanged: Option<u32>, row: &Tried) -> bool
    ensures { result ≡ leaves_latency unchanged row.now }
{
    !is_nothing(row.change) && is_same(latency_of(row.finding), unchanged)
}

pub(crate) fn is_nothing(change: Change) -> bool
    ensures { result ≡ is_nothing change }
{
    match change {
        Change::Nothing => true,
        Change::Without { .. } | Change::AtLeast { .. } | Change::AtMost { .. } => false,
    }
}

/// The greatest latency, in ticks, where it was found.
fn latency_of(finding: Finding) -> Option<u32>
    ensures { result ≡ latency_of finding }
{
    match finding {
        Finding::Greatest { latency, .. } => Some(latency),
        Finding::Open { .. } | Finding::OutOfMemory => None,
    }
}

/// Whether both numbers are known, and the same.
fn is_same(number: Option<u32>, other: Option<u32>) -> bool
    ensures { result ≡ is_same number other }
{
    match (number, other) {
        (Some(number), Some(other)) => number == other,
        (Some(_), None) | (None, _) => false,
    }
}
