//! What to write where a table of round trips gives no ranges.

use convoy_hints::Hint;
use convoy_ranges::{Cause, MOST_BYTES, MOST_PAIRS, RangesFault};
use std::alloc::Global;

// Hints tell these limits in words.
const _: () = prove!(MOST_BYTES == 1_000_000);

const _: () = prove!(MOST_PAIRS == 2_080);

/// The hint for a table that gives no ranges.
pub fn hint_for_table(alloc: Global, fault: RangesFault) -> Hint {
    let advice = match fault {
        RangesFault::TooLong => "a table has at most 1000000 bytes",
        RangesFault::Empty =>
            "below the first line there is a line for each round trip that was measured",
        RangesFault::Line(_, cause) => advice_on_line(cause),
        RangesFault::Memory => return Ok(None),
    };
    format!(in alloc; "hint: {advice}\n").map(Some)
}

/// What to write in a line of such a table.
fn advice_on_line(cause: Cause) -> &'static str {
    match cause {
        Cause::Header =>
            "a table begins with the line 'from,to,round_trip' or 'from,to,round_trip,kilometres', or with an empty cell and the names of all places",
        Cause::Cells => "each line has as many cells as the first one",
        Cause::TooMany => "a table has at most 2080 pairs of places",
        Cause::Name =>
            "a place has the name of a group: a letter from a to z, then letters, digits, '_' and '-', 16 at most",
        Cause::Time =>
            "a round trip is a number of milliseconds, as 83.2, or a duration, as '83.2 ms'",
        Cause::Distance => "a distance is a whole number of kilometres, at most 1000000",
        Cause::Near =>
            "a signal may go that distance in less than a tick: ask for a shorter one by '--tick'",
        Cause::Crossed =>
            "nothing goes that distance and back in so short a time: look at both numbers, or leave the distance out",
        Cause::Wide => "the range has more than 65535 ticks: ask for a longer one by '--tick'",
    }
}
