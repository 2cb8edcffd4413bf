use std::alloc::{AllocError, AllocFailed};
use thiserror::Error;

/// How many bytes a table has at most.
pub const MOST_BYTES: usize = 1_000_000;

/// How many pairs of places a table has at most: those of 64 places, with each place and itself.
pub const MOST_PAIRS: usize = 2_080;

/// How many kilometres a distance has at most.
pub const MOST_KILOMETRES: u32 = 1_000_000;

/// What is wrong with a line of a table.
#[derive(Clone, Copy, Debug, PartialEq, Eq, Error)]
pub enum Cause {
    /// The first line is neither that of a list of pairs nor that of a matrix.
    #[error("a table begins with `from,to,round_trip`, perhaps `,kilometres`, or with an empty cell and places")]
    Header,
    /// The line has more cells than the first one, or fewer.
    #[error("the line has not as many cells as the first one")]
    Cells,
    /// A place has a name that no group may have.
    #[error("a place is no name: a letter from a to z, then letters, digits, `_` and `-`, 16 at most, and not `client`")]
    Name,
    /// A round trip is no time.
    #[error("a round trip is a number of milliseconds, as 83.2, or a duration, as 83.2 ms")]
    Time,
    /// A distance is none.
    #[error("a distance is a whole number of kilometres, up to 1000000")]
    Distance,
    /// There are more pairs of places than a table may have: the first line of one that is too many.
    #[error("there are more than 2080 pairs of places")]
    TooMany,
    /// The distance of the two places is gone in less than a tick.
    #[error("a packet may go that distance in less than a tick: ask for a shorter tick")]
    Near,
    /// The greatest round trip, with its margin, is less than twice the least of one way.
    #[error("the round trip is shorter than twice the least of one way")]
    Crossed,
    /// The range has more ticks than a scenario takes.
    #[error("the greatest delay is more than 65535 ticks: ask for a longer tick")]
    Wide,
}

/// Why a table gives no ranges.
#[derive(Clone, Copy, Debug, PartialEq, Eq, Error)]
pub enum RangesFault {
    /// The table has more than [`MOST_BYTES`] bytes.
    #[error("the table has more than 1000000 bytes")]
    TooLong,
    /// The table has no round trip.
    #[error("the table has no round trip")]
    Empty,
    /// A line of the table, by its number from 1. Of pairs it is the line of the greatest round trip.
    #[error("line {0}: {1}")]
    Line(usize, Cause),
    /// Memory ran out, which says nothing of the table.
    #[error("out of memory")]
    Memory,
}

impl From<AllocError> for RangesFault {
    ghost use Rattle.std.specs.Prelude.{◌≡◌};
    ghost use Rattle.convoy_ranges.specs.declared.fault.RangesFault.TheVariants.{Memory};

    ghost from_gives = { λ _ fault. fault ≡ Memory };

    fn from(_error: AllocError) -> Self {
        RangesFault::Memory
    }
}

impl<T: Drop> From<AllocFailed<T>> for RangesFault {
    ghost use Rattle.std.specs.Prelude.{◌≡◌};
    ghost use Rattle.convoy_ranges.specs.declared.fault.RangesFault.TheVariants.{Memory};

    ghost from_gives = { λ _ fault. fault ≡ Memory };

    fn from(_error: AllocFailed<T>) -> Self {
        RangesFault::Memory
    }
}
