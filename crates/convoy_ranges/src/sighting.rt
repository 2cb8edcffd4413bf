ghost use Rattle.std.specs.Prelude.{◌≡◌, IfOk};

use convoy_draft::{AllocResult, Name};
use std::marker::Model;

/// A round trip between two places that a table tells; of several for one pair the greatest, with the least of their
/// distances.
#[derive(Drop)]
pub(crate) struct Sighting {
    /// The line in which the round trip stands.
    pub(crate) line: usize,
    pub(crate) from: Name,
    pub(crate) to: Name,
    /// In nanoseconds.
    pub(crate) round_trip: u64,
    /// How far the places are from each other, where that is known.
    pub(crate) kilometres: Option<u32>,
}

impl Model for Sighting {
    ghost use Rattle.convoy_draft.specs.declared.duration.TheConstants.{LONGEST_DURATION};
    ghost use Rattle.convoy_ranges.specs.declared.fault.TheConstants.{MOST_KILOMETRES};
    ghost use Rattle.convoy_ranges.specs.Tables.{IsMeasured, Sighting};

    ghost Value = { Sighting };

    ghost view = { λ s. record { line = s.line; from = s.from; to = s.to; round_trip = s.round_trip; kilometres = s.kilometres } };

    ghost invariant = { λ s. IsMeasured s.round_trip s.kilometres };
}

impl Sighting {
    /// The same round trip, in memory of its own.
    pub(crate) fn copy(&self) -> AllocResult<Sighting>
        ensures { IfOk result (λ copy. copy ≡ self.now) }
    {
        let (from, to) = (self.from.copy()?, self.to.copy()?);
        Ok(Sighting {
            line: self.line,
            from,
            to,
            round_trip: self.round_trip,
            kilometres: self.kilometres,
        })
    }
}
