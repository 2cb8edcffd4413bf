//! Records that lie in a board's table.

ghost use Rattle.std.specs.Prelude.{◌≡◌, ◌+◌, ◌*◌, ◌<◌};
ghost use Rattle.boxcar.specs.Table.{Shows};
ghost use Rattle.convoy_sim.specs.Record.{IsAttained};
ghost use Rattle.convoy_incumbent.specs.Boards.{IsBetterOf, pair_of, places};

use super::rule::Pair;
use boxcar::Pushed;
use convoy_sim::Record;
use std::marker::Model;

/// The number of places that a word can name: a word is a latency times this, and a place.
pub(crate) const PLACES: u64 = 4_294_967_296;

/// The last place that a word can name. Records that lie past it go by this place too.
const LAST_PLACE: u64 = 4_294_967_295;

impl Pair {
    /// The word that the pair is.
    pub fn word(&self) -> u64
        requires { self.now.place < places }
        ensures { result ≡ self.now.latency * places + self.now.place }
    {
        u64::from(self.latency) * PLACES + self.place
    }
}

/// A record that lies in a board's table, and may be published there once.
#[derive(Drop)]
pub struct Noted {
    pushed: Pushed<Record>,
    latency: u32,
}

impl Model for Noted {
    ghost use Rattle.std.specs.Prelude.{◌≡◌};
    ghost use Rattle.boxcar.specs.Table.{Where};
    ghost use Rattle.convoy_sim.specs.Record.{Record, IsAttained};

    ghost Value = { Where Record };

    ghost view = { λ n. n.pushed };

    ghost invariant = { λ n. (n.latency ≡ n.pushed.value.latency) × IsAttained n.pushed.value };
}

impl Noted {
    /// The note of a record that was pushed, with its latency.
    pub(crate) fn of(pushed: Pushed<Record>, latency: u32) -> Noted
        requires latency { latency ≡ pushed.value.latency }
        requires attained { IsAttained pushed.value }
        ensures { result ≡ pushed }
    {
        Noted { pushed, latency }
    }

    /// The pair that the note puts.
    pub(crate) fn pair(&self) -> Pair
        ensures pair { result ≡ pair_of self.now }
        ensures place { result.place < places }
        ensures attained { IsAttained self.now.value }
    {
        Pair {
            latency: self.latency,
            place: (self.pushed.index() as u64).min(LAST_PLACE),
        }
    }

    /// The record, in the table in which it was noted.
    pub(crate) fn record_in<'a>(&self, records: &'a boxcar::Vec<Record>) -> &'a Record
        requires { Shows records.now self.now }
        ensures { result.now ≡ self.now.value }
    {
        records.value(&self.pushed)
    }
}

/// The note of the greater latency, where there are any.
pub(crate) fn better_of(first: Option<Noted>, second: Option<Noted>) -> Option<Noted>
    ensures { IsBetterOf first second result }
{
    match (first, second) {
        (Some(first), Some(second)) => {
            if first.latency < second.latency {
                Some(second)
            } else {
                Some(first)
            }
        }
        (Some(first), None) => Some(first),
        (None, second) => second,
    }
}
