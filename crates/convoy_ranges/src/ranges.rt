//! The range that a round trip gives.

ghost use Rattle.std.specs.Prelude.{◌≡◌, ◌≤◌, ◌^◌, IfSome, ◌+◌, ◌<◌, IfOk};
ghost use Rattle.convoy_draft.specs.declared.duration.TheConstants.{LONGEST_DURATION};
ghost use Rattle.convoy_ranges.specs.Ranges.{least_of, range_at, range_between, range_of, round_trip_of};
ghost use Rattle.convoy_ranges.specs.Rules.{AreRules};
ghost use Rattle.convoy_ranges.specs.declared.fault.TheConstants.{MOST_KILOMETRES};

use super::asked::{RangeRules, RangesAsked};
use super::fault::{Cause, RangesFault};
use super::sighting::Sighting;
use convoy_draft::GREATEST_DELAY;
use std::marker::Model;

/// What a packet may take, in ticks.
#[derive(Clone, Copy)]
pub(crate) struct Range {
    pub(crate) least: u32,
    pub(crate) most: u32,
}

impl Model for Range {
    ghost use Rattle.convoy_ranges.specs.Ranges.{Range};

    ghost Value = { Range };

    ghost view = { λ r. record { least = r.least; most = r.most } };

    ghost inverse = { λ r. record { least = r.least; most = r.most } };
}

/// How many ticks a packet takes at least, rounded down.
fn least_of(rules: RangeRules, kilometres: Option<u32>) -> u64
    requires rules { AreRules rules }
    requires near { IfSome kilometres (λ distance. distance ≤ MOST_KILOMETRES) }
    ensures value { result ≡ least_of rules kilometres }
    ensures bounded { result ≤ LONGEST_DURATION }
{
    match kilometres {
        Some(distance) => {
            u64::from(distance) * 1_000_000 / (u64::from(rules.speed.kilometres()) * rules.tick)
        }
        None => rules.least / rules.tick,
    }
}

/// How many ticks a time takes with the margin, in nanoseconds and rounded up, as a round trip.
pub fn round_trip_of(rules: RangeRules, round_trip: u64) -> u64
    requires rules { AreRules rules }
    requires within { round_trip ≤ LONGEST_DURATION }
    ensures { result ≡ round_trip_of rules round_trip }
{
    let hundred_ticks = 100 * rules.tick;
    (round_trip * (100 + u64::from(rules.margin)) + (hundred_ticks - 1)) / hundred_ticks
}

/// The range of which that is the least and that the round trip.
fn range_between(least: u64, round_trip: u64) -> Result<Range, Cause>
    requires { least ≤ LONGEST_DURATION }
    ensures value { result ≡ range_between least round_trip }
    ensures bounded { IfOk result (λ range. range.least + range.most < 2 ^ 17) }
{
    if least == 0 {
        return Err(Cause::Near);
    }
    if round_trip < 2 * least {
        return Err(Cause::Crossed);
    }
    let most = round_trip - least;
    if most > u64::from(GREATEST_DELAY) {
        return Err(Cause::Wide);
    }
    Ok(Range {
        least: least as u32,
        most: most as u32,
    })
}

/// The range of a pair.
fn range_of(asked: &RangesAsked, pair: &Sighting) -> Result<Range, Cause>
    ensures value { result ≡ range_of asked.now pair.now }
    ensures bounded { IfOk result (λ range. range.least + range.most < 2 ^ 17) }
{
    let rules = asked.rules();
    let least = least_of(rules, pair.kilometres);
    range_between(least, round_trip_of(rules, pair.round_trip))
}

/// The range of a pair, or why there is none, with the line of its round trip.
pub(crate) fn range_at(asked: &RangesAsked, pair: &Sighting) -> Result<Range, RangesFault>
    ensures value { result ≡ range_at asked.now pair.now }
    ensures bounded { IfOk result (λ range. range.least + range.most < 2 ^ 17) }
{
    match range_of(asked, pair) {
        Ok(range) => Ok(range),
        Err(cause) => Err(RangesFault::Line(pair.line, cause)),
    }
}
