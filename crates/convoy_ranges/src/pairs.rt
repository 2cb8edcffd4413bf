//! Round trips of one pair of places as one.

ghost use Rattle.std.specs.Prelude.{◌≡◌, ◌<◌, [], IfSome, OnOk, length, position};
ghost use Rattle.std.specs.Result.{result_map_both};
ghost use Rattle.convoy_scenario.specs.Memory.{IsUnlessMemory};
ghost use Rattle.convoy_ranges.specs.Ranges.{is_same_pair, joined, nearer, pairs_from, with_seen};
ghost use Rattle.convoy_ranges.specs.declared.fault.RangesFault.TheVariants.{Memory};

use super::fault::{Cause, MOST_PAIRS, RangesFault};
use super::sighting::Sighting;
use std::alloc::{AllocError, Global};

/// Whether both are of one pair of places, whichever stands first.
fn is_same_pair(a: &Sighting, b: &Sighting) -> bool
    ensures { result ≡ is_same_pair a.now b.now }
{
    (a.from.is_same(&b.from) && a.to.is_same(&b.to))
        || (a.from.is_same(&b.to) && a.to.is_same(&b.from))
}

/// The lesser of two distances, of which one may be unknown.
fn nearer(a: Option<u32>, b: Option<u32>) -> Option<u32>
    ensures { result ≡ nearer a b }
{
    match (a, b) {
        (Some(a), Some(b)) => Some(a.min(b)),
        (Some(a), None) => Some(a),
        (None, b) => b,
    }
}

/// Makes one of two round trips of a pair: the greater, with the lesser distance.
fn join(pair: &mut Sighting, seen: &Sighting)
    ensures { pair.new ≡ joined pair.old seen.now }
{
    if pair.round_trip < seen.round_trip {
        pair.round_trip = seen.round_trip;
        pair.line = seen.line;
    }
    pair.kilometres = nearer(pair.kilometres, seen.kilometres);
}

/// The place of the first of these that is of the same pair of places.
fn place_of(pairs: &[Sighting], seen: &Sighting) -> Option<usize>
    ensures value { result ≡ position (λ pair. is_same_pair pair seen.now) pairs.now }
    ensures within { IfSome result (λ place. place < length pairs.now) }
{
    pairs.iter().position(|pair| is_same_pair(pair, seen))
}

/// Joins a round trip with that of its pair, or puts it at the end of the pairs.
fn put(pairs: &mut Vec<Sighting>, seen: &Sighting) -> Result<(), AllocError>
    ensures { OnOk result (pairs.new.items ≡ with_seen pairs.old.items seen.now) }
{
    match place_of(pairs, seen) {
        Some(place) => {
            join(&mut pairs[place], seen);
            Ok(())
        }
        None => {
            let copy = seen.copy()?;
            Ok(pairs.push(copy)?)
        }
    }
}

/// The pairs of these round trips, in the order in which they are first told, each with its greatest round trip.
pub(crate) fn pairs_of(alloc: Global, seen: &[Sighting]) -> Result<Vec<Sighting>, RangesFault>
    ensures { IsUnlessMemory Memory (pairs_from [] seen.now)
        (result_map_both (λ pairs. pairs.items) (λ fault. fault) result) }
{
    let mut pairs = Vec::new(alloc);
    for sighting in seen {
        put(&mut pairs, sighting)?;
        if pairs.len() > MOST_PAIRS {
            return Err(RangesFault::Line(sighting.line, Cause::TooMany));
        }
    }
    Ok(pairs)
}
