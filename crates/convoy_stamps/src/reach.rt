ghost use Rattle.std.specs.Prelude.{◌≡◌, ◌<◌, ◌++◌, length, map, All, IfOk, OnOk};
ghost use Rattle.std.specs.List.{filter};
ghost use Rattle.convoy_scenario.specs.Scenario.{message_at, GoesTo};
ghost use Rattle.convoy_stamps.specs.Closures.{is_follower};
ghost use Rattle.convoy_stamps.specs.Reach.{pair_of, IsPair, pairs_of, reach_of};
ghost use Rattle.convoy_stamps.specs.Spans.{tables_in, target_follows};

use super::pair::Pair;
use super::spans::Spans;
use convoy_scenario::Scenario;
use std::alloc::{AllocError, Global};
use std::mem::swap;

/// Each message of a scenario with each of its destinations: by the number of the message, and then in
/// the order of its destinations. The error is that memory ran out.
pub fn pairs_of(alloc: Global, scenario: &Scenario) -> Result<Vec<Pair>, AllocError>
    ensures { IfOk result (λ pairs. pairs.items ≡ pairs_of scenario.now) }
{
    let mut pairs = Vec::new(alloc);
    for message in 0..scenario.message_count() {
        add_pairs(&mut pairs, scenario, message)?;
    }
    Ok(pairs)
}

/// Adds a message with each of its destinations.
fn add_pairs(pairs: &mut Vec<Pair>, scenario: &Scenario, message: usize) -> Result<(), AllocError>
    requires { message < length scenario.now.multicasts }
    ensures { OnOk result (pairs.new.items
        ≡ pairs.old.items ++ map (pair_of message) (message_at scenario.now message).destinations) }
{
    for group in scenario.destinations(message) {
        pairs.push(Pair {
            message,
            group: *group,
        })?;
    }
    Ok(())
}

/// How many pairs are in the reach of the target's local stamp at a group.
pub(crate) fn reach_size(
    alloc: Global,
    spans: &Spans,
    pairs: &[Pair],
    group: usize,
) -> Result<usize, AllocError>
    requires goes { GoesTo spans.now.scenario spans.now.scenario.target_message group }
    requires pairs { pairs.now ≡ pairs_of spans.now.scenario }
    ensures { let scenario = spans.now.scenario in IfOk result (λ size. size
        ≡ length (reach_of scenario (tables_in spans.now) scenario.target_message group)) }
{
    let message = spans.scenario().target_message();
    let mut reached = Vec::with_capacity(alloc, pairs.len())?;
    let mut next = Vec::with_capacity(alloc, pairs.len())?;
    write_followers(spans, pairs, &[Pair { message, group }], &mut reached)?;
    for _round in 0..pairs.len() {
        write_followers(spans, pairs, &reached, &mut next)?;
        if next.len() == reached.len() {
            return Ok(reached.len());
        }
        swap(&mut reached, &mut next);
    }
    Ok(reached.len())
}

/// Writes those of the pairs that follow a reached one.
fn write_followers(
    spans: &Spans,
    pairs: &[Pair],
    reached: &[Pair],
    next: &mut Vec<Pair>,
) -> Result<(), AllocError>
    requires pairs { All (IsPair spans.now.scenario) pairs.now }
    requires reached { All (IsPair spans.now.scenario) reached.now }
    ensures value { OnOk result (next.new.items
        ≡ filter (is_follower (target_follows spans.now) reached.now) pairs.now) }
    ensures pairs { OnOk result (All (IsPair spans.now.scenario) next.new.items) }
{
    next.clear();
    for pair in pairs {
        if is_follower(spans, reached, *pair) {
            next.push(*pair)?;
        }
    }
    Ok(())
}

/// Whether a pair follows a reached one.
fn is_follower(spans: &Spans, reached: &[Pair], next: Pair) -> bool
    requires reached { All (IsPair spans.now.scenario) reached.now }
    requires next { IsPair spans.now.scenario next }
    ensures { result ≡ is_follower (target_follows spans.now) reached.now next }
{
    for pair in reached {
        if spans.follows(*pair, next) {
            return true;
        }
    }
    false
}
