ghost use Rattle.std.specs.Prelude.{◌≡◌, ◌<◌, ◌+◌, ◌^◌, ◌==◌, ◌||◌, nat_le, slice_index_or};
ghost use Rattle.convoy_scenario.specs.Room.{has_room};
ghost use Rattle.convoy_scenario.specs.Scenario.{Scenario, no_message};

use super::scenario::Multicast;
use convoy_draft::{GREATEST_AT, LONGEST_WAIT};

/// Whether among these messages the target has room to wait as long as it may, whatever else the scenario
/// says.
pub fn has_room(multicasts: &[Multicast], target: usize) -> bool
    ensures { (scenario : Scenario) → result
        ≡ has_room (record scenario { multicasts = multicasts.now; target_message = target }) }
{
    let last = first_tick(multicasts, target) + longest_wait(multicasts, target);
    last <= u64::from(GREATEST_AT)
        && (0..multicasts.len()).all(|message| is_target_or_has_room(multicasts, target, message))
}

/// Whether the message is the target, or its window with that of the target is no longer than one may be.
fn is_target_or_has_room(multicasts: &[Multicast], target: usize, message: usize) -> bool
    ensures { result ≡ (message == target
        || nat_le ((slice_index_or multicasts.now message no_message).longest_wait
        + (slice_index_or multicasts.now target no_message).longest_wait) LONGEST_WAIT) }
{
    let both = longest_wait(multicasts, message) + longest_wait(multicasts, target);
    message == target || both <= u64::from(LONGEST_WAIT)
}

/// The first tick at which a message may be issued; 0 where there is no such message.
fn first_tick(multicasts: &[Multicast], message: usize) -> u64
    ensures value { result ≡ (slice_index_or multicasts.now message no_message).at }
    ensures small { result < 2 ^ 32 }
{
    match multicasts.get(message) {
        Some(multicast) => u64::from(multicast.at),
        None => 0,
    }
}

/// How many ticks a message waits at most; 0 where there is no such message.
fn longest_wait(multicasts: &[Multicast], message: usize) -> u64
    ensures value { result ≡ (slice_index_or multicasts.now message no_message).longest_wait }
    ensures small { result < 2 ^ 32 }
{
    match multicasts.get(message) {
        Some(multicast) => u64::from(multicast.longest_wait),
        None => 0,
    }
}
