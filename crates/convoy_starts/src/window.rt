ghost use Rattle.std.specs.Prelude.{◌≡◌, ℕ, ◌+◌, ◌-◌, ◌*◌, ◌==◌, ◌<◌, ◌≤◌, length, min, All};
ghost use Rattle.std.specs.List.{filter};
ghost use Rattle.convoy_sure.specs.SureLeads.{lead_at};
ghost use Rattle.convoy_starts.specs.Starts.{capped, may_be_above, room_above, window};

use convoy_scenario::{MOST_GROUPS, MOST_MULTICASTS};
use convoy_sure::lead_at;

/// A number no greater than such a lead leaves room for.
pub(crate) fn capped(sure: u32, lead: u32, value: u32) -> u32
    requires { sure < u32.MAX }
    ensures small { result ≤ value }
    ensures value { result ≡ capped sure lead value }
{
    if lead == 0 {
        value
    } else {
        value.min((sure + 1).saturating_sub(lead))
    }
}

/// Whether a message over which there is such a lead may have a stamp above `above`.
fn may_be_above(sure: u32, above: u32, lead: u32) -> bool
    ensures { result ≡ may_be_above sure above lead }
{
    lead == 0 || (above <= sure && lead <= sure - above)
}

/// The number `above`, and how many of the messages may have stamps above it.
fn room_above(leads: &[u32], group: usize, messages: &[usize], sure: u32, above: u32) -> u32
    requires known { All (λ z. z < MOST_MULTICASTS) messages.now }
    requires few { length messages.now ≤ MOST_MULTICASTS }
    requires group { group < MOST_GROUPS }
    requires small { above ≤ u32.MAX - MOST_MULTICASTS }
    ensures { result ≡ room_above sure (λ z. lead_at leads.now z group) messages.now above }
{
    let mut room = above;
    for message in messages {
        if may_be_above(sure, above, lead_at(leads, *message, group)) {
            room += 1;
        }
    }
    room
}

/// How many of the messages no lead is known over: these may have stamps above any number.
fn count_unled(leads: &[u32], group: usize, messages: &[usize]) -> u32
    requires known { All (λ z. z < MOST_MULTICASTS) messages.now }
    requires few { length messages.now ≤ MOST_MULTICASTS }
    requires group { group < MOST_GROUPS }
    ensures value { result ≡ length (filter (λ z. lead_at leads.now z group == 0) messages.now) }
    ensures few { result ≤ MOST_MULTICASTS }
{
    let mut unled = 0;
    for message in messages {
        if lead_at(leads, *message, group) == 0 {
            unled += 1;
        }
    }
    unled
}

/// The lesser one of a number and the room above another number, for messages of which so many are without a lead.
/// Where these take as much room already the others are not looked at.
#[tactic(auto, using(crate::proofs::Rooms::unled_in_room))]
fn least_room(
    leads: &[u32],
    group: usize,
    messages: &[usize],
    sure: u32,
    above: u32,
    unled: u32,
    least: u32,
) -> u32
    requires known { All (λ z. z < MOST_MULTICASTS) messages.now }
    requires few { length messages.now ≤ MOST_MULTICASTS }
    requires group { group < MOST_GROUPS }
    requires small { above ≤ u32.MAX - MOST_MULTICASTS }
    requires some { unled ≤ MOST_MULTICASTS }
    requires unled { unled ≡ length (filter (λ z. lead_at leads.now z group == 0) messages.now) }
    ensures { result ≡ min least (room_above sure (λ z. lead_at leads.now z group) messages.now above) }
{
    if least <= above + unled {
        least
    } else {
        least.min(room_above(leads, group, messages, sure, above))
    }
}

/// The most that a group's clock can be which starts at a value and gives stamps to some of the
/// messages: it exceeds no number by more than messages may have stamps above that.
pub(crate) fn window(leads: &[u32], group: usize, messages: &[usize], sure: u32, value: u32) -> u32
    requires known { All (λ z. z < MOST_MULTICASTS) messages.now }
    requires few { length messages.now ≤ MOST_MULTICASTS }
    requires group { group < MOST_GROUPS }
    requires small { value ≤ u32.MAX - 2 * MOST_MULTICASTS }
    ensures small { result ≤ value + MOST_MULTICASTS }
    ensures value { result ≡ window sure (λ z. lead_at leads.now z group) messages.now value }
{
    let many = messages.len() as u32;
    let unled = count_unled(leads, group, messages);
    let mut least = value + many;
    for above in value..value + many {
        least = least_room(leads, group, messages, sure, above, unled, least);
    }
    least
}
