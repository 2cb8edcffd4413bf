ghost use Rattle.std.specs.Prelude.{◌≡◌, ℕ, ◌*◌, ◌<◌, ◌≤◌, nat_le, length, All};
ghost use Rattle.std.specs.List.{filter};
ghost use Rattle.convoy_sure.specs.SureLeads.{lead_at, with_number, top_of};

use super::sure::lead_at;
use convoy_scenario::{MOST_GROUPS, MOST_MULTICASTS};

/// How many of the messages have a lead over them at a group that is no less.
fn count_from(leads: &[u32], group: usize, messages: &[usize], least: u32) -> u32
    requires known { All (λ z. z < MOST_MULTICASTS) messages.now }
    requires few { length messages.now ≤ MOST_MULTICASTS }
    requires group { group < MOST_GROUPS }
    ensures count { result ≡ length (filter (λ w. nat_le least (lead_at leads.now w group)) messages.now) }
    ensures few { result ≤ MOST_MULTICASTS }
{
    let mut count = 0;
    for message in messages {
        if least <= lead_at(leads, *message, group) {
            count += 1;
        }
    }
    count
}

/// The lead over a message at a group and the number of those that are no less; 0 where none is
/// known.
fn with_number(leads: &[u32], group: usize, messages: &[usize], message: usize) -> u32
    requires message { message < MOST_MULTICASTS }
    requires known { All (λ z. z < MOST_MULTICASTS) messages.now }
    requires few { length messages.now ≤ MOST_MULTICASTS }
    requires group { group < MOST_GROUPS }
    requires small { All (λ l. l ≤ u16.MAX) leads.now }
    ensures { result ≡ with_number (λ z. lead_at leads.now z group) messages.now message }
{
    let lead = lead_at(leads, message, group);
    if lead == 0 {
        0
    } else {
        lead + count_from(leads, group, messages, lead)
    }
}

/// The top of the leads over some messages at a group: the greatest sum of a lead, as it stands in the
/// table, and the number of those that are no less; 0 where none is known (docs/LEADS.md, "Sure leads").
pub fn top_of(leads: &[u32], group: usize, messages: &[usize]) -> u32
    requires known { All (λ z. z < MOST_MULTICASTS) messages.now }
    requires few { length messages.now ≤ MOST_MULTICASTS }
    requires group { group < MOST_GROUPS }
    requires small { All (λ l. l ≤ u16.MAX) leads.now }
    ensures { result ≡ top_of (λ z. lead_at leads.now z group) messages.now }
{
    let mut top = 0;
    for message in messages {
        top = top.max(with_number(leads, group, messages, *message));
    }
    top
}
