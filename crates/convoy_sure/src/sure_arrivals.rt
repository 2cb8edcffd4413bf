ghost use Rattle.std.specs.Prelude.{◌≡◌, ◌<◌, ◌≤◌, nat_lt, length, All};
ghost use Rattle.std.specs.List.{filter};
ghost use Rattle.convoy_sure.specs.SureLeads.{is_earlier, is_first, may_be_earlier};
ghost use Rattle.convoy_sure.specs.Windows.{tables_by};

use super::messages::Messages;
use super::windows::Windows;
use convoy_scenario::{MOST_GROUPS, MOST_MULTICASTS, Time};

/// Whether the arrival of a message at a tick is before that of another message at another tick,
/// where ties fall in the fixed order.
pub(crate) fn is_first(tick: u32, message: usize, other_tick: u32, other: usize) -> bool
    ensures { result ≡ is_first tick message other_tick other }
{
    tick < other_tick || (tick == other_tick && message < other)
}

/// Whether the arrival of a message at a tick is surely before that of another message at another
/// tick. In real time it is only where its tick is less.
pub fn is_earlier(time: Time, tick: u32, message: usize, other_tick: u32, other: usize) -> bool
    ensures { result ≡ is_earlier time tick message other_tick other }
{
    match time {
        Time::Ticks => is_first(tick, message, other_tick, other),
        Time::Real => tick < other_tick,
    }
}

/// Whether the arrival of a message at a tick may be before that of another message at another tick.
/// In real time it may be wherever its tick is not greater.
pub fn may_be_earlier(time: Time, tick: u32, message: usize, other_tick: u32, other: usize) -> bool
    ensures { result ≡ may_be_earlier time tick message other_tick other }
{
    match time {
        Time::Ticks => is_first(tick, message, other_tick, other),
        Time::Real => tick <= other_tick,
    }
}

/// Those of the messages to a group that surely arrive there after message `q`, which arrives there
/// by that tick.
pub fn those_after(
    windows: &Windows,
    audience: &[usize],
    time: Time,
    tick: u32,
    q: usize,
    group: usize,
) -> Messages
    requires known { All (λ z. z < MOST_MULTICASTS) audience.now }
    requires few { length audience.now ≤ MOST_MULTICASTS }
    requires group { group < MOST_GROUPS }
    ensures { result ≡ filter
        (λ z. is_earlier time tick q ((tables_by windows.now).times.least_arrival z group) z)
        audience.now }
{
    let mut after = Messages::new();
    for z in audience {
        if is_earlier(time, tick, q, windows.least_arrival(*z, group), *z) {
            after.push(*z);
        }
    }
    after
}

/// Those of the messages to a group that surely arrive there after that tick.
pub fn those_later(windows: &Windows, audience: &[usize], tick: u32, group: usize) -> Messages
    requires known { All (λ z. z < MOST_MULTICASTS) audience.now }
    requires few { length audience.now ≤ MOST_MULTICASTS }
    requires group { group < MOST_GROUPS }
    ensures { result ≡ filter
        (λ z. nat_lt tick ((tables_by windows.now).times.least_arrival z group)) audience.now }
{
    let mut later = Messages::new();
    for z in audience {
        if tick < windows.least_arrival(*z, group) {
            later.push(*z);
        }
    }
    later
}
