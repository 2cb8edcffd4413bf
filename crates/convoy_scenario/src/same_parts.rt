//! Whether two scenarios are the same in one part.

ghost use Rattle.std.specs.Prelude.{◌≡◌, ◌↔◌, ◌<◌, [], length, slice_index_or, IsTrue};
ghost use Rattle.convoy_scenario.specs.Scenario.{message_at, group_name_at};
ghost use Rattle.convoy_scenario.specs.Differences.{AgreeIn};
ghost use Rattle.convoy_scenario.specs.declared.part.Part.TheVariants.{Groups, Links, Multicasts, Places, Target};

use super::link::Link;
use super::scenario::Scenario;
use convoy_draft::Duration;

/// Whether the two lengths of a tick are the same, or neither is known.
pub(crate) fn is_same_tick(tick: Option<Duration>, other: Option<Duration>) -> bool
    ensures { IsTrue result ↔ (other ≡ tick) }
{
    match (tick, other) {
        (None, None) => true,
        (Some(tick), Some(other)) => tick.nanoseconds() == other.nanoseconds(),
        _ => false,
    }
}

/// Whether the groups have the same names, in the same order.
pub(crate) fn has_same_groups(wanted: &Scenario, other: &Scenario) -> bool
    ensures { IsTrue result ↔ AgreeIn wanted.now other.now Groups }
{
    if other.group_count() != wanted.group_count() {
        return false;
    }
    for group in 0..wanted.group_count() {
        if !has_same_group(wanted, other, group) {
            return false;
        }
    }
    true
}

/// Whether a group has the same name in both.
fn has_same_group(wanted: &Scenario, other: &Scenario, group: usize) -> bool
    requires here { group < length wanted.now.groups }
    requires there { group < length other.now.groups }
    ensures { IsTrue result ↔ (group_name_at other.now group ≡ group_name_at wanted.now group) }
{
    other.group_name(group) == wanted.group_name(group)
}

/// Whether the places have the same names, in the same order.
pub(crate) fn has_same_places(wanted: &Scenario, other: &Scenario) -> bool
    ensures { IsTrue result ↔ AgreeIn wanted.now other.now Places }
{
    if other.place_count() != wanted.place_count() {
        return false;
    }
    for place in 0..wanted.place_count() {
        if !has_same_place(wanted, other, place) {
            return false;
        }
    }
    true
}

/// Whether a place has the same name in both, where 0 is the first.
fn has_same_place(wanted: &Scenario, other: &Scenario, place: usize) -> bool
    requires here { place < length wanted.now.places }
    requires there { place < length other.now.places }
    ensures { IsTrue result ↔ (slice_index_or other.now.places place [] ≡ slice_index_or wanted.now.places place []) }
{
    other.place_name(place) == wanted.place_name(place)
}

/// Whether the links are the same.
pub(crate) fn has_same_links(wanted: &Scenario, other: &Scenario) -> bool
    ensures { IsTrue result ↔ AgreeIn wanted.now other.now Links }
{
    are_same_links(wanted.links(), other.links())
}

fn are_same_links(links: &[Link], others: &[Link]) -> bool
    ensures { IsTrue result ↔ (others.now ≡ links.now) }
{
    if others.len() != links.len() {
        return false;
    }
    for i in 0..links.len() {
        if !is_same_link(links[i], others[i]) {
            return false;
        }
    }
    true
}

fn is_same_link(link: Link, other: Link) -> bool
    ensures { IsTrue result ↔ (other ≡ link) }
{
    other.sender == link.sender
        && other.to == link.to
        && other.least == link.least
        && other.most == link.most
        && other.stamps == link.stamps
}

/// Whether the messages are the same, in the same order.
pub(crate) fn has_same_messages(wanted: &Scenario, other: &Scenario) -> bool
    ensures { IsTrue result ↔ AgreeIn wanted.now other.now Multicasts }
{
    if other.message_count() != wanted.message_count() {
        return false;
    }
    for message in 0..wanted.message_count() {
        if !has_same_message(wanted, other, message) {
            return false;
        }
    }
    true
}

/// Whether a message is the same in both.
fn has_same_message(wanted: &Scenario, other: &Scenario, message: usize) -> bool
    requires here { message < length wanted.now.multicasts }
    requires there { message < length other.now.multicasts }
    ensures { IsTrue result ↔ (message_at other.now message ≡ message_at wanted.now message) }
{
    is_same_name(other.message_name(message), wanted.message_name(message))
        && other.sender(message) == wanted.sender(message)
        && are_same_groups(other.destinations(message), wanted.destinations(message))
        && other.issue_tick(message) == wanted.issue_tick(message)
        && other.longest_wait(message) == wanted.longest_wait(message)
}

fn is_same_name(name: &str, other: &str) -> bool
    ensures { IsTrue result ↔ (name.now ≡ other.now) }
{
    name == other
}

fn are_same_groups(groups: &[usize], others: &[usize]) -> bool
    ensures { IsTrue result ↔ (groups.now ≡ others.now) }
{
    groups == others
}

/// Whether the latency of the same message is asked at the same group, both by number.
pub(crate) fn has_same_target(wanted: &Scenario, other: &Scenario) -> bool
    ensures { IsTrue result ↔ AgreeIn wanted.now other.now Target }
{
    other.target_message() == wanted.target_message()
        && other.target_group() == wanted.target_group()
}
