//! The shares of packets, and their sum.

ghost use Rattle.std.specs.Prelude.{◌≡◌, ◌&&◌, ◌≤◌, find, option_map, Some, IfSome};
ghost use Rattle.std.specs.List.{list_all};
ghost use Rattle.std.specs.Option.{option_copied};
ghost use Rattle.std.specs.Str.{bytes_eq};
ghost use Rattle.convoy_draft.specs.Checks.{is_among, is_named_alike};
ghost use Rattle.convoy_scenario.specs.Naming.{sender_name};
ghost use Rattle.convoy_outside.specs.Sums.{leads, name_home, name_way, outside_of, outside_told, share_between, share_of};

use convoy_packets::{Instance, Packet};
use convoy_scenario::lookup::sender_of;
use convoy_scenario::naming::{group_name, place_name};
use convoy_scenario::{Name, Scenario, Sender};
use convoy_toml::{LinkEnds, LinkShare, WHOLE_SHARE};

/// In at most how many billionths of runs some packet of a scenario leaves its range, by the shares that its links tell; None
/// where they tell none.
pub fn outside_told(shares: &[LinkShare], instance: &Instance) -> Option<u64>
    ensures { result ≡ outside_told shares.now instance.now }
{
    if shares.is_empty() {
        return None;
    }
    Some(outside_of(shares, instance))
}

/// The sum of the shares of all packets, which is no more than the whole.
#[tactic(auto, unfolding(crate::specs::Sums::outside_of))]
fn outside_of(shares: &[LinkShare], instance: &Instance) -> u64
    ensures { result ≡ outside_of shares.now instance.now }
{
    let table = instance.table();
    let mut sum = 0;
    for place in 0..table.len() {
        let share = share_of(shares, instance.scenario(), table.packet(place));
        sum = WHOLE_SHARE.min(share.saturating_add(sum));
    }
    sum
}

/// The share of a packet.
fn share_of(shares: &[LinkShare], scenario: &Scenario, packet: Packet) -> u64
    ensures { result ≡ share_of shares.now scenario.now packet }
{
    match packet {
        Packet::Wait { .. } => 0,
        Packet::Multicast { message, to } => {
            let sender = sender_name(scenario, sender_of(scenario, message));
            share_between(shares, sender, group_name(scenario, to))
        }
        Packet::Propose { from, to, .. } => {
            let sender = Some(group_name(scenario, from));
            share_between(shares, sender, group_name(scenario, to))
        }
    }
}

/// The name of a sender that is a group, or of the place of a client, where that has a name.
fn sender_name(scenario: &Scenario, sender: Sender) -> Option<&str>
    ensures { option_map (λ name. name.now) result ≡ sender_name scenario.now sender }
{
    match sender {
        Sender::Client(0) => None,
        Sender::Client(place) => Some(place_name(scenario, place)),
        Sender::Group(group) => Some(group_name(scenario, group)),
    }
}

/// The share of the packets from one place to another.
fn share_between(shares: &[LinkShare], sender: Option<&str>, to: &str) -> u64
    ensures { result ≡ share_between shares.now (option_map (λ name. name.now) sender.entry) to.now }
{
    match leading(shares, sender, to) {
        Some(share) => share.billionths,
        None => 0,
    }
}

/// The first share of links that lead from the one place to the other.
fn leading<'a>(shares: &'a [LinkShare], sender: Option<&str>, to: &str) -> Option<&'a LinkShare>
    ensures { option_copied result
        ≡ find (λ share. leads share.ends (option_map (λ name. name.now) sender.entry) to.now) shares.now }
{
    shares.iter().find(|share| leads(&share.ends, sender, to))
}

/// Whether links with these ends lead from the one place to the other: from a group to itself only where they lead to no
/// other place.
fn leads(ends: &LinkEnds, sender: Option<&str>, to: &str) -> bool
    ensures { result ≡ leads ends.now (option_map (λ name. name.now) sender.entry) to.now }
{
    name_way(ends, sender, to) && (!is_named_alike(sender, to) || name_home(ends))
}

/// Whether both places are one group.
fn is_named_alike(sender: Option<&str>, to: &str) -> bool
    ensures { result ≡ is_named_alike (option_map (λ name. name.now) sender.entry) (Some to.now) }
{
    match sender {
        Some(name) => name == to,
        None => false,
    }
}

/// Whether the ends name no way but that from one group to itself.
fn name_home(ends: &LinkEnds) -> bool
    ensures { result ≡ name_home ends.now }
{
    match &ends.senders {
        Some(names) => are_alike(names, &ends.to),
        None => false,
    }
}

/// Whether each of the names is each of the others.
fn are_alike(names: &[Name], others: &[Name]) -> bool
    ensures { result ≡ list_all (λ name. list_all (bytes_eq name) others.now) names.now }
{
    names.iter().all(|name| are_all(name, others))
}

/// Whether the names are all the same one.
fn are_all(name: &Name, names: &[Name]) -> bool
    ensures { result ≡ list_all (bytes_eq name.now) names.now }
{
    names.iter().all(|other| name.is_same(other))
}

/// Whether the ends name the way from the one place to the other.
fn name_way(ends: &LinkEnds, sender: Option<&str>, to: &str) -> bool
    ensures { result ≡ name_way ends.now (option_map (λ name. name.now) sender.entry) to.now }
{
    match (&ends.senders, sender) {
        (None, None) => is_among(to, &ends.to),
        (Some(names), Some(name)) => {
            lead_out(name, to, names, &ends.to)
                || (ends.both && lead_out(name, to, &ends.to, names))
        }
        _ => false,
    }
}

/// Whether the one name is among the one list, and the other among the other.
fn lead_out(name: &str, to: &str, names: &[Name], others: &[Name]) -> bool
    ensures { result ≡ (is_among name.now names.now && is_among to.now others.now) }
{
    is_among(name, names) && is_among(to, others)
}

/// Whether the name is among these.
fn is_among(name: &str, names: &[Name]) -> bool
    ensures { result ≡ is_among name.now names.now }
{
    names.iter().any(|other| name == other.as_str())
}
