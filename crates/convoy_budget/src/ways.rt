ghost use Rattle.std.specs.Prelude.{◌≡◌, ◌+◌, ◌++◌, ◌&&◌, ◌==◌, IfOk, OnOk, length};
ghost use Rattle.std.specs.List.{flat_map, list_any};
ghost use Rattle.convoy_scenario.specs.declared.sender.Sender.TheVariants.{Client, Group};
ghost use Rattle.convoy_packets.specs.Packets.{packets_of};
ghost use Rattle.convoy_budget.specs.Ways.{all_ways, client_places, goes_on, group_numbers, is_same_way, is_travelled, way_to, ways_from, ways_of};

use super::kinds::Way;
use convoy_packets::{Instance, Packet};
use convoy_scenario::lookup::sender_of;
use convoy_scenario::{Scenario, Sender, is_same_sender};
use std::alloc::{AllocError, Global};

/// The ways on which packets of an instance's scenario travel: those of clients first, by their places, and then by the
/// group that sends, and each time by the group that they lead to. Fails where memory runs out, and else never.
pub fn ways_of(alloc: Global, instance: &Instance) -> Result<Vec<Way>, AllocError>
    ensures { IfOk result (λ ways. ways.items ≡ ways_of instance.now) }
{
    let all = all_ways(alloc, instance.scenario())?;
    let mut ways = Vec::new(alloc);
    for way in &all {
        if is_travelled(instance, *way) {
            ways.push(*way)?;
        }
    }
    Ok(ways)
}

/// All ways from a client or a group to a group: to itself where it has a link to itself.
pub(crate) fn all_ways(alloc: Global, scenario: &Scenario) -> Result<Vec<Way>, AllocError>
    ensures { IfOk result (λ ways. ways.items ≡ all_ways scenario.now) }
{
    let mut ways = Vec::new(alloc);
    push_clients(scenario, &mut ways)?;
    push_groups(scenario, &mut ways)?;
    Ok(ways)
}

/// Appends the ways from clients: at no named place, and at each of the places.
fn push_clients(scenario: &Scenario, ways: &mut Vec<Way>) -> Result<(), AllocError>
    ensures { OnOk result (ways.new.items
        ≡ ways.old.items ++ flat_map (λ p. ways_from scenario.now (Client p)) (client_places scenario.now)) }
{
    for place in 0..client_count(scenario) {
        push_ways(scenario, Sender::Client(place), ways)?;
    }
    Ok(())
}

/// At how many places clients are, that which has no name among them.
fn client_count(scenario: &Scenario) -> usize
    ensures { result ≡ length scenario.now.places + 1 }
{
    scenario.place_count() + 1
}

/// Appends the ways from all groups.
fn push_groups(scenario: &Scenario, ways: &mut Vec<Way>) -> Result<(), AllocError>
    ensures { OnOk result (ways.new.items
        ≡ ways.old.items ++ flat_map (λ g. ways_from scenario.now (Group g)) (group_numbers scenario.now)) }
{
    for group in 0..scenario.group_count() {
        push_ways(scenario, Sender::Group(group), ways)?;
    }
    Ok(())
}

/// Appends the ways from a sender.
fn push_ways(scenario: &Scenario, sender: Sender, ways: &mut Vec<Way>) -> Result<(), AllocError>
    ensures { OnOk result (ways.new.items ≡ ways.old.items ++ ways_from scenario.now sender) }
{
    for to in 0..scenario.group_count() {
        push_way(scenario, sender, to, ways)?;
    }
    Ok(())
}

/// Appends the way from a sender to a group, if it takes time.
fn push_way(
    scenario: &Scenario,
    sender: Sender,
    to: usize,
    ways: &mut Vec<Way>,
) -> Result<(), AllocError>
    ensures { OnOk result (ways.new.items ≡ ways.old.items ++ way_to scenario.now sender to) }
{
    if scenario.takes_time(sender, to) {
        ways.push(Way { sender, to })?;
    }
    Ok(())
}

/// Whether some packet travels on the way.
fn is_travelled(instance: &Instance, way: Way) -> bool
    ensures { result ≡ is_travelled instance.now way }
{
    let table = instance.table();
    let mut travelled = false;
    for place in 0..table.len() {
        travelled |= goes_on(instance, way, table.packet(place));
    }
    travelled
}

/// Whether the packet travels on the way.
fn goes_on(instance: &Instance, way: Way, packet: Packet) -> bool
    ensures { result ≡ goes_on instance.now way packet }
{
    match packet {
        Packet::Wait { .. } => false,
        Packet::Multicast { message, to } => {
            is_same_sender(way.sender, sender_of(instance.scenario(), message)) && way.to == to
        }
        Packet::Propose { from, to, .. } => {
            is_same_sender(way.sender, Sender::Group(from)) && way.to == to
        }
    }
}

/// Whether the two are one way.
pub(crate) fn is_same_way(way: Way, other: Way) -> bool
    ensures { result ≡ is_same_way way other }
{
    is_same_sender(way.sender, other.sender) && way.to == other.to
}
