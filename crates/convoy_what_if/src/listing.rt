ghost use Rattle.std.specs.Prelude.{◌≡◌, ◌+◌, ◌++◌, ◌&&◌, ◌==◌, IfOk, OnOk, length};
ghost use Rattle.std.specs.List.{flat_map, list_any};
ghost use Rattle.convoy_scenario.specs.declared.sender.Sender.TheVariants.{Client, Group};
ghost use Rattle.convoy_scenario.specs.Scenario.{message_numbers};
ghost use Rattle.convoy_packets.specs.Packets.{packets_of};
ghost use Rattle.convoy_what_if.specs.Changes.{can_narrow, changes_of, client_places, goes_between, group_numbers, link_changes, message_changes, sender_changes};

use super::kinds::Change;
use convoy_packets::{Instance, Packet};
use convoy_scenario::lookup::sender_of;
use convoy_scenario::{Sender, is_same_sender};
use std::alloc::{AllocError, Global};

/// All changes that there are of a scenario (docs/CALLING.md, "Changes of one thing"): first none, then each
/// message left out but the one of which the latency is asked, and then each link on which packets go and
/// whose range is more than one tick, at its least and at its most. Links stand by sender, clients first, by
/// their places, and then by the group that they lead to. Fails where memory runs out, and else never.
pub fn changes_of(alloc: Global, instance: &Instance) -> Result<Vec<Change>, AllocError>
    ensures { IfOk result (λ changes. changes.items ≡ changes_of instance.now) }
{
    let mut changes = Vec::new(alloc);
    changes.push(Change::Nothing)?;
    push_messages(instance, &mut changes)?;
    push_clients(instance, &mut changes)?;
    push_groups(instance, &mut changes)?;
    Ok(changes)
}

/// Appends the changes that leave a message out.
fn push_messages(instance: &Instance, changes: &mut Vec<Change>) -> Result<(), AllocError>
    ensures { OnOk result (changes.new.items ≡ changes.old.items ++ flat_map (message_changes instance.now) (message_numbers instance.now)) }
{
    for message in 0..instance.message_count() {
        push_message(instance, message, changes)?;
    }
    Ok(())
}

/// Appends the change that leaves the message out, unless it is the one of which the latency is asked.
fn push_message(
    instance: &Instance,
    message: usize,
    changes: &mut Vec<Change>,
) -> Result<(), AllocError>
    ensures { OnOk result (changes.new.items ≡ changes.old.items ++ message_changes instance.now message) }
{
    if message != instance.target_message() {
        changes.push(Change::Without { message })?;
    }
    Ok(())
}

/// Appends the changes of the links that lead from clients: at no named place, and at each of the places.
fn push_clients(instance: &Instance, changes: &mut Vec<Change>) -> Result<(), AllocError>
    ensures { OnOk result (changes.new.items
        ≡ changes.old.items ++ flat_map (λ p. sender_changes instance.now (Client p)) (client_places instance.now)) }
{
    for place in 0..client_count(instance) {
        push_sender(instance, Sender::Client(place), changes)?;
    }
    Ok(())
}

/// At how many places clients are, that which has no name among them.
fn client_count(instance: &Instance) -> usize
    ensures { result ≡ length instance.now.places + 1 }
{
    instance.scenario().place_count() + 1
}

/// Appends the changes of the links that lead from a group.
fn push_groups(instance: &Instance, changes: &mut Vec<Change>) -> Result<(), AllocError>
    ensures { OnOk result (changes.new.items
        ≡ changes.old.items ++ flat_map (λ g. sender_changes instance.now (Group g)) (group_numbers instance.now)) }
{
    for group in 0..instance.group_count() {
        push_sender(instance, Sender::Group(group), changes)?;
    }
    Ok(())
}

/// Appends the changes of the links that lead from that sender.
fn push_sender(
    instance: &Instance,
    sender: Sender,
    changes: &mut Vec<Change>,
) -> Result<(), AllocError>
    ensures { OnOk result (changes.new.items ≡ changes.old.items ++ sender_changes instance.now sender) }
{
    for to in 0..instance.group_count() {
        push_link(instance, sender, to, changes)?;
    }
    Ok(())
}

/// Appends the changes of one link, if it can be narrowed.
fn push_link(
    instance: &Instance,
    sender: Sender,
    to: usize,
    changes: &mut Vec<Change>,
) -> Result<(), AllocError>
    ensures { OnOk result (changes.new.items ≡ changes.old.items ++ link_changes instance.now sender to) }
{
    if can_narrow(instance, sender, to) {
        changes.push(Change::AtLeast { sender, to })?;
        changes.push(Change::AtMost { sender, to })?;
    }
    Ok(())
}

/// Whether some packet goes from the sender to the group, and may take longer than its least.
fn can_narrow(instance: &Instance, sender: Sender, to: usize) -> bool
    ensures { result ≡ can_narrow instance.now sender to }
{
    let (least, most) = instance.scenario().range_between(sender, to);
    least < most && is_travelled(instance, sender, to)
}

/// Whether some packet goes from the sender to the group.
fn is_travelled(instance: &Instance, sender: Sender, to: usize) -> bool
    ensures { result ≡ list_any (goes_between instance.now sender to) (packets_of instance.now) }
{
    let table = instance.table();
    let mut travelled = false;
    for place in 0..table.len() {
        travelled |= goes_between(instance, sender, to, table.packet(place));
    }
    travelled
}

/// Whether the packet travels from the sender to the group.
fn goes_between(instance: &Instance, sender: Sender, to: usize, packet: Packet) -> bool
    ensures { result ≡ goes_between instance.now sender to packet }
{
    match packet {
        Packet::Wait { .. } => false,
        Packet::Multicast {
            message,
            to: receiver,
        } => is_same_sender(sender, sender_of(instance.scenario(), message)) && to == receiver,
        Packet::Propose {
            from,
            to: receiver,
            ..
        } => is_same_sender(sender, Sender::Group(from)) && to == receiver,
    }
}
