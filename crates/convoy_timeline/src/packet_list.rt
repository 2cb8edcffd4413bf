ghost use Rattle.std.specs.Prelude.{◌≡◌, ◌++◌, ◌<◌, None, OnErr, OnOk, IfOk, Some, length, string_bytes};
ghost use Rattle.std.specs.List.{flat_map, enumerate_from, slice_get};
ghost use Rattle.convoy_packets.specs.Assignment.{IsAssignment, range_of};
ghost use Rattle.convoy_timeline.specs.PacketLists.{packet_line, packet_text, packets_text, scheduled_packets_text};
ghost use Rattle.convoy_timeline.specs.PacketLists.{taken_text};

use convoy_packets::schedule_laws::delays_are_one_each;
use convoy_packets::{Instance, Packet, Schedule};
use convoy_scenario::lookup::sender_of;
use convoy_scenario::naming::{group_name, message_name, sender_word};
use convoy_scenario::{AllocResult, Scenario};
use std::alloc::Global;

/// Appends the list of an instance's packets and of the waits of its messages: for each, in packet order,
/// one of the lines
///
/// ```text
/// packet N: MESSAGE waits, 0 to MOST ticks
/// packet N: MESSAGE from SENDER to GROUP, LEAST to MOST ticks
/// packet N: proposal of MESSAGE from GROUP to GROUP, LEAST to MOST ticks
/// ```
///
/// where N is its number, from 0, SENDER a group or `client`, and the ticks are its range
/// (docs/FORMATS.md, "What `packets` writes"). Where memory runs out the vector is as it was.
pub fn write_packets(instance: &Instance, out: &mut Vec<u8>) -> AllocResult<()>
    ensures ok { OnOk result (out.new.items ≡ out.old.items ++ packets_text instance.now) }
    ensures err { OnErr result (out.new.items ≡ out.old.items) }
{
    let text = packets_text(*out.allocator(), instance)?;
    out.extend_from_slice(&text)
}

/// Appends the list of a scenario's packets as [`write_packets`] does, each line with the ticks that
/// a schedule of the scenario gives the packet or the wait, after `takes`. Where memory runs out the vector is as
/// it was.
pub fn write_scheduled_packets(
    instance: &Instance,
    schedule: &Schedule,
    out: &mut Vec<u8>,
) -> AllocResult<()>
    requires assignment { IsAssignment instance.now schedule.now }
    ensures ok { OnOk result (out.new.items ≡ out.old.items ++ scheduled_packets_text instance.now schedule.now) }
    ensures err { OnErr result (out.new.items ≡ out.old.items) }
{
    let text = scheduled_text(*out.allocator(), instance, schedule)?;
    out.extend_from_slice(&text)
}

/// The lines of all packets and waits.
fn packets_text(alloc: Global, instance: &Instance) -> AllocResult<Vec<u8>>
    ensures { IfOk result (λ text. text.items ≡ packets_text instance.now) }
{
    let (scenario, table) = (instance.scenario(), instance.table());
    let mut text = Vec::new(alloc);
    for i in 0..table.len() {
        let line = packet_line(alloc, scenario, i, table.packet(i), table.range(i), None)?;
        text.extend_from_slice(line.as_bytes())?;
    }
    Ok(text)
}

/// The lines of all packets and waits with their ticks.
fn scheduled_text(alloc: Global, instance: &Instance, schedule: &Schedule) -> AllocResult<Vec<u8>>
    requires assignment { IsAssignment instance.now schedule.now }
    ensures { IfOk result (λ text. text.items ≡ scheduled_packets_text instance.now schedule.now) }
{
    delays_are_one_each();
    let (scenario, table) = (instance.scenario(), instance.table());
    let mut text = Vec::new(alloc);
    for i in 0..table.len() {
        let delay = Some(schedule.delay(i));
        let line = packet_line(alloc, scenario, i, table.packet(i), table.range(i), delay)?;
        text.extend_from_slice(line.as_bytes())?;
    }
    Ok(text)
}

/// The line of a packet, of that number and range.
fn packet_line(
    alloc: Global,
    scenario: &Scenario,
    i: usize,
    packet: Packet,
    range: (u16, u16),
    delay: Option<u16>,
) -> AllocResult<String>
    ensures { range ≡ range_of scenario.now packet
        → IfOk result (λ line. string_bytes line ≡ packet_line scenario.now i packet delay) }
{
    let what = packet_text(alloc, scenario, packet)?;
    let taken = taken_text(alloc, delay)?;
    let (least, most) = range;
    format!(in alloc; "packet {i}: {what}, {least} to {most} ticks{taken}\n")
}

/// What a packet is, or which message waits.
#[tactic(auto, unfolding(crate::specs::PacketLists::packet_text))]
fn packet_text(alloc: Global, scenario: &Scenario, packet: Packet) -> AllocResult<String>
    ensures { IfOk result (λ text. string_bytes text ≡ packet_text scenario.now packet) }
{
    match packet {
        Packet::Wait { message } => {
            let name = message_name(scenario, message);
            format!(in alloc; "{name} waits")
        }
        Packet::Multicast { message, to } => {
            let name = message_name(scenario, message);
            let sender = sender_word(scenario, sender_of(scenario, message));
            let to = group_name(scenario, to);
            format!(in alloc; "{name} from {sender} to {to}")
        }
        Packet::Propose { message, from, to } => {
            let name = message_name(scenario, message);
            let from = group_name(scenario, from);
            let to = group_name(scenario, to);
            format!(in alloc; "proposal of {name} from {from} to {to}")
        }
    }
}

/// The ticks that a schedule gives a packet, if there is one.
#[tactic(auto, unfolding(crate::specs::PacketLists::taken_text))]
fn taken_text(alloc: Global, delay: Option<u16>) -> AllocResult<String>
    ensures { IfOk result (λ text. string_bytes text ≡ taken_text delay) }
{
    match delay {
        Some(delay) => format!(in alloc; ", takes {delay}"),
        None => Ok(String::new(alloc)),
    }
}
