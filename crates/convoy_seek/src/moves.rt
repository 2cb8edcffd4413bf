//! Changes of a schedule by chance, as a climb makes them.

ghost use Rattle.std.specs.Prelude.{◌≤◌, ◌<◌, length};
ghost use Rattle.convoy_packets.specs.Assignment.{IsAssignment, IsWithin};
ghost use Rattle.convoy_packets.specs.Table.{table_of};

use crate::chance::Chance;
use crate::meeting::meeting_delay;
use crate::sweep::Sweep;
use crate::ties::{flip_ranks, is_real};
use crate::waits::{some_may_wait, wait_by_chance};
use convoy_packets::{Instance, Packet, Schedule};
use std::alloc::{AllocError, Global};

/// Changes a schedule by chance: in real time in one case of five ranks of its moments, and else delays. The error is that
/// memory ran out.
pub fn change(
    alloc: Global,
    instance: &Instance,
    schedule: &mut Schedule,
    chance: &mut Chance,
) -> Result<(), AllocError>
    requires some { 0 < length (table_of instance.now).packets }
    requires assignment { IsAssignment instance.now schedule.old }
    ensures { IsAssignment instance.now schedule.new }
{
    if is_real(instance) && chance.below(5) == 0 {
        return flip_ranks(alloc, instance, schedule, chance);
    }
    change_delays(instance, schedule, chance);
    Ok(())
}

/// Changes delays: in one case of four by a sweep, else those of one to three packets.
fn change_delays(instance: &Instance, schedule: &mut Schedule, chance: &mut Chance)
    requires some { 0 < length (table_of instance.now).packets }
    requires assignment { IsAssignment instance.now schedule.old }
    ensures { IsAssignment instance.now schedule.new }
{
    if chance.below(4) == 0 {
        sweep(instance, schedule, chance);
    } else {
        let more = chance.below(3);
        for _ in 0..more + 1 {
            change_packet(instance, schedule, chance);
        }
    }
}

/// Gives a packet by chance another delay by chance.
#[tactic(auto, using(crate::proofs::Schedules::length_within))]
fn change_packet(instance: &Instance, schedule: &mut Schedule, chance: &mut Chance)
    requires some { 0 < length (table_of instance.now).packets }
    requires assignment { IsAssignment instance.now schedule.old }
    ensures { IsAssignment instance.now schedule.new }
{
    let table = instance.table();
    let i = place_by_chance(instance, chance);
    let (packet, range) = (table.packet(i), table.range(i));
    let delay = other_delay(instance, schedule, packet, range, chance);
    schedule.set(i, delay);
}

/// Gives many packets of a message the same end of their ranges.
fn sweep(instance: &Instance, schedule: &mut Schedule, chance: &mut Chance)
    requires some { 0 < length (table_of instance.now).packets }
    requires assignment { IsAssignment instance.now schedule.old }
    ensures { IsAssignment instance.now schedule.new }
{
    let table = instance.table();
    let first = chance.below(table.len());
    let sweep = Sweep::over(table.packet(first), chance);
    sweep.change(table, schedule);
}

/// The place of a packet by chance: every second time, if some message may wait, that of a wait.
fn place_by_chance(instance: &Instance, chance: &mut Chance) -> usize
    requires { 0 < length (table_of instance.now).packets }
    ensures { result < length (table_of instance.now).packets }
{
    let count = instance.table().len();
    if some_may_wait(instance)
        && chance.below(2) == 0
        && let Some(place) = wait_by_chance(instance, chance)
        && usize::from(place) < count
    {
        return usize::from(place);
    }
    chance.below(count)
}

/// Another delay of a packet by chance, in ticks: of a wait, and in real time of any packet, every second
/// time one by which two moments meet, if there is one.
fn other_delay(
    instance: &Instance,
    schedule: &Schedule,
    packet: Packet,
    range: (u16, u16),
    chance: &mut Chance,
) -> u16
    requires { range.0 ≤ range.1 }
    ensures { IsWithin range result }
{
    if (is_real(instance) || matches!(packet, Packet::Wait { .. }))
        && chance.below(2) == 0
        && let Some(delay) = meeting_delay(instance, schedule, packet, range, chance)
    {
        return delay;
    }
    chance.delay(range)
}
