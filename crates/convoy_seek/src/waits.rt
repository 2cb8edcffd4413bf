//! The waits of messages that may be issued at any tick of several.

ghost use Rattle.std.specs.Prelude.{◌<◌, ◌≤◌, length};

use crate::chance::Chance;
use crate::times::{earliest_issue, settling};
use convoy_packets::{Instance, Schedule};

/// Whether some message may wait.
pub fn some_may_wait(instance: &Instance) -> bool {
    next_wait(instance, 0).is_some()
}

/// The place of the wait of a message by chance, among those that may wait; None where there are none,
/// and then nothing is drawn by chance.
pub fn wait_by_chance(instance: &Instance, chance: &mut Chance) -> Option<u16> {
    let first = next_wait(instance, 0)?;
    if instance.message_count() == 0 {
        return None;
    }
    let message = chance.below(instance.message_count());
    next_wait(instance, message).or(Some(first))
}

/// The place of the wait of the first message that may wait, from that message on.
fn next_wait(instance: &Instance, message: usize) -> Option<u16> {
    for message in message..instance.message_count() {
        let place = instance.table().wait(message);
        if place.is_some() {
            return place;
        }
    }
    None
}

/// How many ticks the target has to wait longer, if a message that waits least is to come to the target's group by its
/// commit there, by the other delays of the schedule; None where it comes there by that anyway.
pub fn wait_to_be_met(instance: &Instance, schedule: &Schedule, message: usize) -> Option<u64> {
    let (target, group) = (instance.target_message(), instance.target_group());
    let committed = settling(instance, schedule, target, group)?;
    let coming = instance.table().multicast_delay(schedule, message, group);
    let soonest = earliest_issue(instance, message)?.saturating_add(u64::from(coming));
    soonest.checked_sub(committed)
}

/// The wait after which a message arrives at the target's group so many ticks after the target is
/// committed there, in ticks, by the other delays of the schedule; None where there is no such wait.
pub fn wait_past_commit(
    instance: &Instance,
    schedule: &Schedule,
    message: usize,
    past: u16,
) -> Option<u64> {
    let (target, group) = (instance.target_message(), instance.target_group());
    let committed = settling(instance, schedule, target, group)?;
    let coming = instance.table().multicast_delay(schedule, message, group);
    let soonest = earliest_issue(instance, message)? + u64::from(coming);
    committed
        .saturating_add(u64::from(past))
        .checked_sub(soonest)
}
