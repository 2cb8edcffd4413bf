//! The ticks of the moments of a schedule.

ghost use Rattle.std.specs.Prelude.{◌+◌, ◌*◌, ◌≤◌, IfSome};

use convoy_packets::{Instance, Schedule};

/// The first tick at which a message may be issued; None where there is no such message.
pub fn earliest_issue(instance: &Instance, message: usize) -> Option<u64>
    ensures { IfSome result (λ tick. tick ≤ u32.MAX) }
{
    if message < instance.message_count() {
        Some(u64::from(instance.issue_tick(message)))
    } else {
        None
    }
}

/// The tick at which a message is issued; None where there is no such message.
pub fn issue(instance: &Instance, schedule: &Schedule, message: usize) -> Option<u64>
    ensures { IfSome result (λ tick. tick ≤ u32.MAX + u16.MAX) }
{
    let wait = instance.table().wait_in(schedule, message);
    Some(earliest_issue(instance, message)? + u64::from(wait))
}

/// The tick at which a message arrives at a group; None where there is no such message.
pub fn arrival(
    instance: &Instance,
    schedule: &Schedule,
    message: usize,
    group: usize,
) -> Option<u64>
    ensures { IfSome result (λ tick. tick ≤ u32.MAX + 2 * u16.MAX) }
{
    let delay = instance.table().multicast_delay(schedule, message, group);
    Some(issue(instance, schedule, message)? + u64::from(delay))
}

/// The tick at which a group commits a message; None where there is no such message.
pub fn settling(
    instance: &Instance,
    schedule: &Schedule,
    message: usize,
    group: usize,
) -> Option<u64> {
    if message >= instance.message_count() {
        return None;
    }
    let mut settled = 0;
    for from in instance.destinations(message) {
        let delay = instance
            .table()
            .propose_delay(schedule, message, *from, group);
        settled = settled.max(arrival(instance, schedule, message, *from)? + u64::from(delay));
    }
    Some(settled)
}
