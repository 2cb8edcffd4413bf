//! Waits by which messages follow their causes.

ghost use Rattle.std.specs.Prelude.{◌≡◌, ◌<◌, ◌≤◌, length, All};
ghost use Rattle.convoy_packets.specs.Assignment.{IsAssignment};
ghost use Rattle.convoy_causes.specs.Causes.{IsCause};

use super::cause::Cause;
use super::caused_run::CausedRun;
use super::event::Event;
use super::gaps::Gaps;
use super::question::Question;
use convoy_packets::{Instance, Schedule};
use convoy_scenario::AllocResult;

/// Gives each message that follows another one, in the order of the causes, the wait by which it is issued so long after the
/// event as the gaps say, or the nearest wait that it may have. For each delivery that a message follows it simulates
/// the schedule, and takes one from those that are left. The error is that memory ran out.
pub(crate) fn issue_effects(
    question: &Question,
    schedule: &mut Schedule,
    gaps: &Gaps,
    left: &mut u64,
) -> AllocResult<()>
    requires assignment { IsAssignment question.now.instance.now schedule.old }
    ensures assignment { IsAssignment question.now.instance.now schedule.new }
    ensures left { left.new ≤ left.old }
{
    for place in 0..question.causes.len() {
        issue_effect(question, schedule, gaps.gap(place), place, left)?;
    }
    Ok(())
}

/// The same for the cause at a place.
fn issue_effect(
    question: &Question,
    schedule: &mut Schedule,
    gap: u32,
    place: usize,
    left: &mut u64,
) -> AllocResult<()>
    requires place { place < length question.now.causes.now }
    requires assignment { IsAssignment question.now.instance.now schedule.old }
    ensures assignment { IsAssignment question.now.instance.now schedule.new }
    ensures left { left.new ≤ left.old }
{
    let cause = &question.causes[place];
    let tick = event_tick(question, schedule, cause, left)?;
    let wanted = if follows_before(question.causes, place) {
        issue(question.instance, schedule, cause.effect)
            .max(tick.saturating_add(u64::from(cause.least)))
            .min(tick.saturating_add(u64::from(cause.most)))
    } else {
        tick.saturating_add(u64::from(gap))
    };
    set_issue(question.instance, schedule, cause.effect, wanted);
    Ok(())
}

/// Whether the message that follows by the cause at a place does so by one before it, too.
fn follows_before(causes: &[Cause], place: usize) -> bool
    requires { place < length causes.now }
{
    for before in 0..place {
        if causes[before].effect == causes[place].effect {
            return true;
        }
    }
    false
}

/// The tick of the event of a cause in a schedule.
fn event_tick(
    question: &Question,
    schedule: &Schedule,
    cause: &Cause,
    left: &mut u64,
) -> AllocResult<u64>
    requires cause { IsCause question.now.instance.now cause.now }
    requires assignment { IsAssignment question.now.instance.now schedule.now }
    ensures left { left.new ≤ left.old }
{
    let (instance, message, group) = (question.instance, cause.message, cause.group);
    match cause.event {
        Event::Issue => Ok(issue(instance, schedule, message)),
        Event::Arrival => Ok(arrival(instance, schedule, message, group)),
        Event::Commit => Ok(commit(instance, schedule, message, group)),
        Event::Delivery => {
            *left = left.saturating_sub(1);
            let run = CausedRun::of(question.alloc, instance, schedule)?;
            let tick = run.event_tick(Event::Delivery, message, group);
            Ok(u64::from(tick))
        }
    }
}

/// Gives a message the wait by which it is issued at that tick, or the nearest that it may have.
#[tactic(auto, using(convoy_seek::proofs::Schedules::length_within))]
fn set_issue(instance: &Instance, schedule: &mut Schedule, message: usize, tick: u64)
    requires message { message < length instance.now.multicasts }
    requires assignment { IsAssignment instance.now schedule.old }
    ensures { IsAssignment instance.now schedule.new }
{
    let table = instance.table();
    let Some(place) = table.wait(message) else {
        return;
    };
    let place = usize::from(place);
    if place < table.len() {
        let (least, most) = table.range(place);
        let wait = tick.saturating_sub(u64::from(instance.issue_tick(message)));
        let wait = u16::try_from(wait).unwrap_or(u16::MAX).max(least).min(most);
        schedule.set(place, wait);
    }
}

/// The tick at which a message is issued in a schedule.
fn issue(instance: &Instance, schedule: &Schedule, message: usize) -> u64
    requires { message < length instance.now.multicasts }
{
    let wait = instance.table().wait_in(schedule, message);
    u64::from(instance.issue_tick(message)) + u64::from(wait)
}

/// The tick at which it arrives at a group.
fn arrival(instance: &Instance, schedule: &Schedule, message: usize, group: usize) -> u64
    requires { message < length instance.now.multicasts }
{
    let delay = instance.table().multicast_delay(schedule, message, group);
    issue(instance, schedule, message).saturating_add(u64::from(delay))
}

/// The tick at which it is committed at a group.
fn commit(instance: &Instance, schedule: &Schedule, message: usize, group: usize) -> u64
    requires { message < length instance.now.multicasts }
{
    let mut last = 0u64;
    for from in instance.destinations(message) {
        let table = instance.table();
        let delay = table.propose_delay(schedule, message, *from, group);
        let come = arrival(instance, schedule, message, *from);
        last = last.max(come.saturating_add(u64::from(delay)));
    }
    last
}
