ghost use Rattle.std.specs.Prelude.{◌≡◌};
ghost use Rattle.convoy_packets.specs.Assignment.{IsAssignment};
ghost use Rattle.convoy_sim.specs.Delivery.{latency_of};

use super::agenda::Agenda;
use super::delivery::delivery_tick;
use super::moment::{Moment, MomentKind};
use super::stamps::Stamps;
use super::ticks::Ticks;
use super::times::Times;
use super::timetable::Timetable;
use convoy_packets::{Instance, Schedule};

/// The latency in ticks of an instance under a schedule. Takes no memory, and reads only the moments
/// before the commit of the target at its group: what is ahead of the target there has come by then
/// (docs/PROTOCOL.md).
pub fn latency(instance: &Instance, schedule: &Schedule) -> u32
    requires assignment { IsAssignment instance.now schedule.now }
    ensures value { result ≡ latency_of instance.now schedule.now }
{
    latency_by(&Timetable::of(Times::new(instance, schedule)))
}

/// The latency in ticks of a scenario under a schedule, from the ticks of the schedule. Takes no
/// memory, and reads no more than [`latency`] does.
pub fn latency_by<T: Ticks>(times: &T) -> u32
    ensures { result ≡ latency_of (T.scheduled times.now).scenario (T.scheduled times.now).schedule }
{
    let scenario = times.scenario();
    let (message, group) = (scenario.target_message(), scenario.target_group());
    let commit = Moment {
        tick: times.settling(message, group),
        rank: times.commit_rank(message, group),
        kind: MomentKind::Commit,
        message,
        group,
    };
    let mut agenda = Agenda::new();
    agenda.fill(times, &commit);
    let stamps = Stamps::of(&agenda);
    delivery_tick(times, &stamps, message, group) - times.issue(message)
}
