ghost use Rattle.std.specs.Prelude.{◌≡◌, ℕ, ◌*◌, ◌≤◌, IfOk};
ghost use Rattle.convoy_packets.specs.Assignment.{IsAssignment};
ghost use Rattle.convoy_sim.specs.Delivery.{latency_of};
ghost use Rattle.convoy_scenario.specs.Scenario.{GoesTo};
ghost use Rattle.convoy_sim.specs.Run.{IsRunOf};
ghost use Rattle.convoy_sim.specs.RunLaws.{KeepsLaws};

use super::agenda::Agenda;
use super::delivery::delivery_tick;
use super::moment::{Moment, MomentKind};
use super::progress::list_progress;
use super::protocol_laws::runs_keep_the_laws;
use super::run::Run;
use super::stamps::Stamps;
use super::ticks::Ticks;
use super::times::Times;
use super::timetable::Timetable;
use convoy_packets::{Instance, Schedule};
use std::alloc::{AllocError, Global};

/// All moments of a run are before this one.
const END: Moment = Moment {
    tick: u32::MAX,
    rank: 0,
    kind: MomentKind::Commit,
    message: 0,
    group: 0,
};

/// Runs an instance under a schedule: reads all moments in their order (docs/PROTOCOL.md). Fails where
/// memory runs out, and else never.
pub fn simulate(alloc: Global, instance: &Instance, schedule: &Schedule) -> Result<Run, AllocError>
    requires assignment { IsAssignment instance.now schedule.now }
    ensures run { IfOk result (λ run. IsRunOf instance.now schedule.now run) }
    ensures laws { IfOk result (λ run. KeepsLaws instance.now schedule.now run) }
    ensures latency { IfOk result (λ run. run.latency ≡ latency_of instance.now schedule.now) }
    ensures four_delays { IfOk result (λ run. run.latency ≤ 4 * instance.now.delay) }
    ensures two_delays { ((n : ℕ) → GoesTo instance.now n instance.now.target_group → n ≡ instance.now.target_message)
        → IfOk result (λ run. run.latency ≤ 2 * instance.now.delay) }
{
    runs_keep_the_laws();
    let (message, group) = (instance.target_message(), instance.target_group());
    let times = Timetable::of(Times::new(instance, schedule));
    let mut agenda = Agenda::new();
    agenda.fill(&times, &END);
    let stamps = Stamps::of(&agenda);
    let delivered = delivery_tick(&times, &stamps, message, group);
    let finals = stamps.finals(alloc, instance.message_count())?;
    let progress = list_progress(alloc, &times, &stamps)?;
    Ok(Run::new(finals, progress, delivered - times.issue(message)))
}
