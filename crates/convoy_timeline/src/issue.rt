ghost use Rattle.std.specs.Prelude.{◌≡◌, ◌+◌, ◌≤◌};
ghost use Rattle.convoy_sim.specs.Times.{issue};

use convoy_packets::{Instance, Schedule};
use convoy_scenario::GREATEST_AT;
use convoy_scenario::lookup::first_tick;

/// The tick at which a message is issued in the run of an instance under a schedule: the first at which it
/// may be, and its wait; 0 where the scenario has no such message.
#[tactic(auto, unfolding(convoy_packets::specs::Assignment::delay_of))]
pub fn issue_of(instance: &Instance, schedule: &Schedule, message: usize) -> u32
    ensures tick { result ≡ issue instance.now schedule.now message }
    ensures soon { result ≤ GREATEST_AT + u16.MAX }
{
    let wait = instance.table().wait_in(schedule, message);
    first_tick(instance.scenario(), message) + u32::from(wait)
}
