ghost use Rattle.convoy_library.specs.Memory.{IsUnlessMemory};
ghost use Rattle.convoy_library_tests.specs.declared.fault.Fault.TheVariants.{Memory};
ghost use Rattle.convoy_library_tests.specs.Answers.{latency_given};

use super::fault::Fault;
use convoy_library::packets::schedule_laws::{fixed_order_is_order, lists_of_delays_are_schedules};
use convoy_library::packets::{Instance, Schedule};
use convoy_library::scenario_toml::read_toml;
use convoy_library::sim::latency;
use std::alloc::Global;

/// The latency, in ticks, of a scenario text under a schedule: the delay of each packet in ticks, in
/// packet order (docs/PROTOCOL.md, "Time and packets"). Ties fall in the fixed order.
///
/// A faulty text is told as `Fault::Scenario`, and then a list that is no schedule as
/// `Fault::Schedule`.
pub fn latency_under(alloc: Global, text: &[u8], delays: &[i64]) -> Result<u32, Fault>
    ensures { IsUnlessMemory Memory (latency_given text.now delays.now) result }
{
    fixed_order_is_order();
    lists_of_delays_are_schedules();
    let scenario = read_toml(alloc, text)?.scenario;
    let instance = Instance::of(alloc, scenario)?;
    let schedule = Schedule::from_list(alloc, instance.table(), delays)?;
    Ok(latency(&instance, &schedule))
}
