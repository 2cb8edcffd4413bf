//! Schedules of worked rows, in which ties fall in the fixed order.

ghost use Rattle.std.specs.Prelude.{IfOk};
ghost use Rattle.convoy_packets.specs.Assignment.{IsAssignment};

use convoy_packets::schedule_laws::{fixed_order_is_order, lists_of_delays_are_schedules};
use convoy_packets::{Instance, ListFault, Schedule};
use std::alloc::Global;

/// The schedule of the delays that are listed, packet by packet, or why it is none of the instance.
#[tactic(auto, using(crate::proofs::Assigned::given_assigned))]
pub(crate) fn given(
    alloc: Global,
    instance: &Instance,
    delays: &[i64],
) -> Result<Schedule, ListFault>
    ensures { IfOk result (IsAssignment instance.now) }
{
    fixed_order_is_order();
    lists_of_delays_are_schedules();
    let schedule = Schedule::from_list(alloc, instance.table(), delays)?;
    Ok(schedule)
}
