use convoy_packets::{Instance, Schedule};
use convoy_plan_certificate::Witness;
use convoy_scenario::Time;
use std::alloc::{AllocError, Global};

/// The witness of a schedule of an instance, for the target at this place. Fails where memory runs out, and else never.
pub(crate) fn witness_of(
    alloc: Global,
    instance: &Instance,
    place: usize,
    schedule: &Schedule,
) -> Result<Witness, AllocError> {
    Ok(Witness {
        target: place,
        delays: Vec::from_slice(alloc, schedule.delays())?,
        ranks: ranks_of(alloc, instance, schedule)?,
    })
}

/// The ranks of its order of ties: none where ties fall in the fixed order.
fn ranks_of(
    alloc: Global,
    instance: &Instance,
    schedule: &Schedule,
) -> Result<Vec<u16>, AllocError> {
    if instance.time() == Time::Ticks || schedule.order().is_none() {
        return Ok(Vec::new(alloc));
    }
    schedule.order().ranks(alloc, instance.scenario())
}
