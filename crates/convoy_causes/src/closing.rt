ghost use Rattle.std.specs.Prelude.{◌≡◌, ◌<◌, length, IfOk, IfSome, IsTrue};
ghost use Rattle.std.specs.Option.{is_some};
ghost use Rattle.convoy_scenario.specs.WellFormed.{IsScenario};
ghost use Rattle.convoy_causes.specs.Causes.{AreCauses, IsUpperOfCaused};
ghost use Rattle.convoy_causes.specs.CauseWindows.{closes_by, has_room_from, scenario_from};

use super::cause::Cause;
use super::cause_laws::closed_by_causes;
use super::cause_test::{CauseTest, delivers_within};
use super::known::scenario_from;
use super::narrowing::{least_narrowed, narrow_windows};
use convoy_leads::Scratch;
use convoy_packets::Instance;
use std::alloc::{AllocError, Global};

/// How it is shown that no run in which messages follow their causes takes longer than a time, from the issue of a
/// message to the delivery of the target (docs/LEADS.md, "Messages that follow others").
#[derive(Drop)]
pub struct Closing {
    /// For each cause, by its place: within how many ticks from the first at which the message that it follows may be
    /// issued that one is delivered at the group of the event. Where the event is no delivery, it says nothing.
    pub within: Vec<u32>,
    /// The time, in ticks.
    pub most: u32,
}

/// Whether an instance is closed for a number of ticks from the issue of a message, the target itself or another one, where
/// each delivery that is followed comes within so many ticks as are given by the places of the causes: then no run in which
/// messages follow their causes takes longer from that issue to the delivery of the target (docs/LEADS.md, "Messages that
/// follow others"). The error is that memory ran out; all that is taken is given back.
pub fn closes_by(
    alloc: Global,
    instance: &Instance,
    causes: &[Cause],
    origin: usize,
    within: &[u32],
    most: u32,
) -> Result<bool, AllocError>
    requires causes { AreCauses instance.now causes.now }
    requires origin { origin < length instance.now.multicasts }
    ensures value { IfOk result
        (λ closed. closed ≡ closes_by instance.now causes.now origin within.now most) }
    ensures holds { IfOk result (λ closed. IsTrue closed → IsUpperOfCaused instance.now causes.now origin most) }
{
    closed_by_causes();
    let Some(known) = instance_from(alloc, instance, origin)? else {
        return Ok(false);
    };
    let windows = narrow_windows(alloc, &known, causes, within)?;
    let closed = delivers_within(alloc, &known, windows, origin, most)?;
    Ok(closed)
}

/// A number of ticks for which an instance is closed from the issue of a message, and within how many ticks each delivery
/// comes that is followed: the number that is given, if it is closed for that, and else the least that is found by halves
/// from there (docs/LEADS.md, "Messages that follow others"). None where there is no room to know that issue
/// ([`may_be_origin`](super::may_be_origin)). The error is that memory ran out; all that is taken is given back.
pub fn least_closing(
    alloc: Global,
    instance: &Instance,
    causes: &[Cause],
    origin: usize,
    from: u32,
) -> Result<Option<Closing>, AllocError>
    requires causes { AreCauses instance.now causes.now }
    requires origin { origin < length instance.now.multicasts }
    ensures closes { IfOk result (λ found. IfSome found (λ closing.
        IsTrue (closes_by instance.now causes.now origin closing.within.items closing.most))) }
    ensures each { IfOk result (λ found. IfSome found (λ closing. length closing.within.items ≡ length causes.now)) }
    ensures holds { IfOk result (λ found. IfSome found (λ closing.
        IsUpperOfCaused instance.now causes.now origin closing.most)) }
    ensures some { IfOk result (λ found. is_some found ≡ has_room_from instance.now origin) }
{
    closed_by_causes();
    let Some(known) = instance_from(alloc, instance, origin)? else {
        return Ok(None);
    };
    let found = least_narrowed(alloc, &known, causes)?;
    let test = CauseTest::over(alloc, &known, found.windows)?;
    let most = test.least_time(origin, from, &mut Scratch::new(alloc))?;
    let within = found.within;
    Ok(Some(Closing { within, most }))
}

/// The instance in which the issue of a message is known, where there is room for it.
fn instance_from(
    alloc: Global,
    instance: &Instance,
    message: usize,
) -> Result<Option<Instance>, AllocError>
    requires { message < length instance.now.multicasts }
    ensures some { IfOk result (λ found. IfSome found (λ known. known ≡ scenario_from instance.now message)) }
    ensures room { IfOk result (λ found. is_some found ≡ has_room_from instance.now message) }
    ensures lawful { IsScenario instance.now }
{
    match scenario_from(instance.scenario(), message)? {
        Some(known) => Ok(Some(Instance::of(alloc, known)?)),
        None => Ok(None),
    }
}
