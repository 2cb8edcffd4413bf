ghost use Rattle.std.specs.Prelude.{◌≡◌, IfOk, IsTrue};
ghost use Rattle.convoy_scenario.specs.WellFormed.{IsScenario};
ghost use Rattle.convoy_scenario.specs.Widened.{widened};
ghost use Rattle.convoy_finishes.specs.Finishes.{IsUpperOfFinishes};
ghost use Rattle.convoy_finishes.specs.FinishClosing.{closes_finishing};

use super::finish_laws::closed_finishing;
use super::finish_test::FinishTest;
use super::ways::Ways;
use convoy_leads::Scratch;
use convoy_origin::Origin;
use convoy_packets::Instance;
use convoy_scenario::widened_laws::widened_is_itself;
use std::alloc::{AllocError, Global};

/// Whether an instance is closed for a latency in ticks, so that its target is never delivered later, where messages
/// are finished some time after their commit (docs/LEADS.md, "Replicated groups"). The error is that memory ran out;
/// all that is taken is given back.
pub fn closes_finishing(
    alloc: Global,
    instance: &Instance,
    ways: &Ways,
    latency: u32,
) -> Result<bool, AllocError>
    ensures value { IfOk result
        (λ closed. closed ≡ closes_finishing instance.now ways.now latency) }
    ensures holds { IfOk result (λ closed. IsTrue closed
        → IsUpperOfFinishes instance.now ways.now latency) }
{
    closed_finishing();
    let _scenario = instance.scenario();
    let origin = Origin::of(alloc, instance)?;
    let test = FinishTest::of(alloc, in_origin(&origin), ways)?;
    let closed = test.closes(latency, &mut Scratch::new(alloc))?;
    Ok(closed)
}

/// A latency in ticks for which an instance is closed, so that its target is never delivered later: the one that is
/// given, if it is closed for that, and else the least that is found by halves from there to its plain bound. The
/// error is that memory ran out; all that is taken is given back.
pub fn least_closed(
    alloc: Global,
    instance: &Instance,
    ways: &Ways,
    from: u32,
) -> Result<u32, AllocError>
    ensures closed { IfOk result (λ latency. IsTrue (closes_finishing instance.now ways.now latency)) }
    ensures holds { IfOk result (λ latency. IsUpperOfFinishes instance.now ways.now latency) }
{
    closed_finishing();
    let _scenario = instance.scenario();
    let origin = Origin::of(alloc, instance)?;
    let test = FinishTest::of(alloc, in_origin(&origin), ways)?;
    let mut scratch = Scratch::new(alloc);
    let closed = test.closes(from, &mut scratch)?;
    if closed {
        return Ok(from);
    }
    let latency = test.least_after(from, &mut scratch)?;
    Ok(latency)
}

/// The instance in which the issue of the target is known: the widened one, where it may wait.
fn in_origin<'a>(origin: &'a Origin) -> &'a Instance
    ensures { result.now ≡ widened origin.now }
{
    widened_is_itself();
    match origin.moved() {
        Some(moved) => moved,
        None => origin.instance(),
    }
}
