//! Whether a deadline is kept with a range of some breadth.

ghost use Rattle.std.specs.Prelude.{◌≡◌, ◌⊎◌, IfOk, IfErr};
ghost use Rattle.convoy_scenario.specs.Memory.{IsUnlessMemory};
ghost use Rattle.convoy_commands.specs.declared.fault.Fault.TheVariants.{Memory};
ghost use Rattle.convoy_budget.specs.Judging.{IsRoomTold, IsVerdictBy, MakesNone, MayJudge, verdict_on};
ghost use Rattle.convoy_budget.specs.Ranges.{breadth_of, widened};

use super::drafting::{range_of_way, widened, widest};
use super::kinds::{Room, Test, Widening};
use super::searching::room_by;
use convoy_branch::Options;
use convoy_ceiling::target_ceiling;
use convoy_commands::{Fault, Verdict, Watch};
use convoy_packets::Instance;
use convoy_scenario::{Scenario, ScenarioFault};
use convoy_survey::{Finding, find};
use std::alloc::{AllocError, Global};
use std::sync::Wait;
use std::thread::Threads;

/// The room that the range of one way of a scenario has at one side, all other ranges being as they are, before the
/// scenario's target misses a deadline: its greatest latency, by searches as
/// [`latency_answer`](convoy_commands::latency_answer) makes them with these options, or its
/// [`ceiling`](convoy_ceiling::ceiling). A search that does not end counts as one in which the deadline is missed. Each
/// search is watched.
///
/// `Room::OutOfMemory` where memory runs out, and `Fault::Scenario` with its cause where a range makes no scenario.
pub fn room<R: Threads + Wait + Sync, W: Watch + Sync>(
    rt: &R,
    alloc: Global,
    scenario: &Scenario,
    widening: Widening,
    test: Test,
    options: &Options,
    watch: &W,
) -> Result<Room, Fault>
    ensures room { IfOk result (IsRoomTold options.now test scenario.now widening) }
    ensures err { IfErr result (MakesNone scenario.now widening) }
{
    let range = range_of_way(scenario, widening.way);
    let room = room_by(
        widest(scenario, widening),
        range.1.saturating_sub(range.0),
        |breadth: u16| -> Result<Verdict, ScenarioFault>
            ensures { MayJudge options.entry.now test scenario.entry.now widening breadth result }
        { judge(rt, alloc, scenario, widening, breadth, test, options, watch) },
    );
    match room {
        Ok(room) => Ok(room),
        Err(ScenarioFault::Memory) => Ok(Room::OutOfMemory),
        Err(cause) => Err(Fault::Scenario(cause)),
    }
}

/// The verdict on the scenario that a range of that breadth makes. Fails with the fault of a range that makes none, and
/// with `ScenarioFault::Memory` where memory runs out.
fn judge<R: Threads + Wait + Sync, W: Watch + Sync>(
    rt: &R,
    alloc: Global,
    scenario: &Scenario,
    widening: Widening,
    breadth: u16,
    test: Test,
    options: &Options,
    watch: &W,
) -> Result<Verdict, ScenarioFault>
    ensures { MayJudge options.now test scenario.now widening breadth result }
{
    let other = widened(alloc, scenario, widening, breadth)?;
    let verdict = verdict(rt, alloc, other, test, options, watch)?;
    Ok(verdict)
}

/// The verdict on a scenario. Fails where memory runs out, and else never.
fn verdict<R: Threads + Wait + Sync, W: Watch + Sync>(
    rt: &R,
    alloc: Global,
    scenario: Scenario,
    test: Test,
    options: &Options,
    watch: &W,
) -> Result<Verdict, AllocError>
    ensures { IfOk result (IsVerdictBy test.of_ceiling options.now test.deadline scenario) }
{
    if test.of_ceiling {
        let ceiling = target_ceiling(&scenario);
        return Ok(Verdict::of(test.deadline, ceiling, ceiling));
    }
    let instance = Instance::of(alloc, scenario)?;
    let finding = find(rt, alloc, &instance, options, watch)?;
    Ok(verdict_on(test.deadline, finding))
}

/// The verdict on what was found, by a deadline in ticks.
fn verdict_on(deadline: u32, finding: Finding) -> Verdict
    ensures { result ≡ verdict_on deadline finding }
{
    match finding {
        Finding::Greatest { latency, .. } => Verdict::of(deadline, latency, latency),
        Finding::Open { least, most, .. } => Verdict::of(deadline, least, most),
        Finding::OutOfMemory => Verdict::Undecided,
    }
}
