//! The greatest time of a workflow.

ghost use Rattle.std.specs.Prelude.{◌≡◌, ◌*◌, ◌<◌, length, IfOk, IsTrue};
ghost use Rattle.convoy_packets.specs.Assignment.{IsAssignment};
ghost use Rattle.convoy_causes.specs.Causes.{AreCauses, IsUpperOfCaused};
ghost use Rattle.convoy_causes.specs.CauseWindows.{has_room_from};
ghost use Rattle.convoy_workflow_answers.specs.SoughtTimes.{IsSought, found_between};

use super::found::Found;
use convoy_causes::cause_laws::met_upper_is_greatest;
use convoy_causes::{Cause, Closing, climb_causes, least_closing};
use convoy_packets::schedule_laws::least_is_assignment;
use convoy_packets::{Instance, Schedule};
use convoy_sim::protocol_laws::latency_within_four_delays;
use std::alloc::{AllocError, Global};

/// By so many simulations the greatest time is sought at first: mostly they find it, and the bound meets it.
const FIRST_STEPS: u64 = 1_000;

/// What is known once the greatest time of a workflow was sought.
#[derive(Drop)]
pub(crate) struct Sought {
    /// What was found of it.
    pub found: Found,
    /// The schedule of the run that takes longest of those that were found; none where none was.
    pub schedule: Option<Schedule>,
    /// For each cause, by its place, within how many ticks comes the delivery that is followed, as in a [`Closing`].
    pub within: Vec<u32>,
}

/// What is found of the greatest time of an instance from the issue of a message, for which there is room,
/// to the delivery of the target, where messages follow their causes (docs/PROTOCOL.md, "Messages that follow others"):
/// late runs are sought by so many simulations at most, after a few where these are more. Fails where memory runs out,
/// and else never.
pub(crate) fn greatest_time(
    alloc: Global,
    instance: &Instance,
    causes: &[Cause],
    origin: usize,
    steps: u64,
) -> Result<Sought, AllocError>
    requires causes { AreCauses instance.now causes.now }
    requires origin { origin < length instance.now.multicasts }
    requires room { IsTrue (has_room_from instance.now origin) }
    ensures { IfOk result (IsSought (record { scenario = instance.now; causes = causes.now; origin = origin })) }
{
    let first = time_within(alloc, instance, causes, origin, steps.min(FIRST_STEPS))?;
    if first.found.least() == first.found.most() || steps <= FIRST_STEPS {
        return Ok(first);
    }
    time_within(alloc, instance, causes, origin, steps)
}

/// The same, by so many simulations at once.
fn time_within(
    alloc: Global,
    instance: &Instance,
    causes: &[Cause],
    origin: usize,
    steps: u64,
) -> Result<Sought, AllocError>
    requires causes { AreCauses instance.now causes.now }
    requires origin { origin < length instance.now.multicasts }
    requires room { IsTrue (has_room_from instance.now origin) }
    ensures { IfOk result (IsSought (record { scenario = instance.now; causes = causes.now; origin = origin })) }
{
    met_upper_is_greatest();
    let start = least_schedule(alloc, instance)?;
    let best = climb_causes(alloc, instance, causes, origin, start, steps)?;
    let from = match &best {
        Some((_schedule, time)) => *time,
        None => 0,
    };
    let Closing { within, most } = known_closing(alloc, instance, causes, origin, from)?;
    let most = at_most_four_delays(instance, causes, origin, most);
    match best {
        Some((schedule, time)) => Ok(Sought {
            found: found_between(time, most),
            schedule: Some(schedule),
            within,
        }),
        None => Ok(Sought {
            found: Found::AtMost(most),
            schedule: None,
            within,
        }),
    }
}

/// What is found by a run that takes so long, where none takes longer than `most`.
fn found_between(least: u32, most: u32) -> Found
    ensures { result ≡ found_between least most }
{
    if least < most {
        Found::Between { least, most }
    } else {
        Found::Greatest(least)
    }
}

/// A time that no run exceeds in which messages follow their causes, the one that is given if that is shown to be such a
/// time, and what shows it.
fn known_closing(
    alloc: Global,
    instance: &Instance,
    causes: &[Cause],
    origin: usize,
    from: u32,
) -> Result<Closing, AllocError>
    requires causes { AreCauses instance.now causes.now }
    requires origin { origin < length instance.now.multicasts }
    requires room { IsTrue (has_room_from instance.now origin) }
    ensures { IfOk result (λ closing. IsUpperOfCaused instance.now causes.now origin closing.most) }
{
    match least_closing(alloc, instance, causes, origin, from)? {
        Some(closing) => Ok(closing),
        None => unreachable!(),
    }
}

/// A time that no run exceeds in which messages follow their causes, or from the issue of the target four times the
/// greatest delay, if that is less: no message takes longer.
fn at_most_four_delays(instance: &Instance, causes: &[Cause], origin: usize, most: u32) -> u32
    requires { IsUpperOfCaused instance.now causes.now origin most }
    ensures { IsUpperOfCaused instance.now causes.now origin result }
{
    latency_within_four_delays();
    let _scenario = instance.scenario();
    let longest = 4 * u32::from(instance.delay());
    if origin == instance.target_message() && longest < most {
        longest
    } else {
        most
    }
}

/// The schedule of the least delays.
pub(crate) fn least_schedule(alloc: Global, instance: &Instance) -> Result<Schedule, AllocError>
    ensures { IfOk result (IsAssignment instance.now) }
{
    least_is_assignment();
    let _delay = instance.delay();
    let schedule = Schedule::least(alloc, instance.table())?;
    Ok(schedule)
}
