ghost use Rattle.std.specs.Prelude.{◌≡◌, ◌<◌, length, IfOk, IfSome};
ghost use Rattle.convoy_packets.specs.Assignment.{IsAssignment};
ghost use Rattle.convoy_causes.specs.Causes.{AreCauses, IsCaused, time_from};
ghost use Rattle.convoy_causes.specs.Climbing.{IsClimbing};

use super::cause::Cause;
use super::climber::Climber;
use super::gaps::Gaps;
use super::question::Question;
use convoy_packets::{Instance, Schedule};
use convoy_scenario::AllocResult;
use convoy_seek::Chance;
use std::alloc::{AllocError, Global};

/// Climbs by chance to a run in which messages follow their causes and the target is delivered long after the issue of a
/// message, from the schedule that is given, that of the greatest delays, and for each rival of the target from some in
/// which it is late: it changes delays, and in real time ranks of ties, issues each message that follows another one as
/// long after the event as is said, in at most so many simulations, and answers the schedule of the best such run that
/// it has seen, with its time from that issue to the delivery, in ticks. None where it has seen no such run. It finds the same for
/// the same input. Fails where memory runs out, and else never.
pub fn climb_causes(
    alloc: Global,
    instance: &Instance,
    causes: &[Cause],
    origin: usize,
    start: Schedule,
    steps: u64,
) -> Result<Option<(Schedule, u32)>, AllocError>
    requires causes { AreCauses instance.now causes.now }
    requires origin { origin < length instance.now.multicasts }
    requires assignment { IsAssignment instance.now start }
    ensures caused { IfOk result (λ found. IfSome found
        (λ best. IsCaused instance.now causes.now best.0)) }
    ensures time { IfOk result (λ found. IfSome found
        (λ best. best.1 ≡ time_from instance.now origin best.0)) }
{
    let question = Question {
        alloc,
        instance,
        causes,
        origin,
    };
    let mut climber = climber_at(&question, start, steps)?;
    climber.weigh(&question, question.target(), instance.target_message())?;
    climber.run(&question)?;
    if climber.found {
        Ok(Some((climber.best, climber.time)))
    } else {
        Ok(None)
    }
}

/// A climber at a schedule.
fn climber_at(question: &Question, start: Schedule, steps: u64) -> AllocResult<Climber>
    requires { IsAssignment question.now.instance.now start }
    ensures { IfOk result
        (IsClimbing question.now.instance.now question.now.causes.now question.now.origin) }
{
    Ok(Climber {
        kept: start.copy()?,
        kept_gaps: Gaps::longest(question.alloc, question.causes)?,
        tried: start.copy()?,
        gaps: Gaps::longest(question.alloc, question.causes)?,
        best: start,
        found: false,
        time: 0,
        left: steps,
        chance: Chance::new(),
    })
}
