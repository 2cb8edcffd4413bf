ghost use Rattle.std.specs.Prelude.{◌≡◌, ◌≤◌, IfOk};
ghost use Rattle.convoy_packets.specs.Assignment.{IsAssignment};
ghost use Rattle.convoy_finishes.specs.Finishes.{finish_latency};

use super::climber::Climber;
use super::finish_run::finish_latency;
use super::ways::Ways;
use convoy_packets::{Instance, Schedule};
use convoy_seek::Chance;
use std::alloc::{AllocError, Global};

/// Climbs by chance to a schedule of a great finish latency, in ticks, from the one that is given, that of the greatest
/// delays, and for each rival of the target from some in which it is late: it changes delays, and in real time ranks of
/// ties, in at most so many steps, and answers the best schedule that it has seen with its finish latency. It finds the
/// same for the same input. Fails where memory runs out, and else never.
pub fn climb_finishes(
    alloc: Global,
    instance: &Instance,
    ways: &Ways,
    start: Schedule,
    steps: u64,
) -> Result<(Schedule, u32), AllocError>
    requires assignment { IsAssignment instance.now start }
    ensures assignment { IfOk result (λ found. IsAssignment instance.now found.0) }
    ensures latency { IfOk result
        (λ found. found.1 ≡ finish_latency instance.now ways.now found.0) }
    ensures no_less { IfOk result
        (λ found. finish_latency instance.now ways.now start ≤ found.1) }
{
    let latency = finish_latency(alloc, instance, &start, ways)?;
    let mut climber = Climber {
        kept: start.copy()?,
        tried: start.copy()?,
        best: start,
        latency,
        left: steps,
        chance: Chance::new(),
    };
    climber.run(alloc, instance, ways)?;
    Ok((climber.best, climber.latency))
}
