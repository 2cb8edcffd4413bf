ghost use Rattle.std.specs.Prelude.{◌≡◌, IfOk};
ghost use Rattle.convoy_packets.specs.Assignment.{IsAssignment};
ghost use Rattle.convoy_survey.specs.Findings.{cause_in};

use super::finding::Cause;
use convoy_packets::{Instance, Schedule};
use convoy_sim::simulate;
use convoy_timeline::explain;
use std::alloc::{AllocError, Global};

/// Why the target of an instance is late in the run of a schedule.
pub(crate) fn cause_of(
    alloc: Global,
    instance: &Instance,
    schedule: &Schedule,
) -> Result<Cause, AllocError>
    requires { IsAssignment instance.now schedule.now }
    ensures { IfOk result (λ cause. cause ≡ cause_in instance.now schedule.now) }
{
    let run = simulate(alloc, instance, schedule)?;
    let why = explain(instance, schedule, &run);
    Ok(Cause {
        rival: why.holder.map(|holder| holder.message),
        tied: why.tied,
    })
}
