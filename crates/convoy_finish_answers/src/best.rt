//! The best schedule that a search has found.

ghost use Rattle.std.specs.Prelude.{IfOk};
ghost use Rattle.convoy_commands.specs.Searches.{IsEnd};
ghost use Rattle.convoy_finish_answers.specs.AcceptedLatencies.{IsBestOf};

use convoy_branch::{Options, Outcome};
use convoy_packets::{Instance, Schedule};
use std::alloc::AllocError;

/// The schedule that a search which ended so found to have the greatest latency, in memory of its own. Fails where memory
/// runs out, and else never.
pub fn best_schedule(
    instance: &Instance,
    options: &Options,
    outcome: &Outcome,
) -> Result<Schedule, AllocError>
    requires { IsEnd options.now instance.now outcome.now }
    ensures { IfOk result (IsBestOf instance.now outcome.now) }
{
    match outcome {
        Outcome::Proved { certificate, .. } => {
            let start = certificate.schedule().copy()?;
            Ok(start)
        }
        Outcome::Open { best, .. } => {
            let start = best.schedule().copy()?;
            Ok(start)
        }
    }
}
