//! The rows of a sweep.

ghost use Rattle.std.specs.Prelude.{◌≡◌, ◌<◌, length, IfOk};
ghost use Rattle.convoy_survey.specs.Findings.{IsFinding};
ghost use Rattle.convoy_sweep.specs.Rows.{AreSwept, IsSwept};

use super::kinds::Swept;
use super::preparing::Made;
use convoy_branch::Options;
use convoy_commands::Watch;
use convoy_packets::Instance;
use convoy_rows::make_each;
use convoy_survey::{Finding, find};
use std::alloc::{AllocError, Global};
use std::sync::Wait;
use std::thread::Threads;

/// Searches the scenario at each of these points for the greatest latency of its target, as
/// [`latency_answer`](convoy_commands::latency_answer) does with these options: by their limit of tickets, by their
/// bounds or both ways, and with their number of workers. As many are searched at a time as there are watches, each
/// watched by one. Where memory runs out for one of them, that is what its row tells, and the others are searched all the
/// same. Fails where there is no memory for the rows, and else never.
pub fn sweep_rows<R: Threads + Wait + Sync, W: Watch + Sync>(
    rt: &R,
    alloc: Global,
    made: &[Made],
    options: &Options,
    watches: &[W],
) -> Result<Vec<Swept>, AllocError>
    requires { 0 < length watches.now }
    ensures { IfOk result (λ rows. AreSwept options.now made.now rows.items) }
{
    let row = |one: &Made, watch: &W| -> Swept
        ensures { IsSwept options.entry.now one.now result }
    { swept(rt, alloc, one, options, watch) };
    let rows = make_each(rt, alloc, watches, made, &row)?;
    Ok(rows)
}

/// The row of a point.
fn swept<R: Threads + Wait + Sync, W: Watch + Sync>(
    rt: &R,
    alloc: Global,
    made: &Made,
    options: &Options,
    watch: &W,
) -> Swept
    ensures { IsSwept options.now made.now result }
{
    Swept {
        point: made.point,
        finding: Finding::told(found(rt, alloc, made, options, watch)),
    }
}

/// What a search finds of the scenario at a point.
fn found<R: Threads + Wait + Sync, W: Watch + Sync>(
    rt: &R,
    alloc: Global,
    made: &Made,
    options: &Options,
    watch: &W,
) -> Result<Finding, AllocError>
    ensures { IfOk result (IsFinding options.now made.now.scenario) }
{
    let instance = Instance::of(alloc, made.scenario.copy()?)?;
    find(rt, alloc, &instance, options, watch)
}
