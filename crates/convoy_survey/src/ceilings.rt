ghost use Rattle.std.specs.Prelude.{◌≡◌, ◌<◌, ◌≤◌, length, option_map, IfOk};
ghost use Rattle.std.specs.List.{All};
ghost use Rattle.convoy_scenario.specs.Targets.{with_target};
ghost use Rattle.convoy_ceiling.specs.Ceiling.{ceiling_at};
ghost use Rattle.convoy_survey.specs.Ceilings.{AreCeiled, AreCeiledBy, IsAttainedInTraffic, MaySeek, TellsCeiling, is_asked, targets_asked, told_latency};
ghost use Rattle.convoy_survey.specs.Surveys.{IsTarget, IsTargetPair, TakesTargets};

use super::ceiled::Ceiled;
use super::rows::targets_of;
use convoy_ceiling::{ceiling, seek_traffic};
use convoy_outages::{Span, ceiling_through};
use convoy_rows::make_each;
use convoy_scenario::Scenario;
use convoy_scenario::naming::group_name;
use std::alloc::{AllocError, Global};
use std::thread::Threads;

/// The ceiling of each message of a scenario that may be its target, at each group that it goes to, in the
/// order of their numbers; where a group is named, at that group alone; and where a span is given, the ceiling through
/// outages that last so long in all. For each of them traffic that
/// attains the ceiling is sought by at most so many simulations. Where memory runs out for one of them,
/// nothing is told of its traffic, and the others are sought all the same. Where no group has the name
/// there are no rows. As many rows are made at a time as there are watches, of which nothing else is asked.
/// Fails where there is no memory for the rows, and else never.
pub fn ceilings_of<R: Threads + Sync, W: Sync>(
    rt: &R,
    alloc: Global,
    scenario: &Scenario,
    span: Option<Span>,
    group: Option<&str>,
    simulations: u64,
    watches: &[W],
) -> Result<Vec<Ceiled>, AllocError>
    requires { 0 < length watches.now }
    ensures { IfOk result (λ rows. AreCeiled span scenario.now
        (option_map (λ name. name.now) group.entry) rows.items) }
{
    let seek = |message: usize, group: usize| -> Result<u32, AllocError>
        requires { IsTarget scenario.now message group }
        ensures { MaySeek scenario.entry.now message group result }
    { seek_at(alloc, scenario, message, group, simulations) };
    let rows = ceilings_by(rt, alloc, scenario, span, group, watches, &seek)?;
    Ok(rows)
}

/// The rows of [`ceilings_of`], where a search of the caller's own seeks traffic: it is given the numbers of a
/// message and of a group that it goes to, and answers a latency. A row tells what `seek` answers for its target, and
/// no latency just where that is that memory ran out. Fails where there is no memory for the rows, and else never.
pub fn ceilings_by<
    R: Threads + Sync,
    W: Sync,
    F: Fn(usize, usize) -> Result<u32, AllocError> + Sync,
>(
    rt: &R,
    alloc: Global,
    scenario: &Scenario,
    span: Option<Span>,
    group: Option<&str>,
    watches: &[W],
    seek: &F,
) -> Result<Vec<Ceiled>, AllocError>
    requires watched { 0 < length watches.now }
    requires takes { TakesTargets scenario.now (F.pre seek.now) }
    ensures { IfOk result (λ rows. AreCeiledBy span scenario.now
        (option_map (λ name. name.now) group.entry) (F.post seek.now) rows.items) }
{
    let targets = targets_asked(alloc, scenario, group)?;
    let row = |target: &(usize, usize), _watch: &W| -> Ceiled
        requires { IsTargetPair scenario.now target.now × F.pre seek.now target.now.0 target.now.1 }
        ensures { TellsCeiling span scenario.entry.now (F.post seek.entry.now) target.now result }
    { row_by(scenario, span, *target, seek) };
    let rows = make_each(rt, alloc, watches, &targets, &row)?;
    Ok(rows)
}

/// The targets of a scenario at the groups that are asked for.
fn targets_asked(
    alloc: Global,
    scenario: &Scenario,
    asked: Option<&str>,
) -> Result<Vec<(usize, usize)>, AllocError>
    ensures targets { IfOk result (λ kept. kept.items
        ≡ targets_asked scenario.now (option_map (λ name. name.now) asked.entry)) }
    ensures lawful { IfOk result (λ kept. All (IsTargetPair scenario.now) kept.items) }
{
    let targets = targets_of(alloc, scenario)?;
    let mut kept = Vec::new(alloc);
    for target in &targets {
        if is_asked(scenario, asked, target.1) {
            kept.push(*target)?;
        }
    }
    Ok(kept)
}

/// Whether what happens at a group is asked for.
fn is_asked(scenario: &Scenario, asked: Option<&str>, group: usize) -> bool
    ensures { result ≡ is_asked scenario.now (option_map (λ name. name.now) asked.entry) group }
{
    match asked {
        Some(name) => name == group_name(scenario, group),
        None => true,
    }
}

/// The row of a message at a group.
fn row_by<F: Fn(usize, usize) -> Result<u32, AllocError>>(
    scenario: &Scenario,
    span: Option<Span>,
    target: (usize, usize),
    seek: &F,
) -> Ceiled
    requires target { IsTargetPair scenario.now target }
    requires takes { F.pre seek.now target.0 target.1 }
    ensures { TellsCeiling span scenario.now (F.post seek.now) target result }
{
    let (message, group) = target;
    Ceiled {
        message,
        group,
        ceiling: ceiling(scenario, message, group),
        through: ceiling_through(scenario, span, message, group),
        attained: told(seek(message, group)),
    }
}

/// The latency that is told where a search for traffic answered so: none where the answer was that memory ran out.
fn told(answer: Result<u32, AllocError>) -> Option<u32>
    ensures { result ≡ told_latency answer }
{
    match answer {
        Ok(latency) => Some(latency),
        Err(AllocError) => None,
    }
}

/// The greatest latency that is found in traffic with that target.
fn seek_at(
    alloc: Global,
    scenario: &Scenario,
    message: usize,
    group: usize,
    simulations: u64,
) -> Result<u32, AllocError>
    requires { IsTarget scenario.now message group }
    ensures attained { IfOk result
        (IsAttainedInTraffic (with_target scenario.now message group)) }
    ensures within { IfOk result (λ latency. latency ≤ ceiling_at scenario.now message group) }
{
    let asked = scenario.with_target(message, group)?;
    let found = seek_traffic(alloc, &asked, simulations)?;
    Ok(found.record.latency())
}
