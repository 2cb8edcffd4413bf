ghost use Rattle.std.specs.Prelude.{◌≡◌, ◌⊎◌, ◌<◌, ◌++◌, length, IfOk, IfErr, IfSome, IsTrue, OnOk};
ghost use Rattle.std.specs.List.{All, AllZip, flat_map};
ghost use Rattle.convoy_around.specs.Around.{is_span};
ghost use Rattle.convoy_budget.specs.Budgets.{AreBudgets, HasBroken, IsBroken, IsBudgetOf, MayBeKey, MayBeTarget, MayTell, key_of, keys_of};

use super::drafting::range_of_way;
use super::judging::room;
use super::kinds::{Budget, Side, Target, Test, Way, Widening};
use super::ways::ways_of;
use convoy_branch::Options;
use convoy_commands::{Fault, Watch};
use convoy_packets::Instance;
use convoy_rows::{all_values, make_each};
use convoy_scenario::Scenario;
use convoy_survey::scenario_at;
use std::alloc::{AllocError, Global};
use std::sync::Wait;
use std::thread::Threads;

/// The budgets of all ways on which packets travel ([`ways_of`]), for these targets of an instance's scenario, one
/// target after the other: the range of the way as it is, and the [`room`] that it has at either side before the
/// greatest latency of the target, or its ceiling where that is asked for, misses the deadline. Where a span is given,
/// that is asked of the scenario around the target ([`scenario_at`]): the span stays what it is where a range changes.
/// As many rows are made at a time as there are watches, and each search is watched by one of them.
///
/// A row for which memory runs out tells that, and the others are told all the same. `Fault::Memory` where there is no
/// memory for the rows, and `Fault::Scenario` with its cause where a range makes no scenario.
pub fn budgets<R: Threads + Wait + Sync, W: Watch + Sync>(
    rt: &R,
    alloc: Global,
    span: Option<u32>,
    instance: &Instance,
    targets: &[Target],
    of_ceiling: bool,
    options: &Options,
    watches: &[W],
) -> Result<Vec<Budget>, Fault>
    requires watched { 0 < length watches.now }
    requires lawful { All (MayBeTarget instance.now) targets.now }
    requires span { IfSome span (λ n. IsTrue (is_span n)) }
    ensures told { IfOk result
        (λ rows. AreBudgets options.now of_ceiling span instance.now targets.now rows.items) }
    ensures err { IfErr result (λ fault. HasBroken span instance.now fault ⊎ (fault ≡ Fault.Memory)) }
{
    let ways = ways_of(alloc, instance)?;
    let keys = all_keys(alloc, &ways, targets)?;
    let scenario = instance.scenario();
    let rows = budget_each(
        rt, alloc, span, scenario, &keys, of_ceiling, options, watches,
    )?;
    all_values(alloc, rows)?
}

/// Each of these targets with each of these ways, one target after the other.
fn all_keys(
    alloc: Global,
    ways: &[Way],
    targets: &[Target],
) -> Result<Vec<(Target, Way)>, AllocError>
    ensures { IfOk result (λ keys. keys.items ≡ flat_map (keys_of ways.now) targets.now) }
{
    let mut keys = Vec::new(alloc);
    for target in targets {
        push_keys(ways, *target, &mut keys)?;
    }
    Ok(keys)
}

/// Appends a target with each of these ways.
fn push_keys(ways: &[Way], target: Target, keys: &mut Vec<(Target, Way)>) -> Result<(), AllocError>
    ensures { OnOk result (keys.new.items ≡ keys.old.items ++ keys_of ways.now target) }
{
    for way in ways {
        keys.push((target, *way))?;
    }
    Ok(())
}

/// The budgets of these ways for their targets, in their order, each by itself.
fn budget_each<R: Threads + Wait + Sync, W: Watch + Sync>(
    rt: &R,
    alloc: Global,
    span: Option<u32>,
    scenario: &Scenario,
    keys: &[(Target, Way)],
    of_ceiling: bool,
    options: &Options,
    watches: &[W],
) -> Result<Vec<Result<Budget, Fault>>, AllocError>
    requires watched { 0 < length watches.now }
    requires lawful { All (MayBeKey scenario.now) keys.now }
    requires span { IfSome span (λ n. IsTrue (is_span n)) }
    ensures { IfOk result
        (λ rows. AllZip (MayTell options.now of_ceiling span scenario.now) keys.now rows.items) }
{
    let row = |key: &(Target, Way), watch: &W| -> Result<Budget, Fault>
        requires { MayBeKey scenario.now key.now × IfSome span (λ n. IsTrue (is_span n)) }
        ensures { MayTell options.entry.now of_ceiling span scenario.entry.now key.now result }
    { budget_at(rt, alloc, span, scenario, *key, of_ceiling, options, watch) };
    let rows = make_each(rt, alloc, watches, keys, &row)?;
    Ok(rows)
}

/// The budget of a way for a target of the scenario, around it where a span is given.
fn budget_at<R: Threads + Wait + Sync, W: Watch + Sync>(
    rt: &R,
    alloc: Global,
    span: Option<u32>,
    scenario: &Scenario,
    key: (Target, Way),
    of_ceiling: bool,
    options: &Options,
    watch: &W,
) -> Result<Budget, Fault>
    requires target { MayBeKey scenario.now key }
    requires span { IfSome span (λ n. IsTrue (is_span n)) }
    ensures { MayTell options.now of_ceiling span scenario.now key result }
{
    let (target, way) = key;
    let asked = scenario_at(alloc, span, scenario, target.message, target.group)?;
    budget(rt, alloc, &asked, target, way, of_ceiling, options, watch)
}

/// The budget of a way for a target, of which the latency is asked in the scenario.
fn budget<R: Threads + Wait + Sync, W: Watch + Sync>(
    rt: &R,
    alloc: Global,
    scenario: &Scenario,
    target: Target,
    way: Way,
    of_ceiling: bool,
    options: &Options,
    watch: &W,
) -> Result<Budget, Fault>
    ensures key { IfOk result (λ row. key_of row ≡ (target, way)) }
    ensures told { IfOk result (IsBudgetOf options.now of_ceiling scenario.now) }
    ensures err { IfErr result (IsBroken scenario.now) }
{
    let (least, most) = range_of_way(scenario, way);
    let test = Test {
        deadline: target.deadline,
        of_ceiling,
    };
    let (side, other) = (Side::Later, Side::Earlier);
    let later = room(
        rt,
        alloc,
        scenario,
        Widening { way, side },
        test,
        options,
        watch,
    )?;
    let widening = Widening { way, side: other };
    let earlier = room(rt, alloc, scenario, widening, test, options, watch)?;
    Ok(Budget {
        target,
        way,
        least,
        most,
        later,
        earlier,
    })
}
