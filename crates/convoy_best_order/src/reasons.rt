//! What each of the groups that are left costs where it is listed next.

ghost use Rattle.std.specs.Prelude.{◌≡◌, ◌<◌, ◌++◌, length, IsTrue, All, IfOk, IfSome};
ghost use Rattle.std.specs.List.{AllZip, range_with_len};
ghost use Rattle.convoy_around.specs.Around.{is_span};
ghost use Rattle.convoy_best_order.specs.Best.{IsReason, groups_of};
ghost use Rattle.convoy_best_order.specs.Choices.{AreCosts, IsDear, costs_of, with_next};
ghost use Rattle.convoy_best_order.specs.Each.{MayBeNext, MayBeReason};
ghost use Rattle.convoy_best_order.specs.Orders.{IsOrder};
ghost use Rattle.convoy_best_order.specs.Targets.{MayBeTarget, has_target};

use super::best::Reason;
use super::costs::dearest_at;
use super::target::Target;
use convoy_branch::Options;
use convoy_commands::Watch;
use convoy_rows::{all_values, make_rows};
use convoy_scenario::Scenario;
use std::alloc::{AllocError, Global};
use std::sync::Wait;
use std::thread::Threads;

/// For each of the groups that are left how late its dearest target is where all others that are left stand behind it, as
/// many at a time as there are watches. Fails where memory runs out, and else never.
pub(crate) fn reasons_of<R: Threads + Wait + Sync, W: Watch + Sync>(
    rt: &R,
    alloc: Global,
    span: Option<u32>,
    scenario: &Scenario,
    targets: &[Target],
    ahead: &[usize],
    left: &[usize],
    options: &Options,
    watches: &[W],
) -> Result<Vec<Reason>, AllocError>
    requires watched { 0 < length watches.now }
    requires lawful { All (MayBeTarget scenario.now) targets.now }
    requires span { IfSome span (λ n. IsTrue (is_span n)) }
    requires order { IsOrder scenario.now (ahead.now ++ left.now) }
    requires some { All (λ group. IsTrue (has_target targets.now group)) left.now }
    ensures groups { IfOk result (λ reasons. groups_of reasons.items ≡ left.now) }
    ensures all { IfOk result
        (λ reasons. All (IsReason options.now span scenario.now targets.now left.now) reasons.items) }
    ensures costs { IfOk result
        (λ reasons. AreCosts span scenario.now targets.now ahead.now left.now (costs_of reasons.items)) }
    ensures dear { IfOk result
        (λ reasons. All (IsDear options.now span scenario.now targets.now) reasons.items) }
{
    let reasons = each_reason(
        rt, alloc, span, scenario, targets, ahead, left, options, watches,
    )?;
    all_values(alloc, reasons)?
}

/// The same for each of these groups by itself.
fn each_reason<R: Threads + Wait + Sync, W: Watch + Sync>(
    rt: &R,
    alloc: Global,
    span: Option<u32>,
    scenario: &Scenario,
    targets: &[Target],
    ahead: &[usize],
    left: &[usize],
    options: &Options,
    watches: &[W],
) -> Result<Vec<Result<Reason, AllocError>>, AllocError>
    requires watched { 0 < length watches.now }
    requires lawful { All (MayBeTarget scenario.now) targets.now }
    requires span { IfSome span (λ n. IsTrue (is_span n)) }
    requires order { IsOrder scenario.now (ahead.now ++ left.now) }
    requires some { All (λ group. IsTrue (has_target targets.now group)) left.now }
    ensures { IfOk result (λ reasons. AllZip (MayBeReason options.now span scenario.now targets.now ahead.now left.now)
        (range_with_len 0 (length left.now)) reasons.items) }
{
    let reason = |place: usize, watch: &W| -> Result<Reason, AllocError>
        requires { MayBeNext scenario.now targets.now ahead.now left.now × (place < length left.now) × IfSome span (λ n. IsTrue (is_span n)) }
        ensures { MayBeReason options.entry.now span scenario.entry.now targets.entry.now ahead.entry.now left.entry.now place result }
    {
        reason_for(
            rt, alloc, span, scenario, targets, ahead, left, place, options, watch,
        )
    };
    let reasons = make_rows(rt, alloc, watches, left.len(), &reason)?;
    Ok(reasons)
}

/// The same for the group at this place of those that are left.
fn reason_for<R: Threads + Wait + Sync, W: Watch + Sync>(
    rt: &R,
    alloc: Global,
    span: Option<u32>,
    scenario: &Scenario,
    targets: &[Target],
    ahead: &[usize],
    left: &[usize],
    place: usize,
    options: &Options,
    watch: &W,
) -> Result<Reason, AllocError>
    requires next { MayBeNext scenario.now targets.now ahead.now left.now }
    requires span { IfSome span (λ n. IsTrue (is_span n)) }
    requires known { place < length left.now }
    ensures { MayBeReason options.now span scenario.now targets.now ahead.now left.now place result }
{
    let order = with_next(alloc, ahead, left, place)?;
    let group = left[place];
    let dearest = dearest_at(
        rt, alloc, span, scenario, targets, group, &order, options, watch,
    )?;
    Ok(Reason {
        target: dearest.target,
        order,
        spread: dearest.spread,
        cost: dearest.most,
    })
}

/// The groups that stand ahead, then that one of the rest which has this place, and then the others of the rest.
fn with_next(
    alloc: Global,
    ahead: &[usize],
    left: &[usize],
    place: usize,
) -> Result<Vec<usize>, AllocError>
    requires { place < length left.now }
    ensures { IfOk result (λ order. order.items ≡ with_next ahead.now left.now place) }
{
    let mut others = Vec::from_slice(alloc, left)?;
    let next = others.remove(place);
    let mut order = Vec::from_slice(alloc, ahead)?;
    order.push(next)?;
    order.extend_from_slice(&others)?;
    Ok(order)
}
