//! What it costs to list a group next.

ghost use Rattle.std.specs.Prelude.{◌≡◌, ◌+◌, ◌<◌, ◌||◌, IsTrue, All, length, take, slice_get, Some, is_some, IfOk, IfSome};
ghost use Rattle.convoy_around.specs.Around.{is_span};
ghost use Rattle.convoy_best_order.specs.Choices.{AreKept, AreKeptBy, IsDearest, dearer};
ghost use Rattle.convoy_best_order.specs.Orders.{IsOrder};
ghost use Rattle.convoy_best_order.specs.declared.target.Target.{Target};
ghost use Rattle.convoy_best_order.specs.Targets.{MayBeTarget, has_target, is_at};

use super::excess::Excess;
use super::searching::spread_in;
use super::spread::Spread;
use super::target::Target;
use convoy_branch::Options;
use convoy_commands::Watch;
use convoy_scenario::Scenario;
use std::alloc::{AllocError, Global};
use std::sync::Wait;
use std::thread::Threads;

/// The target with the greatest excess at least, of some targets at one group, and the greatest excess at most of these.
#[derive(Clone, Copy)]
pub(crate) struct Dearest {
    pub(crate) target: Target,
    pub(crate) spread: Spread,
    pub(crate) most: Excess,
}

/// How late the dearest target at a group is in that order of the groups. Fails where memory runs out, and else never.
pub(crate) fn dearest_at<R: Threads + Wait + Sync, W: Watch + Sync>(
    rt: &R,
    alloc: Global,
    span: Option<u32>,
    scenario: &Scenario,
    targets: &[Target],
    group: usize,
    order: &[usize],
    options: &Options,
    watch: &W,
) -> Result<Dearest, AllocError>
    requires lawful { All (MayBeTarget scenario.now) targets.now }
    requires span { IfSome span (λ n. IsTrue (is_span n)) }
    requires order { IsOrder scenario.now order.now }
    requires some { IsTrue (has_target targets.now group) }
    ensures dearest { IfOk result (IsDearest options.now span scenario.now targets.now order.now group) }
    ensures kept { IfOk result
        (λ dearest. AreKept span scenario.now order.now group dearest.most targets.now) }
{
    match dearest_of(
        rt, alloc, span, scenario, targets, group, order, options, watch,
    )? {
        Some(dearest) => Ok(dearest),
        None => unreachable!(),
    }
}

/// The dearest target at a group in that order, if there is any.
fn dearest_of<R: Threads + Wait + Sync, W: Watch + Sync>(
    rt: &R,
    alloc: Global,
    span: Option<u32>,
    scenario: &Scenario,
    targets: &[Target],
    group: usize,
    order: &[usize],
    options: &Options,
    watch: &W,
) -> Result<Option<Dearest>, AllocError>
    requires lawful { All (MayBeTarget scenario.now) targets.now }
    requires span { IfSome span (λ n. IsTrue (is_span n)) }
    requires order { IsOrder scenario.now order.now }
    ensures some { IfOk result (λ dearest. is_some dearest ≡ has_target targets.now group) }
    ensures dearest { IfOk result
        (λ dearest. IfSome dearest (IsDearest options.now span scenario.now targets.now order.now group)) }
    ensures kept { IfOk result (λ dearest. AreKeptBy span scenario.now order.now group dearest targets.now) }
{
    let mut dearest = None;
    for place in 0..targets.len() {
        dearest = dearest_with(
            rt, alloc, span, scenario, targets, group, order, dearest, place, options, watch,
        )?;
    }
    Ok(dearest)
}

/// The dearest target at a group of those so far and the one at this place.
fn dearest_with<R: Threads + Wait + Sync, W: Watch + Sync>(
    rt: &R,
    alloc: Global,
    span: Option<u32>,
    scenario: &Scenario,
    targets: &[Target],
    group: usize,
    order: &[usize],
    dearest: Option<Dearest>,
    place: usize,
    options: &Options,
    watch: &W,
) -> Result<Option<Dearest>, AllocError>
    requires lawful { All (MayBeTarget scenario.now) targets.now }
    requires span { IfSome span (λ n. IsTrue (is_span n)) }
    requires order { IsOrder scenario.now order.now }
    requires known { place < length targets.now }
    requires dearest { IfSome dearest (IsDearest options.now span scenario.now targets.now order.now group) }
    requires kept { AreKeptBy span scenario.now order.now group dearest (take place targets.now) }
    ensures some { IfOk result (λ next. (target : Target) → slice_get targets.now place ≡ Some target
        → is_some next ≡ (is_some dearest || is_at group target)) }
    ensures dearest { IfOk result
        (λ next. IfSome next (IsDearest options.now span scenario.now targets.now order.now group)) }
    ensures kept { IfOk result
        (λ next. AreKeptBy span scenario.now order.now group next (take (place + 1) targets.now)) }
{
    let target = targets[place];
    if target.group != group {
        return Ok(dearest);
    }
    let spread = spread_in(rt, alloc, span, scenario, order, target, options, watch)?;
    Ok(Some(dearer(dearest, target, spread)))
}

/// Of the targets so far and one more the one with the greater excess at least.
fn dearer(dearest: Option<Dearest>, target: Target, spread: Spread) -> Dearest
    ensures { result ≡ dearer dearest target spread }
{
    match dearest {
        None => Dearest {
            target,
            spread,
            most: target.most_excess(spread),
        },
        Some(dearest) => the_dearer(dearest, target, spread),
    }
}

/// The same of one that there is.
fn the_dearer(dearest: Dearest, target: Target, spread: Spread) -> Dearest
    ensures { result ≡ dearer (Some dearest) target spread }
{
    let most = dearest.most.greater(target.most_excess(spread));
    let so_far = dearest.target.least_excess(dearest.spread);
    if so_far.is_less(target.least_excess(spread)) {
        Dearest {
            target,
            spread,
            most,
        }
    } else {
        Dearest { most, ..dearest }
    }
}
