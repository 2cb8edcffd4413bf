//! The order, one group after the other.

ghost use Rattle.std.specs.Prelude.{◌≡◌, ◌+◌, ◌<◌, ◌⊎◌, ◌++◌, ◌∷◌, [], length, slice_index_or, All, IfOk, OnOk, IfSome, IsTrue};
ghost use Rattle.std.specs.List.{remove};
ghost use Rattle.convoy_around.specs.Around.{is_span};
ghost use Rattle.convoy_best_order.specs.Best.{AreReasons, IsBest};
ghost use Rattle.convoy_best_order.specs.Choices.{AreNoWeaker, IsCheapest, IsHeldBy, cost_at, costs_of, groups_with, groups_without};
ghost use Rattle.convoy_best_order.specs.Orders.{IsOrder};
ghost use Rattle.convoy_best_order.specs.Spreads.{MayStayOpen};
ghost use Rattle.convoy_best_order.specs.Targets.{MayBeTarget};

use super::best::{Best, Reason};
use super::best_order_laws::order_behind_is_free;
use super::excess::Excess;
use super::measuring::{greatest_excess, least_excess};
use super::reasons::reasons_of;
use super::rows::rows_of;
use super::target::Target;
use super::targets::has_target;
use convoy_branch::Options;
use convoy_commands::Watch;
use convoy_scenario::Scenario;
use std::alloc::{AllocError, Global};
use std::sync::Wait;
use std::thread::Threads;

/// The best order of the groups of a scenario for some targets, and why no order is better: so says the law
/// [`no_order_is_better`](crate::best_order_laws::no_order_is_better). It is the best one unless a search may stay
/// open: so says [`best_order_is_exact`](crate::best_order_laws::best_order_is_exact). What counts of each target is by
/// how much its greatest latency exceeds its deadline, or 0 where it has none; the greatest of these is to be the
/// least.
///
/// Where a span is given, each search is of the scenario around its target
/// ([`scenario_at`](convoy_survey::scenario_at)).
///
/// Groups at which no target is are listed first. Of those that are left, that one is listed next of which the greatest
/// excess is the least where all others that are left stand behind it, and of several such that which the scenario
/// lists first. So G groups take G (G + 1) / 2 steps at most, each with a search for each target at one group; then
/// each target is searched in the order as it is and in the order that is told. Where a search does not end, what it
/// has found at most is what counts of it. Of one step, and of the targets at the end, as many groups or targets are
/// searched at a time as there are watches, each by one of them. Fails where memory runs out, and else never.
pub fn best_order<R: Threads + Wait + Sync, W: Watch + Sync>(
    rt: &R,
    alloc: Global,
    span: Option<u32>,
    scenario: &Scenario,
    targets: &[Target],
    options: &Options,
    watches: &[W],
) -> Result<Best, AllocError>
    requires watched { 0 < length watches.now }
    requires some { 0 < length targets.now }
    requires lawful { All (MayBeTarget scenario.now) targets.now }
    requires span { IfSome span (λ n. IsTrue (is_span n)) }
    ensures { IfOk result (IsBest options.now span scenario.now targets.now) }
{
    let (order, reasons) = chosen_order(rt, alloc, span, scenario, targets, options, watches)?;
    let rows = rows_of(rt, alloc, span, scenario, targets, &order, options, watches)?;
    let (least, most) = (least_excess(&reasons), greatest_excess(&rows));
    Ok(Best {
        order,
        rows,
        reasons,
        least,
        most,
    })
}

/// The order, and the strongest reasons of all steps.
fn chosen_order<R: Threads + Wait + Sync, W: Watch + Sync>(
    rt: &R,
    alloc: Global,
    span: Option<u32>,
    scenario: &Scenario,
    targets: &[Target],
    options: &Options,
    watches: &[W],
) -> Result<(Vec<usize>, Vec<Reason>), AllocError>
    requires watched { 0 < length watches.now }
    requires some { 0 < length targets.now }
    requires lawful { All (MayBeTarget scenario.now) targets.now }
    requires span { IfSome span (λ n. IsTrue (is_span n)) }
    ensures order { IfOk result (λ chosen. IsOrder scenario.now chosen.0.items) }
    ensures reasons { IfOk result (λ chosen. AreReasons options.now span scenario.now targets.now chosen.1.items) }
    ensures held { IfOk result
        (λ chosen. All (IsHeldBy span scenario.now chosen.1.items chosen.0.items) targets.now
        ⊎ MayStayOpen options.now span scenario.now targets.now) }
{
    order_behind_is_free();
    // A scenario is well formed.
    let _count = scenario.group_count();
    let mut ahead = groups_without(alloc, scenario, targets)?;
    let mut left = groups_with(alloc, scenario, targets)?;
    let mut strongest = reasons_of(
        rt, alloc, span, scenario, targets, &ahead, &left, options, watches,
    )?;
    list_next(cheapest(&strongest), &mut ahead, &mut left)?;
    while !left.is_empty() {
        let reasons = reasons_of(
            rt, alloc, span, scenario, targets, &ahead, &left, options, watches,
        )?;
        list_next(cheapest(&reasons), &mut ahead, &mut left)?;
        strongest = stronger(strongest, reasons);
    }
    Ok((ahead, strongest))
}

/// The groups at which no target is.
fn groups_without(
    alloc: Global,
    scenario: &Scenario,
    targets: &[Target],
) -> Result<Vec<usize>, AllocError>
    ensures { IfOk result (λ groups. groups.items ≡ groups_without targets.now scenario.now) }
{
    let mut groups = Vec::new(alloc);
    for group in 0..scenario.group_count() {
        if !has_target(targets, group) {
            groups.push(group)?;
        }
    }
    Ok(groups)
}

/// The groups at which there is a target.
fn groups_with(
    alloc: Global,
    scenario: &Scenario,
    targets: &[Target],
) -> Result<Vec<usize>, AllocError>
    ensures { IfOk result (λ groups. groups.items ≡ groups_with targets.now scenario.now) }
{
    let mut groups = Vec::new(alloc);
    for group in 0..scenario.group_count() {
        if has_target(targets, group) {
            groups.push(group)?;
        }
    }
    Ok(groups)
}

/// The place of the first of the reasons that cost the least.
fn cheapest(reasons: &[Reason]) -> usize
    requires { 0 < length reasons.now }
    ensures { IsCheapest (costs_of reasons.now) (length reasons.now) result }
{
    let mut cheapest = 0;
    for place in 1..reasons.len() {
        cheapest = cheaper(reasons, cheapest, place);
    }
    cheapest
}

/// The place of the cheapest reason so far, with the reason at one more place.
fn cheaper(reasons: &[Reason], cheapest: usize, place: usize) -> usize
    requires known { place < length reasons.now }
    requires cheapest { IsCheapest (costs_of reasons.now) place cheapest }
    ensures { IsCheapest (costs_of reasons.now) (place + 1) result }
{
    if cost_at(reasons, place).is_less(cost_at(reasons, cheapest)) {
        place
    } else {
        cheapest
    }
}

/// What the reason at this place costs.
fn cost_at(reasons: &[Reason], place: usize) -> Excess
    requires { place < length reasons.now }
    ensures { result ≡ cost_at (costs_of reasons.now) place }
{
    reasons[place].cost
}

/// Puts the group at this place of those that are left behind those that are ahead. Fails where memory runs out, and
/// else never.
fn list_next(place: usize, ahead: &mut Vec<usize>, left: &mut Vec<usize>) -> Result<(), AllocError>
    requires { place < length left.old.items }
    ensures ahead { OnOk result (ahead.new.items ≡ ahead.old.items ++ slice_index_or left.old.items place 0 ∷ []) }
    ensures left { OnOk result (left.new.items ≡ remove left.old.items place) }
{
    let next = left.remove(place);
    ahead.push(next)?;
    Ok(())
}

/// Those reasons of which the least excess is the greater.
fn stronger(reasons: Vec<Reason>, others: Vec<Reason>) -> Vec<Reason>
    requires some { 0 < length reasons.items }
    requires some_others { 0 < length others.items }
    ensures one { (result ≡ reasons) ⊎ (result ≡ others) }
    ensures no_weaker { AreNoWeaker reasons.items result.items }
    ensures no_weaker_than_others { AreNoWeaker others.items result.items }
{
    if least_excess(&reasons).is_less(least_excess(&others)) {
        others
    } else {
        reasons
    }
}
