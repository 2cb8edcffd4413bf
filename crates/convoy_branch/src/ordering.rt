//! By the order of which two moments a region is split.

ghost use Rattle.std.specs.Prelude.{◌≡◌, IfOk, IfSome, IsTrue};
ghost use Rattle.convoy_regions.specs.Regions.{can_order};

use super::asked::LeftOpen;
use convoy_leads::{Link, Opening};
use convoy_packets::Instance;
use convoy_regions::{Branch, Precedence, Stage, can_order, list_stages};
use convoy_scenario::{MOST_GROUPS, MOST_MULTICASTS};
use convoy_sim::MomentKind;
use convoy_sure::{Windows, target_group};
use std::alloc::{AllocError, Global};

/// By the order of which two stages, by their numbers, a region that is open in real time is to be split: by what
/// leads leave open of it, where it is a half by a delay or each packet has one delay left. None where it is to be
/// split at a packet. Stages have the same numbers in the widened scenario, of which leads speak. The error is that
/// memory ran out.
pub(crate) fn order_to_split(
    alloc: Global,
    instance: &Instance,
    branch: &Branch,
    left: &Option<Box<LeftOpen>>,
) -> Result<Option<(usize, usize)>, AllocError>
    requires of_scenario { branch.now.scenario ≡ instance.now }
    ensures { IfOk result (λ found. IfSome found
        (λ order. IsTrue (can_order instance.now branch.now.region order.0 order.1))) }
{
    let Some(left) = left else {
        return Ok(None);
    };
    let Some(opening) = &left.opening else {
        return Ok(None);
    };
    if branch.is_half_by_delay() || branch.is_point() {
        order_by_leads(alloc, instance, branch, opening)
    } else {
        Ok(None)
    }
}

/// The order of two stages by which a region that leads leave open is to be split: of the first two of which the
/// case or its chain wants one before the other, and of which either may come first, in the windows of the case and
/// by the region's precedences (docs/LEADS.md, "Where a box is split"). None where there are no such. The error is
/// that memory ran out; all that is taken is given back.
fn order_by_leads(
    alloc: Global,
    instance: &Instance,
    branch: &Branch,
    opening: &Opening,
) -> Result<Option<(usize, usize)>, AllocError>
    requires of_scenario { branch.now.scenario ≡ instance.now }
    ensures { IfOk result (λ found. IfSome found
        (λ order. IsTrue (can_order instance.now branch.now.region order.0 order.1))) }
{
    let stages = list_stages(alloc, instance.scenario())?;
    let wanted = wanted_orders(alloc, instance, opening)?;
    for pair in &wanted {
        if may_meet(&opening.case.windows, *pair) {
            let order = numbers_in(alloc, instance, branch, &stages, *pair)?;
            if order.is_some() {
                return Ok(order);
            }
        }
    }
    Ok(None)
}

/// The numbers of two stages, the lesser one first, if the region may be split by their order. The error is that
/// memory ran out.
fn numbers_in(
    alloc: Global,
    instance: &Instance,
    branch: &Branch,
    stages: &[Stage],
    pair: Precedence,
) -> Result<Option<(usize, usize)>, AllocError>
    requires of_scenario { branch.now.scenario ≡ instance.now }
    ensures { IfOk result (λ found. IfSome found
        (λ order. IsTrue (can_order instance.now branch.now.region order.0 order.1))) }
{
    let Some((first, second)) = numbers_of(stages, pair) else {
        return Ok(None);
    };
    if may_order(alloc, instance, branch, first, second)? {
        return Ok(Some((first, second)));
    }
    Ok(None)
}

/// Whether a region may be split by the order of the stages of those numbers. The error is that memory ran out.
fn may_order(
    alloc: Global,
    instance: &Instance,
    branch: &Branch,
    first: usize,
    second: usize,
) -> Result<bool, AllocError>
    requires of_scenario { branch.now.scenario ≡ instance.now }
    ensures { IfOk result (λ can. can ≡ can_order instance.now branch.now.region first second) }
{
    can_order(alloc, instance.scenario(), branch.before(), first, second)
}

/// The numbers of two stages among those of a scenario, the lesser one first; none where one is not there.
fn numbers_of(stages: &[Stage], pair: Precedence) -> Option<(usize, usize)> {
    let first = number_of(stages, pair.0)?;
    let second = number_of(stages, pair.1)?;
    Some((first.min(second), first.max(second)))
}

/// The number of a stage among those of a scenario.
fn number_of(stages: &[Stage], stage: Stage) -> Option<usize> {
    for number in 0..stages.len() {
        let other = stages[number];
        if other.kind == stage.kind
            && other.message == stage.message
            && other.group == stage.group
        {
            return Some(number);
        }
    }
    None
}

/// The orders that an open case and its chain want, what weighs most first: the rival arrives before the target is
/// committed; and of each link its commit comes before what it counts, and all of this before its message.
fn wanted_orders(
    alloc: Global,
    instance: &Instance,
    opening: &Opening,
) -> Result<Vec<Precedence>, AllocError> {
    let (rival, target) = (opening.case.rival, instance.target_message());
    let group = target_group(instance.scenario());
    let mut wanted = Vec::new(alloc);
    wanted.push((arrival(rival, group), commit(target, group)))?;
    if opening.links.is_empty() {
        wanted.push((arrival(rival, group), arrival(target, group)))?;
    }
    for link in &opening.links {
        add_link(&mut wanted, link)?;
    }
    Ok(wanted)
}

/// Adds the orders that a link wants.
fn add_link(wanted: &mut Vec<Precedence>, link: &Link) -> Result<(), AllocError> {
    let group = link.group;
    let own = arrival(link.message, group);
    if let Some(raising) = link.commit {
        wanted.push((commit(raising.message, group), own))?;
    }
    for other in link.others.numbers() {
        let counted = arrival(*other, group);
        wanted.push((counted, own))?;
        if let Some(raising) = link.commit {
            wanted.push((commit(raising.message, group), counted))?;
        }
    }
    Ok(())
}

/// The arrival of a message at a group.
fn arrival(message: usize, group: usize) -> Stage {
    Stage {
        kind: MomentKind::Arrival,
        message,
        group,
    }
}

/// The commit of a message at a group.
fn commit(message: usize, group: usize) -> Stage {
    Stage {
        kind: MomentKind::Commit,
        message,
        group,
    }
}

/// Whether either of two stages may come first in windows: neither is in an earlier tick in any case.
fn may_meet(windows: &Windows, pair: Precedence) -> bool {
    let (first, second) = (ticks_of(windows, pair.0), ticks_of(windows, pair.1));
    first.0 <= second.1 && second.0 <= first.1
}

/// The least and the greatest tick of a stage in windows.
fn ticks_of(windows: &Windows, stage: Stage) -> (u32, u32) {
    let Stage {
        kind,
        message,
        group,
    } = stage;
    if message >= MOST_MULTICASTS || group >= MOST_GROUPS {
        return (0, 0);
    }
    match kind {
        MomentKind::Arrival => (
            windows.least_arrival(message, group),
            windows.greatest_arrival(message, group),
        ),
        MomentKind::Commit => (
            windows.least_settling(message, group),
            windows.greatest_settling(message, group),
        ),
    }
}
