//! Halves of a region by the order of two stages.

ghost use Rattle.std.specs.Prelude.{◌≡◌, All, IfOk};
ghost use Rattle.convoy_intervals.specs.Boxes.{Box};
ghost use Rattle.convoy_regions.specs.Stages.{IsPrecedence, stage_at};
ghost use Rattle.convoy_regions.specs.Known.{IsLow};
ghost use Rattle.convoy_regions.specs.Regions.{can_order, is_commit, may_come_either_way};

use super::known::Known;
use super::stage::{Precedence, Stage, list_stages, stage_in};
use convoy_scenario::Scenario;
use convoy_sim::MomentKind;
use std::alloc::{AllocError, Global};

/// Whether a region with these precedences may be split by the order of the stages of those numbers: they are
/// two stages of one group, the lesser number first, not both commits, and neither comes before the other by the
/// precedences. The error is that memory ran out.
pub fn can_order(
    alloc: Global,
    scenario: &Scenario,
    before: &[Precedence],
    first: usize,
    second: usize,
) -> Result<bool, AllocError>
    requires within { All (IsPrecedence scenario.now) before.now }
    ensures { (ranges : Box) → IfOk result (λ can. can
        ≡ can_order scenario.now (record { ranges = ranges; before = before.now }) first second) }
{
    let stages = list_stages(alloc, scenario)?;
    if first >= second || second >= stages.len() {
        return Ok(false);
    }
    let known = Known::of(before);
    Ok(may_come_either_way(&known, stages[first], stages[second]))
}

/// Whether two stages are of one group and not both commits, and neither comes before the other.
pub(crate) fn may_come_either_way(known: &Known, a: Stage, b: Stage) -> bool
    requires first { IsLow a }
    requires second { IsLow b }
    ensures { result ≡ may_come_either_way known.now a b }
{
    a.group == b.group
        && !a.is_same(b)
        && !(is_commit(a.kind) && is_commit(b.kind))
        && !known.is_before(a, b)
        && !known.is_before(b, a)
}

/// Whether it is a commit.
fn is_commit(kind: MomentKind) -> bool
    ensures { result ≡ is_commit kind }
{
    match kind {
        MomentKind::Arrival => false,
        MomentKind::Commit => true,
    }
}

/// The precedence of two stages by their numbers, the first of them first. The error is that memory ran out.
pub fn ordered(
    alloc: Global,
    scenario: &Scenario,
    first: usize,
    second: usize,
) -> Result<Precedence, AllocError>
    ensures { IfOk result (λ pair. pair ≡ (stage_at scenario.now first, stage_at scenario.now second)) }
{
    let stages = list_stages(alloc, scenario)?;
    Ok((stage_in(&stages, first), stage_in(&stages, second)))
}
