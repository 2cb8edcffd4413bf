//! The ceilings of all kinds.

ghost use Rattle.std.specs.Prelude.{◌≡◌, ◌++◌, ◌∷◌, [], ◌<◌, length, map, IfOk, OnOk};
ghost use Rattle.std.specs.List.{All};
ghost use Rattle.convoy_scenario.specs.Scenario.{GoesTo, message_at};
ghost use Rattle.convoy_kinds.specs.Ceilings.{AreCeilingRows, AreSlowest, IsCeilingRow, IsKindTarget, IsSlowest, TellsCeiling, kind_targets, targets_of_kind};
ghost use Rattle.convoy_kinds.specs.Kinds.{all_kinds};

use super::ceiling_row::CeilingRow;
use super::kind_laws::{kinds_may_be_asked_in_pairs, rivals_decide};
use super::kinds::Kinds;
use super::slowest::{Slowest, longest_to_commit, slowest_at};
use std::alloc::{AllocError, Global};

/// The ceiling of each kind at each group that it goes to, in the order of their numbers, in ticks, with the rival
/// beside which it has that ceiling: the first kind of which a message may be committed longest after its arrival there. Nothing is
/// simulated. Fails where memory runs out, and else never.
pub fn ceiling_rows(alloc: Global, kinds: &Kinds) -> Result<Vec<CeilingRow>, AllocError>
    ensures { IfOk result (λ rows. AreCeilingRows kinds.now rows.items) }
{
    let targets = targets_of(alloc, kinds)?;
    let slowest = slowest_at_all(alloc, kinds)?;
    let mut rows = Vec::new(alloc);
    for target in &targets {
        rows.push(row_of(kinds, &slowest, *target))?;
    }
    Ok(rows)
}

/// Each kind at each group that it goes to.
fn targets_of(alloc: Global, kinds: &Kinds) -> Result<Vec<(usize, usize)>, AllocError>
    ensures targets { IfOk result (λ targets. targets.items ≡ kind_targets kinds.now) }
    ensures lawful { IfOk result (λ targets. All (IsKindTarget kinds.now) targets.items) }
{
    let mut targets = Vec::new(alloc);
    for kind in 0..kinds.kind_count() {
        push_targets(kinds, kind, &mut targets)?;
    }
    Ok(targets)
}

/// Appends a kind at each group that it goes to.
fn push_targets(
    kinds: &Kinds,
    kind: usize,
    targets: &mut Vec<(usize, usize)>,
) -> Result<(), AllocError>
    requires known { kind < length kinds.now.kinds }
    requires lawful { All (IsKindTarget kinds.now) targets.old.items }
    ensures targets { OnOk result (targets.new.items ≡ targets.old.items ++ targets_of_kind kinds.now kind) }
    ensures lawful { OnOk result (All (IsKindTarget kinds.now) targets.new.items) }
{
    for group in kinds.destinations(kind) {
        push_target(kinds, kind, *group, targets)?;
    }
    Ok(())
}

/// Appends a kind at a group that it goes to.
fn push_target(
    _kinds: &Kinds,
    kind: usize,
    group: usize,
    targets: &mut Vec<(usize, usize)>,
) -> Result<(), AllocError>
    requires known { kind < length _kinds.now.kinds }
    requires goes { GoesTo (all_kinds _kinds.now) kind group }
    requires lawful { All (IsKindTarget _kinds.now) targets.old.items }
    ensures targets { OnOk result (targets.new.items ≡ targets.old.items ++ (kind, group) ∷ []) }
    ensures lawful { OnOk result (All (IsKindTarget _kinds.now) targets.new.items) }
{
    Ok(targets.push((kind, group))?)
}

/// The slowest at each group.
fn slowest_at_all(alloc: Global, kinds: &Kinds) -> Result<Vec<Slowest>, AllocError>
    ensures { IfOk result (λ slowest. AreSlowest kinds.now slowest.items) }
{
    let mut slowest = Vec::new(alloc);
    for group in 0..kinds.group_count() {
        slowest.push(slowest_at(kinds, group))?;
    }
    Ok(slowest)
}

/// The slowest at a group, of which those at the first groups are known.
fn slowest_among(kinds: &Kinds, slowest: &[Slowest], group: usize) -> Slowest
    requires { AreSlowest kinds.now slowest.now }
    ensures { IsSlowest kinds.now group result }
{
    match slowest.get(group) {
        Some(known) => *known,
        None => slowest_at(kinds, group),
    }
}

/// The row of a kind at a group that it goes to, where the slowest at the first groups are known.
fn row_of(kinds: &Kinds, slowest: &[Slowest], target: (usize, usize)) -> CeilingRow
    requires target { IsKindTarget kinds.now target }
    requires slowest { AreSlowest kinds.now slowest.now }
    ensures { TellsCeiling kinds.now target result }
{
    rivals_decide();
    kinds_may_be_asked_in_pairs();
    let _count = kinds.kind_count();
    let (kind, group) = target;
    let slowest = slowest_among(kinds, slowest, group);
    CeilingRow {
        kind,
        group,
        ceiling: longest_to_commit(kinds, kind, group) + slowest.after,
        rival: slowest.kind,
    }
}
