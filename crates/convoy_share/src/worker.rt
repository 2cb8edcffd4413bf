//! How a worker searches a branch, depth first.

ghost use Rattle.std.specs.Prelude.{◌≡◌, ◌≤◌, ◌+◌, ◌*◌, ◌-◌, ℕ, List, [], ◌∷◌, ◌++◌, length, reverse};
ghost use Rattle.std.specs.Prelude.{IfOk, OnOk};
ghost use Rattle.convoy_regions.specs.Regions.{Region};
ghost use Rattle.convoy_branch.specs.Steps.{IsTriedIf};
ghost use Rattle.convoy_share.specs.Growing.{pieces_in};
ghost use Rattle.convoy_share.specs.Means.{IsGrown, IsLeftAtEnd, drawn};

use super::growing::Growing;
use super::halves::Halves;
use super::means::{Means, TakenUp, take_up};
use super::piece::{Piece, Settled};
use super::shared::Shared;
use convoy_branch::front_laws::fronts_better;
use convoy_branch::{Gate, Turn};
use convoy_regions::Branch;
use std::alloc::AllocError;
use std::sync::Wait;

/// Takes up the branch that is next in a tree.
fn advance<R: Wait, G: Gate, H: Halves>(
    rt: &R,
    gate: &G,
    shared: &Shared,
    means: &mut Means,
    halves: &mut H,
    growing: &mut Growing,
    branch: Branch,
    tried: bool,
) -> Result<(), AllocError>
    requires hand { means.old.hand.board ≡ shared.now.board.now }
    requires clerk { means.old.clerk.ledger ≡ shared.now.ledger.now }
    requires halves { H.takes (H.fixed halves.old) shared.now.instance.now }
    requires of_scenario { branch.scenario ≡ shared.now.instance.now }
    requires known { IsTriedIf shared.now.instance.now branch.region tried means.old.hand.seen }
    ensures grown { (before : Means) (first : List Region) (low : ℕ) (regions : List Region)
        → low ≤ length first
        → IsGrown shared.now.bounds shared.now.instance.now before means.old first (H.put halves.old) low regions
        (growing.old.work.items ++ Piece.Todo branch tried ∷ reverse growing.old.written.items)
        → OnOk result (IsGrown shared.now.bounds shared.now.instance.now before means.new first (H.put halves.new) low
        regions (pieces_in growing.new)) }
    ensures left { IsLeftAtEnd shared.now.limit.may_stop means.old (reverse growing.old.written.items)
        → OnOk result (IsLeftAtEnd shared.now.limit.may_stop means.new
        (reverse growing.new.written.items)) }
    ensures board { OnOk result (means.new.hand.board ≡ shared.now.board.now) }
    ensures ledger { OnOk result (means.new.clerk.ledger ≡ shared.now.ledger.now) }
    ensures fixed { OnOk result (H.fixed halves.new ≡ H.fixed halves.old) }
    ensures fewer { OnOk result
        (3 * (shared.now.ledger.now.most - drawn means.new) + length growing.new.work.items
        ≤ 3 * (shared.now.ledger.now.most - drawn means.old) + length growing.old.work.items) }
{
    fronts_better();
    match take_up(rt, gate, shared, means, branch, tried)? {
        TakenUp::Turned(Turn::Closed(node)) => growing.close(node)?,
        TakenUp::Turned(
            Turn::Halves {
                split,
                first,
                second,
                tried,
            },
        ) => {
            let first = halves.place(first, shared.workers);
            growing.part(split, first, second, tried)?;
        }
        TakenUp::Left(branch) => growing.leave(shared.alloc, branch, tried)?,
    }
    Ok(())
}

/// Searches a branch as far as there are tickets, and until the search is stopped: the second half of
/// each split first, and then what became of the first half. The pieces of its tree are answered from the last one back.
pub(crate) fn search_branch<R: Wait, G: Gate, H: Halves>(
    rt: &R,
    gate: &G,
    shared: &Shared,
    means: &mut Means,
    halves: &mut H,
    branch: Branch,
    tried: bool,
) -> Result<Vec<Settled>, AllocError>
    requires hand { means.old.hand.board ≡ shared.now.board.now }
    requires clerk { means.old.clerk.ledger ≡ shared.now.ledger.now }
    requires halves { H.takes (H.fixed halves.old) shared.now.instance.now }
    requires of_scenario { branch.scenario ≡ shared.now.instance.now }
    requires known { IsTriedIf shared.now.instance.now branch.region tried means.old.hand.seen }
    ensures grown { (low : ℕ) → low ≤ length (H.put halves.old) → IfOk result (λ pieces.
        IsGrown shared.now.bounds shared.now.instance.now means.old means.new (H.put halves.old) (H.put halves.new) low
        (branch.region ∷ []) (reverse pieces.items)) }
    ensures left { IfOk result (λ pieces. IsLeftAtEnd shared.now.limit.may_stop
        means.new (reverse pieces.items)) }
    ensures fixed { OnOk result (H.fixed halves.new ≡ H.fixed halves.old) }
{
    let mut growing = Growing::of(shared.alloc, branch, tried)?;
    while let Some((branch, tried)) = growing.next()? {
        advance(rt, gate, shared, means, halves, &mut growing, branch, tried)?;
    }
    Ok(growing.written)
}
