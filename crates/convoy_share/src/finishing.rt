//! How the owner ends a search, once every thief was joined.

ghost use Rattle.std.specs.Prelude.{◌≡◌, ◌≤◌, [], List, reverse, OnOk};
ghost use Rattle.convoy_regions.specs.Regions.{Region};
ghost use Rattle.convoy_share.specs.Common.{common_of};
ghost use Rattle.convoy_share.specs.Finishing.{IsFinishing};
ghost use Rattle.convoy_share.specs.Means.{IsLater, drawn};

use super::filling::Filling;
use super::halves::Keeps;
use super::means::Means;
use super::shared::Shared;
use super::worker::search_branch;
use convoy_branch::Gate;
use convoy_branch::front_laws::fronts_better;
use std::alloc::AllocError;
use std::sync::Wait;

/// Fills every place, and searches what is left as far as there are tickets, and
/// until the search is stopped.
pub(crate) fn search_left<R: Wait, G: Gate>(
    rt: &R,
    gate: &G,
    shared: &Shared,
    means: &mut Means,
    filling: &mut Filling,
) -> Result<(), AllocError>
    requires hand { means.old.hand.board ≡ shared.now.board.now }
    requires clerk { means.old.clerk.ledger ≡ shared.now.ledger.now }
    requires filling { (put : List Region) × IsFinishing (common_of shared.now) put means.old filling.old.done.items
        (reverse filling.old.rest.items) filling.old.slots.items }
    ensures finished { (put : List Region) → IsFinishing (common_of shared.now) put means.old filling.old.done.items
        (reverse filling.old.rest.items) filling.old.slots.items
        → OnOk result (IsFinishing (common_of shared.now) put means.new filling.new.done.items []
        filling.new.slots.items) }
    ensures later { OnOk result (IsLater means.old means.new) }
    ensures drawn { OnOk result (drawn means.old ≤ drawn means.new) }
{
    fronts_better();
    while let Some((branch, tried)) = filling.next_left()? {
        let pieces = search_branch(rt, gate, shared, means, &mut Keeps, branch, tried)?;
        filling.settle(pieces)?;
    }
    Ok(())
}
