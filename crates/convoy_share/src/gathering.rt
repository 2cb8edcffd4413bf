//! How the owner takes in what the thieves bring.

ghost use Rattle.std.specs.Prelude.{◌≡◌, ◌+◌, ℕ, [], ◌∷◌, ◌++◌, length, OnOk};
ghost use Rattle.convoy_share_deque.specs.Tasks.{DequeId};
ghost use Rattle.convoy_share.specs.Common.{common_of};
ghost use Rattle.convoy_share.specs.Workers.{IsOwner, IsThief};

use super::means::Means;
use super::shared::Shared;
use super::workers::{OwnerWorker, ThiefWorker};
use convoy_branch::front_laws::fronts_better;
use std::alloc::AllocError;

/// Takes in what a thief of the owner's deque brings: what it published and drew, its share of the
/// deque, and its trees.
pub(crate) fn gather(
    shared: &Shared,
    owner: &mut OwnerWorker,
    thief: ThiefWorker,
) -> Result<(), AllocError>
    requires hand { owner.old.means.hand.board ≡ shared.now.board.now }
    requires other_hand { thief.means.hand.board ≡ shared.now.board.now }
    requires clerk { owner.old.means.clerk.ledger ≡ shared.now.ledger.now }
    requires other_clerk { thief.means.clerk.ledger ≡ shared.now.ledger.now }
    requires deque { thief.end.deque ≡ owner.old.end.deque }
    // Of the tickets of each worker this one is told how many it drew.
    ensures drawn { OnOk result (owner.new.drawn_by_thieves.items
        ≡ owner.old.drawn_by_thieves.items ++ length thief.means.clerk.tickets ∷ []) }
    ensures owner { (deque : DequeId) (hand clerk share joined least hand_too clerk_too : ℕ)
        → IsOwner (common_of shared.now) deque hand clerk share joined least owner.old
        → IsThief (common_of shared.now) deque hand_too clerk_too thief
        → OnOk result (IsOwner (common_of shared.now) deque (hand + hand_too) (clerk + clerk_too) (share + 1)
        (joined + 1) least owner.new) }
{
    fronts_better();
    let ThiefWorker {
        means,
        end,
        mut trees,
    } = thief;
    let Means { hand, clerk, .. } = means;
    owner.drawn_by_thieves.push(clerk.drawn())?;
    shared.board.join(&mut owner.means.hand, hand);
    shared.ledger.join(&mut owner.means.clerk, clerk);
    owner.end.join(end);
    owner.trees.append(&mut trees)?;
    Ok(())
}
