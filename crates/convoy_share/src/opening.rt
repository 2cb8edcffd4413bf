//! How the workers are opened.

ghost use Rattle.std.specs.Prelude.{◌≡◌, ◌≤◌, ◌<◌, ◌-◌, ◌/◌, [], length, IfOk, OnOk};
ghost use Rattle.convoy_shares.specs.declared.shares.TheConstants.{MOST_WORKERS};
ghost use Rattle.convoy_share_deque.specs.Tasks.{whole_share};
ghost use Rattle.convoy_shares.specs.Shares.{whole};
ghost use Rattle.convoy_share.specs.Common.{common_of};
ghost use Rattle.convoy_share.specs.Opening.{AreOpened};
ghost use Rattle.convoy_share.specs.Workers.{IsOwner, IsThief, StaysOwner};

use super::means::Means;
use super::shared::Shared;
use super::workers::{OwnerWorker, ThiefWorker};
use convoy_incumbent::Hand;
use convoy_ledger::Clerk;
use convoy_regions::Branch;
use convoy_share_deque::Owner;
use std::alloc::AllocError;

/// The owner of a new deque, in which the root is the one branch.
fn open_owner(shared: &Shared, hand: Hand, clerk: Clerk) -> Result<OwnerWorker, AllocError>
    requires hand { hand.board ≡ shared.now.board.now }
    requires clerk { clerk.ledger ≡ shared.now.ledger.now }
    requires none { clerk.tickets ≡ [] }
    ensures { IfOk result (λ owner. IsOwner (common_of shared.now) owner.end.deque hand.share clerk.share
        whole_share 0 hand.seen owner) }
{
    let root = Branch::root(shared.alloc, shared.instance)?;
    Ok(OwnerWorker {
        means: Means::of(hand, clerk, 0),
        end: Owner::open(shared.alloc, root)?,
        trees: Vec::new(shared.alloc),
        drawn_by_thieves: Vec::new(shared.alloc),
    })
}

/// A thief of that number. The owner gives it half of its shares of board and ledger.
fn open_thief(
    shared: &Shared,
    owner: &mut OwnerWorker,
    number: u32,
) -> Result<ThiefWorker, AllocError>
    requires owner { StaysOwner (common_of shared.now) owner.old owner.old }
    requires hand { 1 < owner.old.means.hand.share }
    requires clerk { 1 < owner.old.means.clerk.share }
    requires share { 1 < owner.old.end.share }
    ensures thief { IfOk result (λ thief. IsThief (common_of shared.now) owner.old.end.deque
        (owner.old.means.hand.share / 2) (owner.old.means.clerk.share / 2) thief) }
    ensures owner { OnOk result (IsOwner (common_of shared.now) owner.old.end.deque
        (owner.old.means.hand.share - owner.old.means.hand.share / 2)
        (owner.old.means.clerk.share - owner.old.means.clerk.share / 2)
        (owner.old.end.share - 1) (length owner.old.drawn_by_thieves.items)
        owner.old.means.hand.seen owner.new) }
{
    let end = owner.end.thief()?;
    let Ok(hand) = shared.board.split(&mut owner.means.hand) else {
        unreachable!();
    };
    let Ok(clerk) = shared.ledger.split(&mut owner.means.clerk) else {
        unreachable!();
    };
    Ok(ThiefWorker {
        means: Means::of(hand, clerk, number),
        end,
        trees: Vec::new(shared.alloc),
    })
}

/// The owner, which is worker 0, and as many thieves as there are further workers.
pub(crate) fn open_workers(
    shared: &Shared,
    hand: Hand,
    clerk: Clerk,
) -> Result<(OwnerWorker, Vec<ThiefWorker>), AllocError>
    requires workers { (1 ≤ shared.now.workers) × (shared.now.workers ≤ MOST_WORKERS) }
    requires hand { (hand.board ≡ shared.now.board.now) × (hand.share ≡ whole) }
    requires clerk { (clerk.ledger ≡ shared.now.ledger.now) × (clerk.share ≡ whole) }
    requires none { clerk.tickets ≡ [] }
    ensures { IfOk result (λ opened.
        AreOpened (common_of shared.now) shared.now.workers hand.seen shared.now.workers opened.0 opened.1.items) }
{
    let mut owner = open_owner(shared, hand, clerk)?;
    let mut thieves = Vec::new(shared.alloc);
    for number in 1..shared.workers {
        thieves.push(open_thief(shared, &mut owner, number)?)?;
    }
    Ok((owner, thieves))
}
