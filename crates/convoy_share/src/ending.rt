//! What all workers have brought, as one tree.

ghost use Rattle.std.specs.Prelude.{◌≡◌, false, length, IfOk, OnOk};
ghost use Rattle.convoy_share_deque.specs.Tasks.{whole_share, AreAllTaken};
ghost use Rattle.convoy_share.specs.Common.{common_of};
ghost use Rattle.convoy_share.specs.Ended.{IsEnded};
ghost use Rattle.convoy_share.specs.Workers.{StaysOwner};

use super::filling::Filling;
use super::finishing::search_left;
use super::means::Means;
use super::piece::Settled;
use super::shared::Shared;
use super::tree::{Tree, keep};
use super::workers::OwnerWorker;
use convoy_branch::Gate;
use convoy_branch::front_laws::fronts_better;
use convoy_incumbent::Hand;
use convoy_ledger::Clerk;
use std::alloc::AllocError;
use std::sync::Wait;

/// What all workers have brought: the hand and the clerk that all others were joined to, the tree, and
/// how many tickets each thief drew.
#[derive(Drop)]
pub(crate) struct Ended {
    pub hand: Hand,
    pub clerk: Clerk,
    pub pieces: Vec<Settled>,
    pub drawn_by_thieves: Vec<u64>,
}

/// Takes back a branch that nobody took, if there is one, as a tree that is left. Answers whether there
/// was one.
fn drain_once(shared: &Shared, worker: &mut OwnerWorker) -> Result<bool, AllocError>
    requires { StaysOwner (common_of shared.now) worker.old worker.old }
    ensures owner { OnOk result (StaysOwner (common_of shared.now) worker.old worker.new) }
    ensures none { IfOk result (λ more. more ≡ false → worker.old.end.share ≡ whole_share
        → AreAllTaken worker.new.end.put worker.new.end.taken) }
{
    fronts_better();
    let Some(task) = worker.end.take() else {
        return Ok(false);
    };
    let number = task.number;
    let mut pieces = Vec::new(shared.alloc);
    pieces.push(Settled::left(shared.alloc, task.branch, false)?)?;
    keep(&mut worker.trees, Tree::of(number, pieces))?;
    Ok(true)
}

/// Takes back each branch that nobody took.
fn drain<R: Wait>(rt: &R, shared: &Shared, worker: &mut OwnerWorker) -> Result<(), AllocError>
    requires owner { StaysOwner (common_of shared.now) worker.old worker.old }
    requires share { worker.old.end.share ≡ whole_share }
    ensures owner { OnOk result (StaysOwner (common_of shared.now) worker.old worker.new) }
    ensures all { OnOk result (AreAllTaken worker.new.end.put worker.new.end.taken) }
{
    for _ in rt.forever() {
        if !drain_once(shared, worker)? {
            break;
        }
    }
    Ok(())
}

/// Puts the trees of all workers together, and searches what is left as far as there are tickets, and
/// until the search is stopped.
pub(crate) fn finish<R: Wait, G: Gate>(
    rt: &R,
    gate: &G,
    shared: &Shared,
    mut worker: OwnerWorker,
) -> Result<Ended, AllocError>
    requires owner { StaysOwner (common_of shared.now) worker worker }
    requires share { worker.end.share ≡ whole_share }
    ensures { IfOk result (λ ended. IsEnded (common_of shared.now) worker.means.hand.share
        worker.means.clerk.share (length worker.drawn_by_thieves.items)
        worker.means.hand.seen ended) }
{
    drain(rt, shared, &mut worker)?;
    let OwnerWorker {
        mut means,
        end,
        trees,
        drawn_by_thieves,
    } = worker;
    let mut filling = Filling::of(shared.alloc, end.put_count(), trees)?;
    search_left(rt, gate, shared, &mut means, &mut filling)?;
    let Means { hand, clerk, .. } = means;
    Ok(Ended {
        hand,
        clerk,
        pieces: filling.done,
        drawn_by_thieves,
    })
}
