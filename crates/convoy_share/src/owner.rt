//! The worker that owns the deque.

ghost use Rattle.std.specs.Prelude.{◌≡◌, IfOk, OnOk};
ghost use Rattle.convoy_share.specs.Common.{common_of};
ghost use Rattle.convoy_share.specs.Workers.{StaysOwner};

use super::shared::Shared;
use super::tree::{Tree, keep};
use super::worker::search_branch;
use super::workers::OwnerWorker;
use convoy_branch::Gate;
use convoy_branch::front_laws::fronts_better;
use std::alloc::AllocError;
use std::sync::Wait;
use std::sync::atomic::Ordering;

/// Takes a branch back, if there is one, and searches it as far as there are tickets; the first half of
/// each split is offered to thieves. Answers whether there was a branch.
fn work_once<R: Wait, G: Gate>(
    rt: &R,
    gate: &G,
    shared: &Shared,
    worker: &mut OwnerWorker,
) -> Result<bool, AllocError>
    requires { StaysOwner (common_of shared.now) worker.old worker.old }
    ensures { OnOk result (StaysOwner (common_of shared.now) worker.old worker.new) }
{
    fronts_better();
    match worker.end.take() {
        Some(task) => {
            shared.begun.store(true, Ordering::SeqCst);
            let number = task.number;
            let pieces = search_branch(
                rt,
                gate,
                shared,
                &mut worker.means,
                &mut worker.end,
                task.branch,
                false,
            )?;
            keep(&mut worker.trees, Tree::of(number, pieces))?;
            Ok(true)
        }
        None => Ok(false),
    }
}

/// Takes branches back and searches them, until there is no ticket left or there is no branch.
pub(crate) fn work<R: Wait, G: Gate>(
    rt: &R,
    gate: &G,
    shared: &Shared,
    mut worker: OwnerWorker,
) -> Result<OwnerWorker, AllocError>
    requires { StaysOwner (common_of shared.now) worker worker }
    ensures { IfOk result (λ w. StaysOwner (common_of shared.now) worker w) }
{
    for _ in rt.forever() {
        let more = work_once(rt, gate, shared, &mut worker)?;
        if worker.means.clerk.done() || !more {
            break;
        }
    }
    Ok(worker)
}
