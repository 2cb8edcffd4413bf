//! The workers that steal.

ghost use Rattle.std.specs.Prelude.{IfOk, OnOk};
ghost use Rattle.convoy_share.specs.Common.{common_of};
ghost use Rattle.convoy_share.specs.Workers.{StaysThief};

use super::halves::Keeps;
use super::shared::Shared;
use super::tree::{Tree, keep};
use super::worker::search_branch;
use super::workers::ThiefWorker;
use convoy_branch::Gate;
use convoy_branch::front_laws::fronts_better;
use crossbeam_deque::Steal;
use std::alloc::AllocError;
use std::sync::Wait;
use std::sync::atomic::Ordering;
use std::thread;

/// Takes a branch, if there is one, and searches it as far as there are tickets, and until the search
/// is stopped. Answers whether there may be more.
fn rob_once<R: Wait, G: Gate>(
    rt: &R,
    gate: &G,
    shared: &Shared,
    worker: &mut ThiefWorker,
) -> Result<bool, AllocError>
    requires { StaysThief (common_of shared.now) worker.old worker.old }
    ensures { OnOk result (StaysThief (common_of shared.now) worker.old worker.new) }
{
    fronts_better();
    match worker.end.steal() {
        Steal::Success(task) => {
            let number = task.number;
            let pieces = search_branch(
                rt,
                gate,
                shared,
                &mut worker.means,
                &mut Keeps,
                task.branch,
                false,
            )?;
            keep(&mut worker.trees, Tree::of(number, pieces))?;
            Ok(true)
        }
        Steal::Retry => Ok(true),
        Steal::Empty => Ok(false),
    }
}

/// Takes branches and searches them, once the owner has the root, until there is no ticket left, or the
/// search is stopped, or the owner has ended and there is no branch.
pub(crate) fn rob<R: Wait, G: Gate>(
    rt: &R,
    gate: &G,
    shared: &Shared,
    mut worker: ThiefWorker,
) -> Result<ThiefWorker, AllocError>
    requires { StaysThief (common_of shared.now) worker worker }
    ensures { IfOk result (λ w. StaysThief (common_of shared.now) worker w) }
{
    for _ in rt.forever() {
        let last = shared.ended.load(Ordering::SeqCst);
        let begun = shared.begun.load(Ordering::SeqCst);
        let more = begun && rob_once(rt, gate, shared, &mut worker)?;
        if worker.means.clerk.done() || last && !more || shared.limit.is_over(gate) {
            break;
        }
        if !more {
            thread::yield_now();
        }
    }
    Ok(worker)
}
