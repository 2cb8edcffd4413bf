//! How all workers run, each thief in a thread of its own.

ghost use Rattle.std.specs.Prelude.{◌≡◌, IfOk};
ghost use Rattle.std.specs.List.{All};
ghost use Rattle.std.specs.Thread.{IsSync};
ghost use Rattle.convoy_share.specs.Common.{common_by, common_of};
ghost use Rattle.convoy_share.specs.Workers.{HasJoined, IsThiefOf, StaysOwner, StaysThief};

use super::gathering::gather;
use super::owner::work;
use super::shared::Shared;
use super::thief::rob;
use super::workers::{OwnerWorker, ThiefWorker};
use convoy_branch::Gate;
use convoy_origin::Origin;
use std::alloc::AllocError;
use std::sync::Wait;
use std::sync::atomic::Ordering;
use std::thread::{Threads, join};

/// Runs the owner in this thread and each thief in one of its own, or after the owner where none can be
/// started, and takes in what the thieves bring.
pub(crate) fn run<R: Threads + Wait + Sync, G: Gate + Sync>(
    rt: &R,
    gate: &G,
    shared: &Shared,
    owner: OwnerWorker,
    mut thieves: Vec<ThiefWorker>,
) -> Result<OwnerWorker, AllocError>
    requires owner { StaysOwner (common_of shared.now) owner owner }
    requires thieves { All (IsThiefOf (common_of shared.now) owner.end.deque) thieves.items }
    ensures { IfOk result (λ w. HasJoined (common_of shared.now) owner thieves.items w) }
{
    let Some(thief) = thieves.pop() else {
        let worked = work(rt, gate, shared, owner);
        shared.ended.store(true, Ordering::SeqCst);
        return worked;
    };
    // A closure's clauses are known only where no type that it takes along names a lifetime, as an origin does.
    let Shared {
        alloc,
        instance,
        bounds,
        limit,
        board,
        ledger,
        begun,
        ended,
        workers,
        ..
    } = *shared;
    let (robbed, worked) = join(
        rt,
        move || -> Result<ThiefWorker, AllocError>
            requires board { board.now.scenario ≡ instance.now }
            requires thief { let common = common_by bounds instance.now board.now ledger.now limit.may_stop in StaysThief common thief thief }
            ensures { let common = common_by bounds instance.entry.now board.entry.now
                ledger.entry.now limit.may_stop in IfOk result (λ w. StaysThief common thief w) }
        {
            let origin = Origin::of(alloc, instance)?;
            let shared = Shared {
                alloc,
                instance,
                origin: &origin,
                bounds,
                limit,
                board,
                ledger,
                begun,
                ended,
                workers,
            };
            rob(rt, gate, &shared, thief)
        },
        move || -> Result<OwnerWorker, AllocError>
            requires sync { IsSync R.row }
            requires board { board.now.scenario ≡ instance.now }
            requires owner { let common = common_by bounds instance.now board.now ledger.now limit.may_stop in StaysOwner common owner owner }
            requires thieves { let common = common_by bounds instance.now board.now ledger.now limit.may_stop in All (IsThiefOf common owner.end.deque) thieves.items }
            ensures { let common = common_by bounds instance.entry.now board.entry.now
                ledger.entry.now limit.may_stop in IfOk result (λ w. HasJoined common owner thieves.items w) }
        {
            let origin = Origin::of(alloc, instance)?;
            let shared = Shared {
                alloc,
                instance,
                origin: &origin,
                bounds,
                limit,
                board,
                ledger,
                begun,
                ended,
                workers,
            };
            run(rt, gate, &shared, owner, thieves)
        },
    );
    let mut joined = worked?;
    let thief = robbed?;
    gather(shared, &mut joined, thief)?;
    Ok(joined)
}
