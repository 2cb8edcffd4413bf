ghost use Rattle.std.specs.Prelude.{◌≡◌, ◌<◌, IfOk, length};
ghost use Rattle.convoy_rows.specs.Rows.{AreMade, AreRightPairs, AreRightShares, IsMade, TakesRows};

use super::places::place_shares;
use super::threads::{make_free, make_rest};
use std::alloc::{AllocError, Global};
use std::sync::atomic::AtomicUsize;
use std::thread;
use std::thread::Threads;

/// What `make` gives for each number below `count`, in their order, as many at a time as there are watches: each thread
/// has a watch of its own. With one watch, or one row, all is made by the thread that calls; so is what no other thread
/// has made, also where none can be started. Fails where memory runs out, and else never.
pub fn make_rows<R: Threads + Sync, W: Sync, T: Send + Drop, F: Fn(usize, &W) -> T + Sync>(
    rt: &R,
    alloc: Global,
    watches: &[W],
    count: usize,
    make: &F,
) -> Result<Vec<T>, AllocError>
    requires watched { 0 < length watches.now }
    requires takes { TakesRows count (F.pre make.now) }
    ensures { IfOk result (λ rows. AreMade (F.post make.now) count rows.items) }
{
    let shares = make_shares(rt, alloc, watches, count, make)?;
    let places = place_shares(alloc, count, shares)?;
    make_rest(alloc, &watches[0], count, places, make)
}

/// What each thread makes of the rows, one thread for each watch; nothing where one thread has all of them.
fn make_shares<R: Threads + Sync, W: Sync, T: Send + Drop, F: Fn(usize, &W) -> T + Sync>(
    rt: &R,
    alloc: Global,
    watches: &[W],
    count: usize,
    make: &F,
) -> Result<Vec<Vec<(usize, T)>>, AllocError>
    requires takes { TakesRows count (F.pre make.now) }
    ensures { IfOk result (λ shares. AreRightShares (IsMade (F.post make.now)) shares.items) }
{
    let threads = watches.len().min(count);
    if threads < 2 {
        return Ok(Vec::new(alloc));
    }
    let next = AtomicUsize::new(0);
    let share = |thread: usize| -> Vec<(usize, T)>
        requires { (thread < length watches.now) × TakesRows count (F.pre make.now) }
        ensures { AreRightPairs (IsMade (F.post make.entry.now)) result.items }
    { make_free(alloc, &watches[thread], count, &next, make) };
    let shares = thread::map_indices(rt, alloc, threads, &share)?;
    Ok(shares)
}
