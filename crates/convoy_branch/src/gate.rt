use super::bounds::Bounds;

/// What each worker calls before it takes up a branch, and a search that begins anew. Nothing that a
/// search promises rests on it, but for how far it goes where it may be stopped ([`Limit`](super::Limit)).
pub trait Gate {
    /// A worker, numbered from 0, is about to take up its branch of that number, from 1.
    fn before_branch(&self, worker: u32, nth: u64);

    /// Whether the search is to stop before the next region. A search asks only where its limit says that it
    /// may be stopped, and may ask again after a yes.
    fn is_over(&self) -> bool {
        false
    }

    /// Regions were left, and the search begins anew at the root by those bounds, with so many tickets at
    /// most. The greatest latency is at least `least`, and at most `most`, in ticks.
    fn begins_anew(&self, _bounds: Bounds, _limit: u64, _least: u32, _most: u32) {}
}

/// A gate that does nothing.
#[derive(Clone, Copy)]
pub struct NoGate;

impl Gate for NoGate {
    fn before_branch(&self, _worker: u32, _nth: u64) {}
}
