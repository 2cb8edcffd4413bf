use convoy_branch::{Bounds, Gate, NoGate};
use convoy_times::Measure;

/// Who watches a search: besides what a gate is told, that it starts, how its boxes are begun, and that it has
/// ended. Nothing that a search promises rests on it, but for how far it goes where it may be stopped.
pub trait Watch: Gate {
    /// A search starts, which is to stop after so many seconds, if any. First a good schedule may be sought.
    fn starts(&self, seconds: Option<u32>);

    /// The search begins by those bounds, with so many tickets at most for them, and by what is known the
    /// greatest latency is at least that, and at most that where a bound is known, in ticks, which are told as
    /// times by the measure.
    fn begins(
        &self,
        measure: Option<Measure>,
        bounds: Bounds,
        limit: u64,
        least: u32,
        most: Option<u32>,
    );

    /// The search has ended, and whether it left boxes open. Nothing is written of it yet.
    fn ends(&self, is_open: bool);
}

impl Watch for NoGate {
    fn starts(&self, _seconds: Option<u32>) {}

    fn begins(
        &self,
        _measure: Option<Measure>,
        _bounds: Bounds,
        _limit: u64,
        _least: u32,
        _most: Option<u32>,
    ) {}

    fn ends(&self, _is_open: bool) {}
}
