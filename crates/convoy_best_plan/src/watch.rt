use convoy_branch::NoGate;
use convoy_commands::Watch;
use convoy_times::Measure;

/// What the placements of a plan are searched for.
#[derive(Clone, Copy)]
pub enum Stage {
    /// The best choice beside so many that are told already.
    Choice(usize),
    /// Reasons why no choice is better, for a certificate.
    Certificate,
}

/// Who watches a search over the placements of a plan: besides what a watch is told of the searches inside it, how far it
/// has come. Nothing that it promises rests on that.
pub trait PlanWatch: Watch {
    /// A search over so many placements begins.
    fn begins_placing(&self, stage: Stage, placements: u64);

    /// So many of them more are passed: looked at, or left out together since none of them is better.
    fn passes(&self, placements: u64);

    /// The best choice so far, in ticks, which are told as times by the measure: no latency that counts is above this one
    /// there, or where there are deadlines none exceeds its own by more than this one exceeds that deadline.
    fn chooses(&self, measure: Option<Measure>, latency: u32, deadline: Option<u32>);

    /// The search has ended: all of them are passed, or memory has run out.
    fn ends_placing(&self);
}

impl PlanWatch for NoGate {
    fn begins_placing(&self, _stage: Stage, _placements: u64) {}

    fn passes(&self, _placements: u64) {}

    fn chooses(&self, _measure: Option<Measure>, _latency: u32, _deadline: Option<u32>) {}

    fn ends_placing(&self) {}
}
