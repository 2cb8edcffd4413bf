ghost use Rattle.convoy_case_answers.specs.Told.{AreTotals};

use super::found::Found;

/// The greatest numbers of all cases, in ticks.
#[derive(Clone, Copy)]
pub(crate) struct Totals {
    /// What the greatest latency is at least.
    pub least: u32,
    /// What it is at most.
    pub most: u32,
    /// What it is at least with what keeps the target back.
    pub late_least: u32,
    /// What it is at most with that.
    pub late_most: u32,
    /// When the word is back at the earliest in the worst run.
    pub back_least: u32,
    /// When it is back at the latest in any run.
    pub back_most: u32,
}

impl Totals {
    /// Those of these cases.
    pub fn of(founds: &[Found]) -> Totals
        ensures { AreTotals founds.now result }
    {
        let mut totals = Totals {
            least: 0,
            most: 0,
            late_least: 0,
            late_most: 0,
            back_least: 0,
            back_most: 0,
        };
        for found in founds {
            totals.least = totals.least.max(found.least);
            totals.most = totals.most.max(found.most);
            totals.late_least = totals.late_least.max(found.late_least);
            totals.late_most = totals.late_most.max(found.late_most);
            totals.back_least = totals.back_least.max(found.back_least);
            totals.back_most = totals.back_most.max(found.back_most);
        }
        totals
    }
}
