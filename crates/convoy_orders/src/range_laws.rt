//! What narrower ranges of links do to latency, in either kind of time. Each law is the one clause of a
//! function that does nothing; a caller that needs the law calls the function.

ghost use Rattle.convoy_orders.specs.NarrowerDrafts.{NarrowerLinksAreNoSlower};
ghost use Rattle.convoy_orders.specs.NarrowerRanges.{NarrowerIsNoSlower, NarrowerRunsAreRuns};

use convoy_scenario::scenario_laws::{
    homes_decide_what_takes_time, order_keeps_ranges, order_keeps_what_takes_time,
};

/// Each run with narrower ranges is one with the wider ranges, in which every message takes as long to
/// every group.
pub fn narrower_runs_are_runs()
    ensures { NarrowerRunsAreRuns }
{
    homes_decide_what_takes_time();
}

/// A latency that a message never exceeds at a group is not exceeded with narrower ranges either. So to
/// widen a range never lowers the greatest latency.
pub fn narrower_is_no_slower()
    ensures { NarrowerIsNoSlower }
{
    narrower_runs_are_runs();
}

/// The same of drafts, in which a link has a narrower range, or several have, or D is less: a latency that a
/// message never exceeds at a group is not exceeded so either.
pub fn narrower_links_are_no_slower()
    ensures { NarrowerLinksAreNoSlower }
{
    order_keeps_ranges();
    order_keeps_what_takes_time();
    narrower_is_no_slower();
}
