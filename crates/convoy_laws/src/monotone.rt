//! The laws of boxes inside other boxes, and of the latencies for which leads close a box. Each is the
//! one clause of a function that does nothing; a caller that needs the law calls the function.

ghost use Rattle.convoy_laws.specs.Monotone.{InnerTablesAreNarrower};
ghost use Rattle.convoy_laws.specs.Monotone.{LeadsCloseForMore, LeadsCloseFromPlain, LeadsCloseInside};
ghost use Rattle.convoy_laws.specs.Monotone.{PlainBoundFalls, PlainBoundFallsOverTables};
ghost use Rattle.convoy_laws.specs.Monotone.{StampBoundFalls, StampBoundFallsOverTables};

use convoy_intervals::box_laws::members_are_enclosed;
use convoy_stamps::stamp_bound_laws::{reach_is_closed, reach_is_least};
use convoy_sure::sure_laws::windows_are_tables;

/// The tables of a box inside another one are narrower than those of the other one.
pub fn inner_tables_are_narrower()
    ensures { InnerTablesAreNarrower }
{
    members_are_enclosed();
}

/// Over narrower tables the plain bound is no greater.
pub fn plain_bound_falls_over_tables()
    ensures { PlainBoundFallsOverTables }
{}

/// A box inside another one has no greater plain bound.
pub fn plain_bound_falls()
    ensures { PlainBoundFalls }
{
    inner_tables_are_narrower();
    plain_bound_falls_over_tables();
}

/// Over narrower tables the stamp bound is no greater.
pub fn stamp_bound_falls_over_tables()
    ensures { StampBoundFallsOverTables }
{
    reach_is_closed();
    reach_is_least();
}

/// A box inside another one has no greater stamp bound.
pub fn stamp_bound_falls()
    ensures { StampBoundFalls }
{
    inner_tables_are_narrower();
    stamp_bound_falls_over_tables();
}

/// Leads close a box inside another one for each latency for which they close that one.
pub fn leads_close_inside()
    ensures { LeadsCloseInside }
{
    members_are_enclosed();
    inner_tables_are_narrower();
    windows_are_tables();
}

/// Leads that close a box for a latency close it for each greater one.
pub fn leads_close_for_more()
    ensures { LeadsCloseForMore }
{
    members_are_enclosed();
    inner_tables_are_narrower();
    windows_are_tables();
}

/// Leads close a box for each latency that is no less than its plain bound.
pub fn leads_close_from_plain()
    ensures { LeadsCloseFromPlain }
{
    windows_are_tables();
}
