//! The laws of reaches, and of bounds that look at stamps. Each is the one clause of a function that
//! does nothing; a caller that needs the law calls the function.

ghost use Rattle.convoy_stamps.specs.StampBoundLaws.{ReachIsClosed, ReachIsLeast};
ghost use Rattle.convoy_stamps.specs.StampBoundLaws.{StampsWithinReach, StampsPastSureBefore};
ghost use Rattle.convoy_stamps.specs.StampBoundLaws.{BoundByHolds, StampBoundOverTables, StampBoundHolds};
ghost use Rattle.convoy_stamps.specs.StampBoundLaws.{StampBoundAtMostPlain};

use convoy_intervals::box_laws::members_are_enclosed;
use convoy_sim::protocol_laws::{
    delivery_law, earlier_arrives_before_commit, final_stamp_is_local, last_raise,
    local_stamp_names_group, stamps_rise,
};

/// The reach of a local stamp holds its own pair and, with each pair, those to which it leads.
pub fn reach_is_closed()
    ensures { ReachIsClosed }
{}

/// All pairs that do so hold the reach: it is the least such set.
pub fn reach_is_least()
    ensures { ReachIsLeast }
{}

/// The time of a local stamp is at most the size of its reach, over any tables that enclose arrival
/// and settling.
pub fn stamps_within_reach()
    ensures { StampsWithinReach }
{
    last_raise();
}

/// The time of a local stamp is more than the number of messages that surely arrive there before.
pub fn stamps_past_sure_before()
    ensures { StampsPastSureBefore }
{
    last_raise();
    stamps_rise();
}

/// No schedule has a greater latency than a bound over the rivals that leaves out none that is ahead
/// of the target.
pub fn bound_by_holds()
    ensures { BoundByHolds }
{
    delivery_law();
    earlier_arrives_before_commit();
}

/// No schedule has a greater latency than the stamp bound over tables that enclose arrival and
/// settling under it.
pub fn stamp_bound_over_tables()
    ensures { StampBoundOverTables }
{
    bound_by_holds();
    final_stamp_is_local();
    local_stamp_names_group();
    stamps_within_reach();
    stamps_past_sure_before();
}

/// No member of a box has a greater latency than the box's stamp bound.
pub fn stamp_bound_holds()
    ensures { StampBoundHolds }
{
    stamp_bound_over_tables();
    members_are_enclosed();
}

/// The stamp bound of a box is at most its plain bound.
#[tactic(auto, using(crate::proofs::BoundBy::at_most_plain))]
pub fn stamp_bound_at_most_plain()
    ensures { StampBoundAtMostPlain }
{}
