//! The laws of boxes and bounds. Each is the one clause of a function that does nothing; a caller
//! that needs the law calls the function.

ghost use Rattle.convoy_intervals.specs.BoxLaws.{RootIsBox, RootHoldsAll, MembersAreAssignments};
ghost use Rattle.convoy_intervals.specs.BoxLaws.{HalvesAreBoxes, HalvesPartition, UpperKeepsGreatest, TestsDecide};
ghost use Rattle.convoy_intervals.specs.BoxLaws.{GreatestIsMember, LeastIsMember, PointHasOneMember};
ghost use Rattle.convoy_intervals.specs.BoxLaws.{MembersAreEnclosed, SpansAreCarried};
ghost use Rattle.convoy_intervals.specs.BoxLaws.{PlainBoundOverTables, PlainBoundHolds};

use convoy_packets::schedule_laws::places_lead_back;
use convoy_sim::protocol_laws::delivery_bound;

/// Of a well-formed scenario the root is a box.
pub fn root_is_box()
    ensures { RootIsBox }
{}

/// The members of the root box with an order of the scenario's ties are the assignments.
pub fn root_holds_all()
    ensures { RootHoldsAll }
{}

/// A member of a box with an order of the scenario's ties is an assignment.
pub fn members_are_assignments()
    ensures { MembersAreAssignments }
{}

/// The halves of a box at a packet are boxes.
pub fn halves_are_boxes()
    ensures { HalvesAreBoxes }
{}

/// The halves of a box at a packet have its members, each in exactly one of them.
pub fn halves_partition()
    ensures { HalvesPartition }
{}

/// The tests whether a box can be split so, and whether it is a point, answer yes just where it can,
/// and where it is.
pub fn tests_decide()
    ensures { TestsDecide }
{}

/// The upper half of a box has the greatest delays of the box.
#[tactic(auto, using(crate::proofs::Halves::upper_keeps_greatest))]
pub fn upper_keeps_greatest()
    ensures { UpperKeepsGreatest }
{}

/// The greatest delays of a box are a member of it.
pub fn greatest_is_member()
    ensures { GreatestIsMember }
{}

/// The least delays of a box are a member of it.
pub fn least_is_member()
    ensures { LeastIsMember }
{}

/// All members of a point have the same delays.
pub fn point_has_one_member()
    ensures { PointHasOneMember }
{}

/// With its least and with its greatest delays, a box encloses arrival and settling under each of
/// its members.
pub fn members_are_enclosed()
    ensures { MembersAreEnclosed }
{}

/// Where a packet gets another range, the spans keep what its delay is no part of: a message's own
/// packets alone move its arrival and its settling.
pub fn spans_are_carried()
    ensures { SpansAreCarried }
{
    places_lead_back();
}

/// No schedule has a greater latency than the plain bound over tables that enclose arrival and
/// settling under it.
pub fn plain_bound_over_tables()
    ensures { PlainBoundOverTables }
{
    delivery_bound();
}

/// No member of a box has a greater latency than the box's plain bound.
pub fn plain_bound_holds()
    ensures { PlainBoundHolds }
{
    plain_bound_over_tables();
}
