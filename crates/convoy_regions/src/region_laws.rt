//! The laws of regions. Each is the one clause of a function that does nothing; a caller that needs the law calls
//! the function.

ghost use Rattle.convoy_regions.specs.RegionLaws.{RootHoldsAll, HalvesAreRegions, OrdersPartition};
ghost use Rattle.convoy_regions.specs.RegionLaws.{KnownHolds, DecidedHasOneLatency, RunIsAssignment, StagesAreFew};

use convoy_intervals::box_laws;
use convoy_packets::schedule_laws::{delays_are_within, fixed_order_is_order, ranks_give_orders};
use convoy_sim::protocol_laws::{
    arrives_before_commit, delivery_law, final_stamp_is_local, last_raise, local_stamp_names_group,
    no_local_stamp_is_greater, stamps_rise, stamps_rise_past_commit,
};

/// The members of the root with an order of the scenario's ties are the assignments.
pub fn root_holds_all()
    ensures { RootHoldsAll }
{
    box_laws::root_holds_all();
}

/// The halves of a region are regions.
pub fn halves_are_regions()
    ensures { HalvesAreRegions }
{
    box_laws::halves_are_boxes();
}

/// The halves of a region by the order of two stages have its members, each in exactly one of them.
pub fn orders_partition()
    ensures { OrdersPartition }
{}

/// What comes before what by precedences does so in each run in which they hold.
pub fn known_holds()
    ensures { KnownHolds }
{
    arrives_before_commit();
}

/// All members of a decided region have the latency of its run.
pub fn decided_has_one_latency()
    ensures { DecidedHasOneLatency }
{
    run_is_assignment();
    known_holds();
    box_laws::tests_decide();
    box_laws::point_has_one_member();
    delays_are_within();
    last_raise();
    stamps_rise();
    stamps_rise_past_commit();
    local_stamp_names_group();
    final_stamp_is_local();
    no_local_stamp_is_greater();
    delivery_law();
}

/// The run of a region is an assignment, with its delays in the region's ranges.
pub fn run_is_assignment()
    ensures { RunIsAssignment }
{
    box_laws::greatest_is_member();
    box_laws::members_are_assignments();
    fixed_order_is_order();
    ranks_give_orders();
}

/// A scenario has few stages: the number of one has eight bits.
pub fn stages_are_few()
    ensures { StagesAreFew }
{}
