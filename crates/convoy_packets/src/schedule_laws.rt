//! What always holds of packet lists, ranges and schedules. A proof cites a law by a call.
ghost use Rattle.convoy_packets.specs.ScheduleLaws.{PacketsAreThoseSent, PacketsStandOnce};
ghost use Rattle.convoy_packets.specs.ScheduleLaws.{PlacesLeadBack, PacketsAreFew};
ghost use Rattle.convoy_packets.specs.ScheduleLaws.{RangesAreOneEach, DelaysAreOneEach, DelaysAreByPlace};
ghost use Rattle.convoy_packets.specs.ScheduleLaws.{DelaysAreWithin, UnsentTakesNoTime, DelaysAreAtMost, WaitsAreAtMost};
ghost use Rattle.convoy_packets.specs.ScheduleLaws.{FixedOrderIsOrder, LeastIsAssignment, ListsOfDelaysAreSchedules};
ghost use Rattle.convoy_packets.specs.ScheduleLaws.{OrdersAreTheirLists, ListsAreTheirOrders, RanksAreOneEach};
ghost use Rattle.convoy_packets.specs.ScheduleLaws.{RanksGiveOrders, RanksAreFew, NoRanksGiveFixedOrder};
ghost use Rattle.convoy_packets.specs.ScheduleLaws.{FixedOrderIsDecided};

/// The list has just the packets of the scenario: the wait of each message that may wait, each message
/// to each of its destinations to which it takes time, and the stamp of each destination to each to which that does.
pub fn packets_are_those_sent()
    ensures { PacketsAreThoseSent }
{}

/// No packet stands twice in the list of a scenario: it is found where it stands.
pub fn packets_stand_once()
    ensures { PacketsStandOnce }
{}

/// A packet stands where it is found.
pub fn places_lead_back()
    ensures { PlacesLeadBack }
{}

/// A scenario has 1,168 packets at most, with the waits of its messages.
pub fn packets_are_few()
    ensures { PacketsAreFew }
{}

/// There is one range for each packet.
pub fn ranges_are_one_each()
    ensures { RangesAreOneEach }
{}

/// An assignment has one delay for each packet.
pub fn delays_are_one_each()
    ensures { DelaysAreOneEach }
{}

/// The delay of the packet at a place is the one that the schedule has there.
pub fn delays_are_by_place()
    ensures { DelaysAreByPlace }
{}

/// An assignment keeps each packet that is sent within its range.
pub fn delays_are_within()
    ensures { DelaysAreWithin }
{}

/// What is not sent takes no time, in any schedule.
pub fn unsent_takes_no_time()
    ensures { UnsentTakesNoTime }
{}

/// In an assignment no packet travels longer than the greatest delay of the scenario.
pub fn delays_are_at_most()
    ensures { DelaysAreAtMost }
{}

/// In an assignment no message waits longer than it may.
pub fn waits_are_at_most()
    ensures { WaitsAreAtMost }
{}

/// The list of the delays of an assignment gives that assignment, and no other list does.
pub fn lists_of_delays_are_schedules()
    ensures { ListsOfDelaysAreSchedules }
{}

/// The fixed order of ties is one of every scenario.
pub fn fixed_order_is_order()
    ensures { FixedOrderIsOrder }
{}

/// The least delays, with ties in the fixed order, are an assignment.
pub fn least_is_assignment()
    ensures { LeastIsAssignment }
{}

/// The list of an order's ranks gives the order.
pub fn orders_are_their_lists()
    ensures { OrdersAreTheirLists }
{}

/// A list with one number for each rank is the list of the order that it gives.
pub fn lists_are_their_orders()
    ensures { ListsAreTheirOrders }
{}

/// The list of an order has one number for each rank, and none is above `GREATEST_RANK`.
pub fn ranks_are_one_each()
    ensures { RanksAreOneEach }
{}

/// In real time ranks of which none is above `GREATEST_RANK` give an order of the scenario's ties.
pub fn ranks_give_orders()
    ensures { RanksGiveOrders }
{}

/// An order of a scenario's ties has at most 256 ranks as a list.
pub fn ranks_are_few()
    ensures { RanksAreFew }
{}

/// A list of no ranks gives the fixed order.
pub fn no_ranks_give_fixed_order()
    ensures { NoRanksGiveFixedOrder }
{}

/// All ranks are 0 just in the fixed order.
pub fn fixed_order_is_decided()
    ensures { FixedOrderIsDecided }
{}
