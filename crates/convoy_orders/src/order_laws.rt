//! What the order in which groups are listed does to latency. Each law is the one clause of a function
//! that does nothing; a caller that needs the law calls the function.

ghost use Rattle.convoy_orders.specs.AllOrders.{NoOrderIsBelow};
ghost use Rattle.convoy_orders.specs.GreatestAt.{TargetIsAskedFor};
ghost use Rattle.convoy_orders.specs.ListedOrder.{CeilingIsSame, FewerBehindIsNoLater};
ghost use Rattle.convoy_orders.specs.ListedOrder.{FewerBehindIsNoSlower, LastListedIsBest};
ghost use Rattle.convoy_orders.specs.ListedOrder.{RenumberedRunsAgree, SameBehindIsSame};

use convoy_packets::schedule_laws::{
    delays_are_within, fixed_order_is_order, packets_are_those_sent, places_lead_back,
    unsent_takes_no_time,
};
use convoy_sim::protocol_laws::{
    delivery_law, final_stamp_is_local, last_raise, local_stamp_names_group,
    no_local_stamp_is_greater, stamps_rise, stamps_rise_past_commit,
};

/// A message's latencies at a group are those of the scenario with that message and that group as its
/// target: so what is proved of any message at any of its groups is proved of each target.
pub fn target_is_asked_for()
    ensures { TargetIsAskedFor }
{}

/// For each run of a scenario there is one of the scenario with its groups listed in another order in
/// which everything is issued, arrives and is committed at the same ticks, with stamps of the same times.
pub fn renumbered_runs_agree()
    ensures { RenumberedRunsAgree }
{
    packets_are_those_sent();
    places_lead_back();
    delays_are_within();
    unsent_takes_no_time();
    fixed_order_is_order();
    final_stamp_is_local();
    no_local_stamp_is_greater();
    stamps_rise();
    stamps_rise_past_commit();
    last_raise();
}

/// Of two such runs a message is no later at its group in that one where no more of its destinations
/// stand behind the group.
pub fn fewer_behind_is_no_later()
    ensures { FewerBehindIsNoLater }
{
    final_stamp_is_local();
    no_local_stamp_is_greater();
    local_stamp_names_group();
    delivery_law();
}

/// The greatest latency of a message at a group grows with the set of the message's other destinations
/// that stand behind the group: where no more of them do, it is no greater.
pub fn fewer_behind_is_no_slower()
    ensures { FewerBehindIsNoSlower }
{
    renumbered_runs_agree();
    fewer_behind_is_no_later();
}

/// The greatest latency of a message at a group depends on the order of the groups by that set alone.
pub fn same_behind_is_same()
    ensures { SameBehindIsSame }
{
    fewer_behind_is_no_slower();
    renumbered_runs_agree();
    fewer_behind_is_no_later();
}

/// No order of the groups has a lesser greatest latency of a message at a group than one in which the
/// group stands behind all other destinations of the message.
pub fn last_listed_is_best()
    ensures { LastListedIsBest }
{
    fewer_behind_is_no_slower();
}

/// Where each of some groups has a message that is so late there in some order, with none of the message's
/// destinations but some of these groups behind it, one of these messages is so late at its group in every
/// order. So one run for each of a few groups shows that no order is below a number, or within some limits.
pub fn no_order_is_below()
    ensures { NoOrderIsBelow }
{
    renumbered_runs_agree();
    fewer_behind_is_no_later();
}

/// The ceiling does not depend on the order of the groups.
pub fn ceiling_is_same()
    ensures { CeilingIsSame }
{}
