//! What holds of outages. Each law is the one clause of a function that does nothing; a caller that needs the law calls
//! the function.

ghost use Rattle.convoy_outages.specs.OutageLaws.{
  OutageCeilingHolds,
  OutageCeilingHoldsOfRareOutages,
  OutageCeilingHoldsWithoutOutages,
  OutageCeilingIsNoLess,
  OutagesCostWhatTheyLast,
  TrafficKeepsLinks,
  WorkIsWithinCeiling,
};

use convoy_ceiling::ceiling_laws::ceiling_holds_for_any_kinds;
use convoy_packets::schedule_laws::{
    delays_are_within, fixed_order_is_order, unsent_takes_no_time,
};
use convoy_scenario::scenario_laws::homes_decide_what_takes_time;
use convoy_sim::protocol_laws::traffic_delivery_bound;

/// In traffic that keeps the links but for outages a message is delivered after no more ticks of work than its ceiling
/// says, whichever ticks belong to outages, and however many: messages and their kinds are of any number, and the ticks
/// as fine as one likes.
pub fn work_is_within_ceiling()
    ensures { WorkIsWithinCeiling }
{
    traffic_delivery_bound();
    unsent_takes_no_time();
    homes_decide_what_takes_time();
}

/// So an outage costs a latency no more than it lasts.
pub fn outages_cost_what_they_last()
    ensures { OutagesCostWhatTheyLast }
{
    work_is_within_ceiling();
}

/// Where outages last so many ticks in all from the issue of a message to its delivery, its latency is not above the
/// ceiling through outages.
pub fn outage_ceiling_holds()
    ensures { OutageCeilingHolds }
{
    outages_cost_what_they_last();
}

/// Nor is it where they last no longer in each stretch of time that is one tick longer than that ceiling: then nothing
/// need be known of when the message is delivered.
pub fn outage_ceiling_holds_of_rare_outages()
    ensures { OutageCeilingHoldsOfRareOutages }
{
    work_is_within_ceiling();
}

/// Traffic whose delays are in their ranges keeps the links through any outages.
pub fn traffic_keeps_links()
    ensures { TrafficKeepsLinks }
{
    delays_are_within();
    fixed_order_is_order();
}

/// The ceiling through outages is no less than the ceiling without, however short they are.
#[tactic(auto, using(crate::proofs::Ordinary::no_less))]
pub fn outage_ceiling_is_no_less()
    ensures { OutageCeilingIsNoLess }
{}

/// So it holds where nothing is silent.
pub fn outage_ceiling_holds_without_outages()
    ensures { OutageCeilingHoldsWithoutOutages }
{
    ceiling_holds_for_any_kinds();
}
