//! The laws of messages that follow others. Each is the one clause of a function that does nothing; a caller that needs
//! the law calls the function.

ghost use Rattle.convoy_causes.specs.CauseLaws.{CausedRunsMove, CausesCut, ClosedByCauses, ClosedOverCaused, KnownIsScenario, TargetsHaveRoom};
ghost use Rattle.convoy_causes.specs.CauseLaws.{DeliveredBefore, DeliveriesCut, DeliveriesEnd, EffectsCut};
ghost use Rattle.convoy_causes.specs.CauseLaws.{LateDeliveriesEnd, MetUpperIsGreatest};

use convoy_leads::lead_laws::behind_is_not_ahead;
use convoy_origin::origin_laws::assignments_widen;
use convoy_origin::shift_laws::runs_shift;
use convoy_scenario::widened_laws::{room_is_decided, widened_is_scenario};
use convoy_sim::protocol_laws::{
    delivered_after_commit, delivery_law, earlier_arrives_before_commit, issued_at_its_tick,
    latency_is_never_negative, latency_within_four_delays,
};
use convoy_sure::sure_laws::{
    cuts_by_arrival_enclose, cuts_by_commit_enclose, cuts_enclose, cuts_for_commit_enclose,
    windows_enclose_members,
};

/// Where windows enclose a run in which messages follow their causes, they do so when they are cut by these.
pub fn causes_cut()
    ensures { CausesCut }
{
    cuts_enclose();
    cuts_by_arrival_enclose();
    cuts_for_commit_enclose();
    cuts_by_commit_enclose();
    delivered_after_commit();
    latency_within_four_delays();
    latency_is_never_negative();
}

/// Windows that enclose each run in which messages follow their causes do so when they are cut by what one of these says
/// of the message that follows.
pub fn effects_cut()
    ensures { EffectsCut }
{
    cuts_enclose();
    cuts_by_arrival_enclose();
    cuts_for_commit_enclose();
    cuts_by_commit_enclose();
    delivered_after_commit();
    latency_within_four_delays();
    latency_is_never_negative();
}

/// And by a tick at which what the message follows is delivered at the latest.
pub fn deliveries_cut()
    ensures { DeliveriesCut }
{
    cuts_enclose();
    cuts_by_arrival_enclose();
    cuts_for_commit_enclose();
    cuts_by_commit_enclose();
    delivered_after_commit();
    latency_within_four_delays();
    latency_is_never_negative();
}

/// Where such windows say that a message is delivered at a group before the next tick, each such run has it by that tick.
pub fn deliveries_end()
    ensures { DeliveriesEnd }
{
    delivered_before();
}

/// It is enough that they say so where they are cut by this: what follows that delivery is issued after the next tick then,
/// and by all causes.
pub fn late_deliveries_end()
    ensures { LateDeliveriesEnd }
{
    delivered_before();
    causes_cut();
    cuts_enclose();
    cuts_by_arrival_enclose();
    cuts_for_commit_enclose();
    cuts_by_commit_enclose();
    delivered_after_commit();
    latency_within_four_delays();
    latency_is_never_negative();
}

/// Where windows that enclose an assignment say that the target is delivered before a tick, it is.
pub fn delivered_before()
    ensures { DeliveredBefore }
{
    behind_is_not_ahead();
    earlier_arrives_before_commit();
    delivery_law();
}

/// The scenario in which the issue of a message is known is well formed where there is room for it.
pub fn known_is_scenario()
    ensures { KnownIsScenario }
{
    widened_is_scenario();
}

/// There always is for the target.
pub fn targets_have_room()
    ensures { TargetsHaveRoom }
{
    widened_is_scenario();
    room_is_decided();
}

/// And each run in which messages follow their causes is one of it, of the same time from that issue to the delivery of
/// the target.
pub fn caused_runs_move()
    ensures { CausedRunsMove }
{
    runs_shift();
    assignments_widen();
}

/// Where windows that enclose each run in which messages follow their causes, of the scenario in which the issue of a message
/// is known, say that the target is delivered within a time from there, no such run takes longer.
pub fn closed_over_caused()
    ensures { ClosedOverCaused }
{
    delivered_before();
    caused_runs_move();
    issued_at_its_tick();
}

/// So it is in a scenario that is closed for that time.
pub fn closed_by_causes()
    ensures { ClosedByCauses }
{
    closed_over_caused();
    windows_enclose_members();
    causes_cut();
    effects_cut();
    deliveries_cut();
    deliveries_end();
    late_deliveries_end();
    known_is_scenario();
}

/// And where some run has such a time, it is the greatest.
pub fn met_upper_is_greatest()
    ensures { MetUpperIsGreatest }
{}
