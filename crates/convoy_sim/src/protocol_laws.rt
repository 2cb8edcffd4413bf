//! The laws of the protocol: what holds of every scenario, every schedule of delays and every run.
//! Each is the one clause of a function that does nothing; a caller that needs the law calls the
//! function.

ghost use Rattle.convoy_sim.specs.ProtocolLaws.{
  IssuedFromItsTick,
  IssuedWithinItsWait,
  IssuedAtItsTick,
  ArrivesAfterIssue,
  ArrivesBeforeCommit,
  ArrivesWithinOneDelay,
  CommittedWithinTwoDelays,
  DeliveredAfterCommit,
  DeliveredByLastCommit,
  DeliveryIsLeast,
  DeliveryBound,
  DeliveryLaw,
  EarlierArrivesBeforeCommit,
  FinalStampIsLocal,
  FinalStampsAreOrdered,
  FinalStampsDiffer,
  FixedRanksAreNone,
  LatencyIsNeverNegative,
  LatencyWithinFourDelays,
  LocalStampNamesGroup,
  LoneLatencyWithinTwoDelays,
  NoLocalStampIsGreater,
  OrderLaw,
  SenderHasItAtOnce,
  StampsRise,
  StampsRisePastCommit,
  TargetLatencyWithinFourDelays,
};
ghost use Rattle.convoy_sim.specs.RaiseLaws.{LastRaise, StampsHaveSteps};
ghost use Rattle.convoy_sim.specs.RunLaws.{RunsKeepTheLaws};
ghost use Rattle.convoy_sim.specs.Traffic.{TrafficDeliveryBound};

use convoy_packets::schedule_laws::unsent_takes_no_time;

/// A message is delivered at a group at the last of the commits there of itself and of all that are
/// ahead of it: those whose local stamps there are less than its final stamp.
#[tactic(auto, using(crate::proofs::DeliveryTick::delivery_law))]
pub fn delivery_law()
    ensures { DeliveryLaw }
{}

/// A message is delivered at a group at the least tick from its commit there on at which no message
/// holds it back.
pub fn delivery_is_least()
    ensures { DeliveryIsLeast }
{}

/// A message that is ahead of another at a group arrives there no later than the other is committed
/// there.
#[tactic(auto, using(crate::proofs::StampLaws::earlier_arrives))]
pub fn earlier_arrives_before_commit()
    ensures { EarlierArrivesBeforeCommit }
{}

/// A message is delivered at a group no later than the last commit there of itself and of all that
/// arrive there by its commit.
#[tactic(auto, using(crate::proofs::DeliveryTick::delivery_bound))]
pub fn delivery_bound()
    ensures { DeliveryBound }
{}

/// The same of any number of messages, issued at any ticks, with any delays and any order of ties: a
/// message is delivered at a group no later than the last commit there of itself and of all that arrive
/// there by its commit.
#[tactic(auto, using(crate::proofs::DeliveryTick::traffic_bound))]
pub fn traffic_delivery_bound()
    ensures { TrafficDeliveryBound }
{}

/// A message is delivered at a group no later than the last commit there.
#[tactic(auto, using(crate::proofs::DeliveryTick::delivered_by_last))]
pub fn delivered_by_last_commit()
    ensures { DeliveredByLastCommit }
{}

/// Of two messages the one with the lesser final stamp is delivered no later than the other, at each
/// group that both go to.
#[tactic(auto, using(crate::proofs::LatencyBounds::order_law))]
pub fn order_law()
    ensures { OrderLaw }
{}

/// A message is issued from the first tick on at which it may be, and within its longest wait from that tick.
#[tactic(auto, using(crate::proofs::Issues::from_its_tick, crate::proofs::Issues::within_its_wait))]
pub fn issued_within_its_wait()
    ensures from_tick { IssuedFromItsTick }
    ensures within { IssuedWithinItsWait }
{}

/// A message that does not wait is issued at its tick, in every schedule.
#[tactic(auto, using(crate::proofs::Issues::at_its_tick))]
pub fn issued_at_its_tick()
    ensures { IssuedAtItsTick }
{}

/// A message arrives at a group no sooner than it is issued.
#[tactic(auto, using(crate::proofs::DeliveryTick::arrives_after_issue))]
pub fn arrives_after_issue()
    ensures { ArrivesAfterIssue }
{}

/// A message is delivered at a group no sooner than it is committed there.
#[tactic(auto, using(crate::proofs::DeliveryTick::delivered_after_commit))]
pub fn delivered_after_commit()
    ensures { DeliveredAfterCommit }
{}

/// A message is delivered at a group no sooner than it is issued, so no latency is cut off at 0.
#[tactic(auto, using(crate::proofs::DeliveryTick::never_negative))]
pub fn latency_is_never_negative()
    ensures { LatencyIsNeverNegative }
{}

/// A message arrives at each of its destinations no later than it is committed at any of them.
#[tactic(auto, using(crate::proofs::ScenarioMoments::arrive_settle))]
pub fn arrives_before_commit()
    ensures { ArrivesBeforeCommit }
{}

/// A message arrives at the group that sends it as it is issued, unless that has a link to itself.
pub fn sender_has_it_at_once()
    ensures { SenderHasItAtOnce }
{
    unsent_takes_no_time();
}

/// A message arrives at a group within D ticks of its issue.
#[tactic(auto, using(crate::proofs::PacketDelays::arrives_within))]
pub fn arrives_within_one_delay()
    ensures { ArrivesWithinOneDelay }
{}

/// A message is committed at a group within 2 D ticks of its issue.
#[tactic(auto, using(crate::proofs::PacketDelays::committed_within))]
pub fn committed_within_two_delays()
    ensures { CommittedWithinTwoDelays }
{}

/// The latency of a message at a group is at most 4 D.
#[tactic(auto, using(crate::proofs::LatencyBounds::within_four))]
pub fn latency_within_four_delays()
    ensures { LatencyWithinFourDelays }
{}

/// The latency that a scenario asks for is at most 4 D.
#[tactic(auto, using(crate::proofs::LatencyBounds::target_within_four))]
pub fn target_latency_within_four_delays()
    ensures { TargetLatencyWithinFourDelays }
{}

/// The latency of a message at a group is at most 2 D where no other message goes to the group.
#[tactic(auto, using(crate::proofs::LatencyBounds::lone_within_two))]
pub fn lone_latency_within_two_delays()
    ensures { LoneLatencyWithinTwoDelays }
{}

/// With ties in the fixed order each rank is 0.
pub fn fixed_ranks_are_none()
    ensures { FixedRanksAreNone }
{}

/// Of two messages that arrive at one group, the one that arrives first has the stamp of lesser time.
#[tactic(auto, using(crate::proofs::StampLaws::rises))]
pub fn stamps_rise()
    ensures { StampsRise }
{}

/// A message that arrives at a group after another is committed there has a local stamp of greater
/// time than the final stamp of that one.
#[tactic(auto, using(crate::proofs::StampLaws::rises_past))]
pub fn stamps_rise_past_commit()
    ensures { StampsRisePastCommit }
{}

/// A local stamp names the group that gave it.
#[tactic(auto, using(crate::proofs::StampLaws::local_names))]
pub fn local_stamp_names_group()
    ensures { LocalStampNamesGroup }
{}

/// The final stamp of a message is its local stamp at one of its destinations.
#[tactic(auto, using(crate::proofs::StampLaws::final_is_local))]
pub fn final_stamp_is_local()
    ensures { FinalStampIsLocal }
{}

/// No local stamp of a message is greater than its final stamp.
#[tactic(auto, using(crate::proofs::StampLaws::not_greater))]
pub fn no_local_stamp_is_greater()
    ensures { NoLocalStampIsGreater }
{}

/// Two messages have two final stamps.
#[tactic(auto, using(crate::proofs::StampLaws::finals_differ))]
pub fn final_stamps_differ()
    ensures { FinalStampsDiffer }
{}

/// Of two messages one has the lesser final stamp.
#[tactic(auto, using(crate::proofs::StampLaws::finals_ordered))]
pub fn final_stamps_are_ordered()
    ensures { FinalStampsAreOrdered }
{}

/// Before a message arrives at a group, the clock there was raised last to some time by a commit, or
/// never. Each time between that one and the time of the message's local stamp there was given to a
/// message that arrived since.
#[tactic(auto, using(crate::proofs::RaiseLaws::last_raise))]
pub fn last_raise()
    ensures { LastRaise }
{}

/// The time of a local stamp is 1, or one more than that of another message that arrives there no
/// later, or one more than that of a local stamp, at any of its groups, of another message that is
/// committed there before.
#[tactic(auto, using(crate::proofs::StampSteps::have_steps))]
pub fn stamps_have_steps()
    ensures { StampsHaveSteps }
{}

/// Every run of a scenario under an assignment keeps the laws of the protocol, as far as its answers
/// tell: where and when it delivers, in which order, and how late.
#[tactic(auto, using(crate::proofs::RunLaws::runs_keep_the_laws))]
pub fn runs_keep_the_laws()
    ensures { RunsKeepTheLaws }
{}
