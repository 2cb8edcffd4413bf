//! The laws of finishes. Each is the one clause of a function that does nothing; a caller that needs the law calls the
//! function.

ghost use Rattle.convoy_finishes.specs.FinishLaws.{ClosedFinishing, ClosedFinishingOverWindows, ClosesAtPlainFinish};
ghost use Rattle.convoy_finishes.specs.FinishLaws.{FinishesInFinerTicks, FinishesWiden, LatestFinishes};
ghost use Rattle.convoy_finishes.specs.FinishLaws.{MetUpperIsGreatest, UpperOfFinishLatencies};

use convoy_laws::finer::scenarios_are_roundable;
use convoy_leads::lead_laws::behind_is_not_ahead;
use convoy_origin::origin_laws::assignments_widen;
use convoy_origin::shift_laws::runs_shift;
use convoy_packets::schedule_laws::{
    delays_are_within, packets_are_those_sent, places_lead_back, unsent_takes_no_time,
};
use convoy_scenario::widened_laws::widened_is_scenario;
use convoy_sim::protocol_laws::{
    arrives_after_issue, arrives_before_commit, earlier_arrives_before_commit, issued_at_its_tick,
    issued_within_its_wait,
};
use convoy_sure::sure_laws::windows_enclose_members;

/// Under a schedule the target may be delivered after the finish latency, where all is finished at its last tick, and
/// it never is later.
pub fn latest_finishes()
    ensures { LatestFinishes }
{
    earlier_arrives_before_commit();
    arrives_before_commit();
    arrives_after_issue();
}

/// So a number that no finish latency exceeds is one that no delivery does, and the other way round.
pub fn upper_of_finish_latencies()
    ensures { UpperOfFinishLatencies }
{
    latest_finishes();
}

/// And where an assignment has such a number as its finish latency, it is the greatest.
pub fn met_upper_is_greatest()
    ensures { MetUpperIsGreatest }
{
    latest_finishes();
}

/// Where windows enclose an assignment and are closed for a latency, it has no greater finish latency.
pub fn closed_finishing_over_windows()
    ensures { ClosedFinishingOverWindows }
{
    behind_is_not_ahead();
    earlier_arrives_before_commit();
    issued_within_its_wait();
}

/// Each assignment has the finish latency that it has in the widened scenario, where the target does not wait.
pub fn finishes_widen()
    ensures { FinishesWiden }
{
    runs_shift();
}

/// In a scenario that is closed for a latency the target is never delivered later.
pub fn closed_finishing()
    ensures { ClosedFinishing }
{
    closed_finishing_over_windows();
    windows_enclose_members();
    widened_is_scenario();
    assignments_widen();
    finishes_widen();
}

/// Each scenario is closed for its plain bound, so that a search for the least latency for which it is ends.
pub fn closes_at_plain_finish()
    ensures { ClosesAtPlainFinish }
{}

/// In real time whole ticks are enough: a latency that no delivery exceeds in ticks, none exceeds in finer ticks
/// either, whatever part of a tick they are.
pub fn finishes_in_finer_ticks()
    ensures { FinishesInFinerTicks }
{
    packets_are_those_sent();
    places_lead_back();
    delays_are_within();
    unsent_takes_no_time();
    issued_at_its_tick();
    issued_within_its_wait();
    arrives_before_commit();
    scenarios_are_roundable();
    latest_finishes();
}
