//! Why whole ticks are enough in real time, and why an answer does not depend on the tick that its text
//! counts in. Each law is the one clause of a function that does nothing; a caller that needs the law calls
//! the function.

ghost use Rattle.convoy_laws.specs.FinerTexts.{GreatestOfFinerTexts};
ghost use Rattle.convoy_laws.specs.FinerTicks.{FinerRunsAreMatched, GreatestInFinerTicks};
ghost use Rattle.convoy_laws.specs.FinerTicks.{GreatestIsWhole, ScenariosAreRoundable};
ghost use Rattle.convoy_laws.specs.FinerTicks.{WholeTicksAreEnough};

use convoy_packets::schedule_laws::{
    delays_are_within, packets_are_those_sent, places_lead_back, unsent_takes_no_time,
};
use convoy_scenario::scenario_laws::{
    drafts_give_scenarios, order_keeps_ranges, order_keeps_what_takes_time,
};
use convoy_sim::protocol_laws::{
    arrives_before_commit, issued_at_its_tick, issued_within_its_wait,
};

/// The laws hold of each well-formed scenario; what they ask for says nothing of whether the target may
/// wait.
pub fn scenarios_are_roundable()
    ensures { ScenariosAreRoundable }
{}

/// For each run of a scenario in finer ticks there is one in whole ticks that is at least as late.
pub fn finer_runs_are_matched()
    ensures { FinerRunsAreMatched }
{
    packets_are_those_sent();
    places_lead_back();
    delays_are_within();
    unsent_takes_no_time();
    issued_at_its_tick();
    issued_within_its_wait();
    arrives_before_commit();
}

/// A latency in ticks that no run of a scenario in real time exceeds, none exceeds in finer ticks either,
/// whatever part of a tick they are: so a bound that is certified in ticks bounds every finer run. The
/// ranges in finer ticks may be narrower, and so may be the times at which messages may be issued: so a
/// scenario in which both are rounded outwards to greater ticks gives a bound, too.
pub fn whole_ticks_are_enough()
    ensures { WholeTicksAreEnough }
{
    finer_runs_are_matched();
}

/// In real time the greatest latency does not depend on how fine the ticks are in which it is told: with
/// the same ranges and waits in ticks a number of times as fine it is as many times the number of ticks.
pub fn greatest_in_finer_ticks()
    ensures { GreatestInFinerTicks }
{
    whole_ticks_are_enough();
    packets_are_those_sent();
    arrives_before_commit();
}

/// In real time the greatest latency is a whole number of ticks, even if it is looked for in finer ones.
pub fn greatest_is_whole()
    ensures { GreatestIsWhole }
{
    finer_runs_are_matched();
    packets_are_those_sent();
    arrives_before_commit();
}

/// In real time the greatest latency of what a text says does not depend on the tick that the text counts
/// in: where all times are durations, the same text with a tick that is a number of times as fine has as
/// many times the number, which is the same time.
pub fn greatest_of_finer_texts()
    ensures { GreatestOfFinerTexts }
{
    greatest_in_finer_ticks();
    greatest_is_whole();
    order_keeps_ranges();
    order_keeps_what_takes_time();
    drafts_give_scenarios();
    scenarios_are_roundable();
}
