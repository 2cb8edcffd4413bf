//! The laws of runs through outages. Each is the one clause of a function that does nothing; a caller that needs the law
//! calls the function.

ghost use Rattle.convoy_outage_runs.specs.OutageRunLaws.{CompressedIsScenario, CompressedRunsAreAsLate, RunsAreWithinOutageCeiling, UpperOfRunsIsUpper};

use convoy_laws::finer::{scenarios_are_roundable, whole_ticks_are_enough};
use convoy_outages::outage_laws::outage_ceiling_holds;
use convoy_packets::schedule_laws::{
    delays_are_within, packets_are_those_sent, places_lead_back, unsent_takes_no_time,
    waits_are_at_most,
};

/// In real time no run through outages is later than the runs of the compressed scenario allow, but by the ticks that are
/// saved.
pub fn compressed_runs_are_as_late()
    ensures { CompressedRunsAreAsLate }
{
    packets_are_those_sent();
    places_lead_back();
    unsent_takes_no_time();
    scenarios_are_roundable();
    whole_ticks_are_enough();
}

/// A compressed scenario that is within the limits is a scenario.
pub fn compressed_is_scenario()
    ensures { CompressedIsScenario }
{}

/// No run through outages is later than the ceiling through outages.
pub fn runs_are_within_outage_ceiling()
    ensures { RunsAreWithinOutageCeiling }
{
    outage_ceiling_holds();
}

/// What no run through outages exceeds no run without them does, either.
pub fn upper_of_runs_is_upper()
    ensures { UpperOfRunsIsUpper }
{
    delays_are_within();
    waits_are_at_most();
}
