ghost use Rattle.std.specs.Prelude.{◌≡◌, ◌≤◌, ◌⊎◌, Err, MatchResult};
ghost use Rattle.convoy_draft.specs.declared.duration.TheConstants.{LONGEST_DURATION};
ghost use Rattle.convoy_traces.specs.Entries.{clock_by};
ghost use Rattle.convoy_traces.specs.declared.fault.TraceFault.TheVariants.{Memory};
ghost use Rattle.convoy_fits.specs.Answers.{IsVerdict};
ghost use Rattle.convoy_fits_told.specs.Told.{FitsSays, IsBeyond, fits_told, is_fit};

use super::scale::Scale;
use super::skew::Skew;
use super::words::verdict_text;
use convoy_fits::{FitsFault, Verdict, judge};
use convoy_scenario::{Scenario, TimeUnit};
use convoy_times::Measure;
use convoy_traces::{Clock, Trace, TraceFault, trace_of_text};
use std::alloc::Global;

/// Whether the trace of a text is one of a run of the scenario, by clocks that are right within the skew, and the lines
/// that say so: `fits`, that deliveries are not told where some are not, and the latency of the target in that run where
/// its delivery is told; or `departs`, with the first thing in which the trace does (docs/FORMATS.md, "What `fits`
/// writes"). Times are told in the unit that is asked for, or else in that of D; numbers without a unit in the trace are
/// of that unit, or of ticks where it is not known how long a tick is.
///
/// The skew counts as many fine ticks of the trace as go into it, 1,000,000 at most; with one of no ticks clocks are right.
/// Where it is not known how long a tick is, a duration counts a tick as a second.
///
/// The faults are those of [`trace_of_text`]; and `TraceFault::TooFine` where the scenario is beyond the limits once its
/// times are told in the fine ticks of the trace.
pub fn fits_answer(
    alloc: Global,
    scenario: &Scenario,
    unit: Option<TimeUnit>,
    skew: Skew,
    text: &[u8],
) -> Result<(bool, Vec<u8>), TraceFault>
    ensures { FitsSays unit skew scenario.now text.now (fits_told result) ⊎ (fits_told result ≡ Err Memory) }
{
    let clock = Clock::of(Measure::of(scenario, unit, None));
    let tick = tick_of(Measure::of(scenario, unit, None));
    let trace = trace_of_text(alloc, scenario, clock, text)?;
    let skew = skew.in_fine_ticks(clock, trace.factor());
    let verdict = verdict_of(alloc, scenario, &trace, skew)?;
    let scale = Scale::of(tick, clock.unit, trace.factor());
    let told = verdict_text(alloc, &scale, scenario, &trace, skew, verdict)?;
    Ok((is_fit(verdict), told.into_bytes()))
}

/// How many nanoseconds a tick has, by the clock of traces.
fn tick_of(measure: Option<Measure>) -> u64
    ensures value { result ≡ (clock_by measure).tick }
    ensures bounded { result ≤ LONGEST_DURATION }
{
    match measure {
        Some(measure) => {
            let _bounded = measure.tick.nanoseconds();
            Clock::of(Some(measure)).tick
        }
        None => Clock::of(None).tick,
    }
}

/// The verdict on a trace.
fn verdict_of(
    alloc: Global,
    scenario: &Scenario,
    trace: &Trace,
    skew: u32,
) -> Result<Verdict, TraceFault>
    ensures { MatchResult result (IsVerdict skew scenario.now trace.now)
        (λ fault. IsBeyond scenario.now trace.now fault ⊎ (fault ≡ Memory)) }
{
    match judge(alloc, scenario, trace, skew) {
        Ok(verdict) => Ok(verdict),
        Err(FitsFault::Limits) => Err(TraceFault::TooFine(trace.factor())),
        Err(FitsFault::Memory) => Err(TraceFault::Memory),
    }
}

/// Whether the trace fits.
fn is_fit(verdict: Verdict) -> bool
    ensures { result ≡ is_fit verdict }
{
    match verdict {
        Verdict::Fits(_) => true,
        Verdict::Outside(_) => false,
        Verdict::Departs(_) => false,
    }
}
