ghost use Rattle.std.specs.Prelude.{◌≡◌, IfOk, IsTrue, MatchResult, option_map};
ghost use Rattle.std.specs.List.{list_all};
ghost use Rattle.convoy_scenario.specs.Scenario.{Scenario};
ghost use Rattle.convoy_packets.specs.Assignment.{AreWithin, IsAssignment, ranges_of};
ghost use Rattle.convoy_sim.specs.Run.{IsRunOf};
ghost use Rattle.convoy_fits.specs.Answers.{HasCause, IsRightVerdict, IsVerdict};
ghost use Rattle.convoy_fits.specs.Finer.{is_finer};
ghost use Rattle.convoy_fits.specs.Fits.{target_told};
ghost use Rattle.convoy_fits.specs.Runs.{is_there};

use super::clocks::{least_lags, near_lags};
use super::comparing::departure_in;
use super::corrected::{Corrected, copied};
use super::departure::Verdict;
use super::fault::FitsFault;
use super::fine_test::finer_of;
use super::lags::Lags;
use super::laying::lay;
use super::limits::is_within_limits;
use super::network::first_outside;
use super::ties::{Ties, order_by};
use super::told_times::time_told;
use convoy_packets::{Instance, Schedule};
use convoy_scenario::Scenario;
use convoy_sim::{Run, simulate};
use convoy_traces::{Event, Trace};
use std::alloc::{AllocError, Global};

/// Whether a trace fits a scenario (docs/FORMATS.md, "When a trace fits"), by clocks that are right within a skew, in fine
/// ticks: whether some real run of the scenario does all that the trace tells, and misses no delivery, once what each
/// clock tells is corrected by as much all the time. With a skew of 0 clocks are right. A scenario in whole ticks is
/// judged in real time, too: its ranges and windows are those that it has, and its ties may fall in any order.
///
/// Where it does, the answer has the latency of the target in that run, just where its delivery is told. Where it does
/// not, the answer is the first departure: from a range or a window by more than clocks explain, so that no run can have
/// done what the trace tells (`Outside`); or else, once clocks are corrected, from a range or a window, or from what a run
/// does in which all packets arrive when the trace tells it, and those of which it tells nothing as late as what it tells
/// next allows (`Departs`). Ties are tried by the stamps that are told, in the fixed order, and by the deliveries, and
/// clocks in two ways; so a departure of the second kind is one of those that were tried.
///
/// The faults are that the scenario in the fine ticks of the trace is beyond the limits, or the trace one of another
/// scenario ([`FitsFault::Limits`]); and that memory ran out.
pub fn judge(
    alloc: Global,
    scenario: &Scenario,
    trace: &Trace,
    skew: u32,
) -> Result<Verdict, FitsFault>
    ensures { MatchResult result (IsVerdict skew scenario.now trace.now) (HasCause scenario.now trace.now) }
{
    let own = copied(alloc, trace)?;
    if let Some(departure) = first_outside(scenario, &own, skew) {
        return Ok(Verdict::Outside(departure));
    }
    if !is_within_limits(scenario, &own) {
        return Err(FitsFault::Limits);
    }
    Ok(judge_clocks(alloc, scenario, trace, &own, skew)?)
}

/// The verdict by clocks of which none is ahead, or else by clocks that are as far ahead as may be. Fails where memory runs
/// out, and else never.
fn judge_clocks(
    alloc: Global,
    scenario: &Scenario,
    trace: &Trace,
    own: &Corrected,
    skew: u32,
) -> Result<Verdict, AllocError>
    ensures { IfOk result (IsVerdict skew scenario.now trace.now) }
{
    let near = near_lags(alloc, scenario, own, skew)?;
    let first = judge_by(alloc, scenario, trace, &near)?;
    if skew == 0 || is_fit(first) {
        return Ok(first);
    }
    let least = least_lags(alloc, scenario, own, skew)?;
    let next = judge_by(alloc, scenario, trace, &least)?;
    if is_fit(next) { Ok(next) } else { Ok(first) }
}

/// Whether the trace fits.
fn is_fit(verdict: Verdict) -> bool {
    match verdict {
        Verdict::Fits(_) => true,
        Verdict::Outside(_) => false,
        Verdict::Departs(_) => false,
    }
}

/// The verdict by clocks with these lags. Fails where memory runs out, and else never.
#[tactic(auto, using(crate::proofs::Skewed::by_skewed))]
fn judge_by(
    alloc: Global,
    scenario: &Scenario,
    trace: &Trace,
    lags: &Lags,
) -> Result<Verdict, AllocError>
    ensures { IfOk result (IsVerdict lags.now.skew scenario.now trace.now) }
{
    let other = Corrected::of(alloc, scenario, trace, lags)?;
    let verdict = judge_right(alloc, scenario, &other)?;
    Ok(verdict)
}

/// The verdict by clocks that are right. Fails where memory runs out, and else never.
fn judge_right(alloc: Global, scenario: &Scenario, trace: &Corrected) -> Result<Verdict, AllocError>
    ensures { IfOk result (IsRightVerdict scenario.now trace.now) }
{
    if let Some(departure) = first_outside(scenario, trace, 0) {
        return Ok(Verdict::Departs(departure));
    }
    let finer = finer_of(alloc, scenario, trace)?;
    judge_runs(alloc, scenario, &finer, trace)
}

/// The verdict by runs of the scenario in fine ticks. Fails where memory runs out, and else never.
fn judge_runs(
    alloc: Global,
    scenario: &Scenario,
    finer: &Instance,
    trace: &Corrected,
) -> Result<Verdict, AllocError>
    requires finer { IsTrue (is_finer trace.now.factor scenario.now finer.now) }
    requires there { IsTrue (list_all (is_there finer.now) trace.now.told) }
    ensures { IfOk result (IsRightVerdict scenario.now trace.now) }
{
    let schedule = lay(alloc, finer, trace.told())?;
    let first = judge_run(alloc, scenario, finer, trace, &schedule, Ties::Stamps)?;
    if let Verdict::Fits(_) = first {
        return Ok(first);
    }
    for ties in [Ties::Fixed, Ties::CommitsFirst, Ties::CommitsLast] {
        let next = judge_run(alloc, scenario, finer, trace, &schedule, ties)?;
        if let Verdict::Fits(_) = next {
            return Ok(next);
        }
    }
    Ok(first)
}

/// The verdict by the run of a schedule with such an order of ties. Fails where memory runs out, and else never.
fn judge_run(
    alloc: Global,
    scenario: &Scenario,
    finer: &Instance,
    trace: &Corrected,
    schedule: &Schedule,
    ties: Ties,
) -> Result<Verdict, AllocError>
    requires finer { IsTrue (is_finer trace.now.factor scenario.now finer.now) }
    requires there { IsTrue (list_all (is_there finer.now) trace.now.told) }
    requires within { AreWithin (ranges_of finer.now) schedule.now.delays }
    ensures { IfOk result (IsRightVerdict scenario.now trace.now) }
{
    let _lawful = finer.delay();
    let mut tried = schedule.copy()?;
    tried.set_order(order_by(alloc, finer, trace.told(), ties)?);
    let run = simulate(alloc, finer, &tried)?;
    Ok(verdict_of(scenario, finer, &tried, &run, trace))
}

/// The verdict by a run.
fn verdict_of(
    scenario: &Scenario,
    finer: &Instance,
    schedule: &Schedule,
    run: &Run,
    trace: &Corrected,
) -> Verdict
    requires finer { IsTrue (is_finer trace.now.factor scenario.now finer.now) }
    requires there { IsTrue (list_all (is_there finer.now) trace.now.told) }
    requires assignment { IsAssignment finer.now schedule.now }
    requires run { IsRunOf finer.now schedule.now run.now }
    ensures { IsRightVerdict scenario.now trace.now result }
{
    let _lawful = finer.delay();
    match departure_in(finer, schedule, run, trace.told()) {
        Some(departure) => Verdict::Departs(departure),
        None => Verdict::Fits(latency_told(finer, run, trace)),
    }
}

/// The latency of the target in a run, where the trace tells its delivery.
fn latency_told(finer: &Instance, run: &Run, trace: &Corrected) -> Option<u32>
    ensures { result ≡ option_map (λ time. run.now.latency) (target_told finer.now trace.now) }
{
    let (message, group) = (finer.target_message(), finer.target_group());
    let _told = time_told(trace.told(), message, Event::Delivery(group))?;
    Some(run.latency())
}
