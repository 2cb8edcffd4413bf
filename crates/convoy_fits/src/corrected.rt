//! Traces by clocks that are right.

ghost use Rattle.std.specs.Prelude.{◌≡◌, ◌+◌, IfOk, IsTrue, map};
ghost use Rattle.std.specs.List.{list_all};
ghost use Rattle.convoy_fits.specs.Skews.{IsSkewed, corrected, teller_of};
ghost use Rattle.convoy_fits.specs.Tests.{is_kept, lag_by};

use super::lags::Lags;
use super::teller::teller_of;
use convoy_scenario::Scenario;
use convoy_traces::{LAST_TIME, Told, Trace};
use std::alloc::{AllocError, Global};
use std::marker::Model;

/// What a trace tells, by clocks that are right.
#[derive(Drop)]
pub(crate) struct Corrected {
    factor: u16,
    told: Vec<Told>,
}

impl Model for Corrected {
    ghost use Rattle.convoy_traces.specs.Traces.{Trace};

    ghost Value = { Trace };

    ghost view = { λ t. record { factor = t.factor; told = t.told.items } };
}

impl Corrected {
    /// How many fine ticks a tick has.
    pub(crate) fn factor(&self) -> u16
        ensures { result ≡ self.now.factor }
    {
        self.factor
    }

    /// What is told, in the order of the lines.
    pub(crate) fn told(&self) -> &[Told]
        ensures { result.now ≡ self.now.told }
    {
        self.told.as_slice()
    }

    /// What a trace tells, by clocks with these lags where that may be so, or else by its own clocks. Fails where memory
    /// runs out, and else never.
    #[tactic(auto, using(crate::proofs::Skewed::moved_is, crate::proofs::Skewed::unmoved))]
    pub(crate) fn of(
        alloc: Global,
        scenario: &Scenario,
        trace: &Trace,
        lags: &Lags,
    ) -> Result<Corrected, AllocError>
        ensures { IfOk result (IsSkewed lags.now.skew scenario.now trace.now) }
    {
        if are_kept(scenario, trace.told(), lags) {
            moved(alloc, scenario, trace, lags)
        } else {
            copied(alloc, trace)
        }
    }
}

/// What a trace tells, by clocks with these lags. Fails where memory runs out, and else never.
fn moved(
    alloc: Global,
    scenario: &Scenario,
    trace: &Trace,
    lags: &Lags,
) -> Result<Corrected, AllocError>
    requires { IsTrue (list_all (is_kept lags.now.skew (lag_by lags.now) scenario.now) trace.now.told) }
    ensures told { IfOk result (λ other. other.told
        ≡ map (corrected lags.now.skew (lag_by lags.now) scenario.now) trace.now.told) }
    ensures factor { IfOk result (λ other. other.factor ≡ trace.now.factor) }
{
    let mut told = Vec::new(alloc);
    for one in trace.told() {
        told.push(by_right_clock(scenario, one, lags))?;
    }
    Ok(Corrected {
        factor: trace.factor(),
        told,
    })
}

/// What a trace tells, by its own clocks. Fails where memory runs out, and else never.
pub(crate) fn copied(alloc: Global, trace: &Trace) -> Result<Corrected, AllocError>
    ensures { IfOk result (λ other. other ≡ trace.now) }
{
    let mut told = Vec::new(alloc);
    for one in trace.told() {
        told.push(*one)?;
    }
    Ok(Corrected {
        factor: trace.factor(),
        told,
    })
}

/// When something was told, by a clock that is right, and as much later as the skew.
fn late_time(scenario: &Scenario, one: &Told, lags: &Lags) -> u64
    ensures { result
        ≡ one.now.time + lag_by lags.now (teller_of scenario.now one.now.message one.now.event) }
{
    let teller = teller_of(scenario, one.message, one.event);
    u64::from(one.time) + lags.of(teller)
}

/// What is told, by a clock that is right.
fn by_right_clock(scenario: &Scenario, one: &Told, lags: &Lags) -> Told
    requires { IsTrue (is_kept lags.now.skew (lag_by lags.now) scenario.now one.now) }
    ensures { result ≡ corrected lags.now.skew (lag_by lags.now) scenario.now one.now }
{
    let time = late_time(scenario, one, lags) - u64::from(lags.skew());
    Told {
        line: one.line,
        message: one.message,
        event: one.event,
        time: time as u32,
        stamp: one.stamp,
    }
}

/// Whether what is told is, by a clock that is right, within the times that may be told.
fn is_kept(scenario: &Scenario, one: &Told, lags: &Lags) -> bool
    ensures { result ≡ is_kept lags.now.skew (lag_by lags.now) scenario.now one.now }
{
    let time = late_time(scenario, one, lags);
    u64::from(lags.skew()) <= time && time <= u64::from(lags.skew()) + u64::from(LAST_TIME)
}

/// Whether all that is told is.
fn are_kept(scenario: &Scenario, told: &[Told], lags: &Lags) -> bool
    ensures { result ≡ list_all (is_kept lags.now.skew (lag_by lags.now) scenario.now) told.now }
{
    for one in told {
        if !is_kept(scenario, one, lags) {
            return false;
        }
    }
    true
}
