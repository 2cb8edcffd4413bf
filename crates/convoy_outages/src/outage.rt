ghost use Rattle.std.specs.Prelude.{◌≡◌};
ghost use Rattle.convoy_outages.specs.Spans.{span_asked, span_of, ticks_of_outage, within_longest};

use convoy_scenario::{Duration, Scenario};
use std::marker::Model;
use thiserror::Error;

/// The greatest number of ticks that outages may last in all.
pub const LONGEST_OUTAGE: u32 = 4_000_000_000;

/// How long outages last in all.
#[derive(Clone, Copy)]
pub enum Outage {
    /// So many ticks.
    Ticks(u64),
    /// So long.
    Lasting(Duration),
}

/// Why no ceiling through outages that last so long can be told.
#[derive(Clone, Copy, Debug, PartialEq, Eq, Error)]
pub enum OutageFault {
    /// They last for a duration, and it is not known how long a tick does.
    #[error("outages last for a duration, and the length of a tick is not known")]
    Unmeasured,
    /// They last more ticks than `LONGEST_OUTAGE`.
    #[error("outages last more than {longest} ticks", longest = LONGEST_OUTAGE)]
    TooLong,
}

/// How many ticks outages last in all: at most [`LONGEST_OUTAGE`].
#[derive(Clone, Copy, PartialEq, Eq)]
pub struct Span {
    ticks: u32,
}

impl Model for Span {
    ghost use Rattle.std.specs.Prelude.{ℕ, ◌≤◌};
    ghost use Rattle.convoy_outages.specs.declared.outage.TheConstants.{LONGEST_OUTAGE};

    ghost Value = { ℕ };

    ghost view = { λ s. s.ticks };

    ghost inverse = { λ v. record { ticks = v } };

    ghost invariant = { λ s. s.ticks ≤ LONGEST_OUTAGE };
}

impl Span {
    ghost use Rattle.std.specs.Prelude.{◌≡◌, ◌≤◌};
    ghost use Rattle.convoy_outages.specs.Spans.{within_longest};

    /// A span of so many ticks, unless these are too many: then the fault is `OutageFault::TooLong`.
    pub fn from_ticks(ticks: u64) -> Result<Span, OutageFault>
        ensures { result ≡ within_longest ticks }
    {
        if ticks <= u64::from(LONGEST_OUTAGE) {
            Ok(Span {
                ticks: ticks as u32,
            })
        } else {
            Err(OutageFault::TooLong)
        }
    }

    /// How many ticks it has.
    pub fn ticks(self) -> u32
        ensures value { result ≡ self }
        ensures bounded { result ≤ LONGEST_OUTAGE }
    {
        self.ticks
    }
}

/// How many ticks of a scenario outages last, where they are asked for: a tick that has begun counts as a whole one.
pub fn span_asked(outage: Option<Outage>, scenario: &Scenario) -> Result<Option<Span>, OutageFault>
    ensures { result ≡ span_asked outage scenario.now }
{
    match outage {
        Some(outage) => {
            let span = span_of(scenario, outage)?;
            Ok(Some(span))
        }
        None => Ok(None),
    }
}

/// The same of outages that are asked for.
fn span_of(scenario: &Scenario, outage: Outage) -> Result<Span, OutageFault>
    ensures { result ≡ span_of scenario.now outage }
{
    let ticks = ticks_of_outage(length_of(scenario), outage)?;
    Span::from_ticks(ticks)
}

/// How many ticks outages last where a tick lasts so many nanoseconds, if that is known.
fn ticks_of_outage(tick: Option<u64>, outage: Outage) -> Result<u64, OutageFault>
    ensures { result ≡ ticks_of_outage tick outage }
{
    match outage {
        Outage::Ticks(ticks) => Ok(ticks),
        Outage::Lasting(duration) => {
            let tick = tick.ok_or(OutageFault::Unmeasured)?;
            Ok(duration.nanoseconds().div_ceil(tick.max(1)))
        }
    }
}

/// How many nanoseconds a tick of the scenario lasts, where that is known.
fn length_of(scenario: &Scenario) -> Option<u64>
    ensures { result ≡ scenario.now.tick }
{
    match scenario.tick() {
        Some(tick) => Some(tick.nanoseconds()),
        None => None,
    }
}
