//! Which scenario is asked about, where a text is read as by who knows nothing of issue times.

ghost use Rattle.std.specs.Prelude.{◌≡◌};
ghost use Rattle.convoy_scenario.specs.Memory.{IsUnlessMemory};
ghost use Rattle.convoy_toml.specs.Around.{asked_around, begun_ticks, span_asked, span_of, ticks_around};

use super::deadlines::{GREATEST_DEADLINE, counted_ticks};
use super::written::WrittenTime;
use convoy_around::around;
use convoy_scenario::{Duration, Key, Scenario, ScenarioFault};
use std::alloc::Global;

/// How far around the issue of the target the other messages are issued: from the span before it to twice the span after
/// it (docs/FORMATS.md, "Around the target").
#[derive(Clone, Copy, Drop)]
pub enum Around {
    /// The span is D, the greatest delay of a packet.
    Greatest,
    /// The span is that time: what is no duration counts ticks.
    By(WrittenTime),
}

/// How many ticks of that length a duration above 0 lasts, where one that has begun counts.
fn begun_ticks(tick: Option<u64>, duration: Duration) -> Option<u32>
    ensures { result ≡ begun_ticks tick duration }
{
    let length = duration.nanoseconds();
    if length < 1 {
        return None;
    }
    let ended = (length - 1).checked_div(tick?).unwrap_or(0);
    Some(ended.min(u64::from(GREATEST_DEADLINE) - 1) as u32 + 1)
}

/// The ticks of a span that is written so: 1 tick or more, or a duration above 0 where a tick has a length.
fn ticks_around(tick: Option<u64>, span: WrittenTime) -> Option<u32>
    ensures { result ≡ ticks_around tick span }
{
    match span {
        WrittenTime::Count(ticks) => counted_ticks(ticks),
        WrittenTime::Lasting(duration) => begun_ticks(tick, duration),
    }
}

/// How many ticks the span is in a scenario; `ScenarioFault::Shape(Key::Until)` where it is none.
pub fn span_of(scenario: &Scenario, around: Around) -> Result<u32, ScenarioFault>
    ensures { result ≡ span_of scenario.now around }
{
    match around {
        Around::Greatest => Ok(u32::from(scenario.delay())),
        Around::By(span) => {
            let tick = length_of(scenario);
            ticks_around(tick, span).ok_or(ScenarioFault::Shape(Key::Until))
        }
    }
}

/// The span in a scenario that was read with this asked; none where nothing is asked around the target.
pub fn span_asked(asked: Option<Around>, scenario: &Scenario) -> Option<u32>
    ensures { result ≡ span_asked asked scenario.now }
{
    match asked {
        Some(by) => span_of(scenario, by).ok(),
        None => None,
    }
}

/// How many nanoseconds a tick of the scenario lasts, where that is known.
fn length_of(scenario: &Scenario) -> Option<u64>
    ensures { result ≡ scenario.now.tick }
{
    match scenario.tick() {
        Some(tick) => Some(tick.nanoseconds()),
        None => None,
    }
}

/// The scenario that is asked about where a text tells this one: the same, or where all is asked around its target the
/// scenario around that.
///
/// The faults are `ScenarioFault::Shape(Key::Until)` where the span is none, that of [`around`] where it is too long, and
/// `ScenarioFault::Memory`.
pub fn asked_around(
    alloc: Global,
    scenario: Scenario,
    asked: Option<Around>,
) -> Result<Scenario, ScenarioFault>
    ensures { IsUnlessMemory ScenarioFault.Memory (asked_around asked scenario) result }
{
    match asked {
        Some(by) => around(alloc, &scenario, span_of(&scenario, by)?),
        None => Ok(scenario),
    }
}
