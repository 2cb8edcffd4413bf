ghost use Rattle.std.specs.Prelude.{◌≡◌, ◌≤◌};
ghost use Rattle.convoy_traces.specs.Entries.{clock_by};
ghost use Rattle.convoy_traces.specs.Traces.{tick_by};

use convoy_scenario::TimeUnit;
use convoy_times::Measure;

/// How the times of a trace are told.
#[derive(Clone, Copy)]
pub struct Clock {
    /// How many nanoseconds a tick of the scenario has.
    pub tick: u64,
    /// The unit of numbers that have none; without it, a trace has numbers of ticks, each told as a second, and no
    /// durations.
    pub unit: Option<TimeUnit>,
}

impl Clock {
    /// The clock of a scenario whose times are told by that measure; where it has none, since the length of a tick is not
    /// known, a trace tells ticks.
    pub fn of(measure: Option<Measure>) -> Clock
        ensures { result ≡ clock_by measure }
    {
        match measure {
            Some(measure) => Clock {
                tick: measure.tick.nanoseconds().max(1),
                unit: Some(measure.unit),
            },
            None => Clock {
                tick: 1_000_000_000,
                unit: None,
            },
        }
    }
}

/// How many nanoseconds a tick has; one at least.
pub(crate) fn tick_by(clock: Clock) -> u64
    ensures value { result ≡ tick_by clock }
    ensures some { 1 ≤ result }
{
    clock.tick.max(1)
}
