ghost use Rattle.std.specs.Prelude.{◌≡◌};
ghost use Rattle.convoy_fits_told.specs.Scales.{fine_skew};

use convoy_scenario::Duration;
use convoy_traces::{Clock, LAST_TIME};

/// By how much clocks may be wrong.
#[derive(Clone, Copy)]
pub enum Skew {
    /// By so many ticks.
    Ticks(u64),
    /// By so much.
    Lasting(Duration),
}

impl Skew {
    /// The skew in fine ticks, of which a tick has so many: those that go into it, and no more than a trace may tell.
    pub(crate) fn in_fine_ticks(self, clock: Clock, factor: u16) -> u32
        ensures { result ≡ fine_skew clock factor self }
    {
        let ticks = match self {
            Skew::Ticks(ticks) => u128::from(ticks) * u128::from(factor),
            Skew::Lasting(duration) => {
                let parts = u128::from(duration.nanoseconds()) * u128::from(factor);
                parts / u128::from(clock.tick.max(1))
            }
        };
        ticks.min(u128::from(LAST_TIME)) as u32
    }
}
