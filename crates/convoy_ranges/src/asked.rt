ghost use Rattle.std.specs.Prelude.{◌≡◌};
ghost use Rattle.convoy_ranges.specs.Rules.{kilometres_in, rules_of, AreRules};

use convoy_draft::Duration;
use std::marker::Model;

/// The length of a tick, in nanoseconds, where the user asks for no other: a tenth of a millisecond, in which a range may
/// last up to 6.5 s.
pub const USUAL_TICK: u64 = 100_000;

/// How fast a signal goes at most.
#[derive(Clone, Copy, Debug, PartialEq, Eq)]
pub enum Speed {
    /// As light in glass fibre, 200 km in a millisecond: all of the way is known to be fibre.
    Fibre,
    /// As light in the air, 300 km in a millisecond.
    Air,
}

impl Speed {
    /// How many kilometres it goes in a millisecond.
    pub fn kilometres(self) -> u32
        ensures { result ≡ kilometres_in self }
    {
        match self {
            Speed::Fibre => 200,
            Speed::Air => 300,
        }
    }
}

/// What [`RangesAsked`] are made of: contracts see them as this.
#[derive(Clone, Copy)]
pub struct RangeRules {
    /// How many percent more than the greatest round trip of the table one may take.
    pub margin: u8,
    /// How fast a signal goes at most.
    pub speed: Speed,
    /// How many nanoseconds a packet takes at least where no distance is known.
    pub least: u64,
    /// How many nanoseconds a tick has: ranges are told in whole ticks.
    pub tick: u64,
}

/// By which rules round trips become ranges.
#[derive(Clone, Copy)]
pub struct RangesAsked {
    rules: RangeRules,
}

impl Model for RangesAsked {
    ghost use Rattle.convoy_ranges.specs.Rules.{AreRules};
    ghost use Rattle.convoy_ranges.specs.declared.asked.RangeRules.{RangeRules};

    ghost Value = { RangeRules };

    ghost view = { λ a. a.rules };

    ghost inverse = { λ r. record { rules = r } };

    ghost invariant = { λ a. AreRules a.rules };
}

impl RangesAsked {
    /// By a margin in percent, a speed, the least of a packet where no distance is known, which is a tick where none is
    /// asked for, and the length of a tick. None where a tick has no length, or the least is less than a tick.
    pub fn new(
        margin: u8,
        speed: Speed,
        least: Option<Duration>,
        tick: Duration,
    ) -> Option<RangesAsked>
        ensures { result ≡ rules_of margin speed least tick }
    {
        let tick = tick.nanoseconds();
        let least = match least {
            Some(least) => least.nanoseconds(),
            None => tick,
        };
        if tick == 0 || least < tick {
            return None;
        }
        let rules = RangeRules {
            margin,
            speed,
            least,
            tick,
        };
        Some(RangesAsked { rules })
    }

    /// The rules, within their limits.
    pub fn rules(&self) -> RangeRules
        ensures value { result ≡ self.now }
        ensures lawful { AreRules result }
    {
        self.rules
    }
}
