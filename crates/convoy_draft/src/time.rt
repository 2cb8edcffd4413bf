ghost use Rattle.std.specs.Prelude.{◌≡◌};
ghost use Rattle.convoy_draft.specs.Keys.{time_word, time_named};
ghost use Rattle.convoy_draft.specs.Limits.{greatest_delay};

use super::limits::{GREATEST_DELAY, GREATEST_WHOLE_DELAY};

/// How time goes in a scenario (docs/PROTOCOL.md): which delays a packet may take, and in which order
/// things happen that happen at one group at once.
#[derive(Clone, Copy, PartialEq, Eq)]
pub enum Time {
    /// Delays are whole numbers of ticks, and what happens at one group in one tick happens in a fixed
    /// order: arrivals first, by the numbers of the messages, and then commits, likewise.
    Ticks,
    /// Delays are any numbers in their ranges, and what happens at one group at one instant happens in
    /// any order, but a message's arrival before its commit. Whole ticks and an order of ties are
    /// enough to tell what may happen.
    Real,
}

impl Time {
    /// The greatest value of D, the greatest delay of a packet, in ticks.
    pub fn greatest_delay(self) -> u16
        ensures { result ≡ greatest_delay self }
    {
        match self {
            Time::Ticks => GREATEST_WHOLE_DELAY,
            Time::Real => GREATEST_DELAY,
        }
    }

    /// The word for this kind in a scenario text and in a certificate: `ticks` or `real`.
    pub fn word(self) -> &'static str
        ensures { result.now ≡ time_word self }
    {
        match self {
            Time::Ticks => "ticks",
            Time::Real => "real",
        }
    }

    /// The kind that the word names, if it names one.
    pub fn named(word: &str) -> Option<Time>
        ensures { result ≡ time_named word.now }
    {
        match word {
            "ticks" => Some(Time::Ticks),
            "real" => Some(Time::Real),
            _ => None,
        }
    }
}
