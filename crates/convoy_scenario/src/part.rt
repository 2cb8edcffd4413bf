ghost use Rattle.std.specs.Prelude.{◌≡◌};
ghost use Rattle.convoy_scenario.specs.Differences.{part_word};

use self::Part::{Delay, Groups, Links, Multicasts, Places, Target, Tick, Time};

/// A part of a scenario, in the order in which scenarios are compared.
#[derive(Clone, Copy, PartialEq, Eq)]
pub enum Part {
    /// How time goes.
    Time,
    /// How long a tick lasts.
    Tick,
    /// D, the greatest delay of a packet.
    Delay,
    /// The groups, by their names and in their order.
    Groups,
    /// The places of clients, by their names and in their order.
    Places,
    /// The links, but for those between two places whose range is 1 to D.
    Links,
    /// The messages, in their order.
    Multicasts,
    /// The message of which the latency is asked, and the group at which it is asked.
    Target,
}

impl Part {
    /// The word for the part, which is that of its lines in a certificate.
    pub fn word(self) -> &'static str
        ensures { result.now ≡ part_word self }
    {
        match self {
            Time => "time",
            Tick => "tick",
            Delay => "delay",
            Groups => "groups",
            Places => "places",
            Links => "link",
            Multicasts => "multicast",
            Target => "target",
        }
    }
}
