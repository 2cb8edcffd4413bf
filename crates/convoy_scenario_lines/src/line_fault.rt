ghost use Rattle.std.specs.Prelude.{◌≡◌};
ghost use Rattle.convoy_scenario_lines.specs.declared.line_fault.LineFault.TheVariants.{Memory};

use convoy_scenario::ScenarioFault;
use std::alloc::AllocError;
use std::fmt;
use thiserror::Error;

/// What a line of a certificate text has to be (docs/FORMATS.md, "Certificate text").
#[derive(Clone, Copy, Debug, PartialEq, Eq)]
pub enum Expected {
    Convoy,
    Time,
    Tick,
    Delay,
    Groups,
    Places,
    Link,
    Multicast,
    Target,
    Latency,
    Schedule,
    Order,
    Node,
}

/// Why the lines read are no scenario. Where there are several faults, the first in the order of the
/// lines is told (docs/FORMATS.md, "Certificate text").
#[derive(Clone, Copy, Debug, PartialEq, Eq, Error)]
pub enum LineFault {
    /// The line of that number, from 1, is absent, is not ended by byte 10, or has not the form that
    /// was expected there.
    #[error("line {0} is not a line `{1}`, or is not ended")]
    Line(usize, Expected),
    /// The lines have their form, but there is no such scenario.
    #[error("the lines are no scenario: {0}")]
    Scenario(ScenarioFault),
    /// Memory ran out, which says nothing of the text.
    #[error("out of memory")]
    Memory,
}

impl fmt::Display for Expected {
    fn fmt<W: fmt::Write>(&self, f: &mut fmt::Formatter<W>) -> fmt::Result {
        f.pad(match self {
            Expected::Convoy => "convoy",
            Expected::Time => "time",
            Expected::Tick => "tick",
            Expected::Delay => "delay",
            Expected::Groups => "groups",
            Expected::Places => "places",
            Expected::Link => "link",
            Expected::Multicast => "multicast",
            Expected::Target => "target",
            Expected::Latency => "latency",
            Expected::Schedule => "schedule",
            Expected::Order => "order",
            Expected::Node => "node",
        })
    }
}

impl From<AllocError> for LineFault {
    ghost from_gives = { λ _ fault. fault ≡ Memory };

    fn from(_error: AllocError) -> LineFault {
        LineFault::Memory
    }
}
