ghost use Rattle.std.specs.Prelude.{◌≡◌};
ghost use Rattle.convoy_certificate.specs.Reading.{text_fault};
ghost use Rattle.convoy_certificate.specs.declared.text_fault.TextFault.TheVariants.{Memory};

use convoy_scenario::ScenarioFault;
use convoy_scenario_lines::{Expected, LineFault};
use std::alloc::AllocError;
use thiserror::Error;

/// Why a text is no certificate. Where it has several faults, the first in the order of the lines is
/// told (docs/FORMATS.md, "Certificate text").
#[derive(Clone, Copy, Debug, PartialEq, Eq, Error)]
pub enum TextFault {
    /// The line of that number, from 1, is absent, is not ended by byte 10, or has not the form that
    /// was expected there.
    #[error("line {0} is not a line `{1}`, or is not ended")]
    Line(usize, Expected),
    /// The lines of the scenario have their form, but there is no such scenario.
    #[error("the lines are no scenario: {0}")]
    Scenario(ScenarioFault),
    /// The line `schedule` has its form, but the number of delays is not the number of packets, or a
    /// delay is not in its packet's range; or the line `order` has its form, but the number of ranks is
    /// not that of the moments, or one is above `GREATEST_RANK`, or all of them are 0 and written out.
    #[error("the schedule has not one delay for each packet in its range, or no such order of ties")]
    Schedule,
    /// There are more than `MOST_NODES` nodes, or more than `MOST_LEADS` lead leaves among them.
    #[error("there are too many nodes")]
    TreeCount,
    /// A byte follows the line `end`.
    #[error("the text goes on after the line `end`")]
    AfterEnd,
    /// Memory ran out, which says nothing of the text.
    #[error("out of memory")]
    Memory,
}

impl From<LineFault> for TextFault {
    ghost from_gives = { λ fault text. text ≡ text_fault fault };

    fn from(fault: LineFault) -> TextFault {
        match fault {
            LineFault::Line(number, expected) => TextFault::Line(number, expected),
            LineFault::Scenario(fault) => TextFault::Scenario(fault),
            LineFault::Memory => TextFault::Memory,
        }
    }
}

impl From<AllocError> for TextFault {
    ghost from_gives = { λ _ fault. fault ≡ Memory };

    fn from(_error: AllocError) -> TextFault {
        TextFault::Memory
    }
}
