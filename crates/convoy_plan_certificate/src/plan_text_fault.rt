ghost use Rattle.std.specs.Prelude.{◌≡◌};
ghost use Rattle.convoy_plan_certificate.specs.declared.plan_text_fault.PlanTextFault.TheVariants.{Memory};

use convoy_certificate::TextFault;
use std::alloc::{AllocError, AllocFailed};
use thiserror::Error;

/// A line of a certificate of a plan (docs/FORMATS.md, "Certificates of plans").
#[derive(Clone, Copy, Debug, PartialEq, Eq)]
pub enum PlanLine {
    /// The first line.
    Plan,
    Sites,
    Order,
    /// The first line of a certificate, or the line before the nodes.
    Tree,
    /// A node, or the line `end`.
    Node,
    /// The line of a witness.
    Witness,
    Schedule,
    /// The order of ties of a schedule.
    Ranks,
}

/// Why a text is no certificate of a plan: the first fault in the order of its lines.
#[derive(Clone, Copy, Debug, PartialEq, Eq, Error)]
pub enum PlanTextFault {
    /// The line of that number, from 1, is absent, is not ended by byte 10, or has not the form that was expected there.
    #[error("line {0} has not the form that is expected there, or is not ended")]
    Line(usize, PlanLine),
    /// The certificate of that number, from 0, has this fault.
    #[error("certificate {0} is none: {1}")]
    Certificate(usize, TextFault),
    /// The text goes on after the line `end`.
    #[error("the text goes on after the line `end`")]
    AfterEnd,
    /// What the text says has another text.
    #[error("the text is not written as a certificate of a plan is")]
    Spelling,
    /// Memory ran out, which says nothing of the text.
    #[error("out of memory")]
    Memory,
}

impl From<AllocError> for PlanTextFault {
    ghost from_gives = { λ _ fault. fault ≡ Memory };

    fn from(_error: AllocError) -> PlanTextFault {
        PlanTextFault::Memory
    }
}

impl<T: Drop> From<AllocFailed<T>> for PlanTextFault {
    ghost use Rattle.std.specs.Prelude.{◌≡◌};
    ghost use Rattle.convoy_plan_certificate.specs.declared.plan_text_fault.PlanTextFault.TheVariants.{Memory};

    ghost from_gives = { λ _ fault. fault ≡ Memory };

    fn from(_error: AllocFailed<T>) -> PlanTextFault {
        PlanTextFault::Memory
    }
}
