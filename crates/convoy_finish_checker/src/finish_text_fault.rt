ghost use Rattle.std.specs.Prelude.{◌≡◌};
ghost use Rattle.convoy_finish_checker.specs.declared.finish_text_fault.FinishTextFault.TheVariants.{Memory};

use convoy_certificate::TextFault;
use std::alloc::{AllocError, AllocFailed};
use thiserror::Error;

/// A line of a certificate of finishes (docs/FORMATS.md, "Certificates of finishes").
#[derive(Clone, Copy, Debug, PartialEq, Eq)]
pub enum FinishLine {
    /// The first line.
    Finish,
    /// The ways of a message by each group.
    Ways,
}

/// Why a text is no certificate of finishes: the first fault in the order of its lines.
#[derive(Clone, Copy, Debug, PartialEq, Eq, Error)]
pub enum FinishTextFault {
    /// The line of that number, from 1, is absent, is not ended by byte 10, or has not the form that was expected there.
    #[error("line {0} has not the form that is expected there, or is not ended")]
    Line(usize, FinishLine),
    /// What stands below these lines, a certificate, has this fault, of which a line counts from the first one of the text.
    #[error("the certificate is none: {0}")]
    Certificate(TextFault),
    /// What the text says has another text: there are not as many lines of ways as messages, or not as many ways in each as
    /// groups.
    #[error("the text is not written as a certificate of finishes is")]
    Spelling,
    /// Memory ran out, which says nothing of the text.
    #[error("out of memory")]
    Memory,
}

impl From<AllocError> for FinishTextFault {
    ghost from_gives = { λ _ fault. fault ≡ Memory };

    fn from(_error: AllocError) -> FinishTextFault {
        FinishTextFault::Memory
    }
}

impl<T: Drop> From<AllocFailed<T>> for FinishTextFault {
    ghost use Rattle.std.specs.Prelude.{◌≡◌};
    ghost use Rattle.convoy_finish_checker.specs.declared.finish_text_fault.FinishTextFault.TheVariants.{Memory};

    ghost from_gives = { λ _ fault. fault ≡ Memory };

    fn from(_error: AllocFailed<T>) -> FinishTextFault {
        FinishTextFault::Memory
    }
}
