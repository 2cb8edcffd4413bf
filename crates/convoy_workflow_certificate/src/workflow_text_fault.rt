ghost use Rattle.std.specs.Prelude.{◌≡◌};
ghost use Rattle.convoy_workflow_certificate.specs.declared.workflow_text_fault.WorkflowTextFault.TheVariants.{Memory};

use convoy_certificate::TextFault;
use std::alloc::{AllocError, AllocFailed};
use thiserror::Error;

/// A line of a certificate of a workflow (docs/FORMATS.md, "Certificates of workflows").
#[derive(Clone, Copy, Debug, PartialEq, Eq)]
pub enum WorkflowLine {
    /// The first line.
    Workflow,
    /// What a message follows, or the line behind all of these.
    Follow,
    /// Within how many ticks deliveries come.
    Within,
    /// The message from whose issue time is counted.
    From,
}

/// Why a text is no certificate of a workflow: the first fault in the order of its lines.
#[derive(Clone, Copy, Debug, PartialEq, Eq, Error)]
pub enum WorkflowTextFault {
    /// The line of that number, from 1, is absent, is not ended by byte 10, or has not the form that was expected there.
    #[error("line {0} has not the form that is expected there, or is not ended")]
    Line(usize, WorkflowLine),
    /// What stands below these lines, a certificate, has this fault, of which a line counts from the first one of the text.
    #[error("the certificate is none: {0}")]
    Certificate(TextFault),
    /// What the text says has another text.
    #[error("the text is not written as a certificate of a workflow is")]
    Spelling,
    /// Memory ran out, which says nothing of the text.
    #[error("out of memory")]
    Memory,
}

impl From<AllocError> for WorkflowTextFault {
    ghost from_gives = { λ _ fault. fault ≡ Memory };

    fn from(_error: AllocError) -> WorkflowTextFault {
        WorkflowTextFault::Memory
    }
}

impl<T: Drop> From<AllocFailed<T>> for WorkflowTextFault {
    ghost use Rattle.std.specs.Prelude.{◌≡◌};
    ghost use Rattle.convoy_workflow_certificate.specs.declared.workflow_text_fault.WorkflowTextFault.TheVariants.{Memory};

    ghost from_gives = { λ _ fault. fault ≡ Memory };

    fn from(_error: AllocFailed<T>) -> WorkflowTextFault {
        WorkflowTextFault::Memory
    }
}
