ghost use Rattle.std.specs.Prelude.{◌≡◌};
ghost use Rattle.convoy_workflow_checker.specs.declared.workflow_refused.WorkflowRefused.TheVariants.{Memory};

use std::alloc::AllocError;
use thiserror::Error;

/// Why a certificate of a workflow is not valid. Where it has several faults, the first is told in the order of these
/// variants; causes are numbered from 0.
#[derive(Clone, Copy, Debug, PartialEq, Eq, Error)]
pub enum WorkflowRefused {
    /// The certificate below has nodes.
    #[error("the certificate below has nodes")]
    Tree,
    /// The cause of that number names a message that is not there, or a group to which what it follows does not go.
    #[error("cause {0} is none of the scenario")]
    Cause(usize),
    /// Time is counted from no message of the scenario, or from one for whose issue there is no room
    /// ([`may_be_origin`](convoy_causes::may_be_origin)).
    #[error("time is counted from no issue that may be known")]
    Origin,
    /// In the run the message of the cause of that number does not follow by it.
    #[error("cause {0} is not followed in the run")]
    Followed(usize),
    /// The run takes that time in ticks, and not the stated one.
    #[error("the run takes {0} ticks")]
    Time(u32),
    /// It is not shown that no run takes longer.
    #[error("some run may take longer")]
    Open,
    /// Memory ran out, which says nothing of the certificate.
    #[error("out of memory")]
    Memory,
}

impl From<AllocError> for WorkflowRefused {
    ghost from_gives = { λ _ refused. refused ≡ Memory };

    fn from(_error: AllocError) -> WorkflowRefused {
        WorkflowRefused::Memory
    }
}
