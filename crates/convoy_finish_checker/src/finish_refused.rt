ghost use Rattle.std.specs.Prelude.{◌≡◌};
ghost use Rattle.convoy_finish_checker.specs.declared.finish_refused.FinishRefused.TheVariants.{Memory};

use std::alloc::AllocError;
use thiserror::Error;

/// Why a certificate of finishes is not valid. Where it has several faults, the first is told in the order of these
/// variants.
#[derive(Clone, Copy, Debug, PartialEq, Eq, Error)]
pub enum FinishRefused {
    /// The certificate below has nodes.
    #[error("the certificate below has nodes")]
    Tree,
    /// The run has that latency in ticks, and not the stated one.
    #[error("the run has a latency of {0} ticks")]
    Latency(u32),
    /// It is not shown that no run has a greater latency.
    #[error("some run may have a greater latency")]
    Open,
    /// Memory ran out, which says nothing of the certificate.
    #[error("out of memory")]
    Memory,
}

impl From<AllocError> for FinishRefused {
    ghost from_gives = { λ _ refused. refused ≡ Memory };

    fn from(_error: AllocError) -> FinishRefused {
        FinishRefused::Memory
    }
}
