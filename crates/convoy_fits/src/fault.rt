use std::alloc::{AllocError, AllocFailed};
use thiserror::Error;

/// Why a trace is not judged.
#[derive(Clone, Copy, Debug, PartialEq, Eq, Error)]
pub enum FitsFault {
    /// The scenario is beyond the limits of scenarios in the fine ticks of the trace: a message is issued later, or D is
    /// greater, than they allow. Or the trace is one of another scenario.
    #[error("the scenario in the fine ticks of the trace is beyond the limits: drop digits, or count from a later start")]
    Limits,
    /// Memory ran out, which says nothing of the trace.
    #[error("out of memory")]
    Memory,
}

impl From<AllocError> for FitsFault {
    ghost use Rattle.std.specs.Prelude.{◌≡◌};
    ghost use Rattle.convoy_fits.specs.declared.fault.FitsFault.TheVariants.{Memory};

    ghost from_gives = { λ _ fault. fault ≡ Memory };

    fn from(_error: AllocError) -> Self {
        FitsFault::Memory
    }
}

impl<T: Drop> From<AllocFailed<T>> for FitsFault {
    ghost use Rattle.std.specs.Prelude.{◌≡◌};
    ghost use Rattle.convoy_fits.specs.declared.fault.FitsFault.TheVariants.{Memory};

    ghost from_gives = { λ _ fault. fault ≡ Memory };

    fn from(_error: AllocFailed<T>) -> Self {
        FitsFault::Memory
    }
}
