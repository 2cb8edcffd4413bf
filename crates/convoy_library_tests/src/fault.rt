ghost use Rattle.std.specs.Prelude.{◌≡◌};
ghost use Rattle.convoy_library_tests.specs.declared.fault.Fault.TheVariants.{Memory};
ghost use Rattle.convoy_library_tests.specs.Faults.{of_scenario, of_list, of_text, of_check};

use convoy_library::certificate::TextFault;
use convoy_library::checker::Refused;
use convoy_library::packets::ListFault;
use convoy_library::scenario::ScenarioFault;
use std::alloc::AllocError;
use thiserror::Error;

/// Why there is no answer.
#[derive(Clone, Copy, Debug, PartialEq, Eq, Error)]
pub enum Fault {
    /// The text of the scenario is faulty.
    #[error("the scenario is faulty: {0}")]
    Scenario(ScenarioFault),
    /// The delays are no schedule of the scenario.
    #[error("the delays are no schedule of the scenario: {0}")]
    Schedule(ListFault),
    /// The bytes are not the text of a certificate.
    #[error("the text is no certificate: {0}")]
    Text(TextFault),
    /// The certificate is not valid.
    #[error("the certificate is not valid: {0}")]
    Invalid(Refused),
    /// Memory ran out, which says nothing of the input.
    #[error("out of memory")]
    Memory,
}

impl From<ScenarioFault> for Fault {
    ghost from_gives = { λ cause fault. fault ≡ of_scenario cause };

    fn from(cause: ScenarioFault) -> Fault {
        match cause {
            ScenarioFault::Memory => Fault::Memory,
            cause => Fault::Scenario(cause),
        }
    }
}

impl From<ListFault> for Fault {
    ghost from_gives = { λ cause fault. fault ≡ of_list cause };

    fn from(cause: ListFault) -> Fault {
        match cause {
            ListFault::Memory => Fault::Memory,
            cause => Fault::Schedule(cause),
        }
    }
}

impl From<TextFault> for Fault {
    ghost from_gives = { λ cause fault. fault ≡ of_text cause };

    fn from(cause: TextFault) -> Fault {
        match cause {
            TextFault::Memory => Fault::Memory,
            cause => Fault::Text(cause),
        }
    }
}

impl From<Refused> for Fault {
    ghost from_gives = { λ cause fault. fault ≡ of_check cause };

    fn from(cause: Refused) -> Fault {
        match cause {
            Refused::Memory => Fault::Memory,
            cause => Fault::Invalid(cause),
        }
    }
}

impl From<AllocError> for Fault {
    ghost from_gives = { λ _ fault. fault ≡ Memory };

    fn from(_error: AllocError) -> Fault {
        Fault::Memory
    }
}
