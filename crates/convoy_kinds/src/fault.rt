use super::limits::{MOST_KINDS, MOST_TABLES};
use convoy_scenario::ScenarioFault;
use std::alloc::{AllocError, AllocFailed};
use std::fmt;
use thiserror::Error;

/// A key of a kinds text that no scenario text has.
#[derive(Clone, Copy, Debug, PartialEq, Eq)]
pub enum KindsKey {
    Kind,
    ToAny,
}

/// A limit of a kinds text beside those of a scenario.
#[derive(Clone, Copy, Debug, PartialEq, Eq)]
pub enum KindsLimit {
    /// There are 1 to `MOST_TABLES` tables of kinds.
    Tables,
    /// `to_any` has one number or more, ascending, each from 1 to the number of groups.
    Sizes,
    /// All tables write 1 to `MOST_KINDS` kinds.
    Kinds,
}

/// Why a text is no kinds text. Of several faults the first is told (docs/FORMATS.md, "Kinds text").
#[derive(Clone, Copy, Debug, PartialEq, Eq, Error)]
pub enum KindsFault {
    /// What a kinds text has as a scenario text is at fault: names of groups and tables, times and links have the rules that
    /// they have there; or memory ran out (`ScenarioFault::Memory`), which says nothing of the text.
    #[error(transparent)]
    Scenario(ScenarioFault),
    /// A key that only kinds texts have is absent, or its value is of another kind.
    #[error("a key is absent, or its value is of another kind: {0}")]
    Shape(KindsKey),
    /// A table of kinds has both `to` and `to_any`, or neither.
    #[error("a table of kinds has both `to` and `to_any`, or neither")]
    NotOneTo,
    /// A number is outside its limits.
    #[error("over a limit: {0}")]
    OverLimit(KindsLimit),
    /// A table of kinds names a sender twice.
    #[error("a table of kinds names a sender twice")]
    DoubleSender,
}

impl KindsKey {
    ghost use Rattle.std.specs.Prelude.{◌≡◌};
    ghost use Rattle.convoy_kinds.specs.Shape.{kinds_word};

    /// The key as a kinds text has it.
    pub fn word(self) -> &'static str
        ensures { result.now ≡ kinds_word self }
    {
        match self {
            KindsKey::Kind => "kind",
            KindsKey::ToAny => "to_any",
        }
    }
}

impl fmt::Display for KindsKey {
    fn fmt<W: fmt::Write>(&self, f: &mut fmt::Formatter<W>) -> fmt::Result {
        f.pad(self.word())
    }
}

impl fmt::Display for KindsLimit {
    fn fmt<W: fmt::Write>(&self, f: &mut fmt::Formatter<W>) -> fmt::Result {
        match self {
            KindsLimit::Tables => write!(f, "there are 1 to {MOST_TABLES} tables of kinds"),
            KindsLimit::Sizes => write!(
                f,
                "to_any has one number or more, ascending, each from 1 to the number of groups"
            ),
            KindsLimit::Kinds => write!(f, "all tables write 1 to {MOST_KINDS} kinds"),
        }
    }
}

impl From<ScenarioFault> for KindsFault {
    ghost use Rattle.std.specs.Prelude.{◌≡◌};
    ghost use Rattle.convoy_kinds.specs.declared.fault.KindsFault.TheVariants.{Scenario};

    ghost from_gives = { λ cause fault. fault ≡ Scenario cause };

    fn from(cause: ScenarioFault) -> KindsFault {
        KindsFault::Scenario(cause)
    }
}

impl From<AllocError> for KindsFault {
    ghost use Rattle.std.specs.Prelude.{◌≡◌};
    ghost use Rattle.convoy_draft.specs.declared.fault.ScenarioFault.TheVariants.{Memory};
    ghost use Rattle.convoy_kinds.specs.declared.fault.KindsFault.TheVariants.{Scenario};

    ghost from_gives = { λ _ fault. fault ≡ Scenario Memory };

    fn from(_error: AllocError) -> KindsFault {
        KindsFault::Scenario(ScenarioFault::Memory)
    }
}

impl<T: Drop> From<AllocFailed<T>> for KindsFault {
    ghost use Rattle.std.specs.Prelude.{◌≡◌};
    ghost use Rattle.convoy_draft.specs.declared.fault.ScenarioFault.TheVariants.{Memory};
    ghost use Rattle.convoy_kinds.specs.declared.fault.KindsFault.TheVariants.{Scenario};

    ghost from_gives = { λ _ fault. fault ≡ Scenario Memory };

    fn from(_error: AllocFailed<T>) -> KindsFault {
        KindsFault::Scenario(ScenarioFault::Memory)
    }
}
