use convoy_scenario::ScenarioFault;
use std::alloc::{AllocError, AllocFailed};
use std::fmt;
use thiserror::Error;

/// How many sites a plan has at most.
pub const MOST_SITES: usize = 16;

/// How many placements a plan has at most, those in which groups share a site that are to be apart among them.
pub const MOST_PLACEMENTS: usize = 16_777_216;

/// A key of a plan text that no scenario text has, or that has another meaning there.
#[derive(Clone, Copy, Debug, PartialEq, Eq)]
pub enum PlanKey {
    Sites,
    Group,
    /// The name of a group, in its table.
    Name,
    Apart,
}

/// A limit of a plan beside those of a scenario.
#[derive(Clone, Copy, Debug, PartialEq, Eq)]
pub enum PlanLimit {
    /// There are 1 to `MOST_SITES` sites.
    Sites,
    /// There are at most `MOST_PLACEMENTS` placements.
    Placements,
}

/// Why a text is no plan. Of several faults the first is told (docs/FORMATS.md, "Plan text").
#[derive(Clone, Copy, Debug, PartialEq, Eq, Error)]
pub enum PlanFault {
    /// What a plan text has as a scenario text is at fault, or a placement of its groups makes no scenario: names of groups
    /// and sites, messages, times and links have the rules that they have there; or memory ran out
    /// (`ScenarioFault::Memory`), which says nothing of the text.
    #[error(transparent)]
    Scenario(ScenarioFault),
    /// A key that only plans have is absent, or its value is of another kind.
    #[error("a key is absent, or its value is of another kind: {0}")]
    Shape(PlanKey),
    /// There are too many sites or none, or too many placements.
    #[error("over a limit: {0}")]
    OverLimit(PlanLimit),
    /// A site of a group, an end of a link or what sends a message is no site; the last is no group either.
    #[error("a site of a group, an end of a link or what sends a message is no site")]
    UnknownSite,
    /// A group has no table that says at which sites it may be.
    #[error("a group has no table that says at which sites it may be")]
    NoSites,
    /// A message does not say from which site or group it is sent.
    #[error("a message does not say from which site or group it is sent")]
    NoPlace,
    /// In real time something may go from one site to another, and no range is written for it: neither a link from the one
    /// to the other nor the least delay of what goes by none.
    #[error("in real time a packet may travel between two sites whose range is not written")]
    NoRange,
    /// Each placement has groups at one site that are to be apart.
    #[error("each placement has groups at one site that are to be apart")]
    NoPlacement,
}

impl PlanKey {
    ghost use Rattle.std.specs.Prelude.{◌≡◌};
    ghost use Rattle.convoy_plans.specs.Shape.{plan_word};

    /// The key as a plan text has it.
    pub fn word(self) -> &'static str
        ensures { result.now ≡ plan_word self }
    {
        match self {
            PlanKey::Sites => "sites",
            PlanKey::Group => "group",
            PlanKey::Name => "name",
            PlanKey::Apart => "apart",
        }
    }
}

impl fmt::Display for PlanKey {
    fn fmt<W: fmt::Write>(&self, f: &mut fmt::Formatter<W>) -> fmt::Result {
        f.pad(self.word())
    }
}

impl fmt::Display for PlanLimit {
    fn fmt<W: fmt::Write>(&self, f: &mut fmt::Formatter<W>) -> fmt::Result {
        match self {
            PlanLimit::Sites => write!(f, "there are 1 to {MOST_SITES} sites"),
            PlanLimit::Placements => write!(f, "there are at most {MOST_PLACEMENTS} placements"),
        }
    }
}

impl From<ScenarioFault> for PlanFault {
    ghost use Rattle.std.specs.Prelude.{◌≡◌};
    ghost use Rattle.convoy_plans.specs.declared.fault.PlanFault.TheVariants.{Scenario};

    ghost from_gives = { λ cause fault. fault ≡ Scenario cause };

    fn from(cause: ScenarioFault) -> PlanFault {
        PlanFault::Scenario(cause)
    }
}

impl From<AllocError> for PlanFault {
    ghost use Rattle.std.specs.Prelude.{◌≡◌};
    ghost use Rattle.convoy_draft.specs.declared.fault.ScenarioFault.TheVariants.{Memory};
    ghost use Rattle.convoy_plans.specs.declared.fault.PlanFault.TheVariants.{Scenario};

    ghost from_gives = { λ _ fault. fault ≡ Scenario Memory };

    fn from(_error: AllocError) -> PlanFault {
        PlanFault::Scenario(ScenarioFault::Memory)
    }
}

impl<T: Drop> From<AllocFailed<T>> for PlanFault {
    ghost use Rattle.std.specs.Prelude.{◌≡◌};
    ghost use Rattle.convoy_draft.specs.declared.fault.ScenarioFault.TheVariants.{Memory};
    ghost use Rattle.convoy_plans.specs.declared.fault.PlanFault.TheVariants.{Scenario};

    ghost from_gives = { λ _ fault. fault ≡ Scenario Memory };

    fn from(_error: AllocFailed<T>) -> PlanFault {
        PlanFault::Scenario(ScenarioFault::Memory)
    }
}
