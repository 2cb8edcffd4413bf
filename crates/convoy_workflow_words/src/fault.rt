use convoy_scenario::ScenarioFault;
use std::alloc::{AllocError, AllocFailed};
use std::fmt;
use thiserror::Error;

/// A key of a workflow text that no scenario text has.
#[derive(Clone, Copy, Debug, PartialEq, Eq)]
pub enum WorkflowKey {
    /// The message that is followed.
    After,
    /// The event of that message that is followed.
    On,
}

/// Why a text is no workflow text. Of several faults the first is told (docs/FORMATS.md, "Workflow text").
#[derive(Clone, Copy, Debug, PartialEq, Eq, Error)]
pub enum WorkflowFault {
    /// What a workflow text has as a scenario text is at fault; or memory ran out (`ScenarioFault::Memory`), which says
    /// nothing of the text.
    #[error(transparent)]
    Scenario(ScenarioFault),
    /// The value of a key that only workflow texts have is of another kind or none of its words, or `on` stands without
    /// `after`.
    #[error("the value of a key is of another kind, or the key stands alone: {0}")]
    Shape(WorkflowKey),
    /// A message follows one that does not stand before it.
    #[error("a message follows one that does not stand before it")]
    UnknownCause,
    /// A message follows an event at a group, and its sender is no group to which the message with that event goes.
    #[error("a message follows an event at its sender, to which the message with that event does not go")]
    NotAtSender,
    /// A message that follows is issued from 0 ticks after the event on, and no sooner at its latest than at its soonest.
    #[error("a message is issued 0 ticks or more after what it follows, and no sooner at its latest")]
    OverLimit,
    /// The message from whose issue the time counts is none that the target follows, be it through others.
    #[error("the target does not follow the message from which its time counts")]
    UnknownOrigin,
    /// The message from whose issue the time counts may wait so long that around its issue no windows can be given to the
    /// others.
    #[error("the message from which the target's time counts may wait too long")]
    OriginWaits,
}

impl WorkflowKey {
    ghost use Rattle.std.specs.Prelude.{◌≡◌};
    ghost use Rattle.convoy_workflow_words.specs.Words.{workflow_word};

    /// The key as a workflow text has it.
    pub fn word(self) -> &'static str
        ensures { result.now ≡ workflow_word self }
    {
        match self {
            WorkflowKey::After => "after",
            WorkflowKey::On => "on",
        }
    }
}

impl fmt::Display for WorkflowKey {
    fn fmt<W: fmt::Write>(&self, f: &mut fmt::Formatter<W>) -> fmt::Result {
        f.pad(self.word())
    }
}

impl From<ScenarioFault> for WorkflowFault {
    ghost use Rattle.std.specs.Prelude.{◌≡◌};
    ghost use Rattle.convoy_workflow_words.specs.declared.fault.WorkflowFault.TheVariants.{Scenario};

    ghost from_gives = { λ cause fault. fault ≡ Scenario cause };

    fn from(cause: ScenarioFault) -> WorkflowFault {
        WorkflowFault::Scenario(cause)
    }
}

impl From<AllocError> for WorkflowFault {
    ghost use Rattle.std.specs.Prelude.{◌≡◌};
    ghost use Rattle.convoy_draft.specs.declared.fault.ScenarioFault.TheVariants.{Memory};
    ghost use Rattle.convoy_workflow_words.specs.declared.fault.WorkflowFault.TheVariants.{Scenario};

    ghost from_gives = { λ _ fault. fault ≡ Scenario Memory };

    fn from(_error: AllocError) -> WorkflowFault {
        WorkflowFault::Scenario(ScenarioFault::Memory)
    }
}

impl<T: Drop> From<AllocFailed<T>> for WorkflowFault {
    ghost use Rattle.std.specs.Prelude.{◌≡◌};
    ghost use Rattle.convoy_draft.specs.declared.fault.ScenarioFault.TheVariants.{Memory};
    ghost use Rattle.convoy_workflow_words.specs.declared.fault.WorkflowFault.TheVariants.{Scenario};

    ghost from_gives = { λ _ fault. fault ≡ Scenario Memory };

    fn from(_error: AllocFailed<T>) -> WorkflowFault {
        WorkflowFault::Scenario(ScenarioFault::Memory)
    }
}
