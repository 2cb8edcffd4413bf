use super::kinds::Point;
use convoy_scenario::ScenarioFault;
use std::alloc::{AllocError, AllocFailed};
use thiserror::Error;

/// Why a setting gives its key of a text no values. Of several faults the first in the order of these variants is told.
#[derive(Clone, Copy, Debug, PartialEq, Eq, Error)]
pub enum SettingFault {
    /// The text has no message of that name, or no link of that name in its tables.
    #[error("the text has no such key")]
    Unknown,
    /// The key names links of several tables, as one name can be read as two.
    #[error("the key names links of several tables")]
    Ambiguous,
    /// Windows are asked for, and the key is no `at` of a message.
    #[error("only a time of issue may be a window")]
    NoWindow,
    /// A value is a duration where the text has numbers of ticks, or the other way round, and the length of a tick is not
    /// written: as among the times of the text, `ScenarioFault::Shape(Key::Tick)`.
    #[error("durations and numbers of ticks stand beside each other, and the length of a tick is not written")]
    Mixed,
    /// A value is a duration that is no whole number of ticks.
    #[error("a value is no whole number of ticks")]
    NotWhole,
    /// A value has more ticks than any may have, or less than 0.
    #[error("a value has too many ticks")]
    TooLate,
    /// A step is 0.
    #[error("a step is 0")]
    NoStep,
    /// The first value is above the last.
    #[error("the first value is above the last")]
    Backwards,
    /// There are more values than a sweep may have.
    #[error("there are too many values")]
    TooMany,
    /// Windows are asked for, and there is but one value.
    #[error("one value is no window")]
    NoInterval,
}

/// Why a text is no setting.
#[derive(Clone, Copy, Debug, PartialEq, Eq, Error)]
pub enum UnreadSetting {
    /// It is not of the form `KEY=FROM..TO/STEP`.
    #[error("a setting is KEY=FROM..TO/STEP")]
    Form,
    /// Its key is none that may be given values.
    #[error("a key is delay, MESSAGE.at, MESSAGE.until, FROM-TO.least or FROM-TO.most")]
    Key,
    /// One of its values is neither a number of ticks nor a duration.
    #[error("a value is a number of ticks or a duration")]
    Time,
    /// Memory ran out, which says nothing of the text.
    #[error("out of memory")]
    Memory,
}

impl From<AllocError> for UnreadSetting {
    ghost use Rattle.std.specs.Prelude.{◌≡◌};
    ghost use Rattle.convoy_sweep.specs.declared.fault.UnreadSetting.TheVariants.{Memory};

    ghost from_gives = { λ _ fault. fault ≡ Memory };

    fn from(_error: AllocError) -> Self {
        UnreadSetting::Memory
    }
}

/// Why a text gives no sweep.
#[derive(Debug, Drop, Error)]
pub enum SweepFault {
    /// The text is that of no scenario, as it is written; or memory ran out (`ScenarioFault::Memory`), which says nothing
    /// of the text.
    #[error(transparent)]
    Text(ScenarioFault),
    /// The first setting gives its key no values.
    #[error("the first key: {0}")]
    First(SettingFault),
    /// The second setting gives its key no values.
    #[error("the second key: {0}")]
    Second(SettingFault),
    /// Both settings are of one key of the text.
    #[error("both settings are of one key")]
    SameKey,
    /// There are more pairs of values than a sweep may have.
    #[error("there are too many pairs of values")]
    TooManyRows,
    /// The text makes no scenario where its keys are given these values: the first point at which that is so, in the
    /// order of the rows.
    #[error("the text is that of no scenario where its keys have those values: {1}")]
    Value(Point, ScenarioFault),
}

impl From<ScenarioFault> for SweepFault {
    ghost use Rattle.std.specs.Prelude.{◌≡◌};
    ghost use Rattle.convoy_sweep.specs.declared.fault.SweepFault.TheVariants.{Text};

    ghost from_gives = { λ cause fault. fault ≡ Text cause };

    fn from(cause: ScenarioFault) -> Self {
        SweepFault::Text(cause)
    }
}

impl From<AllocError> for SweepFault {
    ghost use Rattle.std.specs.Prelude.{◌≡◌};
    ghost use Rattle.convoy_draft.specs.declared.fault.ScenarioFault.TheVariants.{Memory};
    ghost use Rattle.convoy_sweep.specs.declared.fault.SweepFault.TheVariants.{Text};

    ghost from_gives = { λ _ fault. fault ≡ Text Memory };

    fn from(_error: AllocError) -> Self {
        SweepFault::Text(ScenarioFault::Memory)
    }
}

impl<T: Drop> From<AllocFailed<T>> for SweepFault {
    ghost use Rattle.std.specs.Prelude.{◌≡◌};
    ghost use Rattle.convoy_draft.specs.declared.fault.ScenarioFault.TheVariants.{Memory};
    ghost use Rattle.convoy_sweep.specs.declared.fault.SweepFault.TheVariants.{Text};

    ghost from_gives = { λ _ fault. fault ≡ Text Memory };

    fn from(_error: AllocFailed<T>) -> Self {
        SweepFault::Text(ScenarioFault::Memory)
    }
}
