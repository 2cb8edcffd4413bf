ghost use Rattle.std.specs.Prelude.{◌≡◌};
ghost use Rattle.convoy_draft.specs.declared.fault.ScenarioFault.{ScenarioFault};
ghost use Rattle.convoy_draft.specs.declared.fault.ScenarioFault.TheVariants.{Memory};

use convoy_scenario::ScenarioFault;
use std::alloc::{AllocError, AllocFailed};
use std::marker::Model;

/// A table of a scenario text.
#[derive(Clone, Copy, Debug, PartialEq, Eq)]
pub enum ScenarioTable {
    /// That of the whole text, whose keys stand above the first header.
    Top,
    /// The table `[[multicast]]` of that number, from 0.
    Multicast(usize),
    /// The table `[target]`.
    Target,
    /// The table `[[link]]` of that number, from 0.
    Link(usize),
    /// The table `[[group]]` of that number, from 0.
    Group(usize),
}

/// A fault of a scenario text, with the table that it is of. The key in that table is part of the fault, where
/// that is of one key (`ScenarioFault::Shape`, `ScenarioFault::NotWhole`).
#[derive(Debug, Drop)]
pub struct Placed {
    /// What is wrong.
    pub fault: ScenarioFault,
    /// Where: `ScenarioTable::Top` too for a fault that is of no table alone.
    pub table: ScenarioTable,
}

impl Model for Placed {
    ghost Value = { ScenarioFault };

    ghost view = { λ p. p.fault };
}

impl From<ScenarioFault> for Placed {
    ghost from_gives = { λ fault placed. placed ≡ fault };

    fn from(fault: ScenarioFault) -> Placed {
        Placed {
            fault,
            table: ScenarioTable::Top,
        }
    }
}

impl From<Placed> for ScenarioFault {
    ghost from_gives = { λ placed fault. fault ≡ placed };

    fn from(placed: Placed) -> ScenarioFault {
        placed.fault
    }
}

impl From<AllocError> for Placed {
    ghost from_gives = { λ _ placed. placed ≡ Memory };

    fn from(error: AllocError) -> Placed {
        Placed::from(ScenarioFault::from(error))
    }
}

impl<T: Drop> From<AllocFailed<T>> for Placed {
    ghost from_gives = { λ _ placed. placed ≡ Memory };

    fn from(_error: AllocFailed<T>) -> Placed {
        Placed::from(ScenarioFault::Memory)
    }
}

/// The same answer, with the table that its fault is of.
pub fn in_table<T>(table: ScenarioTable, read: Result<T, ScenarioFault>) -> Result<T, Placed>
    ensures { result ≡ read }
{
    match read {
        Ok(value) => Ok(value),
        Err(fault) => Err(Placed { fault, table }),
    }
}
