//! How a search over placements stands.

ghost use Rattle.std.specs.Prelude.{◌≡◌, Some};
ghost use Rattle.convoy_best_plan.specs.Standings.{better};

use super::hints::TargetHints;
use super::planned::Planned;

/// The best choice so far, if there is one, and hints which schedules may be late at other placements.
#[derive(Drop)]
pub(crate) struct Standing {
    pub(crate) chosen: Option<Planned>,
    pub(crate) served: Vec<TargetHints>,
}

impl Standing {
    /// The standing with one more choice, which is the best one so far where it keeps the lower reach.
    pub(crate) fn with(self, found: Planned) -> Standing
        ensures { result.chosen ≡ Some (better self.chosen found) }
    {
        Standing {
            chosen: Some(better_of(self.chosen, found)),
            served: self.served,
        }
    }
}

/// The better of a choice that there may be and one more, with the lower of their floors.
fn better_of(chosen: Option<Planned>, found: Planned) -> Planned
    ensures { result ≡ better chosen found }
{
    match chosen {
        None => found,
        Some(planned) => better(planned, found),
    }
}

/// The better of two choices, with the lower of their floors.
fn better(planned: Planned, found: Planned) -> Planned
    ensures { result ≡ better (Some planned) found }
{
    let floor = planned.floor.lower(found.floor);
    if found.reach().is_lower(planned.reach()) {
        Planned { floor, ..found }
    } else {
        Planned { floor, ..planned }
    }
}
