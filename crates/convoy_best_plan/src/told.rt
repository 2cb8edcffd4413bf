//! Whether a placement is told already.

ghost use Rattle.std.specs.Prelude.{◌≡◌, ◌↔◌, IsTrue};
ghost use Rattle.convoy_best_plan.specs.BestPlans.{IsNew};

use super::planned::Planned;

/// Whether none of the choices that are told already has the placement.
pub(crate) fn is_new(told: &[Planned], placement: &[usize]) -> bool
    ensures { IsTrue result ↔ IsNew told.now placement.now }
{
    for planned in told {
        if is_at(planned, placement) {
            return false;
        }
    }
    true
}

/// Whether the choice has the placement.
fn is_at(planned: &Planned, placement: &[usize]) -> bool
    ensures { IsTrue result ↔ (planned.now.placement.items ≡ placement.now) }
{
    planned.placement.as_slice() == placement
}
