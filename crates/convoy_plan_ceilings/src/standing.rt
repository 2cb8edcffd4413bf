//! How a search over placements stands.

ghost use Rattle.std.specs.Prelude.{◌≡◌, Some};
ghost use Rattle.convoy_plan_ceilings.specs.Standings.{better};

use super::ceiling_choice::CeilingChoice;

/// The best choice so far, if there is one, and the least delays from site to site that are known.
#[derive(Drop)]
pub(crate) struct Standing {
    pub(crate) chosen: Option<CeilingChoice>,
    pub(crate) leasts: Vec<Option<u16>>,
}

/// The better of a choice that there may be and one more.
pub(crate) fn better_of(chosen: Option<CeilingChoice>, found: CeilingChoice) -> CeilingChoice
    ensures { result ≡ better chosen found }
{
    match chosen {
        None => found,
        Some(chosen) => better(chosen, found),
    }
}

/// The better of two choices.
fn better(chosen: CeilingChoice, found: CeilingChoice) -> CeilingChoice
    ensures { result ≡ better (Some chosen) found }
{
    if found.reach.is_lower(chosen.reach) {
        found
    } else {
        chosen
    }
}
