ghost use Rattle.std.specs.Prelude.{◌≡◌, ◌↔◌, All, IsTrue, MatchOption};
ghost use Rattle.convoy_scenario.specs.Differences.{AgreeIn, IsFirstDifference, IsFirstOf};

use super::part::Part;
use super::same_parts::{
    has_same_groups, has_same_links, has_same_messages, has_same_places, has_same_target,
    is_same_tick,
};
use super::scenario::Scenario;

/// The first part in which the other scenario differs from the one that is wanted, in the order of the
/// parts; none where the two are equal.
pub fn difference(wanted: &Scenario, other: &Scenario) -> Option<Part>
    ensures { MatchOption result (other.now ≡ wanted.now) (IsFirstDifference wanted.now other.now) }
{
    first_of(
        &[
            Part::Time,
            Part::Tick,
            Part::Delay,
            Part::Groups,
            Part::Places,
            Part::Links,
            Part::Multicasts,
            Part::Target,
        ],
        wanted,
        other,
    )
}

/// The first of these parts in which the two differ; none where they agree in each.
fn first_of(parts: &[Part], wanted: &Scenario, other: &Scenario) -> Option<Part>
    ensures { MatchOption result (All (AgreeIn wanted.now other.now) parts.now)
        (IsFirstOf parts.now wanted.now other.now) }
{
    for part in parts {
        if !agree_in(wanted, other, *part) {
            return Some(*part);
        }
    }
    None
}

/// Whether the two are the same in this part.
pub fn agree_in(wanted: &Scenario, other: &Scenario, part: Part) -> bool
    ensures { IsTrue result ↔ AgreeIn wanted.now other.now part }
{
    match part {
        Part::Time => other.time() == wanted.time(),
        Part::Tick => is_same_tick(wanted.tick(), other.tick()),
        Part::Delay => other.delay() == wanted.delay(),
        Part::Groups => has_same_groups(wanted, other),
        Part::Places => has_same_places(wanted, other),
        Part::Links => has_same_links(wanted, other),
        Part::Multicasts => has_same_messages(wanted, other),
        Part::Target => has_same_target(wanted, other),
    }
}
