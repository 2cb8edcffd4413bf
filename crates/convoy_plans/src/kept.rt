//! Whether some sites of the groups are a placement.

ghost use Rattle.std.specs.Prelude.{◌≡◌, ◌↔◌, IsTrue, length};
ghost use Rattle.std.specs.List.{list_all, range_with_len};
ghost use Rattle.convoy_plans.specs.Kept.{are_spread, is_alone, is_at_home, is_kept};
ghost use Rattle.convoy_plans.specs.Placements.{IsPlacement, site_at};

use super::lists::Numbers;
use super::plan::{Plan, number_at};

/// Whether these sites, by the numbers of the groups, are a placement of a plan: each group is at one of its sites, and no
/// two are at one site that are to be apart.
pub fn is_placement(plan: &Plan, placement: &[usize]) -> bool
    ensures { IsTrue result ↔ IsPlacement plan.now placement.now }
{
    is_kept(plan, placement)
}

/// The same, by all rules.
fn is_kept(plan: &Plan, placement: &[usize]) -> bool
    ensures { result ≡ is_kept plan.now placement.now }
{
    placement.len() == plan.housed.len()
        && all_at_home(plan, placement)
        && all_spread(plan, placement)
}

/// Whether each group is at one of its sites.
fn all_at_home(plan: &Plan, placement: &[usize]) -> bool
    ensures { result ≡ list_all (is_at_home plan.now placement.now) (range_with_len 0 (length plan.now.housed)) }
{
    (0..plan.housed.len()).all(|group| plan.sites_of(group).contains(&number_at(placement, group)))
}

/// Whether no two of the groups of one list are at one site.
fn all_spread(plan: &Plan, placement: &[usize]) -> bool
    ensures { result ≡ list_all (are_spread placement.now) plan.now.apart }
{
    plan.apart
        .iter()
        .all(|groups| are_spread(placement, &groups.items))
}

/// Whether no two of these groups are at one site.
fn are_spread(placement: &[usize], groups: &[usize]) -> bool
    ensures { result ≡ are_spread placement.now groups.now }
{
    groups
        .iter()
        .all(|group| is_alone(placement, groups, *group))
}

/// Whether none of these groups but the group itself is at its site.
fn is_alone(placement: &[usize], groups: &[usize], group: usize) -> bool
    ensures { result ≡ is_alone placement.now groups.now group }
{
    groups.iter().all(|other| group == *other
        || number_at(placement, group) != number_at(placement, *other))
}
