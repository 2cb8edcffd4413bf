//! Whether a range is written wherever a packet may travel.

ghost use Rattle.std.specs.Prelude.{◌≡◌, ◌||◌, ◌&&◌, ◌==◌, length, nat_le};
ghost use Rattle.std.specs.List.{list_all, range_with_len};
ghost use Rattle.convoy_plans.specs.declared.plan.Origin.TheVariants.{Group};
ghost use Rattle.convoy_plans.specs.Plans.{most_between};
ghost use Rattle.convoy_plans.specs.Told.{all_told_from, are_told, is_message_told, is_told, is_told_from};

use super::plan::{Origin, Plan};
use convoy_scenario::Time;

/// Whether ranges are written for each message, in real time, unless the least delay of what goes by no link is written.
pub(crate) fn is_told(plan: &Plan) -> bool
    ensures { result ≡ is_told plan.now }
{
    match plan.written.time {
        Time::Ticks => true,
        Time::Real => plan.written.least.is_some() || all_messages_told(plan),
    }
}

fn all_messages_told(plan: &Plan) -> bool
    ensures { result ≡ list_all (is_message_told plan.now) (range_with_len 0 (length plan.now.written.messages)) }
{
    (0..plan.message_count()).all(|message| is_message_told(plan, message))
}

/// Whether ranges are written for the message, and for the stamps that its groups send each other.
fn is_message_told(plan: &Plan, message: usize) -> bool
    ensures { result ≡ is_message_told plan.now message }
{
    let groups = plan.destinations(message);
    all_told_from(plan, groups, plan.origin(message)) && are_stamps_told(plan, groups)
}

/// Whether they are written for the stamps.
fn are_stamps_told(plan: &Plan, groups: &[usize]) -> bool
    ensures { result ≡ list_all (λ h. all_told_from plan.now groups.now (Group h)) groups.now }
{
    groups
        .iter()
        .all(|group| all_told_from(plan, groups, Origin::Group(*group)))
}

/// Whether ranges are written from there to each of the groups.
fn all_told_from(plan: &Plan, groups: &[usize], from: Origin) -> bool
    ensures { result ≡ all_told_from plan.now groups.now from }
{
    groups.iter().all(|group| is_told_from(plan, from, *group))
}

/// Whether ranges are written from there to the group, wherever both are.
fn is_told_from(plan: &Plan, from: Origin, group: usize) -> bool
    ensures { result ≡ is_told_from plan.now from group }
{
    match from {
        Origin::Site(site) => are_told(plan, false, &[site], plan.sites_of(group)),
        Origin::Group(other) => {
            other == group
                || are_told(
                    plan,
                    plan.is_apart(other, group),
                    plan.sites_of(other),
                    plan.sites_of(group),
                )
        }
    }
}

/// Whether a range is written from each site of the one list to each of the other; from none to itself where the two are
/// to be apart.
fn are_told(plan: &Plan, apart: bool, from: &[usize], to: &[usize]) -> bool
    ensures { result ≡ are_told plan.now apart from.now to.now }
{
    from.iter().all(|a| all_told_to(plan, apart, *a, to))
}

/// The same from one site.
fn all_told_to(plan: &Plan, apart: bool, from: usize, to: &[usize]) -> bool
    ensures { result ≡ list_all (λ b. (apart && from == b) || nat_le 1 (most_between plan.now from b)) to.now }
{
    to.iter().all(|b| is_pair_told(plan, apart, from, *b))
}

fn is_pair_told(plan: &Plan, apart: bool, from: usize, to: usize) -> bool
    ensures { result ≡ ((apart && from == to) || nat_le 1 (most_between plan.now from to)) }
{
    (apart && from == to) || 1 <= plan.most(from, to)
}
