//! When the messages of a plan are issued.

ghost use Rattle.std.specs.Prelude.{◌<◌, length};

use super::plan::{Plan, Push};
use crate::{delays_between, goes_to, longest_to_commit};
use convoy_scenario::Scenario;

/// The ticks at which the messages of a plan are issued, the first of them at tick 0.
#[derive(Clone, Copy)]
pub struct IssueTicks {
    pub rival: u32,
    pub pusher: u32,
    pub target: u32,
}

impl IssueTicks {
    /// Those of a plan: the rival comes to the target's group as the target is committed there, or before
    /// copies that come late.
    pub fn of(plan: &Plan, scenario: &Scenario) -> IssueTicks
        requires rival { plan.now.rival < length scenario.now.multicasts }
        requires pusher { plan.now.pusher < length scenario.now.multicasts }
    {
        let group = scenario.target_group();
        let push = push_tick(plan, scenario);
        let coming = coming_tick(plan, scenario, push);
        let (least, _) = delays_between(scenario, scenario.sender(plan.rival), group);
        let rival = coming.saturating_sub(i64::from(least));
        let first = rival.min(push).min(0);
        IssueTicks {
            rival: ticks_between(first, rival),
            pusher: ticks_between(first, push),
            target: ticks_between(first, 0),
        }
    }
}

/// The tick at which copies are issued, counted from the issue of the target: they come with the target at
/// the latest, to the group whose clock they push or, where they are to come early, to the target's group.
/// It is 0 where there are none.
fn push_tick(plan: &Plan, scenario: &Scenario) -> i64
    requires { plan.now.pusher < length scenario.now.multicasts }
{
    if plan.copies == 0 {
        return 0;
    }
    let group = scenario.target_group();
    let target = scenario.sender(scenario.target_message());
    let (comes, to) = match plan.push {
        Push::Late => (delays_between(scenario, target, plan.via).1, plan.via),
        Push::Early => (delays_between(scenario, target, group).0, group),
    };
    let (least, _) = delays_between(scenario, scenario.sender(plan.pusher), to);
    i64::from(comes) - i64::from(least)
}

/// The tick at which the rival is to come to the target's group, counted likewise: as the target is
/// committed there at the latest, and no later than copies that come late may come there.
fn coming_tick(plan: &Plan, scenario: &Scenario, push: i64) -> i64
    requires { plan.now.pusher < length scenario.now.multicasts }
{
    let (target, group) = (scenario.target_message(), scenario.target_group());
    let commit = i64::from(longest_to_commit(scenario, target, group));
    if plan.copies == 0 || plan.push == Push::Early || !goes_to(scenario, plan.pusher, group) {
        return commit;
    }
    let (_, most) = delays_between(scenario, scenario.sender(plan.pusher), group);
    commit.min(push.saturating_add(i64::from(most)))
}

/// How many ticks after the first one this is.
fn ticks_between(first: i64, tick: i64) -> u32 {
    u32::try_from(tick.saturating_sub(first)).unwrap_or(0)
}
