//! What is wrong with what a plan has as a scenario has it.

use super::keys::hint_for_unknown_key;
use super::lists::PlanText;
use super::names::{hint_for_double_place, hint_for_unknown_group};
use convoy_hints_scenario::{hint_for_bad_place, hint_for_written};
use convoy_hints_sketch::{Hint, hint_for_shape};
use convoy_scenario::{Key, Limit, MOST_GROUPS, ScenarioFault};
use convoy_toml::{Asked, Placed, ScenarioTable, WrittenScenario, scenario_without_slow};
use std::alloc::{AllocError, Global};

/// What is wrong with a plan that has that fault of a scenario where this is asked.
pub(crate) fn hint_for_shared(
    alloc: Global,
    plan: &PlanText<'_>,
    asked: &Asked,
    fault: ScenarioFault,
) -> Hint {
    match (
        scenario_without_slow(alloc, plan.source.table, &asked.target),
        fault,
    ) {
        (Err(placed), _) => hint_for_placed(alloc, plan, &placed),
        (Ok(_), ScenarioFault::Shape(Key::Unknown)) => hint_for_unknown_key(alloc, plan),
        (Ok(_), ScenarioFault::Shape(Key::From)) => hint_for_no_ends(alloc, plan),
        (Ok(written), fault) => hint_for_rule(alloc, plan, asked, &written, fault),
    }
}

/// What is wrong at a key that scenarios have, too.
fn hint_for_placed(alloc: Global, plan: &PlanText<'_>, placed: &Placed) -> Hint {
    match placed.fault {
        ScenarioFault::Shape(Key::Groups) if !plan.source.table.contains_key("groups") => {
            hint_for_no_groups(alloc).map(Some)
        }
        ScenarioFault::Shape(key) => hint_for_shape(alloc, plan.source, placed.table, key),
        _ => Ok(None),
    }
}

/// A plan does not name its groups, whatever tables [[group]] it has.
fn hint_for_no_groups(alloc: Global) -> Result<String, AllocError> {
    String::from_str(
        alloc,
        "the plan has no key 'groups': write the names of all groups above the first header, as 'groups = [\"orders\", \"stock\"]'",
    )
}

/// Which table of links does not say from where they lead.
fn hint_for_no_ends(alloc: Global, plan: &PlanText<'_>) -> Hint {
    for (number, link) in plan.links.iter().enumerate() {
        if !link.has_from {
            let part = plan.source.part(ScenarioTable::Link(number));
            return format!(in alloc;
                "{part} has no key 'from', and the links of a plan lead from site to site: write it as 'from = \"ireland\"'; what a client sends from there goes by the same link"
            ).map(Some);
        }
    }
    Ok(None)
}

/// Which rule does not hold of a plan with that shape: one on places, or else one that scenarios have, too.
fn hint_for_rule(
    alloc: Global,
    plan: &PlanText<'_>,
    asked: &Asked,
    written: &WrittenScenario,
    fault: ScenarioFault,
) -> Hint {
    match hint_for_places(alloc, plan, asked, written, fault)? {
        Some(hint) => Ok(Some(hint)),
        None => hint_for_written(alloc, plan.source, asked, written, fault),
    }
}

/// Which rule on places does not hold.
fn hint_for_places(
    alloc: Global,
    plan: &PlanText<'_>,
    asked: &Asked,
    written: &WrittenScenario,
    fault: ScenarioFault,
) -> Hint {
    match fault {
        ScenarioFault::BadName => hint_for_bad_place(alloc, "site", &plan.sites),
        ScenarioFault::DoubleName => hint_for_double_place(alloc, plan),
        ScenarioFault::UnknownGroup => hint_for_unknown_group(alloc, plan, asked, written),
        ScenarioFault::OverLimit(Limit::Groups) if are_few(plan.groups.len()) => {
            hint_for_many_origins(alloc).map(Some)
        }
        _ => Ok(None),
    }
}

/// Whether a scenario may have so many groups.
fn are_few(count: usize) -> bool {
    1 <= count && count <= MOST_GROUPS
}

/// That groups and sites from which clients send are too many together.
fn hint_for_many_origins(alloc: Global) -> Result<String, AllocError> {
    format!(in alloc;
        "each site from which clients send, but the first, counts as a group of its own, and there may be 1 to {MOST_GROUPS} groups: let clients send from fewer sites"
    )
}
