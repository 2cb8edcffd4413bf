use super::groups::{hint_for_houseless, hint_for_many_placements, hint_for_no_placement};
use super::keys::hint_for_key;
use super::lists::PlanText;
use super::ranges::hint_for_no_range;
use super::shared::hint_for_shared;
use super::sites::{hint_for_many_sites, hint_for_no_place, hint_for_unknown_site};
use convoy_hints_scenario::{
    hint_for_fault, is_meant_as_certificate, is_meant_as_plan, with_label,
};
use convoy_hints_sketch::{Hint, ScenarioText, TextKind};
use convoy_plans::{PlanFault, PlanLimit};
use convoy_scenario::ScenarioFault;
use convoy_toml::{Asked, read_table};
use std::alloc::{AllocError, Global};
use toml::Table;

/// What is wrong with the text of a plan that has that fault where this is asked, or with what is asked, in one line
/// `hint: ..`. None where nothing can be said beyond the fault.
pub fn hint_for_plan(alloc: Global, text: &[u8], asked: &Asked, fault: PlanFault) -> Hint {
    let hint = match fault {
        PlanFault::Scenario(ScenarioFault::Memory) => None,
        PlanFault::Scenario(ScenarioFault::NotToml) => hint_for_text(alloc, text, asked)?,
        fault => hint_for_table(alloc, text, asked, fault)?,
    };
    with_label(alloc, hint)
}

/// Why a text is not TOML.
fn hint_for_text(alloc: Global, text: &[u8], asked: &Asked) -> Hint {
    if is_meant_as_certificate(text) {
        let hint = String::from_str(
            alloc,
            "the input begins as a certificate, and a plan is read here: 'convoy check' reads certificates",
        )?;
        return Ok(Some(hint));
    }
    hint_for_fault(alloc, text, asked, ScenarioFault::NotToml)
}

/// What is wrong with the table of a plan.
fn hint_for_table(alloc: Global, text: &[u8], asked: &Asked, fault: PlanFault) -> Hint {
    let (Ok(table), Ok(text)) = (read_table(alloc, text), std::str::from_utf8(text)) else {
        return Ok(None);
    };
    if !is_meant_as_plan(&table) {
        return hint_for_other_text(alloc, &table).map(Some);
    }
    let source = ScenarioText {
        kind: TextKind::Plan,
        text,
        table: &table,
    };
    let plan = PlanText::of(alloc, source)?;
    hint_for_places(alloc, &plan, asked, fault)
}

/// What was given where a plan is read, if that has neither sites nor tables of groups.
fn hint_for_other_text(alloc: Global, table: &Table) -> Result<String, AllocError> {
    let hint = if table.is_empty() {
        "the input has no key: a plan is read from a file, as by 'convoy plan plan.toml', or from standard input"
    } else {
        "the input has no key 'sites' and no table [[group]], as a plan has: 'convoy order' is for a scenario, whose groups have their places"
    };
    String::from_str(alloc, hint)
}

/// What is wrong with a text that has sites or tables of groups.
fn hint_for_places(alloc: Global, plan: &PlanText<'_>, asked: &Asked, fault: PlanFault) -> Hint {
    match fault {
        PlanFault::Scenario(fault) => hint_for_shared(alloc, plan, asked, fault),
        PlanFault::Shape(key) => hint_for_key(alloc, plan, key),
        PlanFault::OverLimit(PlanLimit::Sites) => hint_for_many_sites(alloc, plan).map(Some),
        PlanFault::OverLimit(PlanLimit::Placements) => {
            hint_for_many_placements(alloc, plan).map(Some)
        }
        PlanFault::UnknownSite => hint_for_unknown_site(alloc, plan),
        PlanFault::NoSites => hint_for_houseless(alloc, plan),
        PlanFault::NoPlace => hint_for_no_place(alloc, plan),
        PlanFault::NoRange => hint_for_no_range(alloc, plan).map(Some),
        PlanFault::NoPlacement => hint_for_no_placement(alloc, plan).map(Some),
    }
}
