//! A scenario with its groups listed in another order, by way of its draft.

ghost use Rattle.std.specs.Prelude.{◌≡◌, map, Ok, IfOk};
ghost use Rattle.convoy_scenario.specs.Naming.{draft_for, draft_link};
ghost use Rattle.convoy_orders.specs.Relisted.{relisted};
ghost use Rattle.convoy_best_order.specs.Orders.{IsOrder, listed, names_of};

use convoy_orders::relisted_laws::relisted_drafts_give_scenarios;
use convoy_scenario::naming::{draft_group, draft_link, draft_message, draft_places};
use convoy_scenario::scenario_laws::scenarios_have_drafts;
use convoy_scenario::{DraftLink, DraftMulticast, DraftScenario, Name, Scenario, ScenarioFault};
use std::alloc::{AllocError, Global};

/// The scenario with its groups listed in that order, in memory of its own: the one that its text gives, with the names
/// of the groups in that order. Fails where memory runs out, and else never.
pub fn listed(alloc: Global, scenario: &Scenario, order: &[usize]) -> Result<Scenario, AllocError>
    requires { IsOrder scenario.now order.now }
    ensures { IfOk result (λ other. listed scenario.now order.now ≡ Ok other) }
{
    relisted_drafts_give_scenarios();
    scenarios_have_drafts();
    let _lawful = scenario.group_count();
    match Scenario::from_draft(alloc, listed_draft(alloc, scenario, order)?) {
        Ok(other) => Ok(other),
        Err(fault) => Err(only_memory(fault)),
    }
}

/// What is told of a fault that can be no other.
fn only_memory(_fault: ScenarioFault) -> AllocError
    requires { _fault ≡ ScenarioFault.Memory }
{
    AllocError
}

/// Its draft.
fn listed_draft(
    alloc: Global,
    scenario: &Scenario,
    order: &[usize],
) -> Result<DraftScenario, AllocError>
    ensures { IfOk result (λ draft. draft ≡ relisted (names_of scenario.now order.now) (draft_for scenario.now)) }
{
    let target = scenario.target_message();
    Ok(DraftScenario {
        time: scenario.time(),
        tick: scenario.tick(),
        delay: i64::from(scenario.delay()),
        groups: names_of(alloc, scenario, order)?,
        places: draft_places(alloc, scenario)?,
        links: links_of(alloc, scenario)?,
        multicasts: messages_of(alloc, scenario)?,
        target_message: Name::new(alloc, scenario.message_name(target))?,
        target_group: draft_group(alloc, scenario, scenario.target_group())?,
    })
}

/// The names of some groups.
fn names_of(alloc: Global, scenario: &Scenario, order: &[usize]) -> Result<Vec<Name>, AllocError>
    ensures { IfOk result (λ names. names.items ≡ names_of scenario.now order.now) }
{
    let mut names = Vec::new(alloc);
    for group in order {
        names.push(draft_group(alloc, scenario, *group)?)?;
    }
    Ok(names)
}

/// The links by names.
fn links_of(alloc: Global, scenario: &Scenario) -> Result<Vec<DraftLink>, AllocError>
    ensures { IfOk result (λ links. links.items ≡ map (draft_link scenario.now) scenario.now.links) }
{
    let mut links = Vec::new(alloc);
    for link in scenario.links() {
        links.push(draft_link(alloc, scenario, *link)?)?;
    }
    Ok(links)
}

/// The messages by names.
fn messages_of(alloc: Global, scenario: &Scenario) -> Result<Vec<DraftMulticast>, AllocError>
    ensures { IfOk result (λ messages. messages.items ≡ (draft_for scenario.now).messages) }
{
    let mut messages = Vec::new(alloc);
    for message in 0..scenario.message_count() {
        messages.push(draft_message(alloc, scenario, message)?)?;
    }
    Ok(messages)
}
