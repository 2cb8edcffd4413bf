//! The scenario of two kinds.

ghost use Rattle.std.specs.Prelude.{◌≡◌, ◌<◌, length, map, IfOk};
ghost use Rattle.std.specs.Str.{bytes_eq};
ghost use Rattle.convoy_scenario.specs.Naming.{draft_for, draft_link, draft_message};
ghost use Rattle.convoy_scenario.specs.Scenario.{GoesTo};
ghost use Rattle.convoy_kinds.specs.Kinds.{all_kinds, kind_at, named};
ghost use Rattle.convoy_kinds.specs.Pairs.{name_beside, other_messages, pair_of, second_name};

use super::kind_laws::pairs_are_scenarios;
use super::kinds::Kinds;
use convoy_scenario::naming::{
    draft_destinations, draft_group, draft_groups, draft_link, draft_places, draft_sender,
};
use convoy_scenario::scenario_laws::scenarios_have_drafts;
use convoy_scenario::{DraftLink, DraftMulticast, DraftScenario, Name, Scenario};
use std::alloc::{AllocError, Global};

/// The name of the second message of a pair where the first one has the name of its table.
const OTHER: &str = "other";

/// The same where the first message has that name.
const SECOND: &str = "second";

/// The scenario of a message of a kind, which is the target at a group that it goes to, and one of another, unless both are
/// the same. Each is issued at tick 0 and has the name of its table, but where both have one table the second has another
/// name. Fails where memory runs out, and else never.
pub fn pair_of(
    alloc: Global,
    kinds: &Kinds,
    kind: usize,
    other: usize,
    group: usize,
) -> Result<Scenario, AllocError>
    requires kind { kind < length kinds.now.kinds }
    requires other { other < length kinds.now.kinds }
    requires goes { GoesTo (all_kinds kinds.now) kind group }
    ensures { IfOk result (λ pair. pair ≡ pair_of kinds.now kind other group) }
{
    scenarios_have_drafts();
    pairs_are_scenarios();
    let _count = kinds.kind_count();
    let draft = draft_of(alloc, kinds, kind, other, group)?;
    match Scenario::from_draft(alloc, draft) {
        Ok(pair) => Ok(pair),
        Err(_) => Err(AllocError),
    }
}

/// The pair with names in place of numbers.
fn draft_of(
    alloc: Global,
    kinds: &Kinds,
    kind: usize,
    other: usize,
    group: usize,
) -> Result<DraftScenario, AllocError>
    requires kind { kind < length kinds.now.kinds }
    requires other { other < length kinds.now.kinds }
    ensures { IfOk result (λ draft. draft ≡ draft_for (pair_of kinds.now kind other group)) }
{
    let setting = kinds.setting();
    Ok(DraftScenario {
        time: setting.time(),
        tick: setting.tick(),
        delay: i64::from(setting.delay()),
        groups: draft_groups(alloc, setting)?,
        places: draft_places(alloc, setting)?,
        links: links_of(alloc, setting)?,
        multicasts: messages_of(alloc, kinds, kind, other)?,
        target_message: Name::new(alloc, kinds.kind_name(kind))?,
        target_group: draft_group(alloc, setting, group)?,
    })
}

/// All links, with names.
fn links_of(alloc: Global, setting: &Scenario) -> Result<Vec<DraftLink>, AllocError>
    ensures { IfOk result (λ links. links.items ≡ map (draft_link setting.now) setting.now.links) }
{
    let mut links = Vec::new(alloc);
    for link in setting.links() {
        links.push(draft_link(alloc, setting, *link)?)?;
    }
    Ok(links)
}

/// The messages of a pair, with names.
fn messages_of(
    alloc: Global,
    kinds: &Kinds,
    kind: usize,
    other: usize,
) -> Result<Vec<DraftMulticast>, AllocError>
    requires kind { kind < length kinds.now.kinds }
    requires other { other < length kinds.now.kinds }
    ensures { IfOk result (λ messages. messages.items
        ≡ map (draft_message kinds.now.setting) (pair_of kinds.now kind other 0).multicasts) }
{
    let name = Name::new(alloc, kinds.kind_name(kind))?;
    let mut messages = vec![in alloc; message_of(alloc, kinds, kind, name)?]?;
    if other != kind {
        let name = Name::new(
            alloc,
            second_name(kinds.kind_name(kind), kinds.kind_name(other)),
        )?;
        messages.push(message_of(alloc, kinds, other, name)?)?;
    }
    Ok(messages)
}

/// The name of the second of two messages: that of its table, unless the first has it.
fn second_name<'a>(first: &'a str, second: &'a str) -> &'a str
    ensures { result.now ≡ second_name first.now second.now }
{
    if first == second {
        name_beside(first)
    } else {
        second
    }
}

/// A name beside this one.
fn name_beside(name: &str) -> &'static str
    ensures { result.now ≡ name_beside name.now }
{
    if name == OTHER { SECOND } else { OTHER }
}

/// A message of a kind under a name, with names.
fn message_of(
    alloc: Global,
    kinds: &Kinds,
    kind: usize,
    name: Name,
) -> Result<DraftMulticast, AllocError>
    requires { kind < length kinds.now.kinds }
    ensures { IfOk result (λ message. message ≡ draft_message kinds.now.setting (named name (kind_at kinds.now kind))) }
{
    Ok(DraftMulticast {
        name,
        sender: draft_sender(alloc, kinds.setting(), kinds.sender(kind))?,
        to: draft_destinations(alloc, kinds.setting(), kinds.destinations(kind))?,
        at: 0,
        until: 0,
    })
}
