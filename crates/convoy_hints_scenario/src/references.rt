use super::names::{first_double, names_of};
use convoy_hints_sketch::{
    Hint, Names, Part, Quoted, Sketch, is_word_for_clients, nearest, words_of,
};
use convoy_scenario::{DraftLink, DraftMulticast, DraftScenario, Name};
use convoy_toml::ScenarioTable;
use std::alloc::{AllocError, Global};

/// A name that is that of no group, nor of a place where it is that of a sender, and where it stands.
#[derive(Clone, Copy, Drop)]
struct Stray<'a> {
    name: &'a str,
    key: &'static str,
    part: Part<'a>,
}

/// Which name is that of no group, nor of a place where it is that of a sender, and where it stands.
pub(crate) fn hint_for_unknown_group(alloc: Global, sketch: &Sketch<'_>) -> Hint {
    let stray = stray_in_multicasts(sketch)
        .or(stray_in_target(sketch))
        .or(stray_in_links(sketch));
    let Some(stray) = stray else {
        return Ok(None);
    };
    let groups = words_of(alloc, &sketch.draft.groups)?;
    if sketch.is_target_asked && stray.part.table == ScenarioTable::Target {
        return hint_for_no_such(alloc, BY_OPTION, "group", stray.name, &groups).map(Some);
    }
    let places = words_of(alloc, &sketch.draft.places)?;
    hint_for_stray(alloc, stray, &groups, &places).map(Some)
}

/// Where the target is named, if a command line names it.
const BY_OPTION: &str = "'--target'";

/// The first name in a multicast that is that of no group.
fn stray_in_multicasts<'s>(sketch: &'s Sketch<'_>) -> Option<Stray<'s>> {
    for (multicast, part) in sketch.draft.multicasts.iter().zip(&sketch.multicasts) {
        if let Some(stray) = stray_in_multicast(multicast, *part, &sketch.draft) {
            return Some(stray);
        }
    }
    None
}

/// The name in a multicast that is none of the groups', nor of the places' where it is that of the sender.
fn stray_in_multicast<'s>(
    multicast: &'s DraftMulticast,
    part: Part<'s>,
    draft: &DraftScenario,
) -> Option<Stray<'s>> {
    if let Some(name) = unknown_sender(&multicast.sender, draft) {
        let key = "from";
        return Some(Stray { name, key, part });
    }
    for name in &multicast.to {
        if let Some(name) = unknown(name, &draft.groups) {
            let key = "to";
            return Some(Stray { name, key, part });
        }
    }
    None
}

/// The name of the target's group, where it is that of no group.
fn stray_in_target<'s>(sketch: &'s Sketch<'_>) -> Option<Stray<'s>> {
    let name = unknown(&sketch.draft.target_group, &sketch.draft.groups)?;
    let part = Part::alone(ScenarioTable::Target);
    let key = "group";
    Some(Stray { name, key, part })
}

/// The first name in a link that is that of no group.
fn stray_in_links<'s>(sketch: &'s Sketch<'_>) -> Option<Stray<'s>> {
    for (link, part) in sketch.draft.links.iter().zip(&sketch.links) {
        if let Some(stray) = stray_in_link(link, *part, &sketch.draft) {
            return Some(stray);
        }
    }
    None
}

/// The name in a link that is none of the groups', nor of the places' where it is that of the sender.
fn stray_in_link<'s>(
    link: &'s DraftLink,
    part: Part<'s>,
    draft: &DraftScenario,
) -> Option<Stray<'s>> {
    if let Some(name) = unknown_sender(&link.sender, draft) {
        let key = "from";
        return Some(Stray { name, key, part });
    }
    let name = unknown(&link.to, &draft.groups)?;
    let key = "to";
    Some(Stray { name, key, part })
}

/// The name of a sender, where it is that of no group and of no place.
fn unknown_sender<'s>(sender: &'s Option<Name>, draft: &DraftScenario) -> Option<&'s str> {
    match sender {
        Some(name) if name.is_among(&draft.places) => None,
        Some(name) => unknown(name, &draft.groups),
        None => None,
    }
}

/// The name, where it is none of these.
fn unknown<'s>(name: &'s Name, names: &[Name]) -> Option<&'s str> {
    if name.is_among(names) {
        None
    } else {
        Some(name.as_str())
    }
}

/// A name is that of none of the groups, nor of the places where it is that of a sender.
fn hint_for_stray(
    alloc: Global,
    stray: Stray<'_>,
    groups: &[&str],
    places: &[&str],
) -> Result<String, AllocError> {
    let Stray { name, key, part } = stray;
    if is_word_for_clients(name) && key == "from" {
        let shown = Quoted(name);
        return format!(in alloc;
            "'{key}' in {part} is {shown}, which is no group: leave the key '{key}' out where clients send"
        );
    }
    if places.iter().any(|place| *place == name) {
        let shown = Quoted(name);
        return format!(in alloc;
            "'{key}' in {part} names {shown}, which is a place of clients, and nothing is sent to clients: name a group"
        );
    }
    let place = format!(in alloc; "'{key}' in {part}")?;
    if key == "from" && !places.is_empty() {
        let senders = senders_of(alloc, groups, places)?;
        return hint_for_no_such(alloc, place.as_str(), "sender", name, &senders);
    }
    hint_for_no_such(alloc, place.as_str(), "group", name, groups)
}

/// The names of all that send by name: of the groups, and of the places of clients.
fn senders_of<'a>(
    alloc: Global,
    groups: &[&'a str],
    places: &[&'a str],
) -> Result<Vec<&'a str>, AllocError> {
    let mut senders = Vec::new(alloc);
    for name in groups.iter().chain(places) {
        senders.push(*name)?;
    }
    Ok(senders)
}

/// A name at that place is that of nothing of that kind, of which these are the names: the one that it is near to, or
/// else all of them.
pub fn hint_for_no_such(
    alloc: Global,
    place: &str,
    kind: &'static str,
    name: &str,
    names: &[&str],
) -> Result<String, AllocError> {
    match nearest(alloc, name, names)? {
        Some(near) => hint_for_near_name(alloc, place, kind, name, near),
        None => hint_for_no_name(alloc, place, kind, name, names),
    }
}

/// A name at that place is that of nothing of that kind, and near to this one.
fn hint_for_near_name(
    alloc: Global,
    place: &str,
    kind: &'static str,
    name: &str,
    near: &str,
) -> Result<String, AllocError> {
    let (shown, near) = (Quoted(name), Quoted(near));
    format!(in alloc; "{place} names {shown}, which is no {kind}: did you mean {near}?")
}

/// A name at that place is that of nothing of that kind, and near to none of these.
fn hint_for_no_name(
    alloc: Global,
    place: &str,
    kind: &'static str,
    name: &str,
    names: &[&str],
) -> Result<String, AllocError> {
    let (shown, names) = (Quoted(name), Names(names));
    format!(in alloc; "{place} names {shown}, which is no {kind}: the {kind}s are {names}")
}

/// Which message goes nowhere.
pub(crate) fn hint_for_no_destination(alloc: Global, sketch: &Sketch<'_>) -> Hint {
    for (multicast, part) in sketch.draft.multicasts.iter().zip(&sketch.multicasts) {
        if multicast.to.is_empty() {
            return format!(in alloc; "'to' in {part} is empty: name at least one group").map(Some);
        }
    }
    Ok(None)
}

/// Which message names a destination twice.
pub(crate) fn hint_for_double_destination(alloc: Global, sketch: &Sketch<'_>) -> Hint {
    for (multicast, part) in sketch.draft.multicasts.iter().zip(&sketch.multicasts) {
        let to = words_of(alloc, &multicast.to)?;
        if let Some((first, _)) = first_double(&to) {
            let name = to.get(first).copied().unwrap_or("");
            return hint_for_twice(alloc, *part, name).map(Some);
        }
    }
    Ok(None)
}

/// A message names a destination twice.
fn hint_for_twice(alloc: Global, part: Part<'_>, name: &str) -> Result<String, AllocError> {
    let name = Quoted(name);
    format!(in alloc; "'to' in {part} names {name} twice")
}

/// The target's message is no message.
pub(crate) fn hint_for_unknown_target(alloc: Global, sketch: &Sketch<'_>) -> Hint {
    let names = names_of(alloc, &sketch.draft.multicasts)?;
    let place = if sketch.is_target_asked {
        BY_OPTION
    } else {
        "'message' in the target"
    };
    let name = sketch.draft.target_message.as_str();
    hint_for_no_such(alloc, place, "message", name, &names).map(Some)
}

/// The target's message does not go to the target's group.
pub(crate) fn hint_for_target_not_addressed(alloc: Global, sketch: &Sketch<'_>) -> Hint {
    for (multicast, part) in sketch.draft.multicasts.iter().zip(&sketch.multicasts) {
        if multicast.name.is_same(&sketch.draft.target_message) {
            let to = words_of(alloc, &multicast.to)?;
            let group = sketch.draft.target_group.as_str();
            let place = if sketch.is_target_asked {
                BY_OPTION
            } else {
                "the target"
            };
            return hint_for_elsewhere(alloc, place, *part, group, &to).map(Some);
        }
    }
    Ok(None)
}

/// A message does not go to the target's group.
fn hint_for_elsewhere(
    alloc: Global,
    place: &str,
    part: Part<'_>,
    group: &str,
    to: &[&str],
) -> Result<String, AllocError> {
    let (group, to) = (Quoted(group), Names(to));
    format!(in alloc; "{place} asks for {part} at {group}, and it goes to {to} alone")
}
