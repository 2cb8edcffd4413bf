use convoy_hints_sketch::{Hint, Ordinal, Part, Quoted, Sketch, words_of};
use convoy_scenario::{DraftLink, DraftMulticast, LONGEST_NAME, is_named_alike};
use std::alloc::{AllocError, Global};

/// Which name is none, and why.
pub(crate) fn hint_for_bad_name(alloc: Global, sketch: &Sketch<'_>) -> Hint {
    let groups = words_of(alloc, &sketch.draft.groups)?;
    if let Some(hint) = hint_for_bad_place(alloc, "group", &groups)? {
        return Ok(Some(hint));
    }
    let places = words_of(alloc, &sketch.draft.places)?;
    match hint_for_bad_place(alloc, "place", &places)? {
        Some(hint) => Ok(Some(hint)),
        None => hint_for_bad_message(alloc, sketch),
    }
}

/// Which of these names of groups, or of other places of that kind, is none, and why.
pub fn hint_for_bad_place(alloc: Global, kind: &str, names: &[&str]) -> Hint {
    for (before, name) in names.iter().enumerate() {
        if let Some(hint) = hint_for_place_name(alloc, kind, before, name)? {
            return Ok(Some(hint));
        }
    }
    Ok(None)
}

/// Why the name of a place of that kind with so many before it is none.
fn hint_for_place_name(alloc: Global, kind: &str, before: usize, name: &str) -> Hint {
    let place = Ordinal(before.saturating_add(1));
    if name == "client" {
        let advice = if kind == "group" || kind == "place" {
            "a multicast without 'from' is a client's"
        } else {
            "give it another name"
        };
        return format!(in alloc;
            "the {place} {kind} is named \"client\", which is the word for the clients: {advice}"
        ).map(Some);
    }
    match what_is_bad(name) {
        Some(why) => {
            let name = Quoted(name);
            format!(in alloc; "the name of the {place} {kind} ({name}) {why}: {RULE}").map(Some)
        }
        None => Ok(None),
    }
}

/// Which name of a message is none, and why.
fn hint_for_bad_message(alloc: Global, sketch: &Sketch<'_>) -> Hint {
    for (multicast, part) in sketch.draft.multicasts.iter().zip(&sketch.multicasts) {
        if let Some(why) = what_is_bad(multicast.name.as_str()) {
            return format!(in alloc; "the name of {part} {why}: {RULE}").map(Some);
        }
    }
    Ok(None)
}

/// What a name is.
const RULE: &str = "a name is 1 to 16 of a-z, 0-9, '_' and '-', the first a letter";

const _: () = prove!(LONGEST_NAME == 16);

/// Why a text is no name.
fn what_is_bad(name: &str) -> Option<&'static str> {
    let bytes = name.as_bytes();
    match bytes.first() {
        None => Some("is empty"),
        Some(_) if bytes.len() > LONGEST_NAME => Some("is too long"),
        Some(_) if !bytes.iter().all(|byte| is_name_byte(*byte)) => {
            Some("has a character that no name has")
        }
        Some(first) if !first.is_ascii_lowercase() => Some("does not begin with a letter"),
        Some(_) => None,
    }
}

fn is_name_byte(byte: u8) -> bool {
    byte.is_ascii_lowercase() || byte.is_ascii_digit() || byte == b'_' || byte == b'-'
}

/// Which two things have one name.
pub(crate) fn hint_for_double_name(alloc: Global, sketch: &Sketch<'_>) -> Hint {
    let groups = words_of(alloc, &sketch.draft.groups)?;
    if let Some((first, second)) = first_double(&groups) {
        return hint_for_double_group(alloc, "group", &groups, first, second).map(Some);
    }
    let places = words_of(alloc, &sketch.draft.places)?;
    if let Some((first, second)) = first_double(&places) {
        return hint_for_double_group(alloc, "place", &places, first, second).map(Some);
    }
    if let Some(hint) = hint_for_shared_name(alloc, &groups, &places)? {
        return Ok(Some(hint));
    }
    match hint_for_double_message(alloc, sketch)? {
        Some(hint) => Ok(Some(hint)),
        None => hint_for_double_link(alloc, sketch),
    }
}

/// Which place has the name of a group.
fn hint_for_shared_name(alloc: Global, groups: &[&str], places: &[&str]) -> Hint {
    for (before, name) in places.iter().enumerate() {
        if place_of(name, groups) < groups.len() {
            let (place, name) = (Ordinal(before.saturating_add(1)), Quoted(name));
            return format!(in alloc;
                "the {place} place has the name of a group, {name}: name the place of the clients otherwise"
            ).map(Some);
        }
    }
    Ok(None)
}

/// The groups, or the places, that stand there have one name.
fn hint_for_double_group(
    alloc: Global,
    kind: &str,
    groups: &[&str],
    first: usize,
    second: usize,
) -> Result<String, AllocError> {
    let name = Quoted(groups.get(first).copied().unwrap_or(""));
    let first = Ordinal(first.saturating_add(1));
    let second = Ordinal(second.saturating_add(1));
    format!(in alloc; "the {first} and the {second} {kind} have one name, {name}")
}

/// Which two messages have one name.
fn hint_for_double_message(alloc: Global, sketch: &Sketch<'_>) -> Hint {
    let names = names_of(alloc, &sketch.draft.multicasts)?;
    let Some((first, second)) = first_double(&names) else {
        return Ok(None);
    };
    match (sketch.multicasts.get(first), sketch.multicasts.get(second)) {
        (Some(first), Some(second)) => {
            format!(in alloc; "{first} and {second} have one name").map(Some)
        }
        _ => Ok(None),
    }
}

/// The names of messages, in their order.
pub(crate) fn names_of(
    alloc: Global,
    multicasts: &[DraftMulticast],
) -> Result<Vec<&str>, AllocError> {
    let mut names = Vec::new(alloc);
    for multicast in multicasts {
        names.push(multicast.name.as_str())?;
    }
    Ok(names)
}

/// The places of the first name that stands there a second time: the first one, and that.
pub(crate) fn first_double(names: &[&str]) -> Option<(usize, usize)> {
    for (second, name) in names.iter().enumerate() {
        let first = place_of(name, names);
        if first < second {
            return Some((first, second));
        }
    }
    None
}

/// The place of a name among these, or how many there are where it is none of them.
fn place_of(name: &str, names: &[&str]) -> usize {
    for (place, other) in names.iter().enumerate() {
        if *other == name {
            return place;
        }
    }
    names.len()
}

/// Which two links lead from one sender to one group.
fn hint_for_double_link(alloc: Global, sketch: &Sketch<'_>) -> Hint {
    let links = &sketch.draft.links;
    for (second, link) in links.iter().enumerate() {
        let first = links
            .iter()
            .take(second)
            .position(|other| is_same_pair(other, link));
        let Some(first) = first else {
            continue;
        };
        if let (Some(one), Some(other)) = (sketch.links.get(first), sketch.links.get(second)) {
            return hint_for_same_pair(alloc, link, one, other).map(Some);
        }
    }
    Ok(None)
}

/// That two links lead from one sender to one group, be they of two tables or of one.
fn hint_for_same_pair(
    alloc: Global,
    link: &DraftLink,
    one: &Part<'_>,
    other: &Part<'_>,
) -> Result<String, AllocError> {
    let to = Quoted(link.to.as_str());
    let sender = match &link.sender {
        Some(sender) => {
            let sender = Quoted(sender.as_str());
            format!(in alloc; "{sender}")?
        }
        None => String::from_str(alloc, "the clients")?,
    };
    if one.table == other.table {
        return format!(in alloc;
            "{one} leads from {sender} to {to} twice: name each group once, and leave 'both' out where 'from' and 'to' have the same groups"
        );
    }
    format!(in alloc;
        "{one} and {other} both lead from {sender} to {to}: write one with the whole range"
    )
}

/// Whether two links lead from one sender to one group.
fn is_same_pair(link: &DraftLink, other: &DraftLink) -> bool {
    is_named_alike(&link.sender, &other.sender) && link.to.is_same(&other.to)
}
