use convoy_hints_sketch::{Hint, Quoted, noun};
use convoy_scenario::{DraftMulticast, DraftScenario, is_named_alike};
use convoy_toml::{Way, ways_without_link};
use std::alloc::{AllocError, Global};

/// How many ways are told at most beside the first.
const MOST_WAYS: usize = 8;

/// On which ways something goes in real time for which no range is written, what goes on the first of them, and what to
/// write, be D written or not.
pub(crate) fn hint_for_no_range(alloc: Global, draft: &DraftScenario, has_delay: bool) -> Hint {
    let ways = ways_without_link(alloc, draft)?;
    let [first, others @ ..] = ways.as_slice() else {
        return Ok(None);
    };
    let load = words_for_load(alloc, first, &draft.multicasts)?;
    let first = words_for_way(alloc, first)?;
    let others = words_for_others(alloc, others)?;
    let keys = if has_delay { BESIDE_DELAY } else { BOTH_KEYS };
    format!(in alloc;
        "nothing says how long a packet from {first} takes{load}{others}: write a link, or {keys} of all that have none"
    ).map(Some)
}

/// The key that has to stand beside D, and what it is.
const BESIDE_DELAY: &str = "'least' beside 'delay', the least delay";

/// The keys that have to stand there, and what they are.
const BOTH_KEYS: &str = "'delay' and 'least', the greatest and the least delay";

/// A way in words: `the clients to "a"`.
fn words_for_way(alloc: Global, way: &Way) -> Result<String, AllocError> {
    let to = Quoted(way.to.as_str());
    match &way.sender {
        Some(sender) => {
            let sender = Quoted(sender.as_str());
            format!(in alloc; "{sender} to {to}")
        }
        None => format!(in alloc; "a client to {to}"),
    }
}

/// What goes that way, in words: the first message that is sent so, or else the first of which a group proposes a stamp
/// to another.
fn words_for_load(
    alloc: Global,
    way: &Way,
    multicasts: &[DraftMulticast],
) -> Result<String, AllocError> {
    if let Some(message) = multicasts.iter().find(|multicast| is_sent(way, multicast)) {
        let name = Quoted(message.name.as_str());
        return format!(in alloc; ", such as {name}");
    }
    match multicasts
        .iter()
        .find(|multicast| is_proposed(way, multicast))
    {
        Some(message) => {
            let name = Quoted(message.name.as_str());
            format!(in alloc; ", such as the proposal of {name}, which goes to both")
        }
        None => Ok(String::new(alloc)),
    }
}

/// Whether the message itself goes that way.
fn is_sent(way: &Way, multicast: &DraftMulticast) -> bool {
    way.to.is_among(&multicast.to) && is_named_alike(&way.sender, &multicast.sender)
}

/// Whether both ends of the way are destinations of the message.
fn is_proposed(way: &Way, multicast: &DraftMulticast) -> bool {
    match &way.sender {
        Some(sender) => sender.is_among(&multicast.to) && way.to.is_among(&multicast.to),
        None => false,
    }
}

/// On which other ways it is so, in words; nothing where there are none.
fn words_for_others(alloc: Global, ways: &[Way]) -> Result<String, AllocError> {
    if ways.is_empty() {
        return Ok(String::new(alloc));
    }
    let count = ways.len();
    let what = noun(count == 1, "way", "ways");
    let listed = list_of(alloc, ways)?;
    format!(in alloc; ", nor on {count} other {what} ({listed})")
}

/// The first of these ways, with commas between them.
fn list_of(alloc: Global, ways: &[Way]) -> Result<String, AllocError> {
    let mut list = String::new(alloc);
    for (place, way) in ways.iter().enumerate() {
        if place > 0 {
            list.push_str(", ")?;
        }
        if place >= MOST_WAYS {
            list.push_str("...")?;
            return Ok(list);
        }
        list.push_str(&words_for_way(alloc, way)?)?;
    }
    Ok(list)
}
