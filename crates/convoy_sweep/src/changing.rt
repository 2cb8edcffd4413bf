//! What is written where a key has another value.

ghost use Rattle.std.specs.Prelude.{◌≡◌, map, option_map, pos, IfOk};
ghost use Rattle.convoy_sweep.specs.Keys.{at_with, counted, delay_with, last_of, least_with, link_with, message_with, most_with, until_with, with_key};

use super::keys::names_link;
use super::kinds::{Given, SweepKey};
use convoy_toml::{
    WrittenLink, WrittenMulticast, WrittenScenario, WrittenTime, copy_agreements, copy_ends,
    copy_name, copy_names,
};
use std::alloc::{AllocError, Global};

/// What is written where the key has that value, and all else is as it was, in memory of its own. Fails where memory runs
/// out, and else never.
pub fn with_key(
    alloc: Global,
    key: &SweepKey,
    given: Given,
    written: &WrittenScenario,
) -> Result<WrittenScenario, AllocError>
    ensures { IfOk result (λ changed. changed ≡ with_key key.now given written.now) }
{
    Ok(WrittenScenario {
        time: written.time,
        tick: written.tick,
        delay: delay_with(key, given, written.delay),
        least: written.least,
        groups: copy_names(alloc, &written.groups)?,
        places: copy_names(alloc, &written.places)?,
        links: links_with(alloc, key, given, &written.links)?,
        agreements: copy_agreements(alloc, &written.agreements)?,
        multicasts: messages_with(alloc, key, given, &written.multicasts)?,
        target_message: written.target_message.copy()?,
        target_group: written.target_group.copy()?,
    })
}

/// D, where the key has that value.
fn delay_with(key: &SweepKey, given: Given, delay: Option<WrittenTime>) -> Option<WrittenTime>
    ensures { result ≡ delay_with key.now given delay }
{
    match key {
        SweepKey::Delay => Some(counted(given.value)),
        _ => delay,
    }
}

/// The tables of links, where the key has that value.
fn links_with(
    alloc: Global,
    key: &SweepKey,
    given: Given,
    links: &[WrittenLink],
) -> Result<Vec<WrittenLink>, AllocError>
    ensures { IfOk result (λ changed. changed.items ≡ map (link_with key.now given) links.now) }
{
    let mut changed = Vec::new(alloc);
    for link in links {
        changed.push(link_with(alloc, key, given, link)?)?;
    }
    Ok(changed)
}

/// A table of links, where the key has that value.
fn link_with(
    alloc: Global,
    key: &SweepKey,
    given: Given,
    link: &WrittenLink,
) -> Result<WrittenLink, AllocError>
    ensures { IfOk result (λ changed. changed ≡ link_with key.now given link.now) }
{
    Ok(WrittenLink {
        ends: copy_ends(alloc, &link.ends)?,
        least: least_with(key, given, link),
        most: most_with(key, given, link),
        stamps: link.stamps,
    })
}

/// The least delay of the links of a table, where the key has that value.
fn least_with(key: &SweepKey, given: Given, link: &WrittenLink) -> WrittenTime
    ensures { result ≡ least_with key.now given link.now }
{
    match key {
        SweepKey::Least(name) => {
            if names_link(name, &link.ends) {
                counted(given.value)
            } else {
                link.least
            }
        }
        _ => link.least,
    }
}

/// Their greatest delay, where the key has that value.
fn most_with(key: &SweepKey, given: Given, link: &WrittenLink) -> WrittenTime
    ensures { result ≡ most_with key.now given link.now }
{
    match key {
        SweepKey::Most(name) => {
            if names_link(name, &link.ends) {
                counted(given.value)
            } else {
                link.most
            }
        }
        _ => link.most,
    }
}

/// The messages, where the key has that value.
fn messages_with(
    alloc: Global,
    key: &SweepKey,
    given: Given,
    messages: &[WrittenMulticast],
) -> Result<Vec<WrittenMulticast>, AllocError>
    ensures { IfOk result (λ changed. changed.items ≡ map (message_with key.now given) messages.now) }
{
    let mut changed = Vec::new(alloc);
    for message in messages {
        changed.push(message_with(alloc, key, given, message)?)?;
    }
    Ok(changed)
}

/// A message, where the key has that value.
fn message_with(
    alloc: Global,
    key: &SweepKey,
    given: Given,
    message: &WrittenMulticast,
) -> Result<WrittenMulticast, AllocError>
    ensures { IfOk result (λ changed. changed ≡ message_with key.now given message.now) }
{
    Ok(WrittenMulticast {
        name: message.name.copy()?,
        sender: copy_name(&message.sender)?,
        to: copy_names(alloc, &message.to)?,
        at: at_with(key, given, message),
        until: until_with(key, given, message),
        within: message.within,
        longer: message.longer,
    })
}

/// The first time at which a message may be issued, where the key has that value.
fn at_with(key: &SweepKey, given: Given, message: &WrittenMulticast) -> WrittenTime
    ensures { result ≡ at_with key.now given message.now }
{
    match key {
        SweepKey::At(name) => {
            if name.is_same(&message.name) {
                counted(given.value)
            } else {
                message.at
            }
        }
        _ => message.at,
    }
}

/// The last, where the key has that value.
fn until_with(key: &SweepKey, given: Given, message: &WrittenMulticast) -> Option<WrittenTime>
    ensures { result ≡ until_with key.now given message.now }
{
    match key {
        SweepKey::At(name) => {
            if name.is_same(&message.name) {
                last_of(given.last, message.until)
            } else {
                message.until
            }
        }
        SweepKey::Until(name) => {
            if name.is_same(&message.name) {
                Some(counted(given.value))
            } else {
                message.until
            }
        }
        _ => message.until,
    }
}

/// The last time at which a message may be issued: that of a window, or else the one that is written.
fn last_of(last: Option<u32>, until: Option<WrittenTime>) -> Option<WrittenTime>
    ensures { result ≡ last_of last until }
{
    match last {
        Some(ticks) => Some(counted(ticks)),
        None => until,
    }
}

/// A number of ticks as it is written.
fn counted(ticks: u32) -> WrittenTime
    ensures { result ≡ counted ticks }
{
    WrittenTime::Count(i64::from(ticks))
}
