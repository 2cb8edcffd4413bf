//! Which tables of a text a key names.

ghost use Rattle.std.specs.Prelude.{◌≡◌, count_by, codes, ◌++◌};
ghost use Rattle.std.specs.List.{list_any};
ghost use Rattle.std.specs.Str.{bytes_eq};
ghost use Rattle.convoy_sweep.specs.Keys.{is_same_key, is_way_between, names_link, names_way, readings, share_link, way_name};

use super::kinds::SweepKey;
use convoy_scenario::Name;
use convoy_toml::{LinkEnds, WrittenLink, WrittenMulticast, WrittenScenario};

/// How many tables of the text the key names: one where it is a key of the text.
pub(crate) fn readings(written: &WrittenScenario, key: &SweepKey) -> usize
    ensures { result ≡ readings written.now key.now }
{
    match key {
        SweepKey::Delay => 1,
        SweepKey::At(name) | SweepKey::Until(name) => count_messages(&written.multicasts, name),
        SweepKey::Least(name) | SweepKey::Most(name) => count_links(&written.links, name),
    }
}

/// How many of the messages have that name.
fn count_messages(messages: &[WrittenMulticast], name: &Name) -> usize
    ensures { result ≡ count_by (λ message. bytes_eq name.now message.name) messages.now }
{
    let mut count = 0;
    for message in messages {
        if name.is_same(&message.name) {
            count += 1;
        }
    }
    count
}

/// How many of the tables of links are named so.
fn count_links(links: &[WrittenLink], name: &Name) -> usize
    ensures { result ≡ count_by (λ link. names_link name.now link.ends) links.now }
{
    let mut count = 0;
    for link in links {
        if names_link(name, &link.ends) {
            count += 1;
        }
    }
    count
}

/// Whether the name is that of a way on which a link of the table leads, there or back.
pub(crate) fn names_link(name: &Name, ends: &LinkEnds) -> bool
    ensures { result ≡ names_link name.now ends.now }
{
    match &ends.senders {
        Some(senders) => {
            is_way_between(name, senders, &ends.to)
                || (ends.both && is_way_between(name, &ends.to, senders))
        }
        None => is_way_from(false, name, "client", &ends.to),
    }
}

/// Whether the name is that of a way from one of these groups to one of those.
fn is_way_between(name: &Name, senders: &[Name], groups: &[Name]) -> bool
    ensures { result ≡ is_way_between name.now senders.now groups.now }
{
    let are_all = senders.len() == 1 && groups.len() == 1;
    senders.iter().any(|sender| is_way_from(are_all, name, sender.as_str(), groups))
}

/// Whether the name is that of a way from that sender to one of the groups, which may be all of a table.
fn is_way_from(are_all: bool, name: &Name, sender: &str, groups: &[Name]) -> bool
    ensures { result ≡ list_any (names_way are_all name.now sender.now) groups.now }
{
    groups.iter().any(|group| names_way(are_all, name.as_str(), sender, group.as_str()))
}

/// Whether the name is that of the way from the sender to the group: two places, or one group where the table has no other.
fn names_way(are_all: bool, name: &str, sender: &str, to: &str) -> bool
    ensures { result ≡ names_way are_all name.now sender.now to.now }
{
    (are_all || sender != to) && is_joined(name.as_bytes(), sender.as_bytes(), to.as_bytes())
}

/// Whether a text is these two with a dash between them.
fn is_joined(text: &[u8], front: &[u8], back: &[u8]) -> bool
    ensures { result ≡ bytes_eq text.now (way_name front.now back.now) }
{
    let [first, rest @ ..] = front else {
        return follows_dash(text, back);
    };
    match text {
        [byte, tail @ ..] => byte == first && is_joined(tail, rest, back),
        [] => false,
    }
}

/// Whether a text is a dash and then that.
fn follows_dash(text: &[u8], back: &[u8]) -> bool
    ensures { result ≡ bytes_eq text.now (codes "-" ++ back.now) }
{
    match text {
        [b'-', rest @ ..] => rest == back,
        _ => false,
    }
}

/// Whether the two are one key of the text.
pub(crate) fn is_same_key(written: &WrittenScenario, key: &SweepKey, other: &SweepKey) -> bool
    ensures { result ≡ is_same_key written.now key.now other.now }
{
    match (key, other) {
        (SweepKey::Delay, SweepKey::Delay) => true,
        (SweepKey::At(name), SweepKey::At(other)) => name.is_same(other),
        (SweepKey::Until(name), SweepKey::Until(other)) => name.is_same(other),
        (SweepKey::Least(name), SweepKey::Least(other)) => share_link(written, name, other),
        (SweepKey::Most(name), SweepKey::Most(other)) => share_link(written, name, other),
        _ => false,
    }
}

/// Whether one table of the text is named by both names.
fn share_link(written: &WrittenScenario, name: &Name, other: &Name) -> bool
    ensures { result ≡ share_link written.now name.now other.now }
{
    written.links.iter().any(|link| names_link(name, &link.ends) && names_link(other, &link.ends))
}
