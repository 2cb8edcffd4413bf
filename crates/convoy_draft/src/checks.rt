ghost use Rattle.std.specs.Prelude.{◌≡◌, ◌≤◌, ◌&&◌, length, nat_le, find, not, option_copied};
ghost use Rattle.std.specs.List.{list_all, list_any};
ghost use Rattle.std.specs.Str.{bytes_eq};
ghost use Rattle.convoy_draft.specs.Limits.{is_tick};
ghost use Rattle.convoy_draft.specs.Names.{is_name, is_group_name};
ghost use Rattle.convoy_draft.specs.Checks.{is_within, ticks, has_wait, is_count, is_among, all_differ, places_differ, is_known_sender, is_message, messages_differ, knows, is_target_addressed, is_named_alike, is_same_pair, links_differ, has_range, knows_link, leads_elsewhere, limit_checks, name_checks, reference_checks, checks, judge};

use super::draft::{DraftLink, DraftMulticast, DraftScenario};
use super::duration::{Duration, LONGEST_DURATION, MOST_UNITS};
use super::fault::{Limit, ScenarioFault};
use super::limits::{
    GREATEST_AT, GREATEST_DELAY, LONGEST_WAIT, MOST_GROUPS, MOST_MULTICASTS, MOST_PLACES,
};
use super::name::Name;
use super::time::Time;

/// Tells the first rule that a draft breaks (docs/FORMATS.md, "Scenario text").
pub fn check(draft: &DraftScenario) -> Result<(), ScenarioFault>
    ensures { result ≡ judge (checks draft.now) }
{
    check_limits(draft)?;
    check_names(draft)?;
    check_references(draft)
}

fn check_limits(draft: &DraftScenario) -> Result<(), ScenarioFault>
    ensures { result ≡ judge (limit_checks draft.now) }
{
    if !is_within(draft.delay, 1, u32::from(draft.time.greatest_delay())) {
        return Err(ScenarioFault::OverLimit(Limit::Delay));
    }
    if !is_count(draft.groups.len(), MOST_GROUPS) {
        return Err(ScenarioFault::OverLimit(Limit::Groups));
    }
    if MOST_PLACES < draft.places.len() {
        return Err(ScenarioFault::OverLimit(Limit::Places));
    }
    if !is_count(draft.multicasts.len(), MOST_MULTICASTS) {
        return Err(ScenarioFault::OverLimit(Limit::Multicasts));
    }
    if !ticks_are_within(&draft.multicasts) {
        return Err(ScenarioFault::OverLimit(Limit::At));
    }
    if !all_have_waits(&draft.multicasts) {
        return Err(ScenarioFault::OverLimit(Limit::Until));
    }
    if !all_have_ranges(draft.delay, &draft.links) {
        return Err(ScenarioFault::OverLimit(Limit::Link));
    }
    if !is_tick(draft.time, draft.tick) {
        return Err(ScenarioFault::OverLimit(Limit::Tick));
    }
    Ok(())
}

fn check_names(draft: &DraftScenario) -> Result<(), ScenarioFault>
    ensures { result ≡ judge (name_checks draft.now) }
{
    if !group_names_are_good(&draft.groups) {
        return Err(ScenarioFault::BadName);
    }
    if !group_names_are_good(&draft.places) {
        return Err(ScenarioFault::BadName);
    }
    if !message_names_are_good(&draft.multicasts) {
        return Err(ScenarioFault::BadName);
    }
    if !all_differ(&draft.groups) {
        return Err(ScenarioFault::DoubleName);
    }
    if !places_differ(&draft.groups, &draft.places) {
        return Err(ScenarioFault::DoubleName);
    }
    if !messages_differ(&draft.multicasts) {
        return Err(ScenarioFault::DoubleName);
    }
    if !links_differ(&draft.links) {
        return Err(ScenarioFault::DoubleName);
    }
    Ok(())
}

fn check_references(draft: &DraftScenario) -> Result<(), ScenarioFault>
    ensures { result ≡ judge (reference_checks draft.now) }
{
    if !all_are_known(&draft.groups, &draft.places, &draft.multicasts) {
        return Err(ScenarioFault::UnknownGroup);
    }
    if !draft.target_group.is_among(&draft.groups) {
        return Err(ScenarioFault::UnknownGroup);
    }
    if !all_links_are_known(&draft.groups, &draft.places, &draft.links) {
        return Err(ScenarioFault::UnknownGroup);
    }
    if !all_go_somewhere(&draft.multicasts) {
        return Err(ScenarioFault::NoDestination);
    }
    if !destinations_differ(&draft.multicasts) {
        return Err(ScenarioFault::DoubleDestination);
    }
    if !is_message(&draft.target_message, &draft.multicasts) {
        return Err(ScenarioFault::UnknownTarget);
    }
    if !is_target_addressed(draft) {
        return Err(ScenarioFault::TargetNotAddressed);
    }
    Ok(())
}

/// Whether a tick may have this length, or none where that is not known.
fn is_tick(time: Time, tick: Option<Duration>) -> bool
    ensures { result ≡ is_tick time tick }
{
    match (time, tick) {
        (_, None) => true,
        (Time::Ticks, Some(_)) => false,
        (Time::Real, Some(tick)) => {
            1 <= tick.nanoseconds()
                && tick.nanoseconds() <= LONGEST_DURATION
                && tick.count() <= MOST_UNITS
        }
    }
}

/// Whether the number is from `least` to `most`.
pub fn is_within(number: i64, least: u32, most: u32) -> bool
    ensures { result ≡ is_within least most number }
{
    i64::from(least) <= number && number <= i64::from(most)
}

/// The number, or 0 where it is not from 0 to `most`.
pub fn ticks(number: i64, most: u32) -> u32
    ensures value { result ≡ ticks most number }
    ensures bounded { result ≤ most }
{
    if is_within(number, 0, most) {
        number as u32
    } else {
        0
    }
}

/// The number as a delay, or 0 where it is none that a packet may take.
pub fn delay_ticks(number: i64) -> u16
    ensures { result ≡ ticks GREATEST_DELAY number }
{
    ticks(number, u32::from(GREATEST_DELAY)) as u16
}

impl DraftScenario {
    /// D, the greatest delay of a packet, in ticks; 0 where what is written is none that a packet may
    /// take.
    pub fn delay_ticks(&self) -> u16
        ensures { result ≡ ticks GREATEST_DELAY self.now.delay }
    {
        delay_ticks(self.delay)
    }
}

fn is_count(count: usize, most: usize) -> bool
    ensures { result ≡ (nat_le 1 count && nat_le count most) }
{
    1 <= count && count <= most
}

fn ticks_are_within(multicasts: &[DraftMulticast]) -> bool
    ensures { result ≡ list_all (λ m. is_within 0 GREATEST_AT m.at) multicasts.now }
{
    multicasts.iter().all(|m| is_within(m.at, 0, GREATEST_AT))
}

/// Whether the last tick at which the message may be issued is no earlier than the first, and at most
/// `LONGEST_WAIT` after it.
fn has_wait(multicast: &DraftMulticast) -> bool
    ensures { result ≡ has_wait multicast.now }
{
    let at = ticks(multicast.at, GREATEST_AT);
    is_within(multicast.until, at, at + u32::from(LONGEST_WAIT))
}

fn all_have_waits(multicasts: &[DraftMulticast]) -> bool
    ensures { result ≡ list_all has_wait multicasts.now }
{
    multicasts.iter().all(|m| has_wait(m))
}

fn group_names_are_good(groups: &[Name]) -> bool
    ensures { result ≡ list_all is_group_name groups.now }
{
    groups.iter().all(|name| name.is_good_for_group())
}

fn message_names_are_good(multicasts: &[DraftMulticast]) -> bool
    ensures { result ≡ list_all (λ m. is_name m.name) multicasts.now }
{
    multicasts.iter().all(|m| m.name.is_good())
}

/// Whether the name is one of the messages' names.
fn is_message(name: &Name, multicasts: &[DraftMulticast]) -> bool
    ensures { result ≡ is_message name.now multicasts.now }
{
    multicasts.iter().any(|m| name.is_same(&m.name))
}

/// Whether no two of the names are the same.
fn all_differ(names: &[Name]) -> bool
    ensures { result ≡ all_differ names.now }
{
    let mut rest = names;
    while let Some((name, tail)) = rest.split_first() {
        if name.is_among(tail) {
            return false;
        }
        rest = tail;
    }
    true
}

fn messages_differ(multicasts: &[DraftMulticast]) -> bool
    ensures { result ≡ messages_differ multicasts.now }
{
    let mut rest = multicasts;
    while let Some((first, tail)) = rest.split_first() {
        if is_message(&first.name, tail) {
            return false;
        }
        rest = tail;
    }
    true
}

/// Whether no two of the places have the same name, and none has that of a group.
fn places_differ(groups: &[Name], places: &[Name]) -> bool
    ensures { result ≡ places_differ groups.now places.now }
{
    all_differ(places) && are_apart(groups, places)
}

/// Whether none of the places has the name of a group.
fn are_apart(groups: &[Name], places: &[Name]) -> bool
    ensures { result ≡ list_all (λ name. not (is_among name groups.now)) places.now }
{
    places.iter().all(|name| !name.is_among(groups))
}

fn is_known_sender(groups: &[Name], places: &[Name], sender: &Option<Name>) -> bool
    ensures { result ≡ is_known_sender groups.now places.now sender.now }
{
    match sender {
        Some(name) => name.is_among(groups) || name.is_among(places),
        None => true,
    }
}

fn are_among(names: &[Name], groups: &[Name]) -> bool
    ensures { result ≡ list_all (λ name. is_among name groups.now) names.now }
{
    names.iter().all(|name| name.is_among(groups))
}

fn knows(groups: &[Name], places: &[Name], multicast: &DraftMulticast) -> bool
    ensures { result ≡ knows groups.now places.now multicast.now }
{
    is_known_sender(groups, places, &multicast.sender) && are_among(&multicast.to, groups)
}

fn all_are_known(groups: &[Name], places: &[Name], multicasts: &[DraftMulticast]) -> bool
    ensures { result ≡ list_all (knows groups.now places.now) multicasts.now }
{
    multicasts.iter().all(|m| knows(groups, places, m))
}

fn all_go_somewhere(multicasts: &[DraftMulticast]) -> bool
    ensures { result ≡ list_all (λ m. nat_le 1 (length m.to)) multicasts.now }
{
    multicasts.iter().all(|m| 1 <= m.to.len())
}

fn destinations_differ(multicasts: &[DraftMulticast]) -> bool
    ensures { result ≡ list_all (λ m. all_differ m.to) multicasts.now }
{
    multicasts.iter().all(|m| all_differ(&m.to))
}

fn is_target_addressed(draft: &DraftScenario) -> bool
    ensures { result ≡ is_target_addressed draft.now }
{
    match find_message(&draft.target_message, &draft.multicasts) {
        Some(multicast) => draft.target_group.is_among(&multicast.to),
        None => false,
    }
}

/// The first message of that name.
fn find_message<'a>(name: &Name, multicasts: &'a [DraftMulticast]) -> Option<&'a DraftMulticast>
    ensures { option_copied result ≡ find (λ m. bytes_eq name.now m.name) multicasts.now }
{
    multicasts.iter().find(|m| name.is_same(&m.name))
}

fn has_range(delay: i64, link: &DraftLink) -> bool
    ensures { result ≡ has_range delay link.now }
{
    1 <= link.least && link.least <= link.most && link.most <= delay
}

/// Whether each link has a range within D: a least delay of 1 tick or more, and a greatest one from there to D.
pub fn all_have_ranges(delay: i64, links: &[DraftLink]) -> bool
    ensures { result ≡ list_all (has_range delay) links.now }
{
    links.iter().all(|link| has_range(delay, link))
}

/// Whether two senders are written alike: both are clients, or groups of one name.
pub fn is_named_alike(name: &Option<Name>, other: &Option<Name>) -> bool
    ensures { result ≡ is_named_alike name.now other.now }
{
    match (name, other) {
        (None, None) => true,
        (Some(name), Some(other)) => name.is_same(other),
        _ => false,
    }
}

fn is_same_pair(link: &DraftLink, other: &DraftLink) -> bool
    ensures { result ≡ is_same_pair link.now other.now }
{
    is_named_alike(&link.sender, &other.sender) && link.to.is_same(&other.to)
}

fn has_same_pair(link: &DraftLink, links: &[DraftLink]) -> bool
    ensures { result ≡ list_any (is_same_pair link.now) links.now }
{
    links.iter().any(|other| is_same_pair(link, other))
}

/// Whether no two of the links lead from one sender to one group.
fn links_differ(links: &[DraftLink]) -> bool
    ensures { result ≡ links_differ links.now }
{
    let mut rest = links;
    while let Some((first, tail)) = rest.split_first() {
        if has_same_pair(first, tail) {
            return false;
        }
        rest = tail;
    }
    true
}

fn knows_link(groups: &[Name], places: &[Name], link: &DraftLink) -> bool
    ensures { result ≡ knows_link groups.now places.now link.now }
{
    is_known_sender(groups, places, &link.sender) && link.to.is_among(groups)
}

fn all_links_are_known(groups: &[Name], places: &[Name], links: &[DraftLink]) -> bool
    ensures { result ≡ list_all (knows_link groups.now places.now) links.now }
{
    links.iter().all(|link| knows_link(groups, places, link))
}

impl DraftLink {
    /// Whether the link leads to another place than its sender.
    pub fn leads_elsewhere(&self) -> bool
        ensures { result ≡ leads_elsewhere self.now }
    {
        match &self.sender {
            Some(sender) => !sender.is_same(&self.to),
            None => true,
        }
    }
}
