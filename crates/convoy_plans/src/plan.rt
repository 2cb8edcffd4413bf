ghost use Rattle.std.specs.Prelude.{◌≡◌, length};
ghost use Rattle.convoy_plans.specs.Plans.{IsPlan, Plan, deadline_of, goes_of, group_name, is_apart, most_between, origin_of, site_name, sites_of};

use super::lists::Numbers;
use convoy_scenario::{Duration, Name, TimeUnit};
use convoy_toml::WrittenScenario;
use std::marker::Model;

/// Where a message is sent from: by a client at a site, or by a group, wherever that is; each by number.
#[derive(Clone, Copy, Debug, PartialEq, Eq)]
pub enum Origin {
    Site(usize),
    Group(usize),
}

/// A plan: a scenario text whose links and senders name sites, with the sites at which each group may be
/// (docs/FORMATS.md, "Plan text"). Sites, groups and messages go by number, from 0, in the order of the text.
#[derive(Drop)]
pub struct Plan {
    pub(crate) written: WrittenScenario,
    pub(crate) sites: Vec<Name>,
    pub(crate) housed: Vec<Numbers>,
    pub(crate) apart: Vec<Numbers>,
    pub(crate) tick: Option<Duration>,
    pub(crate) unit: Option<TimeUnit>,
    pub(crate) deadlines: Vec<Option<u32>>,
    pub(crate) most: Vec<Numbers>,
    pub(crate) origins: Vec<Origin>,
    pub(crate) goes: Vec<Numbers>,
    pub(crate) clients: Vec<usize>,
}

impl Model for Plan {
    ghost Value = { Plan };

    ghost view = { λ p. record {
      written = p.written;
      sites = p.sites.items;
      housed = p.housed.items;
      apart = p.apart.items;
      tick = p.tick;
      unit = p.unit;
      deadlines = p.deadlines.items;
      most = p.most.items;
      origins = p.origins.items;
      goes = p.goes.items;
      clients = p.clients.items;
    } };

    ghost invariant = { λ p. IsPlan (view p) };
}

impl Plan {
    /// How many groups there are.
    pub fn group_count(&self) -> usize
        ensures value { result ≡ length self.now.written.groups }
        ensures lawful { IsPlan self.now }
    {
        self.written.groups.len()
    }

    /// The name of a group; none has the number of no group.
    pub fn group_name(&self, group: usize) -> &str
        ensures { result.now ≡ group_name self.now group }
    {
        text_at(&self.written.groups, group)
    }

    /// How many sites there are.
    pub fn site_count(&self) -> usize
        ensures value { result ≡ length self.now.sites }
        ensures lawful { IsPlan self.now }
    {
        self.sites.len()
    }

    /// The name of a site; none has the number of no site.
    pub fn site_name(&self, site: usize) -> &str
        ensures { result.now ≡ site_name self.now site }
    {
        text_at(&self.sites, site)
    }

    /// The numbers of the sites at which a group may be, in the order in which they are written for it.
    pub fn sites_of(&self, group: usize) -> &[usize]
        ensures value { result.now ≡ sites_of self.now group }
        ensures lawful { IsPlan self.now }
    {
        numbers_at(&self.housed, group)
    }

    /// Whether the two groups are never at one site.
    pub fn is_apart(&self, group: usize, other: usize) -> bool
        ensures { result ≡ is_apart self.now group other }
    {
        group != other && some_hold(&self.apart, group, other)
    }

    /// How many messages there are.
    pub fn message_count(&self) -> usize
        ensures value { result ≡ length self.now.written.messages }
        ensures lawful { IsPlan self.now }
    {
        self.written.multicasts.len()
    }

    /// Where a message is sent from: that of no message is the site of number 0.
    pub fn origin(&self, message: usize) -> Origin
        ensures value { result ≡ origin_of self.now message }
        ensures lawful { IsPlan self.now }
    {
        match self.origins.get(message) {
            Some(origin) => *origin,
            None => Origin::Site(0),
        }
    }

    /// The numbers of the groups that a message goes to, ascending.
    pub fn destinations(&self, message: usize) -> &[usize]
        ensures value { result.now ≡ goes_of self.now message }
        ensures lawful { IsPlan self.now }
    {
        numbers_at(&self.goes, message)
    }

    /// The numbers of the sites from which clients send some message, ascending.
    pub fn clients(&self) -> &[usize]
        ensures { result.now ≡ self.now.clients }
    {
        self.clients.as_slice()
    }

    /// The deadline of a message in ticks, where it has one.
    pub fn deadline(&self, message: usize) -> Option<u32>
        ensures { result ≡ deadline_of self.now message }
    {
        match self.deadlines.get(message) {
            Some(deadline) => *deadline,
            None => None,
        }
    }

    /// The deadlines of the messages in ticks, by their numbers; none for a message that has none.
    pub fn deadlines(&self) -> &[Option<u32>]
        ensures { result.now ≡ self.now.deadlines }
    {
        self.deadlines.as_slice()
    }

    /// How many ticks at most what goes from a site to a site takes by the range that is written for that; 0 where none is.
    pub fn most(&self, from: usize, to: usize) -> usize
        ensures value { result ≡ most_between self.now from to }
        ensures lawful { IsPlan self.now }
    {
        number_at(numbers_at(&self.most, from), to)
    }

    /// How long a tick lasts, where that is known.
    pub fn tick(&self) -> Option<Duration>
        ensures { result ≡ self.now.tick }
    {
        self.tick
    }

    /// The unit in which the text writes D, where it writes that as a duration.
    pub fn unit(&self) -> Option<TimeUnit>
        ensures { result ≡ self.now.unit }
    {
        self.unit
    }
}

impl Numbers {
    ghost use Rattle.std.specs.List.{list_any};
    ghost use Rattle.std.specs.Prelude.{◌==◌};

    /// Whether the number is one of these.
    pub(crate) fn has(&self, number: usize) -> bool
        ensures { result ≡ list_any (λ n. n == number) self.now }
    {
        self.items.iter().any(|n| *n == number)
    }
}

ghost use Rattle.std.specs.Prelude.{◌&&◌, slice_index_or, []};
ghost use Rattle.std.specs.List.{list_any};
ghost use Rattle.convoy_plans.specs.Plans.{has};

/// Whether one of the lists has both numbers.
fn some_hold(lists: &[Numbers], number: usize, other: usize) -> bool
    ensures { result ≡ list_any (λ numbers. has number numbers && has other numbers) lists.now }
{
    lists
        .iter()
        .any(|numbers| numbers.has(number) && numbers.has(other))
}

/// The text of the name of that number, or none.
fn text_at(names: &[Name], number: usize) -> &str
    ensures { result.now ≡ slice_index_or names.now number [] }
{
    match names.get(number) {
        Some(name) => name.as_str(),
        None => "",
    }
}

/// The numbers in the list of that number, or none.
fn numbers_at(lists: &[Numbers], number: usize) -> &[usize]
    ensures { result.now ≡ slice_index_or lists.now number [] }
{
    match lists.get(number) {
        Some(numbers) => numbers.items.as_slice(),
        None => &[],
    }
}

/// The number at that place, or 0.
pub(crate) fn number_at(numbers: &[usize], place: usize) -> usize
    ensures { result ≡ slice_index_or numbers.now place 0 }
{
    match numbers.get(place) {
        Some(number) => *number,
        None => 0,
    }
}
