ghost use Rattle.std.specs.Prelude.{◌≡◌, ◌<◌, ℕ, false, [], length, slice_index_or, option_copied, IfOk, IsTrue};
ghost use Rattle.std.specs.List.{list_any};
ghost use Rattle.std.specs.Option.{option_map_or};
ghost use Rattle.convoy_scenario.specs.Room.{HasRoom};
ghost use Rattle.convoy_scenario.specs.Scenario.{GoesTo, message_at, may_wait, is_timed, group_name_at, range_between, own_stamps_take_time, stamp_takes_time, takes_time, Link, Message, Scenario};
ghost use Rattle.convoy_scenario.specs.Targets.{may_be_target, with_target};
ghost use Rattle.convoy_scenario.specs.WellFormed.{IsScenario};
ghost use Rattle.convoy_scenario.specs.Widened.{target_wait, widened, widened_message};

use super::link::{Link, link_between};
use super::numbering::{links_of, message_place, multicasts_of, place};
use super::parts::ScenarioParts;
use super::room::has_room;
use super::sender::Sender;
use convoy_draft::{DraftScenario, Duration, Limit, Name, ScenarioFault, Time, check, delay_ticks};
use std::alloc::{AllocError, Global};
use std::marker::Model;

/// A message as a scenario keeps it.
#[derive(Drop)]
pub struct Multicast {
    pub name: Name,
    pub sender: Sender,
    pub destinations: Vec<usize>,
    pub at: u32,
    pub longest_wait: u32,
}

impl Model for Multicast {
    ghost Value = { Message };

    ghost view = { λ m. record {
      name = m.name;
      sender = m.sender;
      destinations = m.destinations.items;
      at = m.at;
      longest_wait = m.longest_wait;
    } };
}

impl Multicast {
    /// The same message, in memory of its own.
    fn copy(&self) -> Result<Multicast, AllocError>
        ensures { IfOk result (λ copy. copy ≡ self.now) }
    {
        let name = self.name.copy()?;
        let destinations = Vec::from_slice(*self.destinations.allocator(), &self.destinations)?;
        Ok(Multicast {
            name,
            sender: self.sender,
            destinations,
            at: self.at,
            longest_wait: self.longest_wait,
        })
    }
}

/// A scenario that is well formed: its limits hold, its names are names and differ, and every group
/// and message that it refers to is there (docs/FORMATS.md, "Scenario text"). Groups and messages go
/// by number, from 0, in the order of the text, and places from 1, where they are those of senders.
#[derive(Drop)]
pub struct Scenario {
    time: Time,
    tick: Option<Duration>,
    delay: u16,
    groups: Vec<Name>,
    places: Vec<Name>,
    links: Vec<Link>,
    multicasts: Vec<Multicast>,
    target_message: usize,
    target_group: usize,
}

impl Model for Scenario {
    ghost Value = { Scenario };

    ghost view = { λ s. record {
      time = s.time;
      tick = s.tick;
      delay = s.delay;
      groups = s.groups.items;
      places = s.places.items;
      links = s.links.items;
      multicasts = s.multicasts.items;
      target_message = s.target_message;
      target_group = s.target_group;
    } };

    ghost invariant = { λ s. IsScenario (view s) };
}

impl Scenario {
    ghost use Rattle.convoy_scenario.specs.Memory.{IsUnlessMemory};
    ghost use Rattle.convoy_scenario.specs.Numbering.{scenario_of_draft};

    /// The scenario of these parts (docs/FORMATS.md, "Scenario text").
    ///
    /// The answer is the scenario where the parts are those of a well-formed one, with names in place
    /// of numbers. Else it is the first fault in the order of `ScenarioFault`, never `NotToml` or
    /// `Shape`; where memory runs out, it is `ScenarioFault::Memory`, and says nothing of the parts.
    pub fn new(alloc: Global, parts: &ScenarioParts) -> Result<Scenario, ScenarioFault>
        ensures value { IsUnlessMemory ScenarioFault.Memory (scenario_of_draft parts.now) result }
        ensures lawful { IfOk result (λ scenario. IsScenario scenario) }
    {
        Scenario::from_draft(alloc, parts.draft(alloc)?)
    }

    /// The scenario of a draft, with numbers in place of names (docs/FORMATS.md, "Scenario text").
    ///
    /// Where the draft breaks rules, the answer is the fault of the first, in the order of
    /// `ScenarioFault`, never `NotToml` or `Shape`; where memory runs out, it is
    /// `ScenarioFault::Memory`, and says nothing of the draft.
    pub fn from_draft(alloc: Global, draft: DraftScenario) -> Result<Scenario, ScenarioFault>
        ensures { IsUnlessMemory ScenarioFault.Memory (scenario_of_draft draft) result }
    {
        check(&draft)?;
        let time = draft.time;
        let tick = draft.tick;
        let delay = delay_ticks(draft.delay);
        let target_message = message_place(&draft.target_message, &draft.multicasts);
        let target_group = place(&draft.target_group, &draft.groups);
        let links = links_of(alloc, delay, &draft.groups, &draft.places, &draft.links)?;
        let DraftScenario {
            groups,
            places,
            multicasts,
            ..
        } = draft;
        let multicasts = multicasts_of(alloc, &groups, &places, multicasts)?;
        if !has_room(&multicasts, target_message) {
            return Err(ScenarioFault::OverLimit(Limit::Until));
        }
        Ok(Scenario {
            time,
            tick,
            delay,
            groups,
            places,
            links,
            multicasts,
            target_message,
            target_group,
        })
    }

    /// The same scenario, in memory of its own.
    pub fn copy(&self) -> Result<Scenario, AllocError>
        ensures { IfOk result (λ copy. copy ≡ self.now) }
    {
        let groups = copy_names(*self.groups.allocator(), &self.groups)?;
        let places = copy_names(*self.places.allocator(), &self.places)?;
        let links = Vec::from_slice(*self.links.allocator(), &self.links)?;
        let multicasts = copy_multicasts(*self.multicasts.allocator(), &self.multicasts)?;
        Ok(Scenario {
            time: self.time,
            tick: self.tick,
            delay: self.delay,
            groups,
            places,
            links,
            multicasts,
            target_message: self.target_message,
            target_group: self.target_group,
        })
    }

    /// The same scenario with another target, in memory of its own: the latency of that message, which
    /// has room ([`may_be_target`](Self::may_be_target)), is asked at that group, which is one that it
    /// goes to. Fails where memory runs out, and else never.
    pub fn with_target(&self, message: usize, group: usize) -> Result<Scenario, AllocError>
        requires known { message < length self.now.multicasts }
        requires addressed { GoesTo self.now message group }
        requires room { HasRoom (with_target self.now message group) }
        ensures { IfOk result (λ other. other ≡ with_target self.now message group) }
    {
        let same = self.copy()?;
        Ok(Scenario {
            target_message: message,
            target_group: group,
            ..same
        })
    }

    /// Whether a message has room as the target: its window ends at a tick at which one may be issued, and
    /// with the window of each other message it is no longer than one may be. A message that does not
    /// wait has.
    pub fn may_be_target(&self, message: usize) -> bool
        ensures value { result ≡ may_be_target self.now message }
        ensures room { (g : ℕ) → IsTrue result → HasRoom (with_target self.now message g) }
        ensures lawful { IsScenario self.now }
    {
        has_room(&self.multicasts, message)
    }

    /// The widened scenario, in memory of its own: the target is issued at the end of its window, and each
    /// other message may wait longer by as much as the target might (docs/PROTOCOL.md, "A target with a
    /// window"). Fails where memory runs out, and else never.
    pub fn widened(&self) -> Result<Scenario, AllocError>
        ensures { IfOk result (λ other. other ≡ widened self.now) }
    {
        let same = self.copy()?;
        let multicasts = self.widened_multicasts()?;
        Ok(Scenario { multicasts, ..same })
    }

    /// The messages of the widened scenario. Fails where memory runs out, and else never.
    fn widened_multicasts(&self) -> Result<Vec<Multicast>, AllocError>
        ensures { IfOk result (λ copies. copies.items ≡ (widened self.now).multicasts) }
    {
        let alloc = *self.multicasts.allocator();
        let mut multicasts = Vec::with_capacity(alloc, self.multicasts.len())?;
        for message in 0..self.multicasts.len() {
            multicasts.push(self.widened_multicast(message)?)?;
        }
        Ok(multicasts)
    }

    /// A message of the widened scenario. Fails where memory runs out, and else never.
    fn widened_multicast(&self, message: usize) -> Result<Multicast, AllocError>
        requires { message < length self.now.multicasts }
        ensures { IfOk result (λ m. m ≡ message_at (widened self.now) message) }
    {
        let target = self.target_message;
        let wait = u32::from(self.longest_wait(target));
        let same = self.multicasts[message].copy()?;
        if message == target {
            Ok(Multicast {
                at: same.at + wait,
                longest_wait: 0,
                ..same
            })
        } else {
            Ok(Multicast {
                longest_wait: same.longest_wait + wait,
                ..same
            })
        }
    }

    /// Whether time goes in whole ticks, or is real (docs/PROTOCOL.md).
    pub fn time(&self) -> Time
        ensures value { result ≡ self.now.time }
        ensures lawful { IsScenario self.now }
    {
        self.time
    }

    /// How long a tick lasts, where that is known; in whole ticks it never is.
    pub fn tick(&self) -> Option<Duration>
        ensures value { result ≡ self.now.tick }
        ensures lawful { IsScenario self.now }
    {
        self.tick
    }

    /// Whether time is real, or some message may wait, or some group's own stamps take time, or clients are at named
    /// places: then lines that tell the scenario say how time goes (docs/FORMATS.md, "Certificate text").
    pub fn is_timed(&self) -> bool
        ensures value { result ≡ is_timed self.now }
        ensures lawful { IsScenario self.now }
    {
        match self.time {
            Time::Real => true,
            Time::Ticks => {
                some_may_wait(&self.multicasts)
                    || some_are_for_stamps(&self.links)
                    || 0 < self.places.len()
            }
        }
    }

    /// D, the greatest delay of a packet, in ticks.
    pub fn delay(&self) -> u16
        ensures value { result ≡ self.now.delay }
        ensures lawful { IsScenario self.now }
    {
        self.delay
    }

    /// How many groups there are.
    pub fn group_count(&self) -> usize
        ensures value { result ≡ length self.now.groups }
        ensures lawful { IsScenario self.now }
    {
        self.groups.len()
    }

    /// The name of a group.
    pub fn group_name(&self, group: usize) -> &str
        requires { group < length self.now.groups }
        ensures { result.now ≡ group_name_at self.now group }
    {
        self.groups[group].as_str()
    }

    /// How many places have a name.
    pub fn place_count(&self) -> usize
        ensures value { result ≡ length self.now.places }
        ensures lawful { IsScenario self.now }
    {
        self.places.len()
    }

    /// The name of a place, where 0 is the first: a client there is `Sender::Client(1)`.
    pub fn place_name(&self, place: usize) -> &str
        requires { place < length self.now.places }
        ensures { result.now ≡ slice_index_or self.now.places place [] }
    {
        self.places[place].as_str()
    }

    /// How many links there are, but for those between two places whose range is 1 to D.
    pub fn link_count(&self) -> usize
        ensures value { result ≡ length self.now.links }
        ensures lawful { IsScenario self.now }
    {
        self.links.len()
    }

    /// The links, but for those between two places whose range is 1 to D, in ascending order: by sender, clients first, and
    /// then by the group that they lead to.
    pub fn links(&self) -> &[Link]
        ensures value { result.now ≡ self.now.links }
        ensures lawful { IsScenario self.now }
    {
        self.links.as_slice()
    }

    /// Whether what a sender sends to the group `to` takes time: they are two places, or the group has a link to itself.
    pub fn takes_time(&self, sender: Sender, to: usize) -> bool
        ensures { result ≡ takes_time self.now sender to }
    {
        sender != Sender::Group(to) || link_between(&self.links, sender, to).is_some()
    }

    /// Whether the stamp that the group `from` proposes takes time on its way to the group `to`: they are two, or the group
    /// has a link to itself that is for stamps, too.
    pub fn stamp_takes_time(&self, from: usize, to: usize) -> bool
        ensures { result ≡ stamp_takes_time self.now from to }
    {
        from != to || carries_stamps(link_between(&self.links, Sender::Group(from), to))
    }

    /// Whether a sender is the group `to` itself, and the stamps that the group proposes to itself take time. So a link from
    /// the one to the other says of stamps what this scenario does.
    pub fn own_stamps_take_time(&self, sender: Sender, to: usize) -> bool
        ensures { result ≡ own_stamps_take_time self.now sender to }
    {
        match sender {
            Sender::Client(_) => false,
            Sender::Group(group) => group == to && self.stamp_takes_time(group, to),
        }
    }

    /// The least and the greatest delay, in ticks, of what goes from a sender to the group `to`.
    pub fn range_between(&self, sender: Sender, to: usize) -> (u16, u16)
        ensures value { result ≡ range_between self.now sender to }
        ensures lawful { IsScenario self.now }
    {
        match link_between(&self.links, sender, to) {
            Some(link) => (link.least, link.most),
            None => (1, self.delay),
        }
    }

    /// How many messages there are.
    pub fn message_count(&self) -> usize
        ensures value { result ≡ length self.now.multicasts }
        ensures lawful { IsScenario self.now }
    {
        self.multicasts.len()
    }

    /// The name of a message.
    pub fn message_name(&self, message: usize) -> &str
        requires { message < length self.now.multicasts }
        ensures { result.now ≡ (message_at self.now message).name }
    {
        let multicast = &self.multicasts[message];
        multicast.name.as_str()
    }

    /// Who sends a message.
    pub fn sender(&self, message: usize) -> Sender
        requires { message < length self.now.multicasts }
        ensures value { result ≡ (message_at self.now message).sender }
        ensures lawful { IsScenario self.now }
    {
        let multicast = &self.multicasts[message];
        multicast.sender
    }

    /// The numbers of the groups that a message goes to, ascending.
    pub fn destinations(&self, message: usize) -> &[usize]
        requires { message < length self.now.multicasts }
        ensures value { result.now ≡ (message_at self.now message).destinations }
        ensures lawful { IsScenario self.now }
    {
        let multicast = &self.multicasts[message];
        multicast.destinations.as_slice()
    }

    /// The first tick at which a message may be issued: it is issued then, if it does not wait.
    pub fn issue_tick(&self, message: usize) -> u32
        requires { message < length self.now.multicasts }
        ensures value { result ≡ (message_at self.now message).at }
        ensures lawful { IsScenario self.now }
    {
        let multicast = &self.multicasts[message];
        multicast.at
    }

    /// How many ticks a message waits at most, from the first at which it may be issued to its issue; 0
    /// where its issue is known.
    pub fn longest_wait(&self, message: usize) -> u16
        requires { message < length self.now.multicasts }
        ensures value { result ≡ (message_at self.now message).longest_wait }
        ensures lawful { IsScenario self.now }
    {
        let multicast = &self.multicasts[message];
        multicast.longest_wait as u16
    }

    /// The number of the message of which the latency is asked.
    pub fn target_message(&self) -> usize
        ensures value { result ≡ self.now.target_message }
        ensures lawful { IsScenario self.now }
    {
        self.target_message
    }

    /// The number of the group at which the latency of the target is asked.
    pub fn target_group(&self) -> usize
        ensures value { result ≡ self.now.target_group }
        ensures lawful { IsScenario self.now }
    {
        self.target_group
    }
}

/// Whether some of the messages may wait.
fn some_may_wait(multicasts: &[Multicast]) -> bool
    ensures { result ≡ list_any may_wait multicasts.now }
{
    multicasts.iter().any(|m| 0 < m.longest_wait)
}

/// The same names, in memory of their own.
fn copy_names(alloc: Global, names: &[Name]) -> Result<Vec<Name>, AllocError>
    ensures { IfOk result (λ copies. copies.items ≡ names.now) }
{
    let mut copies = Vec::with_capacity(alloc, names.len())?;
    for name in names {
        copies.push(name.copy()?)?;
    }
    Ok(copies)
}

/// The same messages, in memory of their own.
fn copy_multicasts(alloc: Global, multicasts: &[Multicast]) -> Result<Vec<Multicast>, AllocError>
    ensures { IfOk result (λ copies. copies.items ≡ multicasts.now) }
{
    let mut copies = Vec::with_capacity(alloc, multicasts.len())?;
    for multicast in multicasts {
        copies.push(multicast.copy()?)?;
    }
    Ok(copies)
}

/// Whether one of the links is for the own stamps of a group, too.
fn some_are_for_stamps(links: &[Link]) -> bool
    ensures { result ≡ list_any (λ (l : Link). l.stamps) links.now }
{
    links.iter().any(|link| link.stamps)
}

/// Whether there is a link, and it is for the own stamps of a group, too.
fn carries_stamps(link: Option<&Link>) -> bool
    ensures { result ≡ option_map_or (λ (l : Link). l.stamps) (option_copied link.entry) false }
{
    match link {
        Some(link) => link.stamps,
        None => false,
    }
}
