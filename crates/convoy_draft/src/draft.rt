ghost use Rattle.convoy_draft.specs.Draft.{DraftMessage, DraftLink, Draft};

use super::duration::Duration;
use super::name::Name;
use super::time::Time;
use std::marker::Model;

/// A message as it is written, with the names of groups in place of their numbers.
#[derive(Drop)]
pub struct DraftMulticast {
    pub name: Name,
    /// The group that sends it, or the place of the client that does; none for a client of no named place.
    pub sender: Option<Name>,
    /// The groups that it goes to, in the order in which they are written.
    pub to: Vec<Name>,
    /// The first tick at which it may be issued, within the limits or not.
    pub at: i64,
    /// The last tick at which it may be issued: `at` where its issue is known.
    pub until: i64,
}

impl Model for DraftMulticast {
    ghost Value = { DraftMessage };

    ghost view = { λ m. record { name = m.name; sender = m.sender; to = m.to.items; at = m.at; until = m.until } };
}

/// A link as it is written: what goes from the sender to the group `to` takes `least` to `most` ticks,
/// be these a range or not.
#[derive(Drop)]
pub struct DraftLink {
    /// The group that sends, or the place of the clients that do; none for clients of no named place.
    pub sender: Option<Name>,
    pub to: Name,
    /// The least delay, in ticks.
    pub least: i64,
    /// The greatest delay, in ticks.
    pub most: i64,
    /// Of a link from a group to itself: whether the group's own stamps go by it, too, and not just the messages that the
    /// group sends to itself. Stamps to other groups go by links in any case.
    pub stamps: bool,
}

impl Model for DraftLink {
    ghost Value = { DraftLink };

    ghost view = { λ l. record { sender = l.sender; to = l.to; least = l.least; most = l.most; stamps = l.stamps } };
}

/// A scenario as it is written, with names in place of numbers, before any rule is asked of it
/// (docs/FORMATS.md, "Scenario text"). `Scenario::from_draft` makes the scenario of it.
#[derive(Drop)]
pub struct DraftScenario {
    /// Whether time goes in whole ticks, or is real.
    pub time: Time,
    /// How long a tick lasts, where that is known.
    pub tick: Option<Duration>,
    /// D, the greatest delay of a packet, in ticks.
    pub delay: i64,
    /// The names of the groups, in the order of their numbers.
    pub groups: Vec<Name>,
    /// The names of the places at which clients are, in the order of their numbers. Nothing goes to a place.
    pub places: Vec<Name>,
    /// The links, in any order.
    pub links: Vec<DraftLink>,
    /// The messages, in the order of their numbers.
    pub multicasts: Vec<DraftMulticast>,
    /// The name of the message of which the latency is asked.
    pub target_message: Name,
    /// The name of the group at which it is asked.
    pub target_group: Name,
}

impl Model for DraftScenario {
    ghost Value = { Draft };

    ghost view = { λ d. record {
      time = d.time;
      tick = d.tick;
      delay = d.delay;
      groups = d.groups.items;
      places = d.places.items;
      links = d.links.items;
      messages = d.multicasts.items;
      target_message = d.target_message;
      target_group = d.target_group;
    } };
}
