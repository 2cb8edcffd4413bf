ghost use Rattle.std.specs.Prelude.{option_map};
ghost use Rattle.convoy_toml.specs.Shape.{WrittenMessage, LinkEnds, WrittenLink, WrittenAcceptance, WrittenAgreement, WrittenTarget, WrittenScenario, Written};

use convoy_scenario::{Duration, Name, Time};
use std::marker::Model;

/// A time as it is written: a number of ticks, within the limits or not, or a duration.
#[derive(Clone, Copy)]
pub enum WrittenTime {
    Count(i64),
    Lasting(Duration),
}

/// A least and a greatest time as they are written, be they a range or not.
#[derive(Clone, Copy)]
pub struct WrittenRange {
    pub least: WrittenTime,
    pub most: WrittenTime,
}

/// A message as it is written, with the names of groups in place of their numbers.
#[derive(Drop)]
pub struct WrittenMulticast {
    pub name: Name,
    /// The group that sends it, or the place of the client that does; none for a client of no named place.
    pub sender: Option<Name>,
    /// The groups that it goes to, in the order in which they are written.
    pub to: Vec<Name>,
    /// The first time at which it may be issued.
    pub at: WrittenTime,
    /// The last time at which it may be issued, where that is written: else its issue is known.
    pub until: Option<WrittenTime>,
    /// The most that its latency may be, where it has a deadline.
    pub within: Option<WrittenTime>,
    /// How much longer than a link says its packets take from its sender, where that is written.
    pub longer: Option<WrittenRange>,
}

impl Model for WrittenMulticast {
    ghost Value = { WrittenMessage };

    ghost view = { λ m. record { name = m.name; sender = m.sender; to = m.to.items; at = m.at; until = m.until; within = m.within; longer = m.longer } };
}

/// Where the links of a table lead.
#[derive(Drop)]
pub struct LinkEnds {
    /// The groups and places that send, or none where the clients of no named place do.
    pub senders: Option<Vec<Name>>,
    /// The groups that they lead to.
    pub to: Vec<Name>,
    /// Whether they lead back as well, which those of clients that are not named do not.
    pub both: bool,
}

impl Model for LinkEnds {
    ghost Value = { LinkEnds };

    ghost view = { λ e.
        record { senders = option_map (λ names. names.items) e.senders; to = e.to.items; both = e.both } };
}

/// A table of links as it is written: what goes by one of them takes `least` to `most`, be these a range
/// or not.
#[derive(Drop)]
pub struct WrittenLink {
    /// Where they lead.
    pub ends: LinkEnds,
    /// The least delay.
    pub least: WrittenTime,
    /// The greatest delay.
    pub most: WrittenTime,
    /// Whether a group's own stamps go by those from a group to itself, too.
    pub stamps: bool,
}

impl Model for WrittenLink {
    ghost Value = { WrittenLink };

    ghost view = { λ l. record { ends = l.ends; least = l.least; most = l.most; stamps = l.stamps } };
}

/// What the replicas of some groups need to agree as it is written, be it a range or not.
#[derive(Drop)]
pub struct WrittenAgreement {
    /// The groups.
    pub groups: Vec<Name>,
    /// The least time from an entry given to the leader until it is applied there.
    pub least: WrittenTime,
    /// The greatest such time.
    pub most: WrittenTime,
    /// Whether they agree twice: once more before a message is committed.
    pub twice: bool,
}

impl Model for WrittenAgreement {
    ghost Value = { WrittenAgreement };

    ghost view = { λ a. record { groups = a.groups.items; least = a.least; most = a.most; twice = a.twice } };
}

/// Groups that are replicated by white box as it is written.
#[derive(Drop)]
pub struct WrittenAcceptance {
    /// The groups.
    pub groups: Vec<Name>,
    /// What a packet between the leader of one of them and its replicas takes at most.
    pub replicas: WrittenTime,
}

impl Model for WrittenAcceptance {
    ghost Value = { WrittenAcceptance };

    ghost view = { λ a. record { groups = a.groups.items; replicas = a.replicas } };
}

/// A target as it is written.
#[derive(Drop)]
pub struct WrittenTarget {
    /// The name of the message of which the latency is asked.
    pub message: Name,
    /// The name of the group at which it is asked.
    pub group: Name,
}

impl Model for WrittenTarget {
    ghost Value = { WrittenTarget };

    ghost view = { λ t. record { message = t.message; group = t.group } };
}

/// A scenario as it is written, before its times are put into ticks.
#[derive(Drop)]
pub struct WrittenScenario {
    /// Whether time goes in whole ticks, or is real.
    pub time: Time,
    /// The length of a tick, where it is written: above 0.
    pub tick: Option<Duration>,
    /// D, the greatest delay of a packet, where it is written.
    pub delay: Option<WrittenTime>,
    /// The least delay of what goes by no link, where it is written.
    pub least: Option<WrittenTime>,
    /// The names of the groups, in the order of their numbers.
    pub groups: Vec<Name>,
    /// The names of the places at which clients are, in the order of their numbers.
    pub places: Vec<Name>,
    /// The tables of links, in their order.
    pub links: Vec<WrittenLink>,
    /// What the replicas of groups need to agree, in the order of the tables that say so.
    pub agreements: Vec<WrittenAgreement>,
    /// The messages, in the order of their numbers.
    pub multicasts: Vec<WrittenMulticast>,
    /// The name of the message of which the latency is asked.
    pub target_message: Name,
    /// The name of the group at which it is asked.
    pub target_group: Name,
}

impl Model for WrittenScenario {
    ghost Value = { WrittenScenario };

    ghost view = { λ s. record {
      time = s.time;
      tick = s.tick;
      delay = s.delay;
      least = s.least;
      groups = s.groups.items;
      places = s.places.items;
      links = s.links.items;
      agreements = s.agreements.items;
      messages = s.multicasts.items;
      target_message = s.target_message;
      target_group = s.target_group;
    } };
}

/// What is written in a scenario text: the scenario, and the schedule and the order of its ties where
/// they are given.
#[derive(Drop)]
pub struct WrittenInput {
    pub scenario: WrittenScenario,
    /// The members of the array `schedule`, whatever they are.
    pub schedule: Option<Vec<i64>>,
    /// The members of the array `order`, whatever they are.
    pub order: Option<Vec<i64>>,
}

impl Model for WrittenInput {
    ghost Value = { Written };

    ghost view = { λ i. record {
      scenario = i.scenario;
      schedule = option_map (λ delays. delays.items) i.schedule;
      order = option_map (λ ranks. ranks.items) i.order;
    } };
}
