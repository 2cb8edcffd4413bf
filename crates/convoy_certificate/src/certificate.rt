ghost use Rattle.std.specs.Prelude.{◌≡◌};
ghost use Rattle.std.specs.List.{All, list_any};
ghost use Rattle.convoy_packets.specs.Assignment.{IsAssignment};
ghost use Rattle.convoy_certificate.specs.Certificate.{IsNode, IsCertificate, Certificate};
ghost use Rattle.convoy_certificate.specs.Text.{is_stamp, is_lead, decides_ties, target_waits, timed_version, version_for, version_of};

use super::node::Node;
use super::version::Version;
use convoy_packets::{Instance, Schedule};
use convoy_scenario::lookup::may_wait;
use convoy_scenario::{Scenario, Time};
use std::marker::Model;

/// How many nodes a certificate that is read has at most.
pub const MOST_NODES: usize = 4_000_000;

/// How many of the nodes of a certificate that is read are lead leaves at most.
pub const MOST_LEADS: usize = 100_000;

/// How many bytes the text of a certificate has at most, where it has at most `MOST_NODES` nodes.
pub const LONGEST_TEXT: usize = 67_108_864;

/// What a certificate says: a scenario, the greatest latency of its target, in ticks, a schedule that
/// has it, and the nodes of a tree that shows that no other schedule has a greater one.
///
/// The schedule is an assignment of the scenario. Where time goes in whole ticks, no message may wait,
/// no group's own stamps take time and no place has a name, each split names a packet number from 0 to
/// `GREATEST_UNTIMED_PACKET` and cuts after 1 to `GREATEST_WHOLE_DELAY` ticks; else it names one from 0
/// to `GREATEST_PACKET`, and cuts after 0 to `GREATEST_DELAY` ticks. Splits by order are of real time
/// alone, each of two numbers of moments that ascend, and stamp leaves of whole ticks alone. Nothing else
/// is known of the nodes: they may be no tree, and there may be none.
#[derive(Drop)]
pub struct Certificate {
    instance: Instance,
    latency: u32,
    schedule: Schedule,
    nodes: Vec<Node>,
}

impl Model for Certificate {
    ghost Value = { Certificate };

    ghost view = { λ c.
        record { scenario = c.instance; latency = c.latency; schedule = c.schedule; nodes = c.nodes.items } };

    ghost invariant = { λ c. IsCertificate (view c) };
}

impl Certificate {
    /// A certificate of these parts.
    pub fn new(
        instance: Instance,
        latency: u32,
        schedule: Schedule,
        nodes: Vec<Node>,
    ) -> Certificate
        requires assigned { IsAssignment instance schedule }
        requires nodes { All (IsNode instance) nodes.items }
        ensures { result ≡ record {
          scenario = instance;
          latency = latency;
          schedule = schedule;
          nodes = nodes.items;
        } }
    {
        Certificate {
            instance,
            latency,
            schedule,
            nodes,
        }
    }

    /// The scenario.
    pub fn scenario(&self) -> &Scenario
        ensures { result.now ≡ self.now.scenario }
    {
        self.instance.scenario()
    }

    /// The scenario with its packets.
    pub fn instance(&self) -> &Instance
        ensures { result.now ≡ self.now.scenario }
    {
        &self.instance
    }

    /// The version in which the certificate is written: `Five` where its scenario's target may wait, or time is real
    /// there and its tree has a split by order or a point leaf. Else `Four` where time is real, one of the messages
    /// may wait, some group's own stamps take time or places have names; else `Three` where the tree has a lead leaf;
    /// else `Two` where the scenario has a link or the tree a stamp leaf; else `One` (docs/FORMATS.md, "Certificate
    /// text").
    pub fn version(&self) -> Version
        ensures { result ≡ version_of self.now }
    {
        let scenario = self.scenario();
        version_for(
            scenario.time(),
            scenario.is_timed(),
            target_waits(scenario),
            scenario.link_count(),
            &self.nodes,
        )
    }

    /// The stated latency, in ticks.
    pub fn latency(&self) -> u32
        ensures { result ≡ self.now.latency }
    {
        self.latency
    }

    /// The schedule.
    pub fn schedule(&self) -> &Schedule
        ensures value { result.now ≡ self.now.schedule }
        ensures lawful { IsCertificate self.now }
    {
        &self.schedule
    }

    /// The nodes, in their order.
    pub fn nodes(&self) -> &[Node]
        ensures value { result.now ≡ self.now.nodes }
        ensures lawful { IsCertificate self.now }
    {
        self.nodes.as_slice()
    }

    /// The instance, the stated latency in ticks, the schedule and the nodes, none of them copied.
    pub fn into_parts(self) -> (Instance, u32, Schedule, Vec<Node>)
        ensures instance { result.0 ≡ self.scenario }
        ensures latency { result.1 ≡ self.latency }
        ensures schedule { result.2 ≡ self.schedule }
        ensures nodes { result.3.items ≡ self.nodes }
    {
        let Certificate {
            instance,
            latency,
            schedule,
            nodes,
        } = self;
        (instance, latency, schedule, nodes)
    }
}

/// Whether the target may wait.
pub(crate) fn target_waits(scenario: &Scenario) -> bool
    ensures { result ≡ target_waits scenario.now }
{
    may_wait(scenario, scenario.target_message())
}

/// The version for so many links and for these nodes, where time goes so, the text says so or not, and
/// the target may wait or not.
pub(crate) fn version_for(
    time: Time,
    timed: bool,
    waits: bool,
    links: usize,
    nodes: &[Node],
) -> Version
    ensures { result ≡ version_for time timed waits links nodes.now }
{
    if timed {
        timed_version(time, waits, nodes)
    } else if has_lead(nodes) {
        Version::Three
    } else if links == 0 && !has_stamp(nodes) {
        Version::One
    } else {
        Version::Two
    }
}

/// The version for these nodes, where the text says how time goes, and the target may wait or not.
fn timed_version(time: Time, waits: bool, nodes: &[Node]) -> Version
    ensures { result ≡ timed_version time waits nodes.now }
{
    if waits {
        return Version::Five;
    }
    match time {
        Time::Real if decide_ties(nodes) => Version::Five,
        _ => Version::Four,
    }
}

/// Whether one of the nodes decides ties.
fn decide_ties(nodes: &[Node]) -> bool
    ensures { result ≡ list_any decides_ties nodes.now }
{
    nodes.iter().any(|node| decides_ties(*node))
}

/// Whether a node is a split by order or a point leaf.
fn decides_ties(node: Node) -> bool
    ensures { result ≡ decides_ties node }
{
    match node {
        Node::Order { .. } | Node::Point => true,
        Node::Split { .. } | Node::Bound | Node::Stamp | Node::Lead { .. } => false,
    }
}

/// Whether one of the nodes is a stamp leaf.
fn has_stamp(nodes: &[Node]) -> bool
    ensures { result ≡ list_any is_stamp nodes.now }
{
    nodes.iter().any(|node| is_stamp(*node))
}

fn is_stamp(node: Node) -> bool
    ensures { result ≡ is_stamp node }
{
    match node {
        Node::Stamp => true,
        Node::Split { .. } | Node::Order { .. } | Node::Bound | Node::Point | Node::Lead { .. } =>
            false,
    }
}

/// Whether one of the nodes is a lead leaf.
fn has_lead(nodes: &[Node]) -> bool
    ensures { result ≡ list_any is_lead nodes.now }
{
    nodes.iter().any(|node| is_lead(*node))
}

/// Whether a node is a lead leaf.
pub(crate) fn is_lead(node: Node) -> bool
    ensures { result ≡ is_lead node }
{
    match node {
        Node::Lead { .. } => true,
        Node::Split { .. } | Node::Order { .. } | Node::Bound | Node::Point | Node::Stamp => {
            false
        }
    }
}
