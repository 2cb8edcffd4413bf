//! The links of a trace.

ghost use Rattle.std.specs.Prelude.{◌≡◌, ◌≤◌, ◌<◌, [], IfOk, IfSome, OnOk, Some, length, position, All};
ghost use Rattle.std.specs.Result.{result_map_both};
ghost use Rattle.convoy_draft.specs.declared.duration.TheConstants.{LONGEST_DURATION};
ghost use Rattle.convoy_scenario.specs.Memory.{IsUnlessMemory};
ghost use Rattle.convoy_traces.specs.declared.fault.TraceFault.TheVariants.{Memory};
ghost use Rattle.convoy_trace_ranges.specs.Links.{goes_by, joined, link_of, links_from, links_of_text, some_of, with_came, with_packet, with_packet_of, IsLink};

use super::entry::Entry;
use super::packets::{Packet, packet_of};
use super::reading::entries_of;
use super::traced::Traced;
use convoy_draft::{AllocResult, Name, TimeUnit};
use convoy_ranges::MOST_PAIRS;
use convoy_traces::{Cause, TraceFault};
use std::alloc::{AllocError, Global};
use std::marker::Model;

/// All packets of a trace from one place to one group.
#[derive(Drop)]
pub struct Link {
    from: Name,
    to: Name,
    least: u64,
    greatest: u64,
    line: usize,
    delays: Vec<u64>,
}

impl Model for Link {
    ghost use Rattle.convoy_trace_ranges.specs.Links.{IsLink, Link};

    ghost Value = { Link };

    ghost view = { λ l. record {
      from = l.from;
      to = l.to;
      least = l.least;
      greatest = l.greatest;
      line = l.line;
      delays = l.delays.items;
    } };

    ghost invariant = { λ l. IsLink l.least l.greatest l.delays.items };
}

impl Link {
    /// From where; no text where clients send.
    pub fn from(&self) -> &Name
        ensures { result.now ≡ self.now.from }
    {
        &self.from
    }

    /// To which group.
    pub fn to(&self) -> &Name
        ensures { result.now ≡ self.now.to }
    {
        &self.to
    }

    /// How many nanoseconds a packet took at least.
    pub fn least(&self) -> u64
        ensures value { result ≡ self.now.least }
        ensures lawful { IsLink self.now.least self.now.greatest self.now.delays }
    {
        self.least
    }

    /// How many nanoseconds a packet took at most.
    pub fn greatest(&self) -> u64
        ensures value { result ≡ self.now.greatest }
        ensures lawful { IsLink self.now.least self.now.greatest self.now.delays }
    {
        self.greatest
    }

    /// The line that tells of the first packet that took the most.
    pub fn line(&self) -> usize
        ensures { result ≡ self.now.line }
    {
        self.line
    }

    /// How many nanoseconds each packet took, in the order of the trace.
    pub fn delays(&self) -> &[u64]
        ensures value { result.now ≡ self.now.delays }
        ensures lawful { IsLink self.now.least self.now.greatest self.now.delays }
    {
        self.delays.as_slice()
    }

    /// The link of one packet. Fails where memory runs out, and else never.
    fn of(alloc: Global, packet: &Packet) -> AllocResult<Link>
        ensures { IfOk result (λ link. link ≡ link_of packet.now) }
    {
        let (from, to) = (packet.from.copy()?, packet.to.copy()?);
        let mut delays = Vec::new(alloc);
        delays.push(packet.delay)?;
        Ok(Link {
            from,
            to,
            least: packet.delay,
            greatest: packet.delay,
            line: packet.line,
            delays,
        })
    }

    /// Adds a packet. Fails where memory runs out, and else never; nothing is said of the link then.
    fn join(&mut self, packet: &Packet) -> Result<(), AllocError>
        ensures { OnOk result (self.new ≡ joined self.old packet.now) }
    {
        self.delays.push(packet.delay)?;
        if packet.delay < self.least {
            self.least = packet.delay;
        }
        if self.greatest < packet.delay {
            self.greatest = packet.delay;
            self.line = packet.line;
        }
        Ok(())
    }
}

/// Whether the packet goes by the link.
fn goes_by(packet: &Packet, link: &Link) -> bool
    ensures { result ≡ goes_by packet.now link.now }
{
    link.from.is_same(packet.from) && link.to.is_same(packet.to)
}

/// The place of the first of these links by which the packet goes.
fn place_of(links: &[Link], packet: &Packet) -> Option<usize>
    ensures value { result ≡ position (goes_by packet.now) links.now }
    ensures within { IfSome result (λ place. place < length links.now) }
{
    links.iter().position(|link| goes_by(packet, link))
}

/// Adds a packet to its link, or puts its link at the end. Fails where memory runs out, and else never; nothing is said of
/// the links then.
fn put(alloc: Global, links: &mut Vec<Link>, packet: &Packet) -> Result<(), AllocError>
    ensures { OnOk result (links.new.items ≡ with_packet links.old.items packet.now) }
{
    match place_of(links, packet) {
        Some(place) => links[place].join(packet),
        None => {
            let link = Link::of(alloc, packet)?;
            Ok(links.push(link)?)
        }
    }
}

/// The same, unless there are too many links then.
fn put_within(alloc: Global, links: &mut Vec<Link>, packet: &Packet) -> Result<(), TraceFault>
    ensures { IsUnlessMemory Memory (with_came links.old.items (Some packet.now))
        (result_map_both (λ _. links.new.items) (λ fault. fault) result) }
{
    put(alloc, links, packet)?;
    if links.len() > MOST_PAIRS {
        return Err(TraceFault::Line(packet.line, Cause::TooMany));
    }
    Ok(())
}

/// Adds the packet that came with an entry, where it is told that it was sent.
fn put_came(
    alloc: Global,
    told: &Traced,
    one: &Entry,
    links: &mut Vec<Link>,
) -> Result<(), TraceFault>
    ensures { IsUnlessMemory Memory (with_packet_of told.now links.old.items one.now)
        (result_map_both (λ _. links.new.items) (λ fault. fault) result) }
{
    match packet_of(alloc, told, one)? {
        Some(packet) => put_within(alloc, links, &packet),
        None => Ok(()),
    }
}

/// The links of what is told.
fn links_of(alloc: Global, told: &Traced) -> Result<Vec<Link>, TraceFault>
    ensures { IsUnlessMemory Memory (links_from told.now [] told.now)
        (result_map_both (λ links. links.items) (λ fault. fault) result) }
{
    let mut links = Vec::new(alloc);
    for one in told.entries() {
        put_came(alloc, told, one, &mut links)?;
    }
    Ok(links)
}

/// The links of a trace, in the order in which it first tells that a packet of each came (docs/FORMATS.md, "What `ranges`
/// writes"). Numbers without a unit are of that unit; without one they are numbers of ticks, each told as a second.
///
/// The faults are, in this order: the text has nothing in it; the first line that has one, by its event, and its cells in
/// the order message, group, from, time, and an event that an earlier line tells last; the first packet that came before it
/// was sent, or is of a link too many; that there is no packet; and that memory ran out.
#[tactic(auto, unfolding(crate::specs::Links::links_of_text))]
pub fn links_of_text(
    alloc: Global,
    unit: Option<TimeUnit>,
    text: &[u8],
) -> Result<Vec<Link>, TraceFault>
    ensures { IsUnlessMemory Memory (links_of_text unit text.now)
        (result_map_both (λ links. links.items) (λ fault. fault) result) }
{
    let told = entries_of(alloc, unit, text)?;
    let links = links_of(alloc, &told)?;
    if links.is_empty() {
        return Err(TraceFault::NoPacket);
    }
    Ok(links)
}
