ghost use Rattle.std.specs.Prelude.{◌≡◌, map, option_map, IfOk};

use convoy_draft::{DraftLink, DraftMulticast, DraftScenario, Duration, Name, Time};
use std::alloc::{AllocError, Global};
use std::marker::Model;

/// A message in plain parts: groups by name, whether there are such groups or not.
#[derive(Drop)]
pub struct MessageParts<'a> {
    pub name: &'a str,
    /// The group that sends it, or the place of the client that does; none for a client of no named place.
    pub sender: Option<&'a str>,
    /// The groups that it goes to, in any order.
    pub to: &'a [&'a str],
    /// The first tick at which it may be issued.
    pub at: u32,
    /// The last tick at which it may be issued: `at` where its issue is known.
    pub until: u32,
}

impl<'a> Model for MessageParts<'a> {
    ghost use Rattle.std.specs.Prelude.{map, pos, option_map};
    ghost use Rattle.convoy_draft.specs.Draft.{DraftMessage};

    ghost Value = { DraftMessage };

    ghost view = { λ m. record {
      name = m.name.now;
      sender = option_map (λ name. name.now) m.sender;
      to = map (λ name. name.now) m.to.now;
      at = pos m.at;
      until = pos m.until;
    } };
}

/// A link in plain parts: what goes from the sender to the group `to` takes `least` to `most` ticks.
#[derive(Drop)]
pub struct LinkParts<'a> {
    /// The group that sends, or the place of the clients that do; none for clients of no named place.
    pub sender: Option<&'a str>,
    pub to: &'a str,
    /// The least delay, in ticks.
    pub least: u32,
    /// The greatest delay, in ticks.
    pub most: u32,
    /// Of a link from a group to itself: whether the group's own stamps go by it, too.
    pub stamps: bool,
}

impl<'a> Model for LinkParts<'a> {
    ghost use Rattle.std.specs.Prelude.{pos, option_map};
    ghost use Rattle.convoy_draft.specs.Draft.{DraftLink};

    ghost Value = { DraftLink };

    ghost view = { λ l. record {
      sender = option_map (λ name. name.now) l.sender;
      to = l.to.now;
      least = pos l.least;
      most = pos l.most;
      stamps = l.stamps;
    } };
}

/// A scenario in plain parts, well formed or not.
#[derive(Drop)]
pub struct ScenarioParts<'a> {
    /// Whether time goes in whole ticks, or is real.
    pub time: Time,
    /// How long a tick lasts, where that is known and time is real.
    pub tick: Option<Duration>,
    /// The greatest delay of a packet, in ticks.
    pub delay: u32,
    /// The names of the groups.
    pub groups: &'a [&'a str],
    /// The names of the places at which clients are.
    pub places: &'a [&'a str],
    /// The links, in any order; between places without a link a packet takes 1 to `delay` ticks, and what a group sends to
    /// itself by none takes no time.
    pub links: &'a [LinkParts<'a>],
    /// The messages, in the order of their numbers.
    pub messages: &'a [MessageParts<'a>],
    /// The name of the message of which the latency is asked.
    pub target_message: &'a str,
    /// The name of the group at which it is asked.
    pub target_group: &'a str,
}

impl<'a> Model for ScenarioParts<'a> {
    ghost use Rattle.std.specs.Prelude.{map, pos};
    ghost use Rattle.convoy_draft.specs.Draft.{Draft};

    ghost Value = { Draft };

    ghost view = { λ s. record {
      time = s.time;
      tick = s.tick;
      delay = pos s.delay;
      groups = map (λ name. name.now) s.groups.now;
      places = map (λ name. name.now) s.places.now;
      links = s.links.now;
      messages = s.messages.now;
      target_message = s.target_message.now;
      target_group = s.target_group.now;
    } };
}

impl<'a> ScenarioParts<'a> {
    /// The same parts in memory of their own.
    pub(crate) fn draft(&self, alloc: Global) -> Result<DraftScenario, AllocError>
        ensures { IfOk result (λ draft. draft ≡ self.now) }
    {
        Ok(DraftScenario {
            time: self.time,
            tick: self.tick,
            delay: i64::from(self.delay),
            groups: names_of(alloc, self.groups)?,
            places: names_of(alloc, self.places)?,
            links: links_of(alloc, self.links)?,
            multicasts: messages_of(alloc, self.messages)?,
            target_message: Name::new(alloc, self.target_message)?,
            target_group: Name::new(alloc, self.target_group)?,
        })
    }
}

fn names_of(alloc: Global, texts: &[&str]) -> Result<Vec<Name>, AllocError>
    ensures { IfOk result (λ names. names.items ≡ map (λ text. text.now) texts.now) }
{
    let mut names = Vec::new(alloc);
    for text in texts {
        names.push(Name::new(alloc, text)?)?;
    }
    Ok(names)
}

fn sender_of(alloc: Global, sender: Option<&str>) -> Result<Option<Name>, AllocError>
    ensures { IfOk result (λ name. name ≡ option_map (λ text. text.now) sender.entry) }
{
    match sender {
        Some(text) => Ok(Some(Name::new(alloc, text)?)),
        None => Ok(None),
    }
}

fn links_of(alloc: Global, parts: &[LinkParts]) -> Result<Vec<DraftLink>, AllocError>
    ensures { IfOk result (λ links. links.items ≡ parts.now) }
{
    let mut links = Vec::new(alloc);
    for link in parts {
        links.push(DraftLink {
            sender: sender_of(alloc, link.sender)?,
            to: Name::new(alloc, link.to)?,
            least: i64::from(link.least),
            most: i64::from(link.most),
            stamps: link.stamps,
        })?;
    }
    Ok(links)
}

fn messages_of(alloc: Global, parts: &[MessageParts]) -> Result<Vec<DraftMulticast>, AllocError>
    ensures { IfOk result (λ messages. messages.items ≡ parts.now) }
{
    let mut messages = Vec::new(alloc);
    for message in parts {
        messages.push(DraftMulticast {
            name: Name::new(alloc, message.name)?,
            sender: sender_of(alloc, message.sender)?,
            to: names_of(alloc, message.to)?,
            at: i64::from(message.at),
            until: i64::from(message.until),
        })?;
    }
    Ok(messages)
}
