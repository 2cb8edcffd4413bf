ghost use Rattle.std.specs.Prelude.{◌≡◌};
ghost use Rattle.convoy_picture.specs.Pictures.{issued_at};

use super::sheet::lane_of;
use crate::Picture;
use convoy_scenario::lookup::sender_of;
use convoy_scenario::naming::message_name;
use convoy_scenario::{Scenario, Sender};
use convoy_timeline::{Entry, EntryKind, stamp_text, ticks_text};
use convoy_times::Measure;
use std::alloc::{AllocError, Global};

/// What a mark on a lane stands for.
#[derive(Clone, Copy, PartialEq, Eq)]
pub enum MarkKind {
    /// The message is issued.
    Issue,
    /// The message arrives at the group.
    Arrival,
    /// The group commits the message.
    Commit,
    /// From here on the target waits.
    Wait,
    /// The group delivers the message.
    Delivery,
}

impl MarkKind {
    /// Whether its words stand above the lane.
    pub fn is_above(self) -> bool {
        match self {
            MarkKind::Issue | MarkKind::Arrival => true,
            MarkKind::Commit | MarkKind::Wait | MarkKind::Delivery => false,
        }
    }
}

/// A mark on a lane.
#[derive(Clone, Copy)]
pub struct Mark {
    pub kind: MarkKind,
    pub message: usize,
    pub tick: u32,
    /// The number of the lane that it is on.
    pub lane: usize,
}

/// The mark of a message where it is issued.
pub fn issue_mark(scenario: &Scenario, picture: &Picture, message: usize) -> Mark {
    Mark {
        kind: MarkKind::Issue,
        message,
        tick: issue_tick(picture, message),
        lane: lane_of(sender_of(scenario, message)),
    }
}

/// The tick at which a message is issued; 0 where the picture has no such message.
pub(crate) fn issue_tick(picture: &Picture, message: usize) -> u32
    ensures { result ≡ issued_at picture.now message }
{
    picture.issues().get(message).copied().unwrap_or(0)
}

/// The mark of what happens at a group.
pub fn entry_mark(entry: &Entry) -> Mark {
    let kind = match entry.kind {
        EntryKind::Propose => MarkKind::Arrival,
        EntryKind::Commit => MarkKind::Commit,
        EntryKind::Deliver => MarkKind::Delivery,
    };
    Mark {
        kind,
        message: entry.message,
        tick: entry.tick,
        lane: lane_of(Sender::Group(entry.group)),
    }
}

/// The mark from which on the target waits at its group; none where it is delivered as it is committed.
pub fn wait_mark(scenario: &Scenario, picture: &Picture) -> Option<Mark> {
    let why = picture.why();
    if why.committed >= why.delivered {
        return None;
    }
    Some(Mark {
        kind: MarkKind::Wait,
        message: scenario.target_message(),
        tick: why.committed,
        lane: lane_of(Sender::Group(scenario.target_group())),
    })
}

/// The words beside the mark of a message where it is issued.
pub fn issue_label(
    alloc: Global,
    scenario: &Scenario,
    message: usize,
) -> Result<String, AllocError> {
    let name = message_name(scenario, message);
    format!(in alloc; "{name} issued")
}

/// The words beside the mark of what happens at a group.
pub fn entry_label(
    alloc: Global,
    scenario: &Scenario,
    entry: &Entry,
) -> Result<String, AllocError> {
    let name = message_name(scenario, entry.message);
    let stamp = stamp_text(alloc, scenario, entry.stamp)?;
    match entry.kind {
        EntryKind::Propose => format!(in alloc; "{name} {stamp}"),
        EntryKind::Commit => format!(in alloc; "{name} committed {stamp}"),
        EntryKind::Deliver => format!(in alloc; "{name} delivered"),
    }
}

/// The words beside the mark from which on the target waits, with that time where there is a measure.
pub fn wait_label(
    alloc: Global,
    scenario: &Scenario,
    measure: &Option<Measure>,
    picture: &Picture,
) -> Result<String, AllocError> {
    let why = picture.why();
    let name = message_name(scenario, scenario.target_message());
    let awaited = message_name(scenario, why.last.message);
    let ticks = why.delivered.saturating_sub(why.committed);
    let long = ticks_text(alloc, *measure, ticks)?;
    format!(in alloc; "{name} waits {long} for {awaited}")
}
