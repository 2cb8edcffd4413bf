//! The packets of which a trace tells when they were sent and when they came.

ghost use Rattle.std.specs.Prelude.{◌≡◌, ◌≤◌, IfOk, IfSome, string_bytes};
ghost use Rattle.std.specs.Option.{option_map};
ghost use Rattle.convoy_scenario.specs.Memory.{IsUnlessMemory};
ghost use Rattle.convoy_traces.specs.declared.fault.TraceFault.TheVariants.{Memory};
ghost use Rattle.convoy_trace_ranges.specs.Packets.{packet_between, packet_of, sending_of, sent_of};

use super::entry::{Entry, Kind};
use super::traced::{Traced, mark_by};
use convoy_draft::{AllocResult, Name};
use convoy_traces::{Cause, TraceFault};
use std::alloc::{AllocError, Global};
use std::marker::Model;

/// A packet of which it is told when it was sent and when it came.
#[derive(Drop)]
pub(crate) struct Packet<'a> {
    /// The line that tells that it came.
    pub(crate) line: usize,
    /// From where; no text where a client sent it.
    pub(crate) from: &'a Name,
    pub(crate) to: &'a Name,
    /// How many nanoseconds it took.
    pub(crate) delay: u64,
}

impl<'a> Model for Packet<'a> {
    ghost use Rattle.std.specs.Prelude.{◌≤◌};
    ghost use Rattle.convoy_draft.specs.declared.duration.TheConstants.{LONGEST_DURATION};
    ghost use Rattle.convoy_trace_ranges.specs.Packets.{Packet};

    ghost Value = { Packet };

    ghost view = { λ p. record { line = p.line; from = p.from.now; to = p.to.now; delay = p.delay } };

    ghost invariant = { λ p. p.delay ≤ LONGEST_DURATION };
}

/// The mark of the event with which a packet was sent that comes with an event of that kind; none comes with an issue.
/// Fails where memory runs out, and else never.
fn sending_of(alloc: Global, one: &Entry) -> AllocResult<Option<String>>
    ensures { IfOk result (λ mark. option_map string_bytes mark
        ≡ sending_of one.now.kind one.now.from one.now.message) }
{
    let message = one.message.as_str();
    match one.kind {
        Kind::Issue => Ok(None),
        Kind::Arrival => Ok(Some(mark_by(alloc, Kind::Issue, "", "", message)?)),
        Kind::Proposal => {
            let from = one.from.as_str();
            Ok(Some(mark_by(alloc, Kind::Arrival, from, "", message)?))
        }
    }
}

/// The entry that tells that the packet was sent which came with this one. Fails where memory runs out, and else never.
fn sent_of<'a>(
    alloc: Global,
    told: &'a Traced,
    one: &Entry,
) -> Result<Option<&'a Entry>, AllocError>
    ensures { IfOk result (λ sent. option_map (λ e. e.now) sent ≡ sent_of told.now one.now) }
{
    match sending_of(alloc, one)? {
        Some(mark) => Ok(told.told_as(mark.as_str())),
        None => Ok(None),
    }
}

/// The packet that was sent with the one and came with the other; what a group sends to itself, a message or a stamp, does
/// not count.
fn packet_between<'a>(sent: &'a Entry, one: &'a Entry) -> Result<Option<Packet<'a>>, TraceFault>
    ensures { result ≡ packet_between sent.now one.now }
{
    if sent.group.is_same(&one.group) {
        return Ok(None);
    }
    if one.time < sent.time {
        return Err(TraceFault::Line(one.line, Cause::Early));
    }
    Ok(Some(Packet {
        line: one.line,
        from: &sent.group,
        to: &one.group,
        delay: one.time - sent.time,
    }))
}

/// The packet that came with an entry, where it is told that it was sent.
pub(crate) fn packet_of<'a>(
    alloc: Global,
    told: &'a Traced,
    one: &'a Entry,
) -> Result<Option<Packet<'a>>, TraceFault>
    ensures { IsUnlessMemory Memory (packet_of told.now one.now) result }
{
    match sent_of(alloc, told, one)? {
        Some(sent) => packet_between(sent, one),
        None => Ok(None),
    }
}
