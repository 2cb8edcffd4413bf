//! What a row tells of a run of a scenario.

ghost use Rattle.std.specs.Prelude.{◌≡◌, ◌==◌, ◌<◌, ◌≤◌, length, position, IfOk, IfSome};
ghost use Rattle.std.specs.Str.{bytes_eq};
ghost use Rattle.convoy_draft.specs.declared.duration.TheConstants.{LONGEST_DURATION};
ghost use Rattle.convoy_scenario.specs.Memory.{IsUnlessMemory};
ghost use Rattle.convoy_traces.specs.Entries.{entry_of, entry_with, event_of, from_of, group_of, stamp_in, stamp_of, time_of, time_with};
ghost use Rattle.convoy_traces.specs.Traces.{in_line};
ghost use Rattle.convoy_traces.specs.declared.fault.TraceFault.TheVariants.{Memory};

use super::clock::Clock;
use super::fault::{Cause, MOST_STAMP, TraceFault};
use super::numbering::{group_numbered, is_addressed, message_numbered};
use super::row::Row;
use super::told::{Entry, Event, Stamp};
use convoy_draft::{Duration, TimeUnit};
use convoy_lines::number_of;
use convoy_scenario::Scenario;
use std::alloc::{AllocError, Global};

/// The number of a group, where the message goes to it.
fn group_of(scenario: &Scenario, message: usize, cell: &[u8]) -> Result<usize, Cause>
    ensures { result ≡ group_of scenario.now message cell.now }
{
    let group = group_numbered(scenario, cell).ok_or(Cause::Group)?;
    if is_addressed(scenario, message, group) {
        Ok(group)
    } else {
        Err(Cause::Elsewhere)
    }
}

/// The number of the group from which a proposal came.
fn from_of(scenario: &Scenario, message: usize, cell: &[u8]) -> Result<usize, Cause>
    ensures { result ≡ from_of scenario.now message cell.now }
{
    let group = group_numbered(scenario, cell).ok_or(Cause::From)?;
    if is_addressed(scenario, message, group) {
        Ok(group)
    } else {
        Err(Cause::From)
    }
}

/// Whether the cell is that word.
pub fn is_word(cell: &[u8], word: &str) -> bool
    ensures { result ≡ bytes_eq cell.now word.now }
{
    cell == word.as_bytes()
}

/// What happened to the message.
fn event_of(scenario: &Scenario, message: usize, row: &Row) -> Result<Event, Cause>
    ensures { result ≡ event_of scenario.now message row.now }
{
    if is_word(row.event, "issue") {
        Ok(Event::Issue)
    } else if is_word(row.event, "arrival") {
        Ok(Event::Arrival(group_of(scenario, message, row.group)?))
    } else if is_word(row.event, "proposal") {
        let group = group_of(scenario, message, row.group)?;
        let from = from_of(scenario, message, row.from)?;
        Ok(Event::Proposal(group, from))
    } else if is_word(row.event, "commit") {
        Ok(Event::Commit(group_of(scenario, message, row.group)?))
    } else if is_word(row.event, "delivery") {
        Ok(Event::Delivery(group_of(scenario, message, row.group)?))
    } else {
        Err(Cause::Event)
    }
}

/// The duration that a cell tells before the word for a unit. Fails where memory runs out, and else never.
fn time_with(alloc: Global, unit: &str, cell: &[u8]) -> Result<Option<u64>, AllocError>
    ensures value { IfOk result (λ time. time ≡ time_with unit.now cell.now) }
    ensures bounded { IfOk result (λ time. IfSome time (λ t. t ≤ LONGEST_DURATION)) }
{
    let mut text = Vec::new(alloc);
    text.extend_from_slice(cell)?;
    text.push(b' ')?;
    text.extend_from_slice(unit.as_bytes())?;
    match Duration::read(&text) {
        Some(time) => Ok(Some(time.nanoseconds())),
        None => Ok(None),
    }
}

/// The time that a cell tells, in nanoseconds: a duration, or a number of the unit. Without a unit it is a number of
/// ticks, each told as a second. Fails where memory runs out, and else never.
pub fn time_of(
    alloc: Global,
    unit: Option<TimeUnit>,
    cell: &[u8],
) -> Result<Option<u64>, AllocError>
    ensures value { IfOk result (λ time. time ≡ time_of unit cell.now) }
    ensures bounded { IfOk result (λ time. IfSome time (λ t. t ≤ LONGEST_DURATION)) }
{
    let Some(unit) = unit else {
        return time_with(alloc, "s", cell);
    };
    if let Some(time) = Duration::read(cell) {
        return Ok(Some(time.nanoseconds()));
    }
    time_with(alloc, unit.word(), cell)
}

/// The place of the first point.
fn point_in(cell: &[u8]) -> Option<usize>
    ensures value { result ≡ position (λ c. c == 46) cell.now }
    ensures within { IfSome result (λ point. point < length cell.now) }
{
    cell.iter().position(|byte| *byte == b'.')
}

/// The stamp that a cell tells.
fn stamp_in(scenario: &Scenario, cell: &[u8]) -> Option<Stamp>
    ensures { result ≡ stamp_in scenario.now cell.now }
{
    let point = point_in(cell)?;
    let time = number_of(&cell[..point], MOST_STAMP)?;
    let group = group_numbered(scenario, &cell[point + 1..])?;
    Some(Stamp { time, group })
}

/// The stamp that a row tells, where there is one.
fn stamp_of(scenario: &Scenario, cell: &[u8]) -> Option<Option<Stamp>>
    ensures { result ≡ stamp_of scenario.now cell.now }
{
    if cell.is_empty() {
        return Some(None);
    }
    let stamp = stamp_in(scenario, cell)?;
    Some(Some(stamp))
}

/// What the row of a line tells.
pub(crate) fn entry_of(
    alloc: Global,
    scenario: &Scenario,
    clock: Clock,
    line: usize,
    row: &Row,
) -> Result<Entry, TraceFault>
    ensures { IsUnlessMemory Memory (in_line line (entry_of scenario.now clock line row.now)) result }
{
    let time = time_of(alloc, clock.unit, row.time)?;
    match entry_with(scenario, line, row, time) {
        Ok(entry) => Ok(entry),
        Err(cause) => Err(TraceFault::Line(line, cause)),
    }
}

/// What the row of a line tells, of which the time is told so.
fn entry_with(
    scenario: &Scenario,
    line: usize,
    row: &Row,
    time: Option<u64>,
) -> Result<Entry, Cause>
    ensures { result ≡ entry_with scenario.now line row.now time }
{
    let message = message_numbered(scenario, row.message).ok_or(Cause::Message)?;
    let event = event_of(scenario, message, row)?;
    let time = time.ok_or(Cause::Time)?;
    let stamp = stamp_of(scenario, row.stamp).ok_or(Cause::Stamp)?;
    Ok(Entry {
        line,
        message,
        event,
        time,
        stamp,
    })
}
