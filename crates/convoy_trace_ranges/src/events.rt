//! What a row tells of packets.

ghost use Rattle.std.specs.Prelude.{◌≡◌, ◌≤◌, IfOk};
ghost use Rattle.convoy_draft.specs.declared.duration.TheConstants.{LONGEST_DURATION};
ghost use Rattle.convoy_ranges.specs.Tables.{named};
ghost use Rattle.convoy_scenario.specs.Memory.{IsUnlessMemory};
ghost use Rattle.convoy_traces.specs.Entries.{time_of};
ghost use Rattle.convoy_traces.specs.Traces.{in_line};
ghost use Rattle.convoy_traces.specs.declared.fault.Cause.TheVariants as causes;
ghost use Rattle.convoy_traces.specs.declared.fault.TraceFault.TheVariants.{Memory};
ghost use Rattle.convoy_trace_ranges.specs.Events.{entry_by, entry_of, from_in, group_in, kind_of, message_in, wanted};

use super::entry::{Entry, Kind};
use convoy_draft::{Name, TimeUnit};
use convoy_traces::{Cause, Row, TraceFault, is_word, time_of};
use std::alloc::Global;

/// The kind of an event; none where it is passed over.
fn kind_of(word: &[u8]) -> Result<Option<Kind>, Cause>
    ensures { result ≡ kind_of word.now }
{
    if is_word(word, "issue") {
        Ok(Some(Kind::Issue))
    } else if is_word(word, "arrival") {
        Ok(Some(Kind::Arrival))
    } else if is_word(word, "proposal") {
        Ok(Some(Kind::Proposal))
    } else if is_word(word, "commit") || is_word(word, "delivery") {
        Ok(None)
    } else {
        Err(Cause::Event)
    }
}

/// The kind of the event of a line.
fn kind_in(line: usize, word: &[u8]) -> Result<Option<Kind>, TraceFault>
    ensures { result ≡ in_line line (kind_of word.now) }
{
    match kind_of(word) {
        Ok(kind) => Ok(kind),
        Err(cause) => Err(TraceFault::Line(line, cause)),
    }
}

/// The name that the cell of a message has.
fn message_in(alloc: Global, line: usize, cell: &[u8]) -> Result<Name, TraceFault>
    ensures { IsUnlessMemory Memory (wanted line causes.Name (message_in cell.now)) result }
{
    let fault = TraceFault::Line(line, Cause::Name);
    if cell.is_empty() {
        return Err(fault);
    }
    match str::from_utf8(cell) {
        Ok(text) => Ok(Name::new(alloc, text)?),
        Err(_) => Err(fault),
    }
}

/// The name of a group that a cell has, or else that fault of the line.
fn name_in(alloc: Global, line: usize, cause: Cause, cell: &[u8]) -> Result<Name, TraceFault>
    ensures { IsUnlessMemory Memory (wanted line cause (named cell.now)) result }
{
    let fault = TraceFault::Line(line, cause);
    let Ok(text) = str::from_utf8(cell) else {
        return Err(fault);
    };
    let name = Name::new(alloc, text)?;
    if name.is_good_for_group() {
        Ok(name)
    } else {
        Err(fault)
    }
}

/// The group at which an event happens.
fn group_in(alloc: Global, line: usize, kind: Kind, cell: &[u8]) -> Result<Name, TraceFault>
    ensures { IsUnlessMemory Memory (wanted line causes.Name (group_in kind cell.now)) result }
{
    match kind {
        Kind::Issue if cell.is_empty() => Ok(Name::new(alloc, "")?),
        _ => name_in(alloc, line, Cause::Name, cell),
    }
}

/// The group from which a proposal came, and of other events nothing.
fn from_in(alloc: Global, line: usize, kind: Kind, cell: &[u8]) -> Result<Name, TraceFault>
    ensures { IsUnlessMemory Memory (wanted line causes.From (from_in kind cell.now)) result }
{
    match kind {
        Kind::Proposal => name_in(alloc, line, Cause::From, cell),
        Kind::Issue | Kind::Arrival => Ok(Name::new(alloc, "")?),
    }
}

/// The time that a cell tells, in nanoseconds.
fn time_in(
    alloc: Global,
    unit: Option<TimeUnit>,
    line: usize,
    cell: &[u8],
) -> Result<u64, TraceFault>
    ensures value { IsUnlessMemory Memory (wanted line causes.Time (time_of unit cell.now)) result }
    ensures bounded { IfOk result (λ time. time ≤ LONGEST_DURATION) }
{
    match time_of(alloc, unit, cell)? {
        Some(time) => Ok(time),
        None => Err(TraceFault::Line(line, Cause::Time)),
    }
}

/// What the row of a line tells; nothing where its event is passed over.
pub(crate) fn entry_of(
    alloc: Global,
    unit: Option<TimeUnit>,
    line: usize,
    row: &Row,
) -> Result<Option<Entry>, TraceFault>
    ensures { IsUnlessMemory Memory (entry_of unit line row.now) result }
{
    let Some(kind) = kind_in(line, row.event)? else {
        return Ok(None);
    };
    let message = message_in(alloc, line, row.message)?;
    let group = group_in(alloc, line, kind, row.group)?;
    let from = from_in(alloc, line, kind, row.from)?;
    let time = time_in(alloc, unit, line, row.time)?;
    Ok(Some(Entry {
        line,
        kind,
        message,
        group,
        from,
        time,
    }))
}
