//! Entries of which each is found by its mark.

ghost use Rattle.std.specs.Prelude.{◌≡◌, ◌<◌, IfOk, Some, length, slice_get, string_bytes};
ghost use Rattle.std.specs.Option.{option_map};
ghost use Rattle.convoy_scenario.specs.Memory.{IsUnlessMemory};
ghost use Rattle.convoy_traces.specs.declared.fault.TraceFault.TheVariants.{Memory};
ghost use Rattle.convoy_trace_ranges.specs.Marks.{mark_by, mark_of, told_as};
ghost use Rattle.convoy_trace_ranges.specs.Reading.{with_entry};

use super::entry::{Entry, Kind};
use convoy_draft::AllocResult;
use convoy_traces::{Cause, TraceFault};
use std::alloc::Global;
use std::collections::BTreeMap;
use std::marker::Model;

/// The mark of an event. Fails where memory runs out, and else never.
#[tactic(auto, unfolding(crate::specs::Marks::mark_by))]
pub(crate) fn mark_by(
    alloc: Global,
    kind: Kind,
    group: &str,
    from: &str,
    message: &str,
) -> AllocResult<String>
    ensures { IfOk result (λ mark. string_bytes mark ≡ mark_by kind group.now from.now message.now) }
{
    match kind {
        Kind::Issue => format!(in alloc; "issue {message}"),
        Kind::Arrival => format!(in alloc; "arrival {group} {message}"),
        Kind::Proposal => format!(in alloc; "proposal {group} {from} {message}"),
    }
}

/// The mark of what an entry tells. Fails where memory runs out, and else never.
fn mark_of(alloc: Global, one: &Entry) -> AllocResult<String>
    ensures { IfOk result (λ mark. string_bytes mark ≡ mark_of one.now) }
{
    let (group, from) = (one.group.as_str(), one.from.as_str());
    mark_by(alloc, one.kind, group, from, one.message.as_str())
}

/// The entry at a place.
fn entry_at(entries: &[Entry], place: usize) -> &Entry
    requires { place < length entries.now }
    ensures { slice_get entries.now place ≡ Some result.now }
{
    &entries[place]
}

/// What a trace tells, in the order of its lines, each event once.
#[derive(Drop)]
pub(crate) struct Traced {
    entries: Vec<Entry>,
    /// The place of each entry, by its mark.
    places: BTreeMap<String, usize>,
}

impl Model for Traced {
    ghost use Rattle.std.specs.Prelude.{List};
    ghost use Rattle.convoy_trace_ranges.specs.Events.{Entry};
    ghost use Rattle.convoy_trace_ranges.specs.Index.{IsIndex};

    ghost Value = { List Entry };

    ghost view = { λ t. t.entries.items };

    ghost invariant = { λ t. IsIndex t.places t.entries.items };
}

impl Traced {
    ghost use Rattle.std.specs.Prelude.{[]};

    /// Nothing that is told.
    pub(crate) fn new(alloc: Global) -> Traced
        ensures { result ≡ [] }
    {
        Traced {
            entries: Vec::new(alloc),
            places: BTreeMap::new(alloc),
        }
    }

    /// What is told, in the order of the lines.
    pub(crate) fn entries(&self) -> &[Entry]
        ensures { result.now ≡ self.now }
    {
        self.entries.as_slice()
    }

    /// The entry that tells the event of that mark.
    pub(crate) fn told_as(&self, mark: &str) -> Option<&Entry>
        ensures { option_map (λ one. one.now) result ≡ told_as self.now mark.now }
    {
        match self.places.get(mark) {
            Some(place) => Some(entry_at(self.entries(), *place)),
            None => None,
        }
    }

    /// The same with one entry more, whose event none of them tells.
    pub(crate) fn with(self, alloc: Global, one: Entry) -> Result<Traced, TraceFault>
        ensures { IsUnlessMemory Memory (with_entry self (Some one)) result }
    {
        let mark = mark_of(alloc, &one)?;
        let Traced {
            mut entries,
            mut places,
        } = self;
        if places.contains_key(mark.as_str()) {
            return Err(TraceFault::Line(one.line, Cause::Twice));
        }
        let place = entries.as_slice().len();
        places.insert(mark, place)?;
        entries.push(one)?;
        Ok(Traced { entries, places })
    }
}
