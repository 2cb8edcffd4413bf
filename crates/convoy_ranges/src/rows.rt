//! What the lines of a table tell: the first one of those below it, and these of round trips.

ghost use Rattle.std.specs.Prelude.{◌≡◌, ◌≤◌, IfOk};
ghost use Rattle.std.specs.Result.{result_map_both};
ghost use Rattle.csv.specs.Records.{fields_of};
ghost use Rattle.convoy_scenario.specs.Memory.{IsUnlessMemory};
ghost use Rattle.convoy_ranges.specs.Tables.{all_seen, begins_pairs, head_of, pair_in, row_in, seen_in, with_front, in_line, time_of};
ghost use Rattle.convoy_ranges.specs.declared.fault.RangesFault.TheVariants.{Memory};
ghost use Rattle.convoy_draft.specs.declared.duration.TheConstants.{LONGEST_DURATION};
ghost use Rattle.convoy_ranges.specs.declared.fault.Cause.TheVariants as causes;

use super::cells::{cell_at, distance_of, is_word, time_of};
use super::fault::{Cause, RangesFault};
use super::names::{name_in, names_in};
use super::sighting::Sighting;
use convoy_draft::Name;
use csv::ByteRecord;
use std::alloc::Global;
use std::marker::Model;

/// What the first line says of those below it.
#[derive(Drop)]
pub(crate) struct Head {
    /// How many cells each has.
    pub(crate) count: usize,
    /// The places that are columns of a matrix; a list of pairs has none.
    pub(crate) places: Vec<Name>,
}

impl Model for Head {
    ghost use Rattle.convoy_ranges.specs.Tables.{Head};

    ghost Value = { Head };

    ghost view = { λ h. record { count = h.count; places = h.places.items } };
}

/// Whether the cells begin a list of pairs.
fn begins_pairs(cells: &ByteRecord) -> bool
    ensures { result ≡ begins_pairs (fields_of cells.now) }
{
    is_word(cells, 0, "from")
        && is_word(cells, 1, "to")
        && is_word(cells, 2, "round_trip")
        && (cells.len() == 3 || (cells.len() == 4 && is_word(cells, 3, "kilometres")))
}

/// What the first line says, where it is one of a list of pairs, or of a matrix.
pub(crate) fn head_of(alloc: Global, line: usize, cells: &ByteRecord) -> Result<Head, RangesFault>
    ensures { IsUnlessMemory Memory (head_of line (fields_of cells.now)) result }
{
    let count = cells.len();
    if begins_pairs(cells) {
        let places = Vec::new(alloc);
        return Ok(Head { count, places });
    }
    if !cell_at(cells, 0).is_empty() {
        return Err(RangesFault::Line(line, Cause::Header));
    }
    let places = names_in(alloc, line, cells)?;
    Ok(Head { count, places })
}

/// What a line of a list of pairs tells.
fn pair_in(alloc: Global, line: usize, cells: &ByteRecord) -> Result<Sighting, RangesFault>
    ensures { IsUnlessMemory Memory (pair_in line (fields_of cells.now)) result }
{
    let from = name_in(alloc, line, cell_at(cells, 0))?;
    let to = name_in(alloc, line, cell_at(cells, 1))?;
    let round_trip = time_in(alloc, line, cell_at(cells, 2))?;
    let kilometres = distance_of(cell_at(cells, 3)).ok_or(RangesFault::Line(
        line,
        Cause::Distance,
    ))?;
    Ok(Sighting {
        line,
        from,
        to,
        round_trip,
        kilometres,
    })
}

/// The time that a cell tells, in nanoseconds.
fn time_in(alloc: Global, line: usize, cell: &[u8]) -> Result<u64, RangesFault>
    ensures value { IsUnlessMemory Memory (in_line line causes.Time (time_of cell.now)) result }
    ensures bounded { IfOk result (λ time. time ≤ LONGEST_DURATION) }
{
    match time_of(alloc, cell)? {
        Some(time) => Ok(time),
        None => Err(RangesFault::Line(line, Cause::Time)),
    }
}

/// Appends what a cell of a matrix tells: nothing where it is empty, or stands for a place and itself.
fn push_seen(
    alloc: Global,
    line: usize,
    from: &Name,
    to: &Name,
    cell: &[u8],
    seen: &mut Vec<Sighting>,
) -> Result<(), RangesFault>
    ensures { IsUnlessMemory Memory
        (with_front seen.old.items (seen_in line from.now to.now cell.now))
        (result_map_both (λ _. seen.new.items) (λ fault. fault) result) }
{
    if cell.is_empty() || from.is_same(to) {
        return Ok(());
    }
    let round_trip = time_in(alloc, line, cell)?;
    let (from, to) = (from.copy()?, to.copy()?);
    seen.push(Sighting {
        line,
        from,
        to,
        round_trip,
        kilometres: None,
    })?;
    Ok(())
}

/// Appends what the cells of a matrix tell, each but the first for its column.
fn push_all_seen(
    alloc: Global,
    line: usize,
    from: &Name,
    cells: &ByteRecord,
    columns: &[Name],
    seen: &mut Vec<Sighting>,
) -> Result<(), RangesFault>
    ensures { IsUnlessMemory Memory
        (with_front seen.old.items (all_seen line from.now (fields_of cells.now) 1 columns.now))
        (result_map_both (λ _. seen.new.items) (λ fault. fault) result) }
{
    for (i, to) in columns.iter().enumerate() {
        push_seen(alloc, line, from, to, cell_at(cells, i + 1), seen)?;
    }
    Ok(())
}

/// Appends what a line tells below the first one.
pub(crate) fn push_row(
    alloc: Global,
    head: &Head,
    line: usize,
    cells: &ByteRecord,
    seen: &mut Vec<Sighting>,
) -> Result<(), RangesFault>
    ensures { IsUnlessMemory Memory
        (with_front seen.old.items (row_in head.now line (fields_of cells.now)))
        (result_map_both (λ _. seen.new.items) (λ fault. fault) result) }
{
    if cells.len() != head.count {
        return Err(RangesFault::Line(line, Cause::Cells));
    }
    if head.places.is_empty() {
        seen.push(pair_in(alloc, line, cells)?)?;
        return Ok(());
    }
    let from = name_in(alloc, line, cell_at(cells, 0))?;
    push_all_seen(alloc, line, &from, cells, &head.places, seen)
}
