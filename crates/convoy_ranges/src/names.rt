//! The names of places.

ghost use Rattle.std.specs.Prelude.{◌≡◌, drop};
ghost use Rattle.std.specs.Result.{result_map_both};
ghost use Rattle.csv.specs.Records.{fields_of};
ghost use Rattle.convoy_scenario.specs.Memory.{IsUnlessMemory};
ghost use Rattle.convoy_ranges.specs.Tables.{in_line, named, names_in};
ghost use Rattle.convoy_ranges.specs.declared.fault.Cause.TheVariants as causes;
ghost use Rattle.convoy_ranges.specs.declared.fault.RangesFault.TheVariants.{Memory};

use super::cells::cell_at;
use super::fault::{Cause, RangesFault};
use convoy_draft::Name;
use csv::ByteRecord;
use std::alloc::Global;

/// The name that a cell has.
pub(crate) fn name_in(alloc: Global, line: usize, cell: &[u8]) -> Result<Name, RangesFault>
    ensures { IsUnlessMemory Memory (in_line line causes.Name (named cell.now)) result }
{
    let fault = RangesFault::Line(line, Cause::Name);
    let Ok(text) = str::from_utf8(cell) else {
        return Err(fault);
    };
    let name = Name::new(alloc, text)?;
    if name.is_good_for_group() {
        Ok(name)
    } else {
        Err(fault)
    }
}

/// The names that the cells have but for the first one.
pub(crate) fn names_in(
    alloc: Global,
    line: usize,
    cells: &ByteRecord,
) -> Result<Vec<Name>, RangesFault>
    ensures { IsUnlessMemory Memory (names_in line (drop 1 (fields_of cells.now)))
        (result_map_both (λ names. names.items) (λ fault. fault) result) }
{
    let mut names = Vec::new(alloc);
    for place in 1..cells.len() {
        let name = name_in(alloc, line, cell_at(cells, place))?;
        names.push(name)?;
    }
    Ok(names)
}
