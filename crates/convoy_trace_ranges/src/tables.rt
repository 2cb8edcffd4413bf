//! The table of the links of a trace.

ghost use Rattle.std.specs.Prelude.{◌≡◌, ◌++◌, IfOk, OnOk, map};
ghost use Rattle.std.specs.Result.{result_map_both};
ghost use Rattle.convoy_scenario.specs.Memory.{IsUnlessMemory};
ghost use Rattle.convoy_traces.specs.declared.fault.TraceFault.TheVariants.{Memory};
ghost use Rattle.convoy_trace_ranges.specs.LinkTables.{columns, row_of, table_of, trace_table_text};

use super::cells::{place_word, push_time};
use super::links::{Link, links_of_text};
use super::shares::shares_of;
use convoy_draft::TimeUnit;
use convoy_tables::{Format, Row, Table, table_text};
use convoy_traces::TraceFault;
use std::alloc::{AllocError, Global};

/// The row of a link.
#[tactic(auto, unfolding(crate::specs::LinkTables::row_of))]
fn row_of(alloc: Global, unit: TimeUnit, link: &Link) -> Result<Row, AllocError>
    ensures { IfOk result (λ row. row ≡ row_of unit link.now) }
{
    let shares = shares_of(alloc, link.delays())?;
    let mut cells = Row::new(alloc);
    cells.push_word(place_word(link))?;
    cells.push_word(link.to().as_str())?;
    cells.push_number(link.delays().len() as u64)?;
    push_time(alloc, unit, link.least(), &mut cells)?;
    push_time(alloc, unit, shares.half, &mut cells)?;
    push_time(alloc, unit, shares.most, &mut cells)?;
    push_time(alloc, unit, shares.nearly_all, &mut cells)?;
    push_time(alloc, unit, shares.all_but_few, &mut cells)?;
    push_time(alloc, unit, link.greatest(), &mut cells)?;
    cells.push_word(unit.word())?;
    Ok(cells)
}

/// The names of the columns.
fn columns_of(alloc: Global) -> Result<Row, AllocError>
    ensures { IfOk result (λ row. row ≡ columns) }
{
    let mut names = Row::new(alloc);
    names.push_words(&[
        "from", "to", "packets", "least", "p50", "p90", "p99", "p99.9", "greatest", "unit",
    ])?;
    Ok(names)
}

/// Puts the rows of links at the end of a table.
fn push_rows(
    alloc: Global,
    unit: TimeUnit,
    links: &[Link],
    table: &mut Table,
) -> Result<(), AllocError>
    ensures { OnOk result (table.new ≡ record table.old {
      rows = table.old.rows ++ map (row_of unit) links.now;
    }) }
{
    for link in links {
        table.push(row_of(alloc, unit, link)?)?;
    }
    Ok(())
}

/// The table of links, with times in this unit.
fn table_of(alloc: Global, unit: TimeUnit, links: &[Link]) -> Result<Table, AllocError>
    ensures { IfOk result (λ table. table ≡ table_of unit links.now) }
{
    let mut table = Table::new(alloc, columns_of(alloc)?);
    push_rows(alloc, unit, links, &mut table)?;
    Ok(table)
}

/// The links of a trace as a table in that format: how many packets there were, what they took at least and at most, and
/// within which times half of them came, 90, 99 and 99.9 percent. Times are told in the unit, and so are numbers of the
/// trace that have none. The faults are those of [`links_of_text`].
#[tactic(auto, unfolding(crate::specs::LinkTables::trace_table_text))]
pub fn trace_table_text(
    alloc: Global,
    format: Format,
    unit: TimeUnit,
    text: &[u8],
) -> Result<Vec<u8>, TraceFault>
    ensures { IsUnlessMemory Memory (trace_table_text format unit text.now)
        (result_map_both (λ table. table.items) (λ fault. fault) result) }
{
    let links = links_of_text(alloc, Some(unit), text)?;
    let table = table_of(alloc, unit, &links)?;
    Ok(table_text(alloc, &table, format)?)
}
