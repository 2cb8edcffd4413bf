//! The table of the ceilings of kinds.

ghost use Rattle.std.specs.Prelude.{◌≡◌, ◌⊎◌, ◌∷◌, [], ◌++◌, map, codes, Err, IfOk, OnOk};
ghost use Rattle.std.specs.List.{All};
ghost use Rattle.convoy_draft.specs.declared.fault.ScenarioFault.TheVariants.{Memory};
ghost use Rattle.convoy_tables.specs.Formats.{table_text};
ghost use Rattle.convoy_kinds.specs.Ceilings.{IsCeilingRow};
ghost use Rattle.convoy_kinds.specs.Shape.{listed};
ghost use Rattle.convoy_kinds_told.specs.KindTables.{KindsSay, has_times, kind_columns, row_cells, table_of_kinds, where_told};
ghost use Rattle.convoy_tables.specs.Tables.{word};

use super::cells::push_kind;
use super::time_cells::{has_times, push_time_if_told};
use convoy_kinds::{CeilingRow, Kinds, KindsFault, ceiling_rows, read_kinds};
use convoy_scenario::TimeUnit;
use convoy_scenario::naming::group_name;
use convoy_tables::{Format, Row, Table, table_text};
use convoy_times::Measure;
use std::alloc::{AllocError, Global};

/// The ceilings of the kinds of a text: a table with a row for each kind at each group that it goes to. A row has the ceiling,
/// in ticks and, where the length of a tick is known, in the unit that is asked for or else the text writes, too; and the
/// rival, the kind beside which the kind has that ceiling. Nothing is simulated.
///
/// The faults are those of [`read_kinds`]; memory that runs out is `ScenarioFault::Memory`.
pub fn kinds_answer(
    alloc: Global,
    format: Format,
    unit: Option<TimeUnit>,
    text: &[u8],
) -> Result<Vec<u8>, KindsFault>
    ensures { KindsSay format unit text.now (listed result) ⊎ (listed result ≡ Err (KindsFault.Scenario Memory)) }
{
    let kinds = read_kinds(alloc, text)?;
    let rows = ceiling_rows(alloc, &kinds)?;
    let measure = Measure::of(kinds.setting(), unit, kinds.unit());
    let text = kinds_text(alloc, format, &measure, &kinds, &rows)?;
    Ok(text)
}

/// The table as it is written in a format.
fn kinds_text(
    alloc: Global,
    format: Format,
    measure: &Option<Measure>,
    kinds: &Kinds,
    rows: &[CeilingRow],
) -> Result<Vec<u8>, AllocError>
    requires { All (IsCeilingRow kinds.now) rows.now }
    ensures { IfOk result (λ text. text.items
        ≡ table_text format (table_of_kinds (has_times format measure.now) measure.now kinds.now rows.now)) }
{
    let told = has_times(format, *measure);
    let mut table = Table::new(alloc, columns_of(alloc, told)?);
    push_rows(alloc, told, measure, kinds, rows, &mut table)?;
    table_text(alloc, &table, format)
}

/// Puts each of these rows at the end of a table.
fn push_rows(
    alloc: Global,
    told: bool,
    measure: &Option<Measure>,
    kinds: &Kinds,
    rows: &[CeilingRow],
    table: &mut Table,
) -> Result<(), AllocError>
    requires { All (IsCeilingRow kinds.now) rows.now }
    ensures { OnOk result (table.new ≡ record table.old {
      rows = table.old.rows ++ map (row_cells told measure.now kinds.now) rows.now;
    }) }
{
    for row in rows {
        table.push(cells_of(alloc, told, measure, kinds, row)?)?;
    }
    Ok(())
}

/// The names of the columns.
fn columns_of(alloc: Global, told: bool) -> Result<Row, AllocError>
    ensures { IfOk result (λ columns. columns ≡ kind_columns told) }
{
    let mut columns = Row::new(alloc);
    columns.push_words(&["kind", "from", "to", "group", "ceiling"])?;
    push_time_columns(told, &mut columns)?;
    columns.push_words(&["rival", "rival_from", "rival_to"])?;
    Ok(columns)
}

/// Puts the names of the columns of times at the end of a row, where times are told.
fn push_time_columns(told: bool, columns: &mut Row) -> Result<(), AllocError>
    ensures { OnOk result (columns.new
        ≡ columns.old ++ where_told told (word (codes "ceiling_time") ∷ word (codes "unit") ∷ [])) }
{
    if told {
        columns.push_words(&["ceiling_time", "unit"])
    } else {
        Ok(())
    }
}

/// The cells of a row.
fn cells_of(
    alloc: Global,
    told: bool,
    measure: &Option<Measure>,
    kinds: &Kinds,
    row: &CeilingRow,
) -> Result<Row, AllocError>
    requires { IsCeilingRow kinds.now row.now }
    ensures { IfOk result (λ cells. cells ≡ row_cells told measure.now kinds.now row.now) }
{
    let mut cells = Row::new(alloc);
    push_kind(alloc, kinds, row.kind, &mut cells)?;
    cells.push_word(group_name(kinds.setting(), row.group))?;
    cells.push_number(u64::from(row.ceiling))?;
    push_time_if_told(alloc, told, measure, row.ceiling, &mut cells)?;
    push_kind(alloc, kinds, row.rival, &mut cells)?;
    Ok(cells)
}
