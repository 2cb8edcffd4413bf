//! The text of several choices, the best first.

ghost use Rattle.std.specs.Prelude.{◌≡◌, ◌∷◌, [], ◌++◌, map, IfOk, OnOk};
ghost use Rattle.convoy_best_plan.specs.PlanTexts.{as_told, block, blocks, choice_table, measure_of, names_with_place, ranking_table, ranking_text, row_with_place, same_cell};

use super::planned::Planned;
use super::telling::{plan_table, plan_text};
use convoy_plans::Plan;
use convoy_scenario::TimeUnit;
use convoy_tables::{Cell, Format, Kind, Row, Table, table_text};
use convoy_times::Measure;
use std::alloc::{AllocError, Global};

/// The choices as they are told.
pub(crate) fn all_as_told(alloc: Global, all: Vec<Planned>) -> Result<Vec<Planned>, AllocError>
    ensures { IfOk result (λ told. told.items ≡ map as_told all.items) }
{
    let mut told = Vec::new(alloc);
    for planned in all {
        told.push(planned.as_told())?;
    }
    Ok(told)
}

/// The text that tells the best choice, and others after it. Fails where memory runs out, and else never.
pub(crate) fn ranking_text(
    alloc: Global,
    format: Format,
    with_reasons: bool,
    unit: Option<TimeUnit>,
    plan: &Plan,
    best: &Planned,
    others: &[Planned],
) -> Result<Vec<u8>, AllocError>
    ensures { IfOk result (λ text. text.items ≡ ranking_text format with_reasons unit plan.now best.now others.now) }
{
    match format {
        Format::Text => blocks(alloc, with_reasons, unit, plan, best, others),
        Format::Csv | Format::Json | Format::Html => {
            let table = ranking_table(alloc, format, with_reasons, unit, plan, best, others)?;
            table_text(alloc, &table, format)
        }
    }
}

/// The texts of the choices for people, with an empty line between them.
fn blocks(
    alloc: Global,
    with_reasons: bool,
    unit: Option<TimeUnit>,
    plan: &Plan,
    best: &Planned,
    others: &[Planned],
) -> Result<Vec<u8>, AllocError>
    ensures { IfOk result (λ text. text.items ≡ blocks with_reasons unit plan.now best.now others.now) }
{
    let mut text = block(alloc, with_reasons, unit, plan, best)?;
    for planned in others {
        push_block(alloc, with_reasons, unit, plan, planned, &mut text)?;
    }
    Ok(text)
}

/// Appends an empty line and the text of a choice for people.
fn push_block(
    alloc: Global,
    with_reasons: bool,
    unit: Option<TimeUnit>,
    plan: &Plan,
    planned: &Planned,
    text: &mut Vec<u8>,
) -> Result<(), AllocError>
    ensures { OnOk result (text.new.items ≡ text.old.items ++ 10 ∷ block with_reasons unit plan.now planned.now) }
{
    let more = block(alloc, with_reasons, unit, plan, planned)?;
    text.push(b'\n')?;
    text.extend_from_slice(&more)
}

/// The text of a choice for people.
fn block(
    alloc: Global,
    with_reasons: bool,
    unit: Option<TimeUnit>,
    plan: &Plan,
    planned: &Planned,
) -> Result<Vec<u8>, AllocError>
    ensures { IfOk result (λ text. text.items ≡ block with_reasons unit plan.now planned.now) }
{
    let measure = measure_of(unit, plan, planned);
    plan_text(alloc, Format::Text, with_reasons, measure, plan, planned)
}

/// How the times of a choice are told.
fn measure_of(unit: Option<TimeUnit>, plan: &Plan, planned: &Planned) -> Option<Measure>
    ensures { result ≡ measure_of unit plan.now planned.now }
{
    Measure::of(&planned.scenario, unit, plan.unit())
}

/// One table with the rows of all choices, each with the place of its choice in front.
fn ranking_table(
    alloc: Global,
    format: Format,
    with_reasons: bool,
    unit: Option<TimeUnit>,
    plan: &Plan,
    best: &Planned,
    others: &[Planned],
) -> Result<Table, AllocError>
    ensures { IfOk result (λ table. table ≡ ranking_table format with_reasons unit plan.now best.now others.now) }
{
    let told = choice_table(alloc, format, with_reasons, unit, plan, best)?;
    let mut table = Table::new(alloc, names_with_place(alloc, told.columns())?);
    push_rows(alloc, 1, &told, &mut table)?;
    let mut place = 1u64;
    for planned in others {
        place += 1;
        let told = choice_table(alloc, format, with_reasons, unit, plan, planned)?;
        push_rows(alloc, place, &told, &mut table)?;
    }
    Ok(table)
}

/// The table of a choice.
fn choice_table(
    alloc: Global,
    format: Format,
    with_reasons: bool,
    unit: Option<TimeUnit>,
    plan: &Plan,
    planned: &Planned,
) -> Result<Table, AllocError>
    ensures { IfOk result (λ table. table ≡ choice_table format with_reasons unit plan.now planned.now) }
{
    let measure = measure_of(unit, plan, planned);
    plan_table(alloc, format, with_reasons, measure, plan, planned)
}

/// Appends the rows of the choice at that place.
fn push_rows(alloc: Global, place: u64, told: &Table, table: &mut Table) -> Result<(), AllocError>
    ensures { OnOk result (table.new ≡ record table.old { rows = table.old.rows ++ map (row_with_place place) told.now.rows }) }
{
    for row in told.rows() {
        table.push(row_with_place(alloc, place, row.cells())?)?;
    }
    Ok(())
}

/// The names of the columns, with that of one more in front of them.
fn names_with_place(alloc: Global, names: &[Cell]) -> Result<Row, AllocError>
    ensures { IfOk result (λ row. row ≡ names_with_place names.now) }
{
    let mut row = Row::new(alloc);
    row.push_word("place")?;
    push_cells(names, &mut row)?;
    Ok(row)
}

/// The cells of a row, with the place of its choice in front of them.
fn row_with_place(alloc: Global, place: u64, cells: &[Cell]) -> Result<Row, AllocError>
    ensures { IfOk result (λ row. row ≡ row_with_place place cells.now) }
{
    let mut row = Row::new(alloc);
    row.push_number(place)?;
    push_cells(cells, &mut row)?;
    Ok(row)
}

/// Appends the same cells to a row.
fn push_cells(cells: &[Cell], row: &mut Row) -> Result<(), AllocError>
    ensures { OnOk result (row.new ≡ row.old ++ map same_cell cells.now) }
{
    for cell in cells {
        push_cell(cell, row)?;
    }
    Ok(())
}

/// Appends the same cell to a row.
fn push_cell(cell: &Cell, row: &mut Row) -> Result<(), AllocError>
    ensures { OnOk result (row.new ≡ row.old ++ same_cell cell.now ∷ []) }
{
    match cell.kind() {
        Kind::Word => row.push_word(cell.text()),
        Kind::Number => row.push_decimal(cell.text()),
        Kind::Nothing => row.push_nothing(),
    }
}
