//! The table of a batch: a row for each job.

ghost use Rattle.std.specs.Prelude.{◌≡◌, ◌∷◌, [], ◌++◌, None, OnOk, IfOk, codes, string_bytes};
ghost use Rattle.std.specs.List.{All, list_any};
ghost use Rattle.std.specs.Str.{IsUtf8};
ghost use Rattle.convoy_tables.specs.Formats.{table_text};
ghost use Rattle.convoy_batches.specs.JobTables.{cells_of, column_names, fault_cells, fault_words, found_cells, found_columns, has_deadline, is_sure, verdict_cells_of, label_cell, outside_cell, outside_cells, outside_columns, outside_of_row, searched_cells, table_of, table_with, tick_cell, tick_words, times_by};
ghost use Rattle.convoy_survey.specs.Judgements.{verdict_cells};
ghost use Rattle.convoy_outside.specs.Percents.{percent_of};

use super::job_row::{JobFinding, JobRow};
use convoy_commands::{Fault, FaultEnding, fault_row};
use convoy_outside::percent_text;
use convoy_scenario::Duration;
use convoy_survey::{
    Times, push_cause, push_ticks, push_times, push_verdict_cells, push_verdict_columns,
};
use convoy_tables::{Format, Row, Table, table_text};
use convoy_times::Measure;
use std::alloc::{AllocError, Global};

/// The table of the rows of jobs, whose labels are texts, as it is written in a format.
pub(crate) fn text_of(alloc: Global, format: Format, rows: &[JobRow]) -> Result<Vec<u8>, AllocError>
    requires labels { All (λ row. IsUtf8 row.label.items) rows.now }
    ensures { IfOk result (λ text. text.items ≡ table_text format (table_of rows.now)) }
{
    let table = table_of(alloc, rows)?;
    table_text(alloc, &table, format)
}

/// The table of the rows of jobs, whose labels are texts: it is judged where the target of one of them has a deadline, and
/// tells how sure ranges are where the links of one tell that.
fn table_of(alloc: Global, rows: &[JobRow]) -> Result<Table, AllocError>
    requires labels { All (λ row. IsUtf8 row.label.items) rows.now }
    ensures { IfOk result (λ table. table ≡ table_of rows.now) }
{
    table_with(alloc, any_has_deadline(rows), any_is_sure(rows), rows)
}

/// Whether the target of one of the jobs has a deadline.
fn any_has_deadline(rows: &[JobRow]) -> bool
    ensures { result ≡ list_any has_deadline rows.now }
{
    rows.iter().any(|row| has_deadline(row))
}

/// Whether the target of a job has a deadline.
fn has_deadline(row: &JobRow) -> bool
    ensures { result ≡ has_deadline row.now }
{
    match &row.found {
        Ok(found) => found.deadline.is_some(),
        Err(_) => false,
    }
}

/// Whether the links of one of the jobs tell how sure its ranges are.
fn any_is_sure(rows: &[JobRow]) -> bool
    ensures { result ≡ list_any is_sure rows.now }
{
    rows.iter().any(|row| is_sure(row))
}

/// Whether the links of a job tell how sure its ranges are.
fn is_sure(row: &JobRow) -> bool
    ensures { result ≡ is_sure row.now }
{
    outside_of_row(row).is_some()
}

/// In at most how many billionths of the runs of a job a packet leaves its range, where that is known.
fn outside_of_row(row: &JobRow) -> Option<u64>
    ensures { result ≡ outside_of_row row.now }
{
    match &row.found {
        Ok(found) => found.outside,
        Err(_) => None,
    }
}

/// The table of the rows of jobs, whose labels are texts, judged or not, and with or without how sure ranges are.
fn table_with(alloc: Global, judged: bool, sure: bool, rows: &[JobRow]) -> Result<Table, AllocError>
    requires labels { All (λ row. IsUtf8 row.label.items) rows.now }
    ensures { IfOk result (λ table. table ≡ table_with judged sure rows.now) }
{
    let mut table = Table::new(alloc, column_names(alloc, judged, sure)?);
    for i in 0..rows.len() {
        table.push(cells_of(alloc, judged, sure, i as u64 + 1, &rows[i])?)?;
    }
    Ok(table)
}

/// The names of the columns.
#[tactic(auto, using(std::proofs::lemmas::List::append_assoc))]
fn column_names(alloc: Global, judged: bool, sure: bool) -> Result<Row, AllocError>
    ensures { IfOk result (λ names. names ≡ column_names judged sure) }
{
    let mut names = found_columns(alloc)?;
    push_verdict_columns(judged, &times_by(None), &mut names)?;
    push_outside_columns(sure, &mut names)?;
    Ok(names)
}

/// Puts the name of the column that tells how sure ranges are at the end of a row, in a table that tells it.
fn push_outside_columns(sure: bool, names: &mut Row) -> Result<(), AllocError>
    ensures { OnOk result (names.new ≡ names.old ++ outside_columns sure) }
{
    if !sure {
        return Ok(());
    }
    names.push_words(&["outside"])
}

/// The names of the columns that tell what was found.
fn found_columns(alloc: Global) -> Result<Row, AllocError>
    ensures { IfOk result (λ names. names ≡ found_columns) }
{
    let mut names = Row::new(alloc);
    names.push_words(&[
        "job",
        "label",
        "answer",
        "least",
        "most",
        "least_time",
        "most_time",
        "unit",
        "tick",
        "rival",
        "tied",
        "nodes",
    ])?;
    Ok(names)
}

/// The cells of the row of the job of that number.
#[tactic(auto, using(std::proofs::lemmas::List::append_assoc))]
fn cells_of(
    alloc: Global,
    judged: bool,
    sure: bool,
    number: u64,
    row: &JobRow,
) -> Result<Row, AllocError>
    requires { IsUtf8 row.now.label.items }
    ensures { IfOk result (λ cells. cells ≡ cells_of judged sure number row.now) }
{
    let mut cells = Row::new(alloc);
    cells.push_number(number)?;
    push_label(&row.label, &mut cells)?;
    push_found(alloc, judged, &row.found, &mut cells)?;
    push_outside(alloc, sure, row, &mut cells)?;
    Ok(cells)
}

/// Puts how sure the ranges of a job are at the end of a row, in a table that tells it.
fn push_outside(alloc: Global, sure: bool, row: &JobRow, cells: &mut Row) -> Result<(), AllocError>
    ensures { OnOk result (cells.new ≡ cells.old ++ outside_cells sure row.now) }
{
    if !sure {
        return Ok(());
    }
    push_percent(alloc, outside_of_row(row), cells)
}

/// Puts a share in per cent at the end of a row, or nothing where it is not known.
fn push_percent(alloc: Global, outside: Option<u64>, cells: &mut Row) -> Result<(), AllocError>
    ensures { OnOk result (cells.new ≡ cells.old ++ outside_cell outside ∷ []) }
{
    match outside {
        Some(billionths) => cells.push_word(&percent_words(alloc, billionths)?),
        None => cells.push_nothing(),
    }
}

/// A share in per cent.
fn percent_words(alloc: Global, billionths: u64) -> Result<String, AllocError>
    ensures { IfOk result (λ words. string_bytes words ≡ percent_of billionths ++ codes " %") }
{
    let percent = percent_text(alloc, billionths)?;
    format!(in alloc; "{percent} %")
}

/// Puts the label of a job at the end of a row, or nothing where the job has none.
fn push_label(label: &[u8], cells: &mut Row) -> Result<(), AllocError>
    requires { IsUtf8 label.now }
    ensures { OnOk result (cells.new ≡ cells.old ++ label_cell label.now ∷ []) }
{
    match str::from_utf8(label) {
        Ok("") | Err(_) => cells.push_nothing(),
        Ok(text) => cells.push_word(text),
    }
}

/// Puts what was found of a job at the end of a row of a table that is judged or not.
#[tactic(auto, using(std::proofs::lemmas::List::append_assoc))]
fn push_found(
    alloc: Global,
    judged: bool,
    found: &Result<JobFinding, Fault>,
    cells: &mut Row,
) -> Result<(), AllocError>
    ensures { OnOk result (cells.new ≡ cells.old ++ found_cells judged found.now) }
{
    match found {
        Ok(found) => {
            push_searched(alloc, found, cells)?;
            push_verdict(alloc, judged, found, cells)
        }
        Err(fault) => {
            push_fault(alloc, fault, cells)?;
            push_no_verdict(alloc, judged, cells)
        }
    }
}

/// Puts what a search found at the end of a row.
fn push_searched(alloc: Global, found: &JobFinding, cells: &mut Row) -> Result<(), AllocError>
    ensures { OnOk result (cells.new ≡ cells.old ++ searched_cells found.now) }
{
    let scenario = found.instance.scenario();
    cells.push_word(found.finding.answer())?;
    push_ticks(found.finding, cells)?;
    push_times(alloc, &times_by(found.measure), found.finding, cells)?;
    push_tick(alloc, scenario.tick(), cells)?;
    push_cause(scenario, found.finding, cells)
}

/// Puts how what was found keeps the deadline of the target at the end of a row, in a table that is judged.
fn push_verdict(
    alloc: Global,
    judged: bool,
    found: &JobFinding,
    cells: &mut Row,
) -> Result<(), AllocError>
    ensures { OnOk result (cells.new ≡ cells.old ++ verdict_cells_of judged found.now) }
{
    let (least, most) = (found.finding.least(), found.finding.most());
    push_verdict_cells(
        alloc,
        judged,
        &times_by(found.measure),
        found.deadline,
        least,
        most,
        cells,
    )
}

/// Puts nothing in the cells of a verdict at the end of a row, in a table that is judged.
fn push_no_verdict(alloc: Global, judged: bool, cells: &mut Row) -> Result<(), AllocError>
    ensures { OnOk result (cells.new ≡ cells.old ++ verdict_cells judged (times_by None) None None None) }
{
    push_verdict_cells(alloc, judged, &times_by(None), None, None, None, cells)
}

/// How a row tells times: in any case, so that the names of the columns are always the same.
fn times_by(measure: Option<Measure>) -> Times
    ensures { result ≡ times_by measure }
{
    Times {
        are_told: true,
        measure,
    }
}

/// Puts the length of a tick at the end of a row, or nothing where it is not known.
fn push_tick(alloc: Global, tick: Option<Duration>, cells: &mut Row) -> Result<(), AllocError>
    ensures { OnOk result (cells.new ≡ cells.old ++ tick_cell tick ∷ []) }
{
    match tick {
        Some(tick) => cells.push_word(&tick_words(alloc, tick)?),
        None => cells.push_nothing(),
    }
}

/// The length of a tick, in its unit.
fn tick_words(alloc: Global, tick: Duration) -> Result<String, AllocError>
    ensures { IfOk result (λ words. string_bytes words ≡ tick_words tick) }
{
    let (count, unit) = (tick.count(), tick.unit().word());
    format!(in alloc; "{count} {unit}")
}

/// Puts the words of a fault at the end of a row, and nothing in its further cells.
fn push_fault(alloc: Global, fault: &Fault, cells: &mut Row) -> Result<(), AllocError>
    ensures { OnOk result (cells.new ≡ cells.old ++ fault_cells fault.now) }
{
    cells.push_word(&fault_words(alloc, fault)?)?;
    for _ in 0..9_usize {
        cells.push_nothing()?;
    }
    Ok(())
}

/// The words of a fault: its line without the end.
fn fault_words(alloc: Global, fault: &Fault) -> Result<String, AllocError>
    ensures { IfOk result (λ words. string_bytes words ≡ fault_words fault.now) }
{
    let (number, phrase, ending) = fault_row(fault);
    match ending {
        FaultEnding::Word(word) => format!(in alloc; "fault {number} {phrase}{word}"),
        FaultEnding::Number(value) => format!(in alloc; "fault {number} {phrase}{value}"),
    }
}
