//! How the tables tell whether latencies keep their deadlines.

ghost use Rattle.std.specs.Prelude.{◌≡◌, ◌∷◌, [], ◌++◌, OnOk};
ghost use Rattle.convoy_commands.specs.Verdicts.{has_deadline};
ghost use Rattle.convoy_survey.specs.Judgements.{is_beyond, is_open_by, judged_cells, judged_columns, margin_at, margin_cells, verdict_at, verdict_cell, verdict_cells, verdict_columns};

use super::cells::push_count;
use super::time_cells::{push_columns_if_told, push_time_if_told};
use super::times::Times;
use convoy_commands::{Verdict, deadline_at, margin_of};
use convoy_tables::Row;
use std::alloc::{AllocError, Global};

/// Whether a message has a deadline, of which these are the deadlines.
pub fn has_deadline(deadlines: &[Option<u32>]) -> bool
    ensures { result ≡ has_deadline deadlines.now }
{
    deadlines.iter().any(|deadline| deadline.is_some())
}

/// The verdict on a latency by a deadline, all in ticks; none where there is no deadline, or where it is not known what
/// the latency is at most. It is at least 0, where no more is known.
pub fn verdict_at(deadline: Option<u32>, least: Option<u32>, most: Option<u32>) -> Option<Verdict>
    ensures { result ≡ verdict_at deadline least most }
{
    match (deadline, most) {
        (Some(deadline), Some(most)) => Some(Verdict::of(deadline, least.unwrap_or(0), most)),
        (Some(_), None) | (None, _) => None,
    }
}

/// By how many ticks at least a latency keeps a deadline or is beyond it, where that is known.
fn margin_at(deadline: Option<u32>, least: Option<u32>, most: Option<u32>) -> Option<u32>
    ensures { result ≡ margin_at deadline least most }
{
    match (deadline, most) {
        (Some(deadline), Some(most)) => margin_of(deadline, least.unwrap_or(0), most),
        (Some(_), None) | (None, _) => None,
    }
}

/// Whether a deadline is not kept, by a verdict that there may not be.
pub fn is_beyond(verdict: Option<Verdict>) -> bool
    ensures { result ≡ is_beyond verdict }
{
    match verdict {
        Some(Verdict::Beyond) => true,
        Some(Verdict::Within | Verdict::Undecided) | None => false,
    }
}

/// Whether a search or a row is open, as the verdict says, or where there is none as it is without a deadline.
pub fn is_open_by(verdict: Option<Verdict>, otherwise: bool) -> bool
    ensures { result ≡ is_open_by verdict otherwise }
{
    match verdict {
        Some(Verdict::Undecided) => true,
        Some(Verdict::Within | Verdict::Beyond) => false,
        None => otherwise,
    }
}

/// Puts the names of the columns that tell how latencies keep their deadlines at the end of a row, in a table that is
/// judged. Fails where memory runs out, and else never.
pub fn push_verdict_columns(
    judged: bool,
    times: &Times,
    columns: &mut Row,
) -> Result<(), AllocError>
    ensures { OnOk result (columns.new ≡ columns.old ++ verdict_columns judged times.now) }
{
    if !judged {
        return Ok(());
    }
    columns.push_words(&["verdict", "by"])?;
    push_columns_if_told(times, &["by_time"], columns)
}

/// Puts the cells of these columns at the end of a row: the verdict on a latency that is known to be at least and at most
/// so many ticks, and by how much it keeps its deadline or is beyond it, in ticks and as a time; with nothing where there
/// is no deadline or nothing is known. Fails where memory runs out, and else never.
pub fn push_verdict_cells(
    alloc: Global,
    judged: bool,
    times: &Times,
    deadline: Option<u32>,
    least: Option<u32>,
    most: Option<u32>,
    cells: &mut Row,
) -> Result<(), AllocError>
    ensures { OnOk result (cells.new ≡ cells.old ++ verdict_cells judged times.now deadline least most) }
{
    if !judged {
        return Ok(());
    }
    push_verdict(verdict_at(deadline, least, most), cells)?;
    push_margin(alloc, times, margin_at(deadline, least, most), cells)
}

/// Puts the word for a verdict at the end of a row, or nothing where there is none.
fn push_verdict(verdict: Option<Verdict>, cells: &mut Row) -> Result<(), AllocError>
    ensures { OnOk result (cells.new ≡ cells.old ++ verdict_cell verdict ∷ []) }
{
    match verdict {
        Some(verdict) => cells.push_word(verdict.word()),
        None => cells.push_nothing(),
    }
}

/// Puts a margin that may not be known at the end of a row, in ticks and as a time.
fn push_margin(
    alloc: Global,
    times: &Times,
    margin: Option<u32>,
    cells: &mut Row,
) -> Result<(), AllocError>
    ensures { OnOk result (cells.new ≡ cells.old ++ margin_cells times.now margin) }
{
    push_count(margin, cells)?;
    push_time_if_told(alloc, times, margin, cells)
}

/// Puts the names of the same columns at the end of a row, in a table that is judged where a message has a deadline. Fails
/// where memory runs out, and else never.
pub fn push_judged_columns(
    deadlines: &[Option<u32>],
    times: &Times,
    columns: &mut Row,
) -> Result<(), AllocError>
    ensures { OnOk result (columns.new ≡ columns.old ++ judged_columns deadlines.now times.now) }
{
    push_verdict_columns(has_deadline(deadlines), times, columns)
}

/// Puts their cells for a latency of a message at the end of a row, in such a table. Fails where memory runs out, and else
/// never.
pub fn push_judged(
    alloc: Global,
    deadlines: &[Option<u32>],
    times: &Times,
    message: usize,
    least: Option<u32>,
    most: Option<u32>,
    cells: &mut Row,
) -> Result<(), AllocError>
    ensures { OnOk result (cells.new ≡ cells.old ++ judged_cells deadlines.now times.now message least most) }
{
    let deadline = deadline_at(deadlines, message);
    push_verdict_cells(
        alloc,
        has_deadline(deadlines),
        times,
        deadline,
        least,
        most,
        cells,
    )
}
