//! The cells of the table of changes.

ghost use Rattle.std.specs.Prelude.{◌≡◌, ◌∷◌, [], ◌++◌, string_bytes, OnOk, IfOk};
ghost use Rattle.convoy_scenario.specs.Naming.{sender_word};
ghost use Rattle.convoy_scenario.specs.Scenario.{group_name_at};
ghost use Rattle.convoy_tables.specs.Tables.{nothing, word};
ghost use Rattle.convoy_what_if.specs.Cells.{change_cells, change_word, judged_cells, left_out, link_cells, number_cells, others_cells, others_words, row_cells, text_cell};

use super::kinds::Change;
use super::tried::Tried;
use convoy_draft::Name;
use convoy_scenario::naming::{group_name, sender_word};
use convoy_scenario::{Scenario, Sender};
use convoy_survey::{
    Finding, Times, push_name, push_nodes, push_ticks, push_times, push_verdict_cells,
};
use convoy_tables::Row;
use std::alloc::{AllocError, Global};

/// The cells of a row: the change by the names of the scenario, what was found, and how that keeps the deadline of the
/// target, where this has one.
pub(crate) fn row_cells(
    alloc: Global,
    times: &Times,
    deadline: Option<u32>,
    scenario: &Scenario,
    row: &Tried,
) -> Result<Row, AllocError>
    ensures { IfOk result (λ cells. cells ≡ row_cells times.now deadline scenario.now row.now) }
{
    let mut cells = Row::new(alloc);
    push_change(scenario, row.change, &mut cells)?;
    push_numbers(alloc, times, row.finding, &mut cells)?;
    push_text(&row.rival, &mut cells)?;
    push_text(&row.tied, &mut cells)?;
    push_nodes(row.finding, &mut cells)?;
    push_judged(alloc, times, deadline, row.finding, &mut cells)?;
    Ok(cells)
}

/// The cells of the line that stands for so many other changes, which leave what was found with no change as it is.
pub(crate) fn others_cells(
    alloc: Global,
    times: &Times,
    deadline: Option<u32>,
    count: usize,
    finding: Finding,
) -> Result<Row, AllocError>
    ensures { IfOk result (λ cells. cells ≡ others_cells times.now deadline count finding) }
{
    let mut cells = Row::new(alloc);
    cells.push_word(&others_words(alloc, count)?)?;
    push_nothing_thrice(&mut cells)?;
    push_numbers(alloc, times, finding, &mut cells)?;
    push_nothing_thrice(&mut cells)?;
    push_judged(alloc, times, deadline, finding, &mut cells)?;
    Ok(cells)
}

/// The words for so many other changes.
fn others_words(alloc: Global, count: usize) -> Result<String, AllocError>
    ensures { IfOk result (λ words. string_bytes words ≡ others_words count) }
{
    if count == 1 {
        format!(in alloc; "{count} other")
    } else {
        format!(in alloc; "{count} others")
    }
}

/// Puts three cells with nothing at the end of a row.
fn push_nothing_thrice(cells: &mut Row) -> Result<(), AllocError>
    ensures { OnOk result (cells.new ≡ cells.old ++ (nothing ∷ nothing ∷ nothing ∷ [])) }
{
    cells.push_nothing()?;
    cells.push_nothing()?;
    cells.push_nothing()
}

/// Puts what is known, and its numbers in ticks and as times, at the end of a row.
fn push_numbers(
    alloc: Global,
    times: &Times,
    finding: Finding,
    cells: &mut Row,
) -> Result<(), AllocError>
    ensures { OnOk result (cells.new ≡ cells.old ++ number_cells times.now finding) }
{
    cells.push_word(finding.answer())?;
    push_ticks(finding, cells)?;
    push_times(alloc, times, finding, cells)
}

/// Puts how what was found keeps the deadline of the target at the end of a row, where this has one.
fn push_judged(
    alloc: Global,
    times: &Times,
    deadline: Option<u32>,
    finding: Finding,
    cells: &mut Row,
) -> Result<(), AllocError>
    ensures { OnOk result (cells.new ≡ cells.old ++ judged_cells times.now deadline finding) }
{
    let (least, most) = (finding.least(), finding.most());
    push_verdict_cells(
        alloc,
        deadline.is_some(),
        times,
        deadline,
        least,
        most,
        cells,
    )
}

/// Puts a name at the end of a row, or nothing where there is none.
fn push_text(name: &Option<Name>, cells: &mut Row) -> Result<(), AllocError>
    ensures { OnOk result (cells.new ≡ cells.old ++ text_cell name.now ∷ []) }
{
    match name {
        Some(name) => cells.push_word(name.as_str()),
        None => cells.push_nothing(),
    }
}

/// Puts a change at the end of a row.
fn push_change(scenario: &Scenario, change: Change, cells: &mut Row) -> Result<(), AllocError>
    ensures { OnOk result (cells.new ≡ cells.old ++ change_cells scenario.now change) }
{
    cells.push_word(change_word(change))?;
    push_name(scenario, left_out(change), cells)?;
    push_link(scenario, change, cells)
}

fn change_word(change: Change) -> &'static str
    ensures { result.now ≡ change_word change }
{
    match change {
        Change::Nothing => "nothing",
        Change::Without { .. } => "without",
        Change::AtLeast { .. } => "least",
        Change::AtMost { .. } => "most",
    }
}

/// The message that a change leaves out, if it leaves one out.
fn left_out(change: Change) -> Option<usize>
    ensures { result ≡ left_out change }
{
    match change {
        Change::Without { message } => Some(message),
        Change::Nothing | Change::AtLeast { .. } | Change::AtMost { .. } => None,
    }
}

/// Puts the two ends of the link that a change narrows at the end of a row.
fn push_link(scenario: &Scenario, change: Change, cells: &mut Row) -> Result<(), AllocError>
    ensures { OnOk result (cells.new ≡ cells.old ++ link_cells scenario.now change) }
{
    match change {
        Change::Nothing | Change::Without { .. } => {
            cells.push_nothing()?;
            cells.push_nothing()
        }
        Change::AtLeast { sender, to } | Change::AtMost { sender, to } => {
            push_ends(scenario, sender, to, cells)
        }
    }
}

/// Puts the two ends of a link at the end of a row.
fn push_ends(
    scenario: &Scenario,
    sender: Sender,
    to: usize,
    cells: &mut Row,
) -> Result<(), AllocError>
    ensures { OnOk result (cells.new
        ≡ cells.old ++ (word (sender_word scenario.now sender) ∷ word (group_name_at scenario.now to) ∷ [])) }
{
    cells.push_word(sender_word(scenario, sender))?;
    cells.push_word(group_name(scenario, to))
}
