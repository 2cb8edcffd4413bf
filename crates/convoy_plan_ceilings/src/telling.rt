//! The text of the placement with the least ceilings.

ghost use Rattle.std.specs.Prelude.{◌≡◌, IfOk};
ghost use Rattle.convoy_plan_ceilings.specs.CeilingTexts.{ceiling_table, ceiling_text, line_above};

use super::ceiling_choice::CeilingChoice;
use super::cells::{are_limited, table_of};
use convoy_best_plan::{site_words, sites_line};
use convoy_plans::Plan;
use convoy_survey::Times;
use convoy_tables::{Format, Table, table_text};
use convoy_times::Measure;
use std::alloc::{AllocError, Global};

/// The text that tells the placement with the least ceilings. Fails where memory runs out, and else never.
pub(crate) fn ceiling_text(
    alloc: Global,
    format: Format,
    measure: Option<Measure>,
    plan: &Plan,
    chosen: &CeilingChoice,
) -> Result<Vec<u8>, AllocError>
    ensures { IfOk result (λ text. text.items ≡ ceiling_text format measure plan.now chosen.now) }
{
    let table = ceiling_table(alloc, format, measure, plan, chosen)?;
    let lines = table_text(alloc, &table, format)?;
    let mut text = line_above(alloc, format, plan, chosen)?;
    text.extend_from_slice(&lines)?;
    Ok(text)
}

/// The line above a table for people, with where the groups are; nothing in the other formats.
fn line_above(
    alloc: Global,
    format: Format,
    plan: &Plan,
    chosen: &CeilingChoice,
) -> Result<Vec<u8>, AllocError>
    ensures { IfOk result (λ text. text.items ≡ line_above format plan.now chosen.now) }
{
    match format {
        Format::Text => {
            let sites = sites_line(alloc, plan, &chosen.placement)?;
            Vec::from_slice(alloc, sites.as_bytes())
        }
        Format::Csv | Format::Json | Format::Html => Ok(Vec::new(alloc)),
    }
}

/// The table of the ceilings, with one column more for the sites of the groups where no line above it tells them.
fn ceiling_table(
    alloc: Global,
    format: Format,
    measure: Option<Measure>,
    plan: &Plan,
    chosen: &CeilingChoice,
) -> Result<Table, AllocError>
    ensures { IfOk result (λ table. table ≡ ceiling_table format measure plan.now chosen.now) }
{
    let judged = are_limited(&chosen.rows);
    let times = Times::of(format, measure);
    let table = table_of(alloc, judged, &times, chosen)?;
    match format {
        Format::Text => Ok(table),
        Format::Csv | Format::Json | Format::Html => {
            let words = site_words(alloc, plan, &chosen.placement)?;
            table.with_column(alloc, "sites", &words)
        }
    }
}
