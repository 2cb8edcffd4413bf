//! The text of the best choice of a plan.

ghost use Rattle.std.specs.Prelude.{◌≡◌, ◌++◌, string_bytes, IfOk, OnOk};
ghost use Rattle.convoy_plans.specs.Placements.{site_at};
ghost use Rattle.convoy_best_plan.specs.PlanTexts.{lines_above, order_told, place_word, plan_table, plan_text, site_words, sites_line};

use super::planned::Planned;
use convoy_best_order::{order_line, order_table};
use convoy_plans::Plan;
use convoy_tables::{Format, Table, table_text};
use convoy_times::Measure;
use std::alloc::{AllocError, Global};

/// The text that tells the best choice of a plan. Fails where memory runs out, and else never.
pub(crate) fn plan_text(
    alloc: Global,
    format: Format,
    with_reasons: bool,
    measure: Option<Measure>,
    plan: &Plan,
    planned: &Planned,
) -> Result<Vec<u8>, AllocError>
    ensures { IfOk result (λ text. text.items ≡ plan_text format with_reasons measure plan.now planned.now) }
{
    let table = plan_table(alloc, format, with_reasons, measure, plan, planned)?;
    let lines = table_text(alloc, &table, format)?;
    let mut text = lines_above(alloc, format, plan, planned)?;
    text.extend_from_slice(&lines)?;
    Ok(text)
}

/// The lines above a table for people, with where the groups are and in which order they are listed; nothing in the other
/// formats.
fn lines_above(
    alloc: Global,
    format: Format,
    plan: &Plan,
    planned: &Planned,
) -> Result<Vec<u8>, AllocError>
    ensures { IfOk result (λ text. text.items ≡ lines_above format plan.now planned.now) }
{
    match format {
        Format::Text => {
            let sites = sites_line(alloc, plan, &planned.placement)?;
            let order = order_line(alloc, &planned.scenario, &planned.best.order)?;
            let mut text = Vec::from_slice(alloc, sites.as_bytes())?;
            text.extend_from_slice(order.as_bytes())?;
            Ok(text)
        }
        Format::Csv | Format::Json | Format::Html => Ok(Vec::new(alloc)),
    }
}

/// The line that tells where the groups are.
pub fn sites_line(alloc: Global, plan: &Plan, placement: &[usize]) -> Result<String, AllocError>
    ensures { IfOk result (λ line. string_bytes line ≡ sites_line plan.now placement.now) }
{
    let words = site_words(alloc, plan, placement)?;
    format!(in alloc; "sites {words}\n")
}

/// Each group with its site, as `orders@ireland`, with a space between them.
pub fn site_words(alloc: Global, plan: &Plan, placement: &[usize]) -> Result<String, AllocError>
    ensures { IfOk result (λ words. string_bytes words ≡ site_words plan.now placement.now) }
{
    let mut words = String::new(alloc);
    push_place(plan, placement, 0, &mut words)?;
    for group in 1..plan.group_count() {
        words.push_str(" ")?;
        push_place(plan, placement, group, &mut words)?;
    }
    Ok(words)
}

/// Appends a group with its site.
fn push_place(
    plan: &Plan,
    placement: &[usize],
    group: usize,
    words: &mut String,
) -> Result<(), AllocError>
    ensures { OnOk result (string_bytes words.new
        ≡ string_bytes words.old ++ place_word plan.now placement.now group) }
{
    words.push_str(plan.group_name(group))?;
    words.push_str("@")?;
    words.push_str(plan.site_name(site_at(placement, group)))
}

/// The site of a group.
fn site_at(placement: &[usize], group: usize) -> usize
    ensures { result ≡ site_at placement.now group }
{
    match placement.get(group) {
        Some(site) => *site,
        None => 0,
    }
}

/// The table of the order in which the groups are listed, with one column more for their sites where no line above it tells
/// them.
pub(crate) fn plan_table(
    alloc: Global,
    format: Format,
    with_reasons: bool,
    measure: Option<Measure>,
    plan: &Plan,
    planned: &Planned,
) -> Result<Table, AllocError>
    ensures { IfOk result (λ table. table ≡ plan_table format with_reasons measure plan.now planned.now) }
{
    let table = order_told(alloc, format, with_reasons, measure, planned)?;
    match format {
        Format::Text => Ok(table),
        Format::Csv | Format::Json | Format::Html => {
            let words = site_words(alloc, plan, &planned.placement)?;
            table.with_column(alloc, "sites", &words)
        }
    }
}

/// The table of that order.
fn order_told(
    alloc: Global,
    format: Format,
    with_reasons: bool,
    measure: Option<Measure>,
    planned: &Planned,
) -> Result<Table, AllocError>
    ensures { IfOk result (λ table. table ≡ order_told format with_reasons measure planned.now) }
{
    order_table(
        alloc,
        format,
        with_reasons,
        measure,
        &planned.scenario,
        &planned.targets,
        &planned.best,
        &[],
    )
}
