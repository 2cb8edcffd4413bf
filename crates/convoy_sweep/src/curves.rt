//! The curve of a sweep.

ghost use Rattle.std.specs.Prelude.{◌≡◌, map, IfOk, string_bytes};
ghost use Rattle.convoy_sweep.specs.Curves.{IsCurveOf, curve_title, dot_of};

use super::columns::key_name;
use super::kinds::{SweepKey, Swept};
use convoy_curve::{Curve, Dot, write_curve};
use convoy_scenario::naming::{group_name, message_name};
use convoy_scenario::{AllocResult, Scenario};
use convoy_times::Measure;
use std::alloc::{AllocError, Global};

/// The curve of these rows as an image, by the deadline of the target where this has one.
pub(crate) fn curve_text(
    alloc: Global,
    measure: Option<Measure>,
    deadline: Option<u32>,
    over: &SweepKey,
    scenario: &Scenario,
    rows: &[Swept],
) -> Result<Vec<u8>, AllocError>
    ensures { IfOk result (λ text. IsCurveOf measure deadline over.now scenario.now rows.now text.items) }
{
    let key = key_name(alloc, over)?;
    let title = title(alloc, scenario, key.as_str())?;
    let dots = dots_of(alloc, rows)?;
    let curve = Curve {
        title: title.as_str(),
        key: key.as_str(),
        dots: &dots,
        deadline,
        measure,
    };
    let mut text = Vec::new(alloc);
    write_curve(&curve, &mut text)?;
    Ok(text)
}

/// What a curve is of, by the words for its key.
fn title(alloc: Global, scenario: &Scenario, key: &str) -> AllocResult<String>
    ensures { IfOk result (λ title. string_bytes title ≡ curve_title scenario.now key.now) }
{
    let message = message_name(scenario, scenario.target_message());
    let group = group_name(scenario, scenario.target_group());
    format!(in alloc; "{message} at {group}: greatest latency by {key}")
}

/// What is drawn of these rows.
fn dots_of(alloc: Global, rows: &[Swept]) -> Result<Vec<Dot>, AllocError>
    ensures { IfOk result (λ dots. dots.items ≡ map dot_of rows.now) }
{
    let mut dots = Vec::new(alloc);
    for row in rows {
        dots.push(dot_of(row))?;
    }
    Ok(dots)
}

/// What is drawn of a row.
fn dot_of(row: &Swept) -> Dot
    ensures { result ≡ dot_of row.now }
{
    let given = row.point.first;
    Dot {
        value: given.value,
        last: given.last,
        least: row.finding.least(),
        most: row.finding.most(),
    }
}
