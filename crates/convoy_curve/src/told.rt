//! What is told in words.

ghost use Rattle.std.specs.Prelude.{◌≡◌, IfOk, string_bytes};
ghost use Rattle.convoy_curve.specs.Curves.{between_text, deadline_text, dot_text, latency_text, value_text};

use super::curve::{Curve, Dot};
use convoy_scenario::AllocResult;
use convoy_timeline::ticks_text;
use convoy_times::Measure;
use std::alloc::Global;

/// What is told at one value of the key.
pub(crate) fn dot_words(alloc: Global, curve: &Curve, dot: &Dot) -> AllocResult<String>
    ensures { IfOk result (λ words. string_bytes words ≡ dot_text curve.now dot.now) }
{
    let key = curve.key;
    let value = value_words(alloc, &curve.measure, dot.value, dot.last)?;
    let latency = latency_words(alloc, &curve.measure, dot.least, dot.most)?;
    format!(in alloc; "{key} {value}: {latency}")
}

/// A value, or a window from one value to another.
fn value_words(
    alloc: Global,
    measure: &Option<Measure>,
    value: u32,
    last: Option<u32>,
) -> AllocResult<String>
    ensures { IfOk result (λ words. string_bytes words ≡ value_text measure.now value last) }
{
    let first = ticks_text(alloc, *measure, value)?;
    match last {
        Some(last) => {
            let last = ticks_text(alloc, *measure, last)?;
            format!(in alloc; "{first} to {last}")
        }
        None => Ok(first),
    }
}

/// A latency, where it is known.
fn latency_words(
    alloc: Global,
    measure: &Option<Measure>,
    least: Option<u32>,
    most: Option<u32>,
) -> AllocResult<String>
    ensures { IfOk result (λ words. string_bytes words ≡ latency_text measure.now least most) }
{
    match (least, most) {
        (Some(least), Some(most)) => between_words(alloc, measure, least, most),
        (Some(_), None) | (None, _) => String::from_str(alloc, "out of memory"),
    }
}

/// A latency that is known to be at least and at most so many ticks.
fn between_words(
    alloc: Global,
    measure: &Option<Measure>,
    least: u32,
    most: u32,
) -> AllocResult<String>
    ensures { IfOk result (λ words. string_bytes words ≡ between_text measure.now least most) }
{
    let first = ticks_text(alloc, *measure, least)?;
    if least == most {
        return format!(in alloc; "at worst {first}");
    }
    let last = ticks_text(alloc, *measure, most)?;
    format!(in alloc; "at worst at least {first} and at most {last}")
}

/// What is told of the deadline.
pub(crate) fn deadline_words(
    alloc: Global,
    measure: &Option<Measure>,
    deadline: u32,
) -> AllocResult<String>
    ensures { IfOk result (λ words. string_bytes words ≡ deadline_text measure.now deadline) }
{
    let ticks = ticks_text(alloc, *measure, deadline)?;
    format!(in alloc; "deadline {ticks}")
}
