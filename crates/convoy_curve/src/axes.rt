//! The two axes: values across, latencies up.

use super::curve::Curve;
use super::rounding::{MOST_NUMERALS, step_of};
use super::sheet::{BOTTOM, EDGE, LEFT, RIGHT, Sheet, TOP};
use convoy_scenario::AllocResult;
use convoy_times::Measure;
use std::alloc::{AllocError, Global};

/// The axes, with lines at their numbers.
pub(crate) fn axes(alloc: Global, curve: &Curve, sheet: &Sheet) -> AllocResult<String> {
    let mut text = String::new(alloc);
    text.push_str("<g fill=\"#444444\" stroke-width=\"6\">\n")?;
    write_values(alloc, curve, sheet, &mut text)?;
    write_latencies(alloc, curve, sheet, &mut text)?;
    write!(
        text,
        "<path d=\"M{LEFT} {TOP}V{BOTTOM}H{RIGHT}\" fill=\"none\" stroke=\"#444444\" stroke-width=\"12\"/>\n</g>\n"
    )?;
    Ok(text)
}

/// The numbers across, and the words for what they count.
fn write_values(
    alloc: Global,
    curve: &Curve,
    sheet: &Sheet,
    text: &mut String,
) -> Result<(), AllocError> {
    let (down, below) = (BOTTOM + 220, BOTTOM + 520);
    let step = step_of(
        length_of(&curve.measure),
        sheet.last.saturating_sub(sheet.first),
    );
    for place in 0..=MOST_NUMERALS {
        let value = multiple(sheet.first, step, place);
        if value <= sheet.last {
            let number = number(alloc, &curve.measure, value)?;
            let across = sheet.x_of(value);
            write!(
                text,
                "<path d=\"M{across} {TOP}V{BOTTOM}\" stroke=\"#dddddd\"/><text x=\"{across}\" y=\"{down}\" text-anchor=\"middle\">{number}</text>\n"
            )?;
        }
    }
    let (key, unit) = (curve.key, unit_of(&curve.measure));
    write!(
        text,
        "<text x=\"{RIGHT}\" y=\"{below}\" font-size=\"150\" text-anchor=\"end\">{key}, {unit}</text>\n"
    )
}

/// The numbers up, and the words for what they count.
fn write_latencies(
    alloc: Global,
    curve: &Curve,
    sheet: &Sheet,
    text: &mut String,
) -> Result<(), AllocError> {
    let (aside, above) = (LEFT - 180, TOP - 200);
    let step = step_of(
        length_of(&curve.measure),
        sheet.high.saturating_sub(sheet.low),
    );
    for place in 0..=MOST_NUMERALS {
        let latency = multiple(sheet.low, step, place);
        if latency <= sheet.high {
            let number = number(alloc, &curve.measure, latency)?;
            let down = sheet.y_of(latency);
            write!(
                text,
                "<path d=\"M{LEFT} {down}H{RIGHT}\" stroke=\"#dddddd\"/><text x=\"{aside}\" y=\"{down}\" dy=\"50\" text-anchor=\"end\">{number}</text>\n"
            )?;
        }
    }
    let unit = unit_of(&curve.measure);
    write!(
        text,
        "<text x=\"{EDGE}\" y=\"{above}\" font-size=\"150\">greatest latency, {unit}</text>\n"
    )
}

/// The multiple of a step, so many steps after the first that is not below a number.
fn multiple(number: u32, step: u32, place: u32) -> u32 {
    let first = number.div_ceil(step.max(1)).saturating_mul(step);
    first.saturating_add(step.saturating_mul(place))
}

/// A number of an axis, in the unit in which times are told.
fn number(alloc: Global, measure: &Option<Measure>, ticks: u32) -> AllocResult<String> {
    match measure {
        Some(measure) => measure.text(alloc, ticks),
        None => format!(in alloc; "{ticks}"),
    }
}

/// The word for what the numbers of an axis count.
fn unit_of(measure: &Option<Measure>) -> &'static str {
    match measure {
        Some(measure) => measure.unit.word(),
        None => "ticks",
    }
}

/// How many nanoseconds a tick has, where that is known; else 1.
fn length_of(measure: &Option<Measure>) -> u64 {
    match measure {
        Some(measure) => measure.tick.nanoseconds(),
        None => 1,
    }
}
