//! The latencies, and the deadline.

ghost use Rattle.std.specs.Prelude.{◌≡◌, IfOk, IfSome, string_bytes};
ghost use Rattle.std.specs.List.{All};
ghost use Rattle.convoy_draw.specs.Drawings.{Tells};
ghost use Rattle.convoy_draw.specs.Layers.{element_text};
ghost use Rattle.convoy_curve.specs.Curves.{deadline_text, dot_text};

use super::curve::{Curve, Dot};
use super::sheet::{BOTTOM, LEFT, RIGHT, Sheet, TOP};
use super::told::{deadline_words, dot_words};
use convoy_scenario::AllocResult;
use std::alloc::Global;

/// The colours of a latency that keeps the deadline, or that has none, and of one that does not.
const KEPT: &str = "#0072b2";

const MISSED: &str = "#d55e00";

/// How far a bar goes above and below the latency that it tells.
const THICK: u32 = 18;

/// A bar for each of these values of a curve, with its words: from the least to the most that the latency may be, and along the value or its
/// window. Nothing joins two of them.
pub(crate) fn marks(
    alloc: Global,
    curve: &Curve,
    sheet: &Sheet,
    dots: &[Dot],
) -> AllocResult<String>
    ensures { IfOk result (λ text. All (λ dot. Tells (dot_text curve.now dot) (string_bytes text)) dots.now) }
{
    let mut text = String::new(alloc);
    for dot in dots {
        let mark = mark(alloc, curve, sheet, dot)?;
        text.push_str(&mark)?;
    }
    Ok(text)
}

/// The bar of a value, with its words.
fn mark(alloc: Global, curve: &Curve, sheet: &Sheet, dot: &Dot) -> AllocResult<String>
    ensures { IfOk result (λ text. Tells (dot_text curve.now dot.now) (string_bytes text)) }
{
    let told = dot_words(alloc, curve, dot)?;
    let drawn = bar(alloc, curve, sheet, dot)?;
    element(alloc, &told, &drawn)
}

/// The bar of a value; a grey line from top to bottom where memory ran out.
fn bar(alloc: Global, curve: &Curve, sheet: &Sheet, dot: &Dot) -> AllocResult<String> {
    let (Some(least), Some(most)) = (dot.least, dot.most) else {
        let across = sheet.x_of(dot.value);
        return format!(in alloc;
            r##"<path d="M{across} {TOP}V{BOTTOM}" stroke="#999999" stroke-width="12" stroke-dasharray="30 60"/>"##
        );
    };
    let color = match curve.deadline {
        Some(deadline) if deadline < least => MISSED,
        _ => KEPT,
    };
    let opacity = if least == most { "1" } else { "0.4" };
    let (left, right) = sheet.bar_of(dot);
    let top = sheet.y_of(most).saturating_sub(THICK);
    let (width, height) = (
        right.saturating_sub(left),
        sheet.y_of(least).saturating_add(THICK).saturating_sub(top),
    );
    format!(in alloc;
        r#"<rect x="{left}" y="{top}" width="{width}" height="{height}" fill="{color}" fill-opacity="{opacity}"/>"#
    )
}

/// The line of the deadline, with its words; nothing where there is none.
pub(crate) fn deadline_line(alloc: Global, curve: &Curve, sheet: &Sheet) -> AllocResult<String>
    ensures { IfOk result (λ text.
        IfSome curve.now.deadline (λ ticks. Tells (deadline_text curve.now.measure ticks) (string_bytes text))) }
{
    match curve.deadline {
        Some(deadline) => line_at(alloc, curve, sheet, deadline),
        None => Ok(String::new(alloc)),
    }
}

/// The line of a deadline, with its words.
fn line_at(alloc: Global, curve: &Curve, sheet: &Sheet, deadline: u32) -> AllocResult<String>
    ensures { IfOk result (λ text. Tells (deadline_text curve.now.measure deadline) (string_bytes text)) }
{
    let told = deadline_words(alloc, &curve.measure, deadline)?;
    let down = sheet.y_of(deadline);
    let drawn = format!(in alloc;
        r##"<path d="M{LEFT} {down}H{RIGHT}" stroke="{MISSED}" stroke-width="16" stroke-dasharray="90 60"/><text x="{RIGHT}" y="{down}" dy="-60" fill="#b34f00" text-anchor="end">{told}</text>"##
    )?;
    element(alloc, &told, &drawn)
}

/// An element that is drawn so and that tells so.
fn element(alloc: Global, told: &str, drawn: &str) -> AllocResult<String>
    ensures { IfOk result (λ element. string_bytes element ≡ element_text told.now drawn.now) }
{
    format!(in alloc; "<g><title>{told}</title>{drawn}</g>\n")
}
