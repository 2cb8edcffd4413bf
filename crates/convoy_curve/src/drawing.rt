ghost use Rattle.std.specs.Prelude.{◌≡◌, ◌++◌, List, ℕ, IfOk, OnErr, OnOk, string_bytes};
ghost use Rattle.convoy_draw.specs.Drawings.{Tells};
ghost use Rattle.convoy_curve.specs.Curves.{IsCurve};

use super::axes::axes;
use super::curve::Curve;
use super::marks::{deadline_line, marks};
use super::notes::notes;
use super::sheet::{EDGE, HEIGHT, Sheet, WIDTH};
use convoy_scenario::AllocResult;
use std::alloc::{AllocError, Global};

/// Appends a curve as an image, the text of which is SVG (docs/FORMATS.md, "What `sweep` writes"). What it is of, each value
/// with its latency, and the deadline are told in words too. A latency is a bar along its value, or along the window of
/// values that it is of, from the least to the most that it may be; nothing is drawn between two of them. Where memory runs
/// out the vector is as it was.
pub fn write_curve(curve: &Curve, out: &mut Vec<u8>) -> Result<(), AllocError>
    ensures ok { OnOk result ((text : List ℕ) × IsCurve curve.now text × (out.new.items ≡ out.old.items ++ text)) }
    ensures err { OnErr result (out.new.items ≡ out.old.items) }
{
    let text = drawing(*out.allocator(), curve)?;
    out.extend_from_slice(text.as_bytes())
}

/// The text of the image.
fn drawing(alloc: Global, curve: &Curve) -> AllocResult<String>
    ensures { IfOk result (λ text. IsCurve curve.now (string_bytes text)) }
{
    let sheet = Sheet::of(curve);
    let start = start(alloc)?;
    let title = title(alloc, curve.title)?;
    let ground = ground(alloc, curve.title)?;
    let axes = axes(alloc, curve, &sheet)?;
    let marks = marks(alloc, curve, &sheet, curve.dots)?;
    let line = deadline_line(alloc, curve, &sheet)?;
    let notes = notes(alloc, curve.dots)?;
    format!(in alloc; "{start}{title}{ground}{axes}{marks}{line}{notes}</svg>\n")
}

/// What an image begins with: its size.
fn start(alloc: Global) -> AllocResult<String> {
    let (width, height) = (WIDTH / 10, HEIGHT / 10);
    format!(in alloc;
        "<svg xmlns=\"http://www.w3.org/2000/svg\" width=\"{width}\" height=\"{height}\" viewBox=\"0 0 {WIDTH} {HEIGHT}\" font-family=\"sans-serif\" font-size=\"140\">\n"
    )
}

/// Words as the title of an image.
fn title(alloc: Global, words: &str) -> AllocResult<String>
    ensures { IfOk result (λ text. Tells words.now (string_bytes text)) }
{
    format!(in alloc; "<title>{words}</title>\n")
}

/// A white ground, and words as its heading.
fn ground(alloc: Global, words: &str) -> AllocResult<String> {
    format!(in alloc;
        "<rect width=\"{WIDTH}\" height=\"{HEIGHT}\" fill=\"#ffffff\"/>\n<text x=\"{EDGE}\" y=\"420\" font-size=\"200\" font-weight=\"bold\">{words}</text>\n"
    )
}
