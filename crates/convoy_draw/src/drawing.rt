ghost use Rattle.std.specs.Prelude.{◌≡◌, ◌++◌, IfOk, IsTrue, List, OnErr, OnOk, string_bytes, ℕ};
ghost use Rattle.convoy_draw.specs.Drawings.{IsDrawing, head_of, head_text};
ghost use Rattle.convoy_draw.specs.Shown.{is_wordless};

use super::ground::ground;
use super::legend::legend;
use super::packets::packets;
use super::scene::Scene;
use super::shown::sized_words;
use super::signs::{labels, signs};
use super::windows::windows;
use convoy_picture::{MARGIN, Picture, Sheet, WIDTH, answer_words, reason_words};
use convoy_scenario::Scenario;
use convoy_times::Measure;
use std::alloc::{AllocError, Global};

/// How large the heading is.
const HEADING_SIZE: &str = r#" font-size="200" font-weight="bold""#;

/// How large the reason is.
const REASON_SIZE: &str = r#" font-size="130""#;

/// Appends the picture of a run of the scenario as an image, the text of which is SVG and ASCII
/// (docs/FORMATS.md, "What `draw` writes"). Where memory runs out the vector is as it was.
///
/// What is drawn is what the picture tells: above all else stand the answer, with time from the issue of message
/// `origin`, and the reason, and below it the legend. Each packet, all that happens at a group and the ticks at which a message may be issued that may
/// wait are told in words too. Of a picture of another scenario messages and groups that this one has not
/// are drawn without a name.
pub fn write_drawing(
    scenario: &Scenario,
    measure: Option<Measure>,
    picture: &Picture,
    origin: usize,
    out: &mut Vec<u8>,
) -> Result<(), AllocError>
    ensures ok { OnOk result ((text : List ℕ) × IsDrawing measure scenario.now picture.now origin text
        × (out.new.items ≡ out.old.items ++ text)) }
    ensures err { OnErr result (out.new.items ≡ out.old.items) }
{
    let text = drawing(*out.allocator(), scenario, &measure, picture, origin)?;
    out.extend_from_slice(text.as_bytes())
}

/// The text of the image.
fn drawing(
    alloc: Global,
    scenario: &Scenario,
    measure: &Option<Measure>,
    picture: &Picture,
    origin: usize,
) -> Result<String, AllocError>
    ensures { IfOk result (λ text. IsDrawing measure.now scenario.now picture.now origin (string_bytes text)) }
{
    let sheet = Sheet::of(alloc, scenario, picture, measure)?;
    let scene = Scene {
        alloc,
        scenario,
        measure,
        picture,
        sheet: &sheet,
    };
    let start = start(alloc, WIDTH, sheet.height())?;
    let head = head(alloc, scenario, measure, picture, origin)?;
    let ground = ground(&scene)?;
    let windows = windows(&scene)?;
    let packets = packets(&scene)?;
    let signs = signs(&scene)?;
    let labels = labels(&scene)?;
    let legend = legend(&scene)?;
    format!(in alloc; "{start}{head}{ground}{windows}{packets}{signs}{labels}{legend}</svg>\n")
}

/// The start of an image that is so wide and so high, in tenths of a pixel: its size, and a white ground.
fn start(alloc: Global, wide: u32, high: u32) -> Result<String, AllocError>
    ensures { IfOk result (λ text. IsTrue (is_wordless (string_bytes text))) }
{
    let (width, height) = (wide / 10, high / 10);
    let ground = white_ground(alloc, wide, high)?;
    format!(in alloc;
        "<svg xmlns=\"http://www.w3.org/2000/svg\" width=\"{width}\" height=\"{height}\" viewBox=\"0 0 {wide} {high}\" font-family=\"sans-serif\" font-size=\"110\">\n{ground}"
    )
}

/// A white ground that is so wide and so high.
fn white_ground(alloc: Global, wide: u32, high: u32) -> Result<String, AllocError>
    ensures { IfOk result (λ text. IsTrue (is_wordless (string_bytes text))) }
{
    format!(in alloc; "<rect width=\"{wide}\" height=\"{high}\" fill=\"#ffffff\"/>\n")
}

/// What an image tells first: the answer as its title and as its heading, and why the target is so late.
fn head(
    alloc: Global,
    scenario: &Scenario,
    measure: &Option<Measure>,
    picture: &Picture,
    origin: usize,
) -> Result<String, AllocError>
    ensures { IfOk result (λ text. string_bytes text ≡ head_text measure.now scenario.now picture.now origin) }
{
    let answer = answer_words(alloc, scenario, measure, picture, origin)?;
    let reason = reason_words(alloc, scenario, picture.why())?;
    head_of(alloc, &answer, &reason)
}

/// What an image tells first, of an answer and its reason.
fn head_of(alloc: Global, answer: &str, reason: &str) -> Result<String, AllocError>
    ensures { IfOk result (λ text. string_bytes text ≡ head_of answer.now reason.now) }
{
    let heading = sized_words(alloc, MARGIN, 360, HEADING_SIZE, answer)?;
    let reason = sized_words(alloc, MARGIN, 570, REASON_SIZE, reason)?;
    format!(in alloc; "<title>{answer}</title>\n{heading}{reason}")
}
