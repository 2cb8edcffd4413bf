ghost use Rattle.std.specs.Prelude.{IfOk, IsTrue, string_bytes};
ghost use Rattle.convoy_scenario.specs.Scenario.{may_wait, message_at};
ghost use Rattle.convoy_timeline.specs.Explanations.{window_text};
ghost use Rattle.convoy_draw.specs.Drawings.{Tells, TellsWindows};

use super::layers::element;
use super::scene::Scene;
use super::style::{BAR, color_of};
use convoy_picture::issue_mark;
use convoy_scenario::lookup::{may_wait, window};
use convoy_timeline::window_text;
use std::alloc::{AllocError, Global};

/// The bars of messages that may wait, from the first to the last tick at which each may be issued.
pub(crate) fn windows(scene: &Scene) -> Result<String, AllocError>
    ensures { IfOk result (λ text. TellsWindows scene.now.scenario.now (string_bytes text)) }
{
    let mut text = String::new(scene.alloc);
    for message in 0..scene.scenario.message_count() {
        let bar = bar_of(scene, message)?;
        text.push_str(&bar)?;
    }
    Ok(text)
}

/// The bar of a message, with its words; nothing where the message does not wait.
fn bar_of(scene: &Scene, message: usize) -> Result<String, AllocError>
    ensures { IfOk result (λ text. IsTrue (may_wait (message_at scene.now.scenario.now message))
        → Tells (window_text scene.now.scenario.now message) (string_bytes text)) }
{
    if !may_wait(scene.scenario, message) {
        return Ok(String::new(scene.alloc));
    }
    let told = window_text(scene.alloc, scene.scenario, message)?;
    let drawn = bar(scene, message)?;
    element(scene.alloc, &told, &drawn)
}

/// A bar on the lane of the place that issues a message.
fn bar(scene: &Scene, message: usize) -> Result<String, AllocError> {
    let (first, last) = window(scene.scenario, message);
    let left = scene.sheet.scale.place(first, message);
    let right = scene.sheet.scale.place(last, message);
    let down = scene
        .sheet
        .y_of(issue_mark(scene.scenario, scene.picture, message).lane);
    let color = color_of(scene.role_of(message));
    format!(in scene.alloc; r#"<path d="M{left} {down}H{right}" stroke="{color}" {BAR}/>"#)
}
