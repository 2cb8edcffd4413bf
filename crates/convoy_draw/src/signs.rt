ghost use Rattle.std.specs.Prelude.{IfOk, IsTrue, List, OnOk, string_bytes, ℕ};
ghost use Rattle.std.specs.List.{All};
ghost use Rattle.convoy_draw.specs.Drawings.{Tells};
ghost use Rattle.convoy_draw.specs.Layers.{IsToldIn};
ghost use Rattle.convoy_draw.specs.Shown.{is_wordless};
ghost use Rattle.convoy_picture.specs.Words.{entry_text};

use super::layers::Layers;
use super::scene::Scene;
use convoy_picture::{
    GAP, Mark, MarkKind, Role, entry_label, entry_mark, entry_words, is_turned, issue_label,
    issue_mark, wait_label, wait_mark,
};
use convoy_timeline::Entry;
use std::alloc::{AllocError, Global};

/// The colour of the time that the target waits.
pub(crate) const WAIT_COLOR: &str = "#f0c000";

/// The signs of all marks, each with a line to its words.
pub(crate) fn signs(scene: &Scene) -> Result<String, AllocError>
    ensures { IfOk result (λ text.
        All (λ entry. Tells (entry_text scene.now.scenario.now entry) (string_bytes text)) scene.now.picture.now.entries) }
{
    let mut layers = Layers::new(scene.alloc);
    push_issue_signs(&mut layers, scene)?;
    push_wait_sign(&mut layers, scene)?;
    push_entry_signs(&mut layers, scene)?;
    layers.joined(
        scene.alloc,
        r##"fill="#767676" stroke="#767676" stroke-width="6""##,
        r##"fill="#d55e00" stroke="#d55e00" stroke-width="6""##,
        r##"fill="#0072b2" stroke="#0072b2" stroke-width="6""##,
    )
}

/// The signs of what happens at groups.
fn push_entry_signs(layers: &mut Layers, scene: &Scene) -> Result<(), AllocError>
    ensures { OnOk result
        (All (λ entry. IsToldIn layers.new (entry_text scene.now.scenario.now entry)) scene.now.picture.now.entries) }
{
    for (i, entry) in scene.picture.entries().iter().enumerate() {
        push_entry_sign(layers, scene, i, entry)?;
    }
    Ok(())
}

/// The sign of what happens at a group, the entry of that number in the picture.
fn push_entry_sign(
    layers: &mut Layers,
    scene: &Scene,
    number: usize,
    entry: &Entry,
) -> Result<(), AllocError>
    ensures told { OnOk result (IsToldIn layers.new (entry_text scene.now.scenario.now entry.now)) }
    ensures still { OnOk result ((piece : List ℕ) → IsToldIn layers.old piece → IsToldIn layers.new piece) }
{
    let told = entry_words(scene.alloc, scene.scenario, entry)?;
    let drawn = sign_at(scene, &entry_mark(entry), scene.sheet.entry_row(number))?;
    let role = scene.role_of(entry.message);
    layers.push_telling(role, &told, &drawn)
}

/// The signs of messages where they are issued.
fn push_issue_signs(layers: &mut Layers, scene: &Scene) -> Result<(), AllocError> {
    for message in 0..scene.scenario.message_count() {
        let mark = issue_mark(scene.scenario, scene.picture, message);
        let drawn = sign_at(scene, &mark, scene.sheet.issue_row(message))?;
        layers.push(scene.role_of(message), &drawn)?;
    }
    Ok(())
}

/// The sign at the words that tell how long the target waits.
fn push_wait_sign(layers: &mut Layers, scene: &Scene) -> Result<(), AllocError> {
    match wait_mark(scene.scenario, scene.picture) {
        Some(mark) => {
            let drawn = sign_at(scene, &mark, scene.sheet.wait_row())?;
            layers.push(Role::Target, &drawn)
        }
        None => Ok(()),
    }
}

/// The sign of a mark: at its words below the lane, or else on the lane, with a line to its words.
fn sign_at(scene: &Scene, mark: &Mark, row: Option<usize>) -> Result<String, AllocError> {
    let (x, lane) = (scene.sheet.x_of(mark), scene.sheet.y_of(mark.lane));
    let Some(row) = row else {
        return sign(scene.alloc, mark.kind, x, lane);
    };
    let end = scene.sheet.row_of(mark, row).saturating_sub(40);
    let y = if mark.kind.is_above() { lane } else { end };
    let sign = sign(scene.alloc, mark.kind, x, y)?;
    format!(in scene.alloc; r#"<path d="M{x} {lane}V{end}" stroke-opacity="0.5"/>{sign}"#)
}

/// The sign of a kind of mark.
pub(crate) fn sign(
    alloc: Global,
    kind: MarkKind,
    across: u32,
    down: u32,
) -> Result<String, AllocError>
    ensures { IfOk result (λ sign. IsTrue (is_wordless (string_bytes sign))) }
{
    let (left, top) = (across.saturating_sub(35), down.saturating_sub(35));
    match kind {
        MarkKind::Issue => {
            format!(in alloc;
                r##"<circle cx="{across}" cy="{down}" r="38" fill="#ffffff" stroke-width="14"/>"##
            )
        }
        MarkKind::Arrival => format!(in alloc; r#"<circle cx="{across}" cy="{down}" r="38"/>"#),
        MarkKind::Commit => {
            format!(in alloc; r#"<rect x="{left}" y="{top}" width="70" height="70"/>"#)
        }
        MarkKind::Wait => {
            format!(in alloc;
                r#"<rect x="{left}" y="{top}" width="70" height="70" fill="{WAIT_COLOR}" stroke="none"/>"#
            )
        }
        MarkKind::Delivery => {
            let left = across.saturating_sub(45);
            format!(in alloc; r#"<path d="M{left} {top}h90l-45 80z"/>"#)
        }
    }
}

/// The words beside all marks.
pub(crate) fn labels(scene: &Scene) -> Result<String, AllocError> {
    let mut layers = Layers::new(scene.alloc);
    push_issue_labels(&mut layers, scene)?;
    push_entry_labels(&mut layers, scene)?;
    push_wait_label(&mut layers, scene)?;
    let text = layers.joined(
        scene.alloc,
        r##"fill="#767676""##,
        r##"fill="#d55e00""##,
        r##"fill="#0072b2""##,
    )?;
    format!(in scene.alloc;
        r##"<g stroke="#ffffff" stroke-width="36" stroke-linejoin="round" paint-order="stroke">{text}</g>"##
    )
}

/// The words on messages where they are issued.
fn push_issue_labels(layers: &mut Layers, scene: &Scene) -> Result<(), AllocError> {
    for message in 0..scene.scenario.message_count() {
        let label = issue_label(scene.alloc, scene.scenario, message)?;
        let mark = issue_mark(scene.scenario, scene.picture, message);
        let words = words_at(scene, &mark, scene.sheet.issue_row(message), &label)?;
        layers.push(scene.role_of(message), &words)?;
    }
    Ok(())
}

/// The words that tell how long the target waits.
fn push_wait_label(layers: &mut Layers, scene: &Scene) -> Result<(), AllocError> {
    let Some(mark) = wait_mark(scene.scenario, scene.picture) else {
        return Ok(());
    };
    let label = wait_label(scene.alloc, scene.scenario, scene.measure, scene.picture)?;
    let words = words_at(scene, &mark, scene.sheet.wait_row(), &label)?;
    layers.push(Role::Target, &words)
}

/// The words on what happens at groups.
fn push_entry_labels(layers: &mut Layers, scene: &Scene) -> Result<(), AllocError> {
    for (i, entry) in scene.picture.entries().iter().enumerate() {
        let label = entry_label(scene.alloc, scene.scenario, entry)?;
        let words = words_at(scene, &entry_mark(entry), scene.sheet.entry_row(i), &label)?;
        layers.push(scene.role_of(entry.message), &words)?;
    }
    Ok(())
}

/// The words beside a mark in a row, if they have one.
fn words_at(
    scene: &Scene,
    mark: &Mark,
    row: Option<usize>,
    label: &str,
) -> Result<String, AllocError> {
    let Some(row) = row else {
        return Ok(String::new(scene.alloc));
    };
    let (x, y) = (scene.sheet.x_of(mark), scene.sheet.row_of(mark, row));
    if is_turned(x, label) {
        let end = x.saturating_sub(GAP);
        format!(in scene.alloc; "<text x=\"{end}\" y=\"{y}\" text-anchor=\"end\">{label}</text>\n")
    } else {
        let start = x.saturating_add(GAP);
        format!(in scene.alloc; "<text x=\"{start}\" y=\"{y}\">{label}</text>\n")
    }
}
