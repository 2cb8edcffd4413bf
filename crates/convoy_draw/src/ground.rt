use super::scene::Scene;
use super::signs::WAIT_COLOR;
use convoy_picture::{AXIS, LEFT, Numeral, Sheet, lane_of, wait_mark, width_of};
use convoy_scenario::naming::group_name;
use convoy_scenario::{Scenario, Sender};
use std::alloc::{AllocError, Global};

/// How far what stands beside the lanes is from the first tick.
const ASIDE: u32 = 150;

/// How wide the name of a lane may be with no need to squeeze it.
const WIDEST_NAME: u32 = 1_250;

/// How a name is drawn that is wider.
const SQUEEZED: &str = r#" textLength="1450" lengthAdjust="spacingAndGlyphs""#;

/// What all else is drawn on: the axis, the lanes, and the time that the target waits at its group.
pub(crate) fn ground(scene: &Scene) -> Result<String, AllocError> {
    let mut text = String::new(scene.alloc);
    write_axis(scene.sheet, &mut text)?;
    write_lanes(scene, &mut text)?;
    write_wait(scene, &mut text)?;
    Ok(text)
}

/// The axis: what its numbers count, and these, with a line down all lanes at each.
fn write_axis(sheet: &Sheet, text: &mut String) -> Result<(), AllocError> {
    let left = LEFT - ASIDE;
    write!(
        text,
        "<g fill=\"#444444\" text-anchor=\"middle\" stroke-width=\"6\">\n<text x=\"{left}\" y=\"{AXIS}\" text-anchor=\"end\">{}</text>\n",
        sheet.axis.word,
    )?;
    for numeral in sheet.axis.numerals() {
        write_numeral(sheet, numeral, text)?;
    }
    text.push_str("</g>\n")
}

/// A number of the axis, and the line below it.
fn write_numeral(sheet: &Sheet, numeral: &Numeral, text: &mut String) -> Result<(), AllocError> {
    let (x, top, bottom) = (numeral.across, AXIS + 60, sheet.bottom);
    let number = numeral.text.as_str();
    write!(
        text,
        "<text x=\"{x}\" y=\"{AXIS}\">{number}</text><path d=\"M{x} {top}V{bottom}\" stroke=\"#dddddd\"/>\n"
    )
}

/// The lanes on which something happens.
fn write_lanes(scene: &Scene, text: &mut String) -> Result<(), AllocError> {
    text.push_str("<g stroke=\"#444444\" stroke-width=\"12\">\n")?;
    for lane in 0..scene.sheet.lane_count() {
        if scene.sheet.has_lane(lane) {
            write_name(scene, lane, text)?;
            write_lane(scene.sheet, scene.sheet.y_of(lane), text)?;
        }
    }
    text.push_str("</g>\n")
}

/// The name of a lane; bold where it is that of the target's group.
fn write_name(scene: &Scene, lane: usize, text: &mut String) -> Result<(), AllocError> {
    let (x, y) = (LEFT - ASIDE, scene.sheet.y_of(lane).saturating_add(40));
    let name = lane_name(scene.scenario, lane);
    let weight = if lane == lane_of(Sender::Group(scene.scenario.target_group())) {
        "bold"
    } else {
        "normal"
    };
    let squeezed = if width_of(name) > WIDEST_NAME {
        SQUEEZED
    } else {
        ""
    };
    write!(
        text,
        "<text x=\"{x}\" y=\"{y}\" font-size=\"120\" font-weight=\"{weight}\" text-anchor=\"end\" stroke=\"none\"{squeezed}>{name}</text>\n"
    )
}

/// The name of a lane.
fn lane_name(scenario: &Scenario, lane: usize) -> &str {
    match lane.checked_sub(1) {
        Some(group) => group_name(scenario, group),
        None => "clients",
    }
}

/// A lane that far down: a line through each stretch, and two strokes in the middle of each cut.
fn write_lane(sheet: &Sheet, down: u32, text: &mut String) -> Result<(), AllocError> {
    let mut end: Option<u32> = None;
    for stretch in sheet.scale.stretches() {
        let left = stretch.left.saturating_sub(80);
        if let Some(end) = end {
            write_cut(end, left, down, text)?;
        }
        let right = sheet.scale.right_of(stretch).saturating_add(80);
        write!(text, "<path d=\"M{left} {down}H{right}\"/>\n")?;
        end = Some(right);
    }
    Ok(())
}

/// Two strokes in the middle between the end of a line and the next one, that far down.
fn write_cut(end: u32, left: u32, down: u32, text: &mut String) -> Result<(), AllocError> {
    let low = down.saturating_add(60);
    let middle = (end / 2).saturating_add(left / 2);
    let (first, second) = (middle.saturating_sub(55), middle.saturating_sub(5));
    write!(
        text,
        "<path d=\"M{first} {low}l60 -120M{second} {low}l60 -120\"/>\n"
    )
}

/// The time from the commit of the target to its delivery, at its group.
fn write_wait(scene: &Scene, text: &mut String) -> Result<(), AllocError> {
    let Some(mark) = wait_mark(scene.scenario, scene.picture) else {
        return Ok(());
    };
    let left = scene.sheet.x_of(&mark);
    let right = scene
        .sheet
        .scale
        .place(scene.picture.why().delivered, mark.message);
    let (top, width) = (
        scene.sheet.y_of(mark.lane).saturating_sub(50),
        right.saturating_sub(left),
    );
    write!(
        text,
        "<rect x=\"{left}\" y=\"{top}\" width=\"{width}\" height=\"100\" fill=\"{WAIT_COLOR}\" fill-opacity=\"0.7\"/>\n"
    )
}
