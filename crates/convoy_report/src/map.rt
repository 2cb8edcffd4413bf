//! The map of a system: its places on a circle, and a line for each way on which packets travel. It is an image of which
//! nothing is promised; all that it shows is told by the tables below it.

ghost use Rattle.std.specs.Prelude.{◌<◌};

use convoy_budget::Way;
use convoy_scenario::naming::{group_name, sender_word};
use convoy_scenario::{Scenario, Sender};
use std::alloc::{AllocError, Global};

/// How far a circle's points are from its left, of which the radius is 1,000, in steps of ten degrees from its top.
const ROUND: [u16; 36] = [
    1_000, 1_174, 1_342, 1_500, 1_643, 1_766, 1_866, 1_940, 1_985, 2_000, 1_985, 1_940, 1_866,
    1_766, 1_643, 1_500, 1_342, 1_174, 1_000, 826, 658, 500, 357, 234, 134, 60, 15, 0, 15, 60, 134,
    234, 357, 500, 658, 826,
];

/// How far the circle is from the left of the image, and from above.
const LEFT: u32 = 1_200;

const TOP: u32 = 250;

/// The map of a scenario with these ways.
pub(crate) fn map_of(
    alloc: Global,
    scenario: &Scenario,
    ways: &[Way],
) -> Result<String, AllocError> {
    let mut text = String::new(alloc);
    text.push_str(
        "<svg xmlns=\"http://www.w3.org/2000/svg\" viewBox=\"0 0 4400 2500\" role=\"img\" font-family=\"sans-serif\" font-size=\"110\">\n<title>The ways on which packets travel</title>\n<defs><marker id=\"tip\" markerWidth=\"9\" markerHeight=\"8\" refX=\"12\" refY=\"4\" orient=\"auto\"><path d=\"M0 0L9 4L0 8z\" fill=\"currentColor\"/></marker></defs>\n<g fill=\"none\" stroke=\"currentColor\" stroke-width=\"9\" stroke-opacity=\"0.7\">\n",
    )?;
    for way in ways {
        write_way(scenario, *way, &mut text)?;
    }
    text.push_str("</g>\n<g fill=\"currentColor\">\n")?;
    write_sender(scenario, Sender::Client(0), "clients", &mut text)?;
    for place in 0..scenario.place_count() {
        let sender = Sender::Client(place + 1);
        write_sender(scenario, sender, scenario.place_name(place), &mut text)?;
    }
    for group in 0..scenario.group_count() {
        let sender = Sender::Group(group);
        write_sender(scenario, sender, scenario.group_name(group), &mut text)?;
    }
    text.push_str("</g>\n</svg>\n")?;
    Ok(text)
}

/// Writes the line of a way, with what it is in its title.
fn write_way(scenario: &Scenario, way: Way, text: &mut String) -> Result<(), AllocError> {
    let (from, to) = (
        sender_word(scenario, way.sender),
        group_name(scenario, way.to),
    );
    let (least, most) = scenario.range_between(way.sender, way.to);
    write!(
        text,
        "<g><title>{from} to {to}: {least} to {most} ticks{}</title><path d=\"",
        stamps_words(scenario, way)
    )?;
    write_curve(scenario, way, text)?;
    text.push_str("\" marker-end=\"url(#tip)\"/></g>\n")
}

/// What the title of a way from a group to itself says where the group's own stamps go by it, too.
fn stamps_words(scenario: &Scenario, way: Way) -> &'static str {
    if way.sender == Sender::Group(way.to) && scenario.stamp_takes_time(way.to, way.to) {
        ", its own stamps, too"
    } else {
        ""
    }
}

/// Writes the curve of a way: one from a group to itself is a loop.
fn write_curve(scenario: &Scenario, way: Way, text: &mut String) -> Result<(), AllocError> {
    let (x, y) = spot(scenario, way.sender);
    if way.sender == Sender::Group(way.to) {
        return write!(text, "M{x} {y}c-260 -200 260 -200 0 0");
    }
    let (to_x, to_y) = spot(scenario, Sender::Group(way.to));
    let across = (x / 2 + to_x / 2 + to_y / 9).saturating_sub(y / 9);
    let down = (y / 2 + to_y / 2 + x / 9).saturating_sub(to_x / 9);
    write!(text, "M{x} {y}Q{across} {down} {to_x} {to_y}")
}

/// Writes a place of clients or a group, with its name outside the circle.
fn write_sender(
    scenario: &Scenario,
    sender: Sender,
    name: &str,
    text: &mut String,
) -> Result<(), AllocError> {
    let (x, y) = spot(scenario, sender);
    let (anchor, across) = if x < LEFT + 900 {
        ("end", x.saturating_sub(80))
    } else if x > LEFT + 1_100 {
        ("start", x + 80)
    } else {
        ("middle", x)
    };
    let down = if y < TOP + 900 {
        y.saturating_sub(60)
    } else if y > TOP + 1_100 {
        y + 140
    } else {
        y + 40
    };
    write!(
        text,
        "<circle cx=\"{x}\" cy=\"{y}\" r=\"36\"/><text x=\"{across}\" y=\"{down}\" text-anchor=\"{anchor}\">{name}</text>\n"
    )
}

/// How many stand before a sender on the circle: the clients of no named place are at its top, and those at the named
/// places come before the groups.
fn before(scenario: &Scenario, sender: Sender) -> usize {
    match sender {
        Sender::Client(place) => place,
        Sender::Group(group) => group
            .saturating_add(scenario.place_count())
            .saturating_add(1),
    }
}

/// How far a sender is from the left of the image, and from above.
fn spot(scenario: &Scenario, sender: Sender) -> (u32, u32)
    ensures { (result.0 < 70000) × (result.1 < 70000) }
{
    let count = scenario.place_count() + scenario.group_count() + 1;
    let step = before(scenario, sender).saturating_mul(36) / count % 36;
    (
        LEFT + u32::from(ROUND[step]),
        TOP + u32::from(ROUND[(step + 27) % 36]),
    )
}
