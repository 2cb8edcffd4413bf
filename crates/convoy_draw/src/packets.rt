ghost use Rattle.std.specs.Prelude.{IfOk, List, OnOk, string_bytes, ℕ};
ghost use Rattle.std.specs.List.{All};
ghost use Rattle.convoy_draw.specs.Drawings.{Tells};
ghost use Rattle.convoy_draw.specs.Layers.{IsToldIn};
ghost use Rattle.convoy_picture.specs.Words.{flight_text};

use super::layers::Layers;
use super::scene::Scene;
use super::style::{color_of, stroke_of};
use convoy_packets::Packet;
use convoy_picture::{Flight, Role, flight_words, lane_of, receiver_of};
use convoy_scenario::Sender;
use convoy_timeline::LastProposal;
use std::alloc::{AllocError, Global};

/// How a packet is drawn for which the delivery of the target waits.
const THICK: &str = r#" stroke-width="40""#;

/// The packets on their way from lane to lane: messages straight and solid, proposals bent and dashed.
pub(crate) fn packets(scene: &Scene) -> Result<String, AllocError>
    ensures { IfOk result (λ text.
        All (λ flight. Tells (flight_text scene.now.scenario.now flight) (string_bytes text)) scene.now.picture.now.flights) }
{
    let layers = flight_layers(scene)?;
    let count = scene.picture.flights().len();
    let others = attributes(scene.alloc, Role::Other, count)?;
    let holder = attributes(scene.alloc, Role::Holder, count)?;
    let target = attributes(scene.alloc, Role::Target, count)?;
    layers.joined(scene.alloc, &others, &holder, &target)
}

/// How the packets of a role are drawn among so many.
fn attributes(alloc: Global, role: Role, count: usize) -> Result<String, AllocError> {
    let (color, stroke) = (color_of(role), stroke_of(role, count));
    format!(in alloc; r#"fill="none" stroke="{color}" {stroke}"#)
}

/// The packets, those of each role in a layer.
fn flight_layers(scene: &Scene) -> Result<Layers, AllocError>
    ensures { IfOk result (λ layers.
        All (λ flight. IsToldIn layers (flight_text scene.now.scenario.now flight)) scene.now.picture.now.flights) }
{
    let mut layers = Layers::new(scene.alloc);
    for flight in scene.picture.flights() {
        push_flight(&mut layers, scene, flight)?;
    }
    Ok(layers)
}

/// Puts a packet into the layer of its message.
fn push_flight(layers: &mut Layers, scene: &Scene, flight: &Flight) -> Result<(), AllocError>
    ensures told { OnOk result (IsToldIn layers.new (flight_text scene.now.scenario.now flight.now)) }
    ensures still { OnOk result ((piece : List ℕ) → IsToldIn layers.old piece → IsToldIn layers.new piece) }
{
    let told = flight_words(scene.alloc, scene.scenario, flight)?;
    let drawn = line(scene, &scene.picture.why().last, flight)?;
    let role = scene.role_of(message_of(flight.packet));
    layers.push_telling(role, &told, &drawn)
}

/// The line of a packet; thick where the delivery of the target waits for it.
fn line(scene: &Scene, last: &LastProposal, flight: &Flight) -> Result<String, AllocError> {
    let message = message_of(flight.packet);
    let (left, from) = (
        scene.sheet.scale.place(flight.sent, message),
        scene.sheet.y_of(lane_of(flight.from)),
    );
    let (right, to) = (
        scene.sheet.scale.place(flight.arrival, message),
        scene
            .sheet
            .y_of(lane_of(Sender::Group(receiver_of(flight.packet)))),
    );
    let width = width_for(last, flight.number);
    match flight.packet {
        // A wait goes nowhere, and no picture has a flight of one.
        Packet::Wait { .. } => Ok(String::new(scene.alloc)),
        Packet::Multicast { .. } => {
            format!(in scene.alloc; r#"<path d="M{left} {from}L{right} {to}"{width}/>"#)
        }
        Packet::Propose { .. } => bent_line(scene.alloc, (left, from), (right, to), width),
    }
}

/// A dashed line from a point to another, in a bow.
fn bent_line(
    alloc: Global,
    (left, from): (u32, u32),
    (right, to): (u32, u32),
    width: &str,
) -> Result<String, AllocError> {
    let bend = (left / 2).saturating_add(right / 2).saturating_add(160);
    let middle = (from / 2).saturating_add(to / 2);
    format!(in alloc;
        r#"<path d="M{left} {from}Q{bend} {middle} {right} {to}" stroke-dasharray="60 40"{width}/>"#
    )
}

/// How wide the packet of that number is drawn, where that is not as the others of its role.
fn width_for(last: &LastProposal, number: usize) -> &'static str {
    if is_awaited(last, number) { THICK } else { "" }
}

/// Whether the delivery of the target waits for the packet of that number.
fn is_awaited(last: &LastProposal, number: usize) -> bool {
    is_numbered(&last.sent, number) || is_numbered(&last.answered, number)
}

/// Whether it is the packet of that number.
fn is_numbered(flight: &Option<convoy_timeline::Flight>, number: usize) -> bool {
    match flight {
        Some(flight) => usize::from(flight.packet) == number,
        None => false,
    }
}

/// The message that a packet is of.
fn message_of(packet: Packet) -> usize {
    match packet {
        Packet::Wait { message } => message,
        Packet::Multicast { message, .. } => message,
        Packet::Propose { message, .. } => message,
    }
}
