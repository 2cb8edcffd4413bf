ghost use Rattle.std.specs.Prelude.{◌<◌, ◌≤◌, length, IfOk, IfSome};
ghost use Rattle.convoy_packets.specs.Packets.{packets_of};
ghost use Rattle.convoy_intervals.specs.Boxes.{CanSplit, IsBox};
ghost use Rattle.convoy_leads.specs.Openings.{IsOpening};
ghost use Rattle.convoy_scenario.specs.Widened.{widened};
ghost use Rattle.convoy_branch.specs.Chains.{IsWide};

use super::want::Want;
use super::wants::{range_at, some_may_wait, wants_of};
use convoy_intervals::DelayBox;
use convoy_leads::Opening;
use convoy_origin::Origin;
use convoy_packets::schedule_laws::ranges_are_one_each;
use convoy_packets::{Instance, Packet};
use convoy_scenario::widened_laws::widened_is_itself;
use std::alloc::{AllocError, Global};

/// Where to split a box that leads leave open for a latency in ticks: a packet, and the delay after
/// which its range is to be split. None where the chain that keeps the box open speaks of no packet
/// that may take several delays.
///
/// The packet is one of which two links of the chain want different delays, and its range is split
/// halfway between them; or else it is any of which the chain speaks, and its range is split in the
/// middle. Of several it is that of the widest range, and of these the first (docs/LEADS.md, "Where a
/// box is split"). Where some message may wait, a range that has an edge of what the chain wants comes
/// before those that have none, and is split there; and of an arrival the chain speaks by the wait of the
/// message as well as by its delay on its way. Where the rival is to come first, that is wanted as a link
/// wants something. Where the target may wait, the chain speaks of the widened box, and its place is told back
/// as one of the box. The error is that memory ran out; all that is taken is given back.
pub(crate) fn place_by_leads(
    alloc: Global,
    origin: &Origin,
    delay_box: &DelayBox,
    opening: &Opening,
    latency: u32,
    rival_first: bool,
) -> Result<Option<(u16, u16)>, AllocError>
    requires inside { IsBox origin.now delay_box.now }
    requires open_box { IsOpening (widened origin.now) opening.now }
    ensures part { IfOk result
        (λ found. IfSome found (λ place. CanSplit delay_box.now place.0 place.1)) }
{
    let Some(moved) = origin.moved() else {
        widened_is_itself();
        let instance = origin.instance();
        return place_by_chain(alloc, instance, delay_box, opening, latency, rival_first);
    };
    ranges_are_one_each();
    let wide = origin.moved_box(alloc, moved, delay_box)?;
    let place = place_by_chain(alloc, moved, &wide, opening, latency, rival_first)?;
    match place {
        None => Ok(None),
        Some(place) => Ok(place_told_back(origin.instance(), moved, delay_box, place)),
    }
}

/// The same where the chain speaks of the box itself.
fn place_by_chain(
    alloc: Global,
    instance: &Instance,
    delay_box: &DelayBox,
    opening: &Opening,
    latency: u32,
    rival_first: bool,
) -> Result<Option<(u16, u16)>, AllocError>
    requires open_box { IsOpening instance.now opening.now }
    ensures part { IfOk result
        (λ found. IfSome found (λ place. CanSplit delay_box.now place.0 place.1)) }
{
    let wants = wants_of(alloc, instance, delay_box, opening, latency, rival_first)?;
    Ok(place_by_wants(instance, delay_box, &wants))
}

/// Where to split a box, where the widened one is to be split at that place: at the same packet, or for a wait at that of
/// the message or of the target. None where its range has no such delays.
fn place_told_back(
    instance: &Instance,
    moved: &Instance,
    delay_box: &DelayBox,
    place: (u16, u16),
) -> Option<(u16, u16)>
    requires packet { place.0 < length (packets_of moved.now) }
    ensures { IfSome result (λ place. CanSplit delay_box.now place.0 place.1) }
{
    let (packet, at) = match moved.table().packet(usize::from(place.0)) {
        Packet::Wait { message } => middle_of_wait(instance, delay_box, message)?,
        travels => (instance.table().place(travels)?, place.1),
    };
    if delay_box.can_split(usize::from(packet), at) {
        Some((packet, at))
    } else {
        None
    }
}

/// The wait of a message or of the target, whichever has the wider range in a box, and the middle of that, rounded down.
/// None where neither may wait.
fn middle_of_wait(instance: &Instance, delay_box: &DelayBox, message: usize) -> Option<(u16, u16)> {
    let (own, target) = (
        instance.table().wait(message),
        instance.table().wait(instance.target_message()),
    );
    let place = if width_at(delay_box, own) < width_at(delay_box, target) {
        target
    } else {
        own
    };
    let (least, most) = range_at(delay_box, place);
    Some((place?, least + (most - least) / 2))
}

/// How many ticks the greatest delay of a range is above the least; 0 where there is no such place.
fn width_at(delay_box: &DelayBox, place: Option<u16>) -> u16 {
    let (least, most) = range_at(delay_box, place);
    most - least
}

/// Where a box is to be split by what is wanted of its packets.
fn place_by_wants(instance: &Instance, delay_box: &DelayBox, wants: &[Want]) -> Option<(u16, u16)>
    ensures { IfSome result (λ place. CanSplit delay_box.now place.0 place.1) }
{
    let at_edges = some_may_wait(instance);
    let heaviest = heaviest_of(delay_box, wants, at_edges)?;
    let at = wants[heaviest].place(delay_box.range(heaviest), at_edges);
    let packet = u16::try_from(heaviest).ok()?;
    Some((packet, at))
}

/// The first packet of which most is to be had from a split; none where nothing is to be had of any.
fn heaviest_of(delay_box: &DelayBox, wants: &[Want], at_edges: bool) -> Option<usize>
    ensures wanted { IfSome result (λ packet. packet < length wants.now) }
    ensures wide { IfSome result (λ packet. IsWide delay_box.now packet) }
{
    let mut heaviest = None;
    let mut weight = 0;
    for packet in 0..delay_box.len().min(wants.len()) {
        let other = wants[packet].weight(delay_box.range(packet), at_edges);
        if other > weight {
            heaviest = Some(packet);
            weight = other;
        }
    }
    heaviest
}
