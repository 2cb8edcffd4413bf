use super::body::{Body, Line, has_order, is_split};
use super::paths::{Half, path_to, range_along};
use super::scenario_lines::scenario_in;
use convoy_checker::Refused;
use convoy_hints_sketch::{Hint, noun};
use convoy_packets::Instance;
use std::alloc::{AllocError, Global};

/// Why the latency or the tree of a certificate is refused, whose text has its form. The text may
/// have been cut, where it is not `whole`.
pub(crate) fn hint_for_refused(alloc: Global, text: &[u8], whole: bool, refused: Refused) -> Hint {
    let Some(body) = Body::of(text, whole) else {
        return Ok(None);
    };
    match refused {
        Refused::Latency(simulated) => hint_for_latency(alloc, &body, simulated).map(Some),
        Refused::Split(node) => hint_for_split(alloc, &body, node),
        Refused::TreeCount => hint_for_count(alloc, &body),
        Refused::BoundLeaf(node, bound) => {
            hint_for_bound(alloc, &body, node, "plain", bound).map(Some)
        }
        Refused::PointLeaf(node) => hint_for_point(alloc, &body, node),
        Refused::StampLeaf(node, bound) => {
            hint_for_bound(alloc, &body, node, "stamp", bound).map(Some)
        }
        Refused::LeadLeaf(node) => hint_for_lead(alloc, &body, node).map(Some),
        Refused::Memory => Ok(None),
    }
}

/// The schedule has another latency than the stated one.
fn hint_for_latency(alloc: Global, body: &Body<'_>, simulated: u32) -> Result<String, AllocError> {
    let stated = body.latency;
    let line = body.latency_line;
    let next = line.saturating_add(1);
    format!(in alloc;
        "line {line} states the latency {stated}, and the schedule in line {next} has the latency {simulated}"
    )
}

/// A split names no packet of the scenario, or a delay after which the packet's range can't be split.
fn hint_for_split(alloc: Global, body: &Body<'_>, node: usize) -> Hint {
    let line = body.line_of(node);
    if line.text.is_some_and(|text| text.starts_with("o ")) {
        return format!(in alloc;
            "{line} splits by the order of two moments that is known there, or of two commits, or at two groups"
        ).map(Some);
    }
    let Some((packet, at)) = line.split() else {
        return format!(in alloc;
            "{line} splits a packet that the scenario does not have, or after a delay at which its range there can't be split"
        ).map(Some);
    };
    let Some(instance) = instance_of(alloc, body)? else {
        return Ok(None);
    };
    let ranges = instance.table().ranges();
    let Some(range) = ranges.get(packet).copied() else {
        return hint_for_packet(alloc, &line, packet, ranges.len()).map(Some);
    };
    let path = path_to(alloc, body, node)?;
    let taken = range_along(&path, packet, range);
    hint_for_delay(alloc, &line, packet, at, taken).map(Some)
}

/// A line splits a packet after a delay at which its range there, from the first number to the second,
/// can't be split.
fn hint_for_delay(
    alloc: Global,
    line: &Line<'_>,
    packet: usize,
    at: u16,
    (least, most): (u16, u16),
) -> Result<String, AllocError> {
    let ticks = noun(at == 1, "tick", "ticks");
    if least == most {
        let taken = noun(least == 1, "tick", "ticks");
        return format!(in alloc;
            "{line} splits packet {packet} after {at} {ticks}, and there it takes {least} {taken} in each schedule"
        );
    }
    let last = most.saturating_sub(1);
    format!(in alloc;
        "{line} splits packet {packet} after {at} {ticks}, and there it takes {least} to {most} ticks: A may be {least} to {last}"
    )
}

/// The scenario with its packets; None where its lines have a fault.
fn instance_of(alloc: Global, body: &Body<'_>) -> Result<Option<Instance>, AllocError> {
    match scenario_in(alloc, body.text.as_bytes()) {
        Some((scenario, _)) => Ok(Some(Instance::of(alloc, scenario)?)),
        None => Ok(None),
    }
}

/// A line names a packet that is none of that many.
fn hint_for_packet(
    alloc: Global,
    line: &Line<'_>,
    packet: usize,
    count: usize,
) -> Result<String, AllocError> {
    let last = count.saturating_sub(1);
    match count {
        0 => { format!(in alloc; "{line} splits packet {packet}, and the scenario has no packet") }
        1 => {
            format!(in alloc; "{line} splits packet {packet}, and the scenario has packet 0 alone")
        }
        _ => {
            format!(in alloc;
                "{line} splits packet {packet}, and the scenario has packets 0 to {last}"
            )
        }
    }
}

/// The nodes end before the tree is whole, or go on after it. None where what is at hand does not show
/// it.
fn hint_for_count(alloc: Global, body: &Body<'_>) -> Hint {
    let mut open: usize = 1;
    for (node, text) in body.text.lines().skip(body.head).enumerate() {
        let line = body.head.saturating_add(node).saturating_add(1);
        if text == "end" {
            return hint_for_end(alloc, line, open).map(Some);
        }
        if open == 0 {
            return hint_for_further(alloc, &body.line_of(node)).map(Some);
        }
        open = if is_split(text) {
            open.saturating_add(1)
        } else {
            open.saturating_sub(1)
        };
    }
    Ok(None)
}

/// The nodes end in that line, though so many leaves are missing at least.
fn hint_for_end(alloc: Global, line: usize, open: usize) -> Result<String, AllocError> {
    let leaves = noun(open == 1, "leaf is", "leaves are");
    format!(in alloc;
        "line {line}, \"end\", comes before the tree is whole: at least {open} {leaves} missing"
    )
}

/// A node comes after the tree is whole.
fn hint_for_further(alloc: Global, line: &Line<'_>) -> Result<String, AllocError> {
    format!(in alloc; "{line} comes after the tree is whole: 'end' is to stand there")
}

/// The bound of a leaf is above the stated latency.
fn hint_for_bound(
    alloc: Global,
    body: &Body<'_>,
    node: usize,
    kind: &'static str,
    bound: u32,
) -> Result<String, AllocError> {
    let line = body.line_of(node);
    let stated = body.latency;
    let stating = body.latency_line;
    format!(in alloc;
        "{line} closes its box by the {kind} bound only for latencies from {bound} on, and line {stating} states {stated}"
    )
}

/// The box of a point leaf has several schedules, or one of a latency above the stated one.
fn hint_for_point(alloc: Global, body: &Body<'_>, node: usize) -> Hint {
    let line = body.line_of(node);
    if line.text.is_none() {
        return hint_for_box(alloc, body, &line, "several schedules, or of one").map(Some);
    }
    let Some(instance) = instance_of(alloc, body)? else {
        return Ok(None);
    };
    let path = path_to(alloc, body, node)?;
    match first_open(instance.table().ranges(), &path) {
        Some((packet, taken)) => hint_for_range(alloc, &line, packet, taken).map(Some),
        None if has_order(body.text.as_bytes()) => {
            hint_for_box(
                alloc,
                body,
                &line,
                "delays with a tie that is not decided, or of a run",
            )
            .map(Some)
        }
        None => hint_for_box(alloc, body, &line, "one schedule,").map(Some),
    }
}

/// A point leaf closes a box that is told so, with a schedule whose latency is above the stated one.
fn hint_for_box(
    alloc: Global,
    body: &Body<'_>,
    line: &Line<'_>,
    schedules: &'static str,
) -> Result<String, AllocError> {
    let stated = body.latency;
    let stating = body.latency_line;
    format!(in alloc;
        "{line} closes a box of {schedules} whose latency is above the {stated} that line {stating} states"
    )
}

/// The first packet with several delays at the end of a path, and the least and the greatest of them.
fn first_open(ranges: &[(u16, u16)], path: &[Half]) -> Option<(usize, (u16, u16))> {
    for (packet, range) in ranges.iter().enumerate() {
        let (least, most) = range_along(path, packet, *range);
        if least < most {
            return Some((packet, (least, most)));
        }
    }
    None
}

/// The box of a point leaf has several schedules, since a packet has these delays there.
fn hint_for_range(
    alloc: Global,
    line: &Line<'_>,
    packet: usize,
    (least, most): (u16, u16),
) -> Result<String, AllocError> {
    format!(in alloc;
        "{line} closes a box of one schedule alone, and in its box packet {packet} takes {least} to {most} ticks"
    )
}

/// A lead leaf names a latency above the stated one, or one for which leads don't close its box.
fn hint_for_lead(alloc: Global, body: &Body<'_>, node: usize) -> Result<String, AllocError> {
    let line = body.line_of(node);
    let stated = body.latency;
    let stating = body.latency_line;
    let Some(named) = lead_of(&line) else {
        return format!(in alloc;
            "{line} names a latency above the {stated} that line {stating} states, or one for which leads do not close its box"
        );
    };
    if named > stated {
        return format!(in alloc;
            "{line} names a latency above the {stated} that line {stating} states"
        );
    }
    format!(in alloc;
        "{line} names a latency for which leads do not close its box: schedules in it may have a greater one"
    )
}

/// The latency that a lead leaf names; None where the line is none or not at hand.
fn lead_of(line: &Line<'_>) -> Option<u32> {
    line.text?.strip_prefix("c ")?.parse().ok()
}
