use convoy_hints_sketch::{Hint, Quoted, noun};
use convoy_packets::{GREATEST_RANK, Instance, ListFault};
use convoy_scenario::Scenario;
use convoy_scenario::naming::group_name;
use convoy_timeline::write_packets;
use std::alloc::{AllocError, Global};

/// What is wrong with a schedule of the scenario that has that fault: how many delays it has, or which one
/// its packet may not take, or its message not wait. Delays count ticks, in packet order
/// (docs/PROTOCOL.md). The label of a hint is not in it. None where nothing can be said of the fault.
pub fn hint_for_schedule(
    alloc: Global,
    instance: &Instance,
    delays: &[i64],
    fault: ListFault,
) -> Hint {
    match fault {
        ListFault::Length => {
            let wanted = instance.table().len();
            hint_for_length(alloc, instance.scenario(), delays.len(), wanted).map(Some)
        }
        ListFault::Range(packet) => match delays.get(packet) {
            Some(delay) => hint_for_outside(alloc, instance, packet, *delay),
            None => Ok(None),
        },
        ListFault::Memory => Ok(None),
    }
}

/// There are too many delays, or too few. Where a message may wait, its wait has one as well.
fn hint_for_length(
    alloc: Global,
    scenario: &Scenario,
    found: usize,
    wanted: usize,
) -> Result<String, AllocError> {
    let delays = noun(found == 1, "delay", "delays");
    let packets = if has_waits(scenario) {
        noun(wanted == 1, "wait", "packets and waits")
    } else {
        noun(wanted == 1, "packet", "packets")
    };
    let which = noun(wanted == 1, "which it is", "which they are");
    format!(in alloc;
        "the schedule has {found} {delays}, and the scenario has {wanted} {packets}: 'convoy packets' tells {which}"
    )
}

/// Whether a message may wait before its issue.
pub fn has_waits(scenario: &Scenario) -> bool {
    (0..scenario.message_count()).any(|message| scenario.longest_wait(message) > 0)
}

/// A packet may not take its delay, or a message not wait so long.
fn hint_for_outside(alloc: Global, instance: &Instance, packet: usize, delay: i64) -> Hint {
    let mut lines = Vec::new(alloc);
    write_packets(instance, &mut lines)?;
    let Some(line) = line_at(&lines, packet) else {
        return Ok(None);
    };
    let ticks = noun(delay == 1, "tick", "ticks");
    format!(in alloc; "the schedule gives {delay} {ticks} to {line}").map(Some)
}

/// The line of a text at a place from 0.
fn line_at(text: &[u8], place: usize) -> Option<&str> {
    std::str::from_utf8(text).ok()?.lines().nth(place)
}

/// What happens at a group: a message comes there, or is committed there.
#[derive(Clone, Copy, Drop)]
struct Moment<'a> {
    message: &'a str,
    group: &'a str,
    is_commit: bool,
}

/// What is wrong with an order of the scenario's ties that has that fault: how many ranks there are, or
/// which one is too great. Ranks go by message and by group, that of the arrival before that of the commit
/// (docs/PROTOCOL.md). The label of a hint is not in it. None where nothing can be said of the fault.
pub fn hint_for_order(alloc: Global, scenario: &Scenario, ranks: &[i64], fault: ListFault) -> Hint {
    let moments = moments_of(alloc, scenario)?;
    match fault {
        ListFault::Length => hint_for_count(alloc, ranks.len(), moments.len()).map(Some),
        ListFault::Range(place) => match (ranks.get(place), moments.get(place)) {
            (Some(rank), Some(moment)) => hint_for_rank(alloc, *rank, *moment).map(Some),
            _ => Ok(None),
        },
        ListFault::Memory => Ok(None),
    }
}

/// There are too many ranks, or too few.
fn hint_for_count(alloc: Global, found: usize, wanted: usize) -> Result<String, AllocError> {
    let ranks = noun(found == 1, "rank", "ranks");
    format!(in alloc;
        "the order has {found} {ranks}, and the scenario takes {wanted}: for each message, at each group that it goes to in the order of the groups, that of its arrival and that of its commit"
    )
}

/// A rank is no rank.
fn hint_for_rank(alloc: Global, rank: i64, moment: Moment<'_>) -> Result<String, AllocError> {
    let message = Quoted(moment.message);
    let group = Quoted(moment.group);
    let what = if moment.is_commit {
        "commit"
    } else {
        "arrival"
    };
    format!(in alloc;
        "the order gives the rank {rank} to the {what} of {message} at {group}, and ranks are 0 to {GREATEST_RANK}"
    )
}

/// What happens in a run of the scenario, in the order in which ranks are listed.
fn moments_of(alloc: Global, scenario: &Scenario) -> Result<Vec<Moment<'_>>, AllocError> {
    let mut moments = Vec::new(alloc);
    for message in 0..scenario.message_count() {
        let name = scenario.message_name(message);
        for group in scenario.destinations(message) {
            add_moments(name, group_name(scenario, *group), &mut moments)?;
        }
    }
    Ok(moments)
}

/// Adds what happens to a message at a group.
fn add_moments<'a>(
    message: &'a str,
    group: &'a str,
    moments: &mut Vec<Moment<'a>>,
) -> Result<(), AllocError> {
    for is_commit in [false, true] {
        moments.push(Moment {
            message,
            group,
            is_commit,
        })?;
    }
    Ok(())
}
