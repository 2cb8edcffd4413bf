//! On which way from site to site a range is missing.

use super::lists::{Link, Message, PlanText, is_among};
use convoy_hints_sketch::Quoted;
use std::alloc::{AllocError, Global};

/// What to write where there is no `delay`, and where there is.
const BOTH_KEYS: &str =
    "write a link, or 'delay' and 'least', the greatest and the least delay of all that goes by none";

const BESIDE_DELAY: &str =
    "write a link, or 'least' beside 'delay', the least delay of all that goes by none";

/// From which site to which no range is written, where something may go there.
pub(crate) fn hint_for_no_range(alloc: Global, plan: &PlanText<'_>) -> Result<String, AllocError> {
    let rest = if plan.source.table.contains_key("delay") {
        BESIDE_DELAY
    } else {
        BOTH_KEYS
    };
    match missing_way(plan) {
        Some((from, to)) if from == to => {
            let site = Quoted(from);
            format!(in alloc;
                "nothing says how long a packet takes between two places that are both at {site}: {rest}; a link from a site to itself holds within it"
            )
        }
        Some((from, to)) => {
            let (from, to) = (Quoted(from), Quoted(to));
            format!(in alloc; "nothing says how long a packet from {from} to {to} takes: {rest}")
        }
        None => format!(in alloc;
            "a packet may go from one site to another without a range from the one to the other: {rest}"
        ),
    }
}

/// The first such way.
fn missing_way<'a>(plan: &PlanText<'a>) -> Option<(&'a str, &'a str)> {
    for message in &plan.messages {
        if let Some(way) = missing_of_message(plan, message) {
            return Some(way);
        }
    }
    None
}

/// The first such way that the message or one of its proposals may go.
fn missing_of_message<'a>(
    plan: &PlanText<'a>,
    message: &Message<'a>,
) -> Option<(&'a str, &'a str)> {
    if let Some(from) = message.from
        && let Some(way) = missing_to_all(plan, from, &message.to)
    {
        return Some(way);
    }
    for group in &message.to {
        if let Some(way) = missing_to_all(plan, group, &message.to) {
            return Some(way);
        }
    }
    None
}

/// The first such way from that site or group to one of the groups.
fn missing_to_all<'a>(
    plan: &PlanText<'a>,
    from: &'a str,
    groups: &[&'a str],
) -> Option<(&'a str, &'a str)> {
    for group in groups {
        if let Some(way) = missing_to(plan, from, group) {
            return Some(way);
        }
    }
    None
}

/// The first such way from that site or group to the group.
fn missing_to<'a>(
    plan: &PlanText<'a>,
    from: &'a str,
    group: &'a str,
) -> Option<(&'a str, &'a str)> {
    if from == group {
        return None;
    }
    if is_among(from, &plan.sites) {
        return missing_from(plan, from, group, false);
    }
    let apart = plan
        .apart
        .iter()
        .any(|groups| is_among(from, groups) && is_among(group, groups));
    for site in plan.sites_of(from) {
        if let Some(way) = missing_from(plan, site, group, apart) {
            return Some(way);
        }
    }
    None
}

/// The first such way from that site to one at which the group may be: another one, where the two are to be apart.
fn missing_from<'a>(
    plan: &PlanText<'a>,
    from: &'a str,
    group: &'a str,
    apart: bool,
) -> Option<(&'a str, &'a str)> {
    for to in plan.sites_of(group) {
        let may_go = !apart || *to != from;
        if may_go && !plan.links.iter().any(|link| leads(link, from, to)) {
            return Some((from, to));
        }
    }
    None
}

/// Whether one of the links of a table leads there.
fn leads(link: &Link<'_>, from: &str, to: &str) -> bool {
    let there = is_among(from, &link.from) && is_among(to, &link.to);
    let back = link.both && is_among(to, &link.from) && is_among(from, &link.to);
    there || back
}
