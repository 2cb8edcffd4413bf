//! Scenarios of worked rows, with their packets.

use convoy_packets::Instance;
use convoy_scenario::{MessageParts, Scenario, ScenarioFault, ScenarioParts, Time};
use std::alloc::Global;

/// A scenario without links, that asks for the latency of a message at a group, as `target` names them.
fn instance_of(
    alloc: Global,
    time: Time,
    delay: u32,
    groups: &[&str],
    messages: &[MessageParts],
    target: (&str, &str),
) -> Result<Instance, ScenarioFault> {
    let parts = ScenarioParts {
        time,
        tick: None,
        delay,
        groups,
        places: &[],
        links: &[],
        messages,
        target_message: target.0,
        target_group: target.1,
    };
    Ok(Instance::of(alloc, Scenario::new(alloc, &parts)?)?)
}

/// A message that is issued at that tick.
fn message<'a>(
    name: &'a str,
    sender: Option<&'a str>,
    to: &'a [&'a str],
    at: u32,
) -> MessageParts<'a> {
    MessageParts {
        name,
        sender,
        to,
        at,
        until: at,
    }
}

/// The base scenario of docs/PROTOCOL.md, with its groups in that order.
fn base_with(alloc: Global, time: Time, groups: &[&str]) -> Result<Instance, ScenarioFault> {
    let messages = [
        message("x", None, &["b"], 0),
        message("t", None, &["a", "b"], 0),
        message("y", Some("a"), &["a", "b"], 6),
    ];
    instance_of(alloc, time, 3, groups, &messages, ("t", "a"))
}

/// The base scenario of docs/PROTOCOL.md.
pub(crate) fn base(alloc: Global) -> Result<Instance, ScenarioFault> {
    base_with(alloc, Time::Ticks, &["a", "b"])
}

/// The base scenario with its groups the other way round.
pub(crate) fn swapped(alloc: Global) -> Result<Instance, ScenarioFault> {
    swapped_in(alloc, Time::Ticks)
}

/// The same in either kind of time.
pub(crate) fn swapped_in(alloc: Global, time: Time) -> Result<Instance, ScenarioFault> {
    base_with(alloc, time, &["b", "a"])
}

/// The scenario of docs/LEADS.md of which leads do not close the root box for its stamp bound.
pub(crate) fn counted_twice(alloc: Global, time: Time) -> Result<Instance, ScenarioFault> {
    let messages = [
        message("t", Some("c"), &["a", "c"], 0),
        message("k", Some("c"), &["c"], 0),
        message("l", Some("c"), &["c"], 0),
        message("m", Some("c"), &["c"], 0),
        message("x", None, &["a", "b"], 0),
        message("y", None, &["a", "b"], 0),
        message("n", Some("c"), &["b", "c"], 6),
    ];
    instance_of(alloc, time, 6, &["a", "b", "c"], &messages, ("t", "c"))
}

/// A message from a client to a and to b. Its packets are those to a and to b, and the proposals from a to b and from
/// b to a.
pub(crate) fn lone(alloc: Global) -> Result<Instance, ScenarioFault> {
    let messages = [message("m", None, &["a", "b"], 7)];
    instance_of(alloc, Time::Ticks, 5, &["a", "b"], &messages, ("m", "a"))
}
