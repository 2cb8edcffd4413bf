//! Words for senders, stamps and ticks.

ghost use Rattle.std.specs.Prelude.{◌≡◌, IfOk, string_bytes};
ghost use Rattle.convoy_timeline.specs.Explanations.{sender_text, stamp_text, tick_word};

use convoy_scenario::naming::{group_name, place_name};
use convoy_scenario::{Scenario, Sender};
use convoy_sim::Timestamp;
use std::alloc::{AllocError, Global};

/// Who issues a message or sends a packet: `a client`, with its place where that has a name, as `a client at eu`, or the
/// name of a group; a name is empty where the scenario has no such place or group. Fails where memory runs out, and else
/// never.
pub fn sender_text(alloc: Global, scenario: &Scenario, sender: Sender) -> Result<String, AllocError>
    ensures { IfOk result (λ text. string_bytes text ≡ sender_text scenario.now sender) }
{
    match sender {
        Sender::Client(0) => String::from_str(alloc, "a client"),
        Sender::Client(place) => {
            let place = place_name(scenario, place);
            format!(in alloc; "a client at {place}")
        }
        Sender::Group(group) => String::from_str(alloc, group_name(scenario, group)),
    }
}

/// A stamp, as `2.b`: its time, and the name of the group that gave it, which is empty where the
/// scenario has no such group. Fails where memory runs out, and else never.
#[tactic(auto, unfolding(crate::specs::Explanations::stamp_text))]
pub fn stamp_text(
    alloc: Global,
    scenario: &Scenario,
    stamp: Timestamp,
) -> Result<String, AllocError>
    ensures { IfOk result (λ text. string_bytes text ≡ stamp_text scenario.now stamp) }
{
    let giver = group_name(scenario, stamp.group);
    format!(in alloc; "{}.{giver}", stamp.time)
}

/// The word that stands after a number of ticks: `tick` or `ticks`.
pub fn tick_word(count: u32) -> &'static str
    ensures { result.now ≡ tick_word count }
{
    if count == 1 { "tick" } else { "ticks" }
}
