use super::scenario_hints::with_label;
use super::schedules::{hint_for_order, hint_for_schedule};
use convoy_hints_sketch::Hint;
use convoy_packets::{Instance, ListFault};
use convoy_scenario::Scenario;
use convoy_toml::{Input, read_toml};
use std::alloc::{AllocError, Global};

/// What is wrong with the schedule that stands beside the scenario of that text and has that fault, in one
/// line `hint: ..`. None where the text is that of no scenario, or nothing can be said beyond the fault.
pub fn hint_for_given_schedule(alloc: Global, text: &[u8], fault: ListFault) -> Hint {
    match read_toml(alloc, text) {
        Ok(input) => with_label(alloc, hint_for_delays(alloc, input, fault)?),
        Err(_) => Ok(None),
    }
}

/// What is wrong with the schedule that a text gives.
fn hint_for_delays(alloc: Global, input: Input, fault: ListFault) -> Hint {
    let Input {
        scenario,
        schedule,
        ..
    } = input;
    match schedule {
        Some(delays) => {
            let instance = Instance::of(alloc, scenario)?;
            hint_for_schedule(alloc, &instance, &delays, fault)
        }
        None => Ok(None),
    }
}

/// What is wrong with an order of ties that stands beside a scenario whose time goes in whole ticks, in one
/// line `hint: ..`.
pub fn hint_for_order_in_ticks(alloc: Global) -> Result<String, AllocError> {
    String::from_str(
        alloc,
        "hint: ties have no order in whole ticks: write 'time = \"real\"', or leave 'order' out\n",
    )
}

/// What is wrong with the order of ties that stands beside the scenario of that text and has that fault, in
/// one line `hint: ..`. None where the text is that of no scenario, or nothing can be said beyond the fault.
pub fn hint_for_given_order(alloc: Global, text: &[u8], fault: ListFault) -> Hint {
    match read_toml(alloc, text) {
        Ok(input) => with_label(
            alloc,
            hint_for_ranks(alloc, &input.scenario, &input.order, fault)?,
        ),
        Err(_) => Ok(None),
    }
}

/// What is wrong with the order that a text gives.
fn hint_for_ranks(
    alloc: Global,
    scenario: &Scenario,
    order: &Option<Vec<i64>>,
    fault: ListFault,
) -> Hint {
    match order {
        Some(ranks) => hint_for_order(alloc, scenario, ranks, fault),
        None => Ok(None),
    }
}
