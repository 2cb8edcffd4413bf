//! Hints for scenarios: what is wrong with a text that is read as one, and where, for the person who wrote
//! it (docs/HINTS.md). What hints for other texts have in common with these stands here as well. A hint for
//! a fault is found by reading the text once more; and a hint is an `Err` only where memory ran out. No
//! answer and no fault of a command rests on one.
#![tactic(auto)]

pub use damage::{hint_for_bytes, hint_for_damage};
pub use inputs::{
    is_meant_as_certificate, is_meant_as_plan, is_meant_as_scenario, is_text_of_plan,
};
pub use names::hint_for_bad_place;
pub use references::hint_for_no_such;
pub use runs::{hint_for_given_order, hint_for_given_schedule, hint_for_order_in_ticks};
pub use scenario_hints::{
    hint_for_fault, hint_for_plain_number, hint_for_scenario, hint_for_sketch, hint_for_written,
    with_label,
};
pub use schedules::{has_waits, hint_for_order, hint_for_schedule};
pub use targets::{hint_for_file_as_group, hint_for_named_group, is_name_of_file};

mod agreements;
mod damage;
mod inputs;
mod names;
mod numbers;
mod ranges;
mod references;
mod runs;
mod scenario_hints;
mod schedules;
mod spans;
mod targets;
