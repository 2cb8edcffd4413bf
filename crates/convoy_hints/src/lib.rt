//! Hints: what is wrong with a text that a command does not take, and where, for the person who wrote
//! it (docs/HINTS.md). A hint is found by reading the text once more, and is an `Err` only where memory ran
//! out. No answer and no fault of a command rests on it.
#![tactic(auto)]

pub use certificate_hints::{hint_for_certificate, hint_for_unchecked};
pub use checked_texts::{CheckedText, hint_of_text};
pub use convoy_hints_plan::hint_for_plan;
pub use convoy_hints_scenario::{
    hint_for_file_as_group, hint_for_given_order, hint_for_given_schedule, hint_for_named_group,
    hint_for_order_in_ticks, hint_for_plain_number, hint_for_scenario, is_name_of_file,
};
pub use convoy_hints_sketch::Hint;
pub use device_hints::{
    hint_for_jobs, hint_for_length, hint_for_reading, hint_for_writing, line_for_file,
};
pub use difference_hints::hint_for_difference;
pub use job_hints::hint_for_batch;
pub use outage_hints::{hint_for_open_through_outages, hint_for_outage};
pub use replica_hints::{hint_for_open_accept, hint_for_replicas};
pub use search_hints::{
    hint_for_both, hint_for_ceiling, hint_for_changes, hint_for_first, hint_for_greatest,
    hint_for_late_certificate, hint_for_late_message, hint_for_leads, hint_for_limit,
    hint_for_order, hint_for_seconds, hint_for_tickets,
};

mod body;
mod certificate_hints;
mod checked_texts;
mod device_hints;
mod difference_hints;
mod dividers;
mod job_hints;
mod outage_hints;
mod paths;
mod replica_hints;
mod scenario_lines;
mod search_hints;
mod tree_hints;
