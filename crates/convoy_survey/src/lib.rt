//! Tables of all targets of a scenario: its survey, with the greatest latency of each message at each group
//! that it goes to, and their ceilings; and how these keep their deadlines.
#![tactic(auto)]

pub use answering::{end_of, is_row_beyond, is_row_open, span_of, survey_answer};
pub use at_all::{AtAll, ceiling_at_all, greater, rows_of};
pub use ceiled::Ceiled;
pub use ceiling_answer::ceilings_answer;
pub use ceilings::{ceilings_by, ceilings_of};
pub use cells::{
    push_cause, push_ceiling_if, push_count, push_finding, push_known, push_name, push_nodes,
    push_target, push_target_at_all, push_ticks, push_times,
};
pub use convoy_tables::Format;
pub use finding::{Cause, Finding, Surveyed};
pub use judgements::{
    has_deadline, is_beyond, is_open_by, push_judged, push_judged_columns, push_verdict_cells,
    push_verdict_columns, verdict_at,
};
pub use rows::{survey, survey_by, with_rows};
pub use searching::{find, scenario_at};
pub use table::{
    push_ceiling_columns_if, push_finding_columns, push_time_columns, survey_table, survey_text,
};
pub use time_cells::{
    push_columns_if_told, push_time, push_time_if_told, push_time_pair, push_unit,
};
pub use times::Times;

mod answering;
mod at_all;
mod cause;
mod ceiled;
mod ceiling_answer;
mod ceiling_table;
mod ceilings;
mod cells;
mod finding;
mod judgements;
mod rows;
mod searching;
pub mod survey_laws;
mod table;
mod time_cells;
mod times;
