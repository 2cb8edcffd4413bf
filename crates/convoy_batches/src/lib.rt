//! Batches: many scenarios in one text, of which a block is written as each has its answer, or a table with a row for each.
#![tactic(auto)]

pub use batch::run_batch;
pub use batch_table::{LONGEST_BATCH, batch_table_answer};
pub use limits::MOST_JOBS;

mod batch;
pub mod batch_laws;
mod batch_table;
mod block;
mod job_row;
mod job_table;
mod kept_jobs;
mod limits;
