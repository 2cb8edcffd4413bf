//! What a run is asked for is done: the one answer to each task, and the run that reads a text and writes the answer.
#![tactic(auto)]

pub use answering::{answer, longest_of};
pub use calls::{run_analyse, run_check, run_first, run_latency, run_simulate, run_timeline};
pub use convoy_tables::Format;
pub use convoy_workflow_replies::Reference;
pub use ended::Ended;
pub use running::run_task;
pub use wanted::read_reference;

mod answering;
mod calls;
mod certificates;
mod ended;
mod latency;
mod running;
mod scenario_text;
mod surveying;
pub mod task_laws;
mod wanted;
