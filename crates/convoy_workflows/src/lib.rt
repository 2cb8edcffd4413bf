//! Workflows: scenarios in which messages follow others. The reader of their texts.
#![tactic(auto)]

pub use limits::GREATEST_OFFSET;
pub use read::read_workflow;
pub use telling::is_workflow;
pub use workflow::Workflow;

mod limits;
mod origins;
mod plain;
mod read;
mod rules;
mod shape;
mod shares;
mod telling;
mod windows;
mod workflow;
mod written;
