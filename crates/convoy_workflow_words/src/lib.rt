//! Workflow texts, in which messages follow others: the words that they have beside a scenario text, and why a text is
//! none.
#![tactic(auto)]

pub use fault::{WorkflowFault, WorkflowKey};

mod fault;
