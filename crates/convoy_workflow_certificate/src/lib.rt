//! Certificates of workflows: how long it takes at most from the issue of a message to the delivery of the target, where
//! messages follow others. What they say, and the one text of each: a writer and a reader.
#![tactic(auto)]

pub use reading::read_workflow_certificate;
pub use workflow_certificate::WorkflowCertificate;
pub use workflow_text_fault::{WorkflowLine, WorkflowTextFault};
pub use writing::workflow_certificate_text;

mod reading;
mod workflow_certificate;
mod workflow_text_fault;
mod writing;
