//! The checker of certificates of workflows: whoever made one, a yes means that no run in which messages follow their causes
//! takes longer than it says, and that one takes so long.
#![tactic(auto)]

pub use checking::{check_workflow, check_workflow_text};
pub use refusal_lines::workflow_refusal_line;
pub use workflow_refusal::WorkflowRefusal;
pub use workflow_refused::WorkflowRefused;

mod causes;
mod checking;
mod refusal_lines;
pub mod workflow_check_laws;
mod workflow_refusal;
mod workflow_refused;
