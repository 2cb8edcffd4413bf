use super::workflow_refused::WorkflowRefused;
use convoy_workflow_certificate::WorkflowTextFault;

/// Why the text of a certificate of a workflow is refused. Memory that ran out is told by both, and says nothing of the text.
#[derive(Clone, Copy)]
pub enum WorkflowRefusal {
    /// The text is that of no certificate of a workflow.
    Text(WorkflowTextFault),
    /// It is that of a certificate, which is not valid.
    Check(WorkflowRefused),
}
