//! The law of certificates of workflows. It is the one clause of a function that does nothing; a caller that needs the law
//! calls the function.

ghost use Rattle.convoy_workflow_checker.specs.WorkflowCheckLaws.{ValidWorkflowIsGreatest};

use convoy_causes::cause_laws::{closed_by_causes, met_upper_is_greatest};

/// The time of a valid certificate of a workflow is the greatest one.
pub fn valid_workflow_is_greatest()
    ensures { ValidWorkflowIsGreatest }
{
    closed_by_causes();
    met_upper_is_greatest();
}
