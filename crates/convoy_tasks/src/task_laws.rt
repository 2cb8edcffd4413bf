//! The law of tasks. It is the one clause of a function that does nothing; a caller that needs the law calls the
//! function.

ghost use Rattle.std.specs.Prelude.{Option};
ghost use Rattle.convoy_tasks.specs.TaskLaws.{FailuresAreTold};
ghost use Rattle.convoy_tasks.specs.Tasks.{longest_for, task_says};
ghost use Rattle.convoy_task_list.specs.declared.task.Task.{Task};
ghost use Rattle.convoy_workflow_replies.specs.declared.reference.Reference.{Reference};

/// In every run of each task, each failure of the source is told as `ReadFault::Read` and each failure of the sink as
/// `Fault::Write`, and neither is told where the device did not fail.
pub fn failures_are_told()
    ensures { (task : Task) (wanted : Option Reference) → FailuresAreTold (longest_for task) (task_says task wanted) }
{}
