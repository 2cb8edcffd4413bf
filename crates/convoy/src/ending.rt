ghost use Rattle.std.specs.Prelude.{◌≡◌};
ghost use Rattle.convoy.specs.Verdicts.{status_of, status_of_done, status_told};

use convoy_arguments::Verdict;
use convoy_commands::Done;
use convoy_task_list::Task;

/// The exit status of a run that had no fault.
pub fn status_of(verdict: &Verdict, done: Done) -> u8
    ensures { result ≡ status_of verdict.now done }
{
    match verdict {
        Verdict::Ask {
            task: Task::BatchTable { tells_status, .. },
            ..
        }
        | Verdict::Batch { tells_status, .. } => status_told(*tells_status, done),
        Verdict::Ask { .. } => status_of_done(done),
        Verdict::Text { status, .. } => *status,
        Verdict::Memory => FAULT,
    }
}

/// The same of a batch, by whether the exit status is to tell how its jobs ended.
fn status_told(tells_status: bool, done: Done) -> u8
    ensures { result ≡ status_told tells_status done }
{
    if tells_status {
        status_of_done(done)
    } else {
        FINE
    }
}

/// The status for the end of a task.
fn status_of_done(done: Done) -> u8
    ensures { result ≡ status_of_done done }
{
    match done {
        Done::Fine => FINE,
        Done::Open => OPEN,
        Done::Beyond => BEYOND,
        Done::Faulty => FAULT,
        Done::Refused(_)
        | Done::PlanRefused
        | Done::WorkflowRefused
        | Done::FinishRefused
        | Done::Differs(_) => { REFUSED },
        Done::Departs => DEPARTS,
        Done::NotChecked => NOT_CHECKED,
    }
}

/// The status of a run that gave its answer.
const FINE: u8 = 0;

/// The status of a run that ended with a fault, or of which a job has one.
pub const FAULT: u8 = 1;

/// The status of a search that did not end within its limits, of traffic that does not attain a ceiling, or of a deadline
/// of which it is not known whether it is kept.
const OPEN: u8 = 3;

/// The status of a certificate that is refused, or is of another scenario than the one that is wanted.
const REFUSED: u8 = 4;

/// The status of a deadline that is not kept.
const BEYOND: u8 = 5;

/// The status of a certificate that is not checked, since that takes more steps than may be taken.
const NOT_CHECKED: u8 = 6;

/// The status of a trace that is no run of its scenario.
const DEPARTS: u8 = 7;
