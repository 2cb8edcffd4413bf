//! What follows from the contracts of batches, as calls that do nothing.

ghost use Rattle.convoy_toml.specs.declared.asked.Asked.{Asked};
ghost use Rattle.convoy_branch.specs.Options.{Settings};
ghost use Rattle.convoy_commands.specs.Searches.{LatencySays};
ghost use Rattle.convoy_batches.specs.BatchLaws.{BatchFailuresAreTold, JobRowsAreLatencies, JobRowsEnclose, JobVerdictsHold};

use convoy_survey::survey_laws::{row_verdicts_hold, rows_are_latencies};

/// In every run of a batch, whatever is asked and with whatever options, each failure of the source is told as
/// `ReadFault::Read` and each failure of the sink as `Fault::Write`, and neither is told where the device
/// did not fail.
pub fn batch_failures_are_told()
    ensures { (asked : Asked) (settings : Settings) → BatchFailuresAreTold (LatencySays asked settings) }
{}

/// In a batch that is answered as a table, the greatest latency in the row of a job, with the verdict on it, is the one
/// that [`latency_answer`](convoy_commands::latency_answer) tells of the job's own text, where the same is asked.
pub fn job_rows_are_latencies()
    ensures { JobRowsAreLatencies }
{
    rows_are_latencies();
}

/// In a batch that is answered as a table, the two numbers in the row of a job enclose the greatest latency of the
/// job's scenario, also where the search did not end: some schedule has the least, and none has a latency above the
/// most.
pub fn job_rows_enclose()
    ensures { JobRowsEnclose }
{}

/// In a batch that is answered as a table, what the verdict in the row of a job says holds of the job's scenario, also where
/// the search did not end: within, no schedule has a latency above the deadline of the target, and beyond, some schedule
/// has one.
pub fn job_verdicts_hold()
    ensures { JobVerdictsHold }
{
    row_verdicts_hold();
}
