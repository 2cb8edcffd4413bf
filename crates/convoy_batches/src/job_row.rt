//! What is found of the jobs of a batch that is answered as a table.

ghost use Rattle.std.specs.Prelude.{◌≡◌, ◌<◌, length, IfOk};
ghost use Rattle.std.specs.List.{AllZip};
ghost use Rattle.convoy_streams.specs.Jobs.{Job, jobs_of};
ghost use Rattle.convoy_batches.specs.JobRows.{AreJobRows, IsJobFound, JobFinds, MayBeRow, end_of_found};
ghost use Rattle.convoy_batches.specs.KeptJobs.{IsKeptJob};

use super::kept_jobs::{KeptJob, jobs_of};
use convoy_branch::Options;
use convoy_commands::{Done, Fault, LONGEST_JOB, Watch, deadline_at, judged};
use convoy_outside::outside_told;
use convoy_packets::Instance;
use convoy_rows::{all_values, make_each};
use convoy_streams::{JobFault, ReadFault};
use convoy_survey::{Finding, find};
use convoy_times::Measure;
use convoy_toml::{Asked, read_toml_asked};
use std::alloc::{AllocError, Global};
use std::sync::Wait;
use std::thread::Threads;

/// The scenario of a job, how its times are told, the deadline of its target in ticks, where this has one, in at most how
/// many billionths of runs a packet leaves its range, where its links tell that, and what a search found of the latency that
/// is asked there.
#[derive(Drop)]
pub(crate) struct JobFinding {
    pub(crate) instance: Instance,
    pub(crate) measure: Option<Measure>,
    pub(crate) deadline: Option<u32>,
    pub(crate) outside: Option<u64>,
    pub(crate) finding: Finding,
}

impl JobFinding {
    /// How the search ended: where the target has a deadline, as the verdict says.
    pub(crate) fn end(&self) -> Done
        ensures { result ≡ end_of_found self.now }
    {
        match self.finding {
            Finding::Greatest { latency, .. } => {
                judged(self.deadline, latency, latency, Done::Fine)
            }
            Finding::Open { least, most, .. } => judged(self.deadline, least, most, Done::Open),
            Finding::OutOfMemory => Done::Faulty,
        }
    }
}

/// A job, by its label, which is empty where it has none, with what was found of it, or its fault.
#[derive(Drop)]
pub(crate) struct JobRow {
    pub(crate) label: Vec<u8>,
    pub(crate) found: Result<JobFinding, Fault>,
}

/// What is found of each job of a text, where that is asked of each, in their order: of as many at a time as there are
/// watches, each search watched by one. Fails where there is no memory for the jobs or the rows, and else never.
pub(crate) fn rows_of<R: Threads + Wait + Sync, W: Watch + Sync>(
    rt: &R,
    alloc: Global,
    asked: &Asked,
    text: &[u8],
    options: &Options,
    watches: &[W],
) -> Result<Vec<JobRow>, AllocError>
    requires { 0 < length watches.now }
    ensures { IfOk result (λ rows. AreJobRows asked.now options.now (jobs_of text.now) rows.items) }
{
    let jobs = jobs_of(alloc, text)?;
    let rows = rows_by(rt, alloc, asked, &jobs, options, watches)?;
    all_values(alloc, rows)?
}

/// The row of each of these jobs, in their order, each by itself.
fn rows_by<R: Threads + Wait + Sync, W: Watch + Sync>(
    rt: &R,
    alloc: Global,
    asked: &Asked,
    jobs: &[KeptJob],
    options: &Options,
    watches: &[W],
) -> Result<Vec<Result<JobRow, AllocError>>, AllocError>
    requires { 0 < length watches.now }
    ensures { IfOk result (λ rows. AllZip (MayBeRow asked.now options.now) jobs.now rows.items) }
{
    let row = |job: &KeptJob, watch: &W| -> Result<JobRow, AllocError>
        ensures { MayBeRow asked.entry.now options.entry.now job.now result }
    { row_of(rt, alloc, asked, job, options, watch) };
    let rows = make_each(rt, alloc, watches, jobs, &row)?;
    Ok(rows)
}

/// The row of a job. Fails where there is no memory for its label, and else never.
fn row_of<R: Threads + Wait + Sync, W: Watch + Sync>(
    rt: &R,
    alloc: Global,
    asked: &Asked,
    job: &KeptJob,
    options: &Options,
    watch: &W,
) -> Result<JobRow, AllocError>
    ensures { MayBeRow asked.now options.now job.now result }
{
    let label = Vec::from_slice(alloc, &job.label)?;
    let found = find_job(rt, alloc, asked, job, options, watch);
    Ok(JobRow { label, found })
}

/// What is found of a job.
fn find_job<R: Threads + Wait + Sync, W: Watch + Sync>(
    rt: &R,
    alloc: Global,
    asked: &Asked,
    kept: &KeptJob,
    options: &Options,
    watch: &W,
) -> Result<JobFinding, Fault>
    ensures { (job : Job) → IsKeptJob job kept.now → IsJobFound asked.now options.now job result }
{
    match &kept.text {
        Ok(text) => find_text(rt, alloc, asked, text, options, watch),
        Err(JobFault::TooLong) => Err(Fault::Reading(ReadFault::TooLong(LONGEST_JOB))),
        Err(JobFault::Memory) => Err(Fault::Memory),
    }
}

/// What is found for the text of a job.
fn find_text<R: Threads + Wait + Sync, W: Watch + Sync>(
    rt: &R,
    alloc: Global,
    asked: &Asked,
    text: &[u8],
    options: &Options,
    watch: &W,
) -> Result<JobFinding, Fault>
    ensures { JobFinds asked.now options.now text.now result }
{
    let input = read_toml_asked(alloc, text, asked)?;
    let measure = Measure::of(&input.scenario, options.unit(), input.unit);
    let deadline = deadline_at(&input.deadlines, input.scenario.target_message());
    let instance = Instance::of(alloc, input.scenario)?;
    let outside = outside_told(&input.shares, &instance);
    let finding = find(rt, alloc, &instance, options, watch)?;
    Ok(JobFinding {
        instance,
        measure,
        deadline,
        outside,
        finding,
    })
}
