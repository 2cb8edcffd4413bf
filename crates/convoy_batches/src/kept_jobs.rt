//! The jobs of a text, each by itself, for threads that share them.

ghost use Rattle.std.specs.Prelude.{◌≡◌, [], ◌∷◌, ◌++◌, List, IfOk, OnOk};
ghost use Rattle.convoy_streams.specs.Jobs.{Job, jobs_of};
ghost use Rattle.convoy_streams.specs.Splitting.{Holds};
ghost use Rattle.convoy_commands.specs.declared.limits.TheConstants.{LONGEST_JOB};
ghost use Rattle.convoy_batches.specs.KeptJobs.{AreKeptJobs, IsKeptText};

use convoy_commands::LONGEST_JOB;
use convoy_streams::{JobFault, Splitter};
use std::alloc::{AllocError, Global};

/// A job, by its label, which is empty where it has none, with its text, or why that is not at hand.
#[derive(Drop)]
pub(crate) struct KeptJob {
    pub(crate) label: Vec<u8>,
    pub(crate) text: Result<Vec<u8>, JobFault>,
}

/// The jobs of a text. Fails where there is no memory for the list of them, and else never: a job for whose text there
/// is none tells that.
pub(crate) fn jobs_of(alloc: Global, text: &[u8]) -> Result<Vec<KeptJob>, AllocError>
    ensures { IfOk result (λ jobs. AreKeptJobs (jobs_of text.now) jobs.items) }
{
    let mut splitter = Splitter::new(alloc, LONGEST_JOB);
    let mut jobs = Vec::new(alloc);
    for byte in text {
        if splitter.take(*byte) {
            push_job(alloc, &splitter, &mut jobs)?;
            splitter.start_next();
        }
    }
    if splitter.finish() {
        push_job(alloc, &splitter, &mut jobs)?;
        splitter.start_next();
    }
    push_job(alloc, &splitter, &mut jobs)?;
    Ok(jobs)
}

/// Appends the job that ended.
fn push_job(alloc: Global, splitter: &Splitter, jobs: &mut Vec<KeptJob>) -> Result<(), AllocError>
    ensures { (before : List Job) (job : Job) →
        AreKeptJobs before jobs.old.items → Holds LONGEST_JOB splitter.now job →
        OnOk result (AreKeptJobs (before ++ job ∷ []) jobs.new.items) }
{
    let label = Vec::from_slice(alloc, splitter.label())?;
    let text = text_of(alloc, splitter);
    Ok(jobs.push(KeptJob { label, text })?)
}

/// The text of the job that ended, or why it is not at hand.
fn text_of(alloc: Global, splitter: &Splitter) -> Result<Vec<u8>, JobFault>
    ensures { (job : Job) → Holds LONGEST_JOB splitter.now job → IsKeptText job.text result }
{
    match Vec::from_slice(alloc, splitter.job()?) {
        Ok(text) => Ok(text),
        Err(AllocError) => Err(JobFault::Memory),
    }
}
