ghost use Rattle.std.specs.Prelude.{◌≡◌, ◌<◌, length};
ghost use Rattle.convoy_streams.specs.Jobs.{jobs_of};
ghost use Rattle.convoy_commands.specs.Replies.{SaysUnlessMemory, reply_of};
ghost use Rattle.convoy_batches.specs.BatchTables.{BatchTableSays, end_of_rows};
ghost use Rattle.convoy_batches.specs.JobRows.{end_of_row};

use super::job_row::{JobRow, rows_of};
use super::job_table::text_of;
use super::limits::MOST_JOBS;
use convoy_branch::Options;
use convoy_commands::{Answer, Done, Fault, LONGEST_CERTIFICATE, LONGEST_JOB, Watch};
use convoy_streams::Splitter;
use convoy_tables::Format;
use convoy_toml::Asked;
use std::alloc::Global;
use std::sync::Wait;
use std::thread::Threads;

/// How many bytes the input of a batch that is answered as a table has at most: as many as a certificate's text.
pub const LONGEST_BATCH: usize = LONGEST_CERTIFICATE;

/// The jobs of a text as a table with a row for each (docs/FORMATS.md, "Batch"). The numbers of a row are in ticks, and
/// as times in a unit of its own where the length of a tick is known, and are those that
/// [`latency_answer`](convoy_commands::latency_answer) tells of the job's own text, where that is asked. Where the target
/// of some job has a deadline, each row has the verdict on that of its own. It ends as the worst of all jobs, which is
/// `Done::Fine` where each has the greatest latency, or keeps its deadline. As many jobs are searched at a time as there
/// are watches, each watched by one: by [`NoGate`](convoy_branch::NoGate) where nobody watches; where the options have
/// seconds each job has them for itself, and its watch counts them.
///
/// A job with a fault has that in place of an answer, and so does one of more than [`LONGEST_JOB`] bytes
/// (`ReadFault::TooLong`), and one for which memory runs out. Faults of the whole are `Fault::TooManyJobs`, where there
/// are more than [`MOST_JOBS`] jobs, before any is searched, and `Fault::Memory`, where there is none for the table.
pub fn batch_table_answer<R: Threads + Wait + Sync, W: Watch + Sync>(
    rt: &R,
    alloc: Global,
    asked: &Asked,
    options: &Options,
    format: Format,
    text: &[u8],
    watches: &[W],
) -> Result<Answer, Fault>
    requires { 0 < length watches.now }
    ensures { SaysUnlessMemory (BatchTableSays format asked.now options.now) text.now (reply_of result) }
{
    if count_jobs(alloc, text) > MOST_JOBS as usize {
        return Err(Fault::TooManyJobs);
    }
    let rows = rows_of(rt, alloc, asked, text, options, watches)?;
    let table = text_of(alloc, format, &rows)?;
    Ok(Answer {
        done: end_of_rows(&rows),
        text: table,
        known: None,
    })
}

/// How many jobs a text has.
fn count_jobs(alloc: Global, text: &[u8]) -> usize
    ensures { result ≡ length (jobs_of text.now) }
{
    let mut splitter = Splitter::new(alloc, LONGEST_JOB);
    let mut count = 1;
    for byte in text {
        if splitter.take(*byte) {
            splitter.start_next();
            count += 1;
        }
    }
    if splitter.finish() { count + 1 } else { count }
}

/// How a batch with these rows ends: as the worst of them.
fn end_of_rows(rows: &[JobRow]) -> Done
    ensures { result ≡ end_of_rows rows.now }
{
    let mut end = Done::Fine;
    for row in rows {
        end = end.worse(end_of_row(row));
    }
    end
}

/// How the job of a row ended.
fn end_of_row(row: &JobRow) -> Done
    ensures { result ≡ end_of_row row.now }
{
    match &row.found {
        Ok(found) => found.end(),
        Err(_) => Done::Faulty,
    }
}
