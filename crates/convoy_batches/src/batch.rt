ghost use Rattle.std.specs.Prelude.{◌≡◌, ℕ, List, [], ◌∷◌, ◌++◌, IfOk, MatchResult};
ghost use Rattle.convoy_streams.specs.Jobs.{Job, ended_jobs};
ghost use Rattle.convoy_streams.specs.Splitting.{Holds, IsAfter, next_label_of};
ghost use Rattle.convoy_commands.specs.declared.done.Done.TheVariants.{Fine};
ghost use Rattle.convoy_commands.specs.declared.limits.TheConstants.{LONGEST_JOB};
ghost use Rattle.convoy_batches.specs.BatchSteps.{AnswersOne, EndsBatch, IsFresh, IsReady, IsUnderWay, StopsAnswering};
ghost use Rattle.convoy_batches.specs.Batches.{IsBatchRun, JobSays};
ghost use Rattle.convoy_commands.specs.Replies.{reply_of};
ghost use Rattle.convoy_commands.specs.Searches.{LatencySays};

use super::block::fill;
use super::limits::MOST_JOBS;
use convoy_branch::Options;
use convoy_commands::{Answer, Done, Fault, LONGEST_JOB, Watch, latency_answer};
use convoy_lines::ReservedText;
use convoy_streams::stream_laws::{ended_jobs_stay, pieces_go_on};
use convoy_streams::{
    BUFFER_LENGTH, JobFault, ReadFault, Sink, Source, Splitter, read_piece, write_all,
};
use convoy_toml::Asked;
use std::alloc::{AllocError, Global};
use std::sync::Wait;
use std::thread::Threads;

/// The command `batch`: reads a text to the end of the source, and writes for each of its jobs a block
/// with what [`latency_answer`] tells of the job's own text, where that is asked of each (docs/FORMATS.md,
/// "Batch"). Answers the worst end of all jobs, which is `Done::Fine` where each has the greatest latency, or keeps its
/// deadline.
///
/// Each search is watched, by [`NoGate`](convoy_branch::NoGate) where nobody watches; where the options have
/// seconds each job has them for itself, and the watch counts them.
///
/// Blocks go out as their jobs end, and memory is that of one job. A job with a fault gets the fault
/// as its block, and so does one of more than [`LONGEST_JOB`] bytes
/// (`ReadFault::TooLong`), and one for which memory runs out (`Fault::Memory`).
///
/// At most `options.most_reads()` reads are made. The run ends early with `Fault::Reading`, of
/// `ReadFault::Read` where the source fails, and of `ReadFault::TooManyReads` where so many reads give
/// bytes and none the end, each after the blocks of the jobs whose divider line had ended; with
/// `Fault::TooManyJobs` once the divider after the [`MOST_JOBS`]th job has ended, after that job's
/// block; with `Fault::Write` where the sink fails, after a front of the blocks; and with
/// `Fault::Memory`, before all else, where there is no memory for a block.
pub fn run_batch<R: Threads + Wait + Sync, S: Source, K: Sink, W: Watch + Sync>(
    rt: &R,
    alloc: Global,
    asked: &Asked,
    source: &mut S,
    sink: &mut K,
    options: &Options,
    watch: &W,
) -> Result<Done, Fault>
    ensures { IsBatchRun (LatencySays asked.now options.now) options.now.most_reads
        S.reads K.writes source.old source.new sink.old sink.new result }
{
    pieces_go_on();
    let most_reads = options.most_reads();
    let mut batch = Batch::new(alloc)?;
    let mut buffer = [0; BUFFER_LENGTH];
    for _ in 0..most_reads {
        let Ok(piece) = read_piece(source, &mut buffer) else {
            return Err(Fault::Reading(ReadFault::Read));
        };
        if piece.is_empty() {
            return batch.finish(rt, alloc, asked, sink, options, watch);
        }
        batch.take_piece(rt, alloc, asked, piece, sink, options, watch)?;
    }
    Err(Fault::Reading(ReadFault::TooManyReads))
}

/// A batch under way: its text as jobs, the block of the job that ended last, the number of the next job, and
/// the worst end of the jobs before that.
#[derive(Drop)]
struct Batch {
    splitter: Splitter,
    block: ReservedText,
    number: u32,
    end: Done,
}

impl Batch {
    fn new(alloc: Global) -> Result<Batch, AllocError>
        ensures after { IfOk result (λ batch. IsAfter LONGEST_JOB batch.splitter []) }
        ensures number { IfOk result (λ batch. batch.number ≡ 1) }
        ensures end { IfOk result (λ batch. batch.end ≡ Fine) }
    {
        Ok(Batch {
            splitter: Splitter::new(alloc, LONGEST_JOB),
            block: ReservedText::new(alloc)?,
            number: 1,
            end: Done::Fine,
        })
    }

    /// Takes the next piece of the text.
    fn take_piece<R: Threads + Wait + Sync, K: Sink, W: Watch + Sync>(
        &mut self,
        rt: &R,
        alloc: Global,
        asked: &Asked,
        piece: &[u8],
        sink: &mut K,
        options: &Options,
        watch: &W,
    ) -> Result<(), Fault>
        ensures { (start : K) (text : List ℕ) →
            IsUnderWay (LatencySays asked.now options.now) K.writes start sink.old text self.old →
            MatchResult result
            (λ _. IsUnderWay (LatencySays asked.now options.now) K.writes start sink.new (text ++ piece.now) self.new)
            (StopsAnswering (LatencySays asked.now options.now) K.writes start sink.new (ended_jobs (text ++ piece.now))) }
    {
        ended_jobs_stay();
        for byte in piece {
            self.take(rt, alloc, asked, *byte, sink, options, watch)?;
        }
        Ok(())
    }

    /// Takes the next byte of the text.
    fn take<R: Threads + Wait + Sync, K: Sink, W: Watch + Sync>(
        &mut self,
        rt: &R,
        alloc: Global,
        asked: &Asked,
        byte: u8,
        sink: &mut K,
        options: &Options,
        watch: &W,
    ) -> Result<(), Fault>
        ensures { (start : K) (text : List ℕ) →
            IsUnderWay (LatencySays asked.now options.now) K.writes start sink.old text self.old →
            MatchResult result
            (λ _. IsUnderWay (LatencySays asked.now options.now) K.writes start sink.new (text ++ byte ∷ []) self.new)
            (StopsAnswering (LatencySays asked.now options.now) K.writes start sink.new (ended_jobs (text ++ byte ∷ []))) }
    {
        if self.splitter.take(byte) {
            self.end_job(rt, alloc, asked, sink, options, watch)
        } else {
            Ok(())
        }
    }

    /// The text is over. Answers the worst end of all jobs.
    fn finish<R: Threads + Wait + Sync, K: Sink, W: Watch + Sync>(
        &mut self,
        rt: &R,
        alloc: Global,
        asked: &Asked,
        sink: &mut K,
        options: &Options,
        watch: &W,
    ) -> Result<Done, Fault>
        ensures { (start : K) (text : List ℕ) →
            IsUnderWay (LatencySays asked.now options.now) K.writes start sink.old text self.old →
            EndsBatch (LatencySays asked.now options.now) K.writes start sink.new text result }
    {
        if !self.splitter.finish() {
            return self.answer(rt, alloc, asked, sink, options, watch);
        }
        self.end_job(rt, alloc, asked, sink, options, watch)?;
        self.answer(rt, alloc, asked, sink, options, watch)
    }

    /// Answers the job that ended at a divider, and starts the next one.
    fn end_job<R: Threads + Wait + Sync, K: Sink, W: Watch + Sync>(
        &mut self,
        rt: &R,
        alloc: Global,
        asked: &Asked,
        sink: &mut K,
        options: &Options,
        watch: &W,
    ) -> Result<(), Fault>
        ensures { (start : K) (jobs : List Job) (job : Job) →
            IsReady (LatencySays asked.now options.now) K.writes start sink.old jobs self.old.number self.old.end →
            Holds LONGEST_JOB self.old.splitter job →
            MatchResult result
            (λ _. IsReady (LatencySays asked.now options.now) K.writes start sink.new (jobs ++ job ∷ []) self.new.number self.new.end
            × IsFresh (next_label_of self.old.splitter) self.new.splitter)
            (StopsAnswering (LatencySays asked.now options.now) K.writes start sink.new (jobs ++ job ∷ [])) }
    {
        self.answer(rt, alloc, asked, sink, options, watch)?;
        if self.number >= MOST_JOBS {
            return Err(Fault::TooManyJobs);
        }
        self.number += 1;
        self.splitter.start_next();
        Ok(())
    }

    /// Writes the block of the job that ended, and answers the worst end of the jobs so far.
    fn answer<R: Threads + Wait + Sync, K: Sink, W: Watch + Sync>(
        &mut self,
        rt: &R,
        alloc: Global,
        asked: &Asked,
        sink: &mut K,
        options: &Options,
        watch: &W,
    ) -> Result<Done, Fault>
        ensures job { (job : Job) → Holds LONGEST_JOB self.old.splitter job →
            AnswersOne (LatencySays asked.now options.now) K.writes sink.old sink.new self.old.number self.old.end job result }
        ensures splitter { self.new.splitter ≡ self.old.splitter }
        ensures number { self.new.number ≡ self.old.number }
        ensures end { IfOk result (λ end. self.new.end ≡ end) }
    {
        let answer = job_answer(rt, alloc, asked, &self.splitter, options, watch);
        let end = fill(&mut self.block, self.number, self.splitter.label(), answer);
        if write_all(sink, self.block.bytes()).is_err() {
            return Err(Fault::Write);
        }
        self.end = self.end.worse(end);
        Ok(self.end)
    }
}

/// What is answered for the job that ended.
fn job_answer<R: Threads + Wait + Sync, W: Watch + Sync>(
    rt: &R,
    alloc: Global,
    asked: &Asked,
    splitter: &Splitter,
    options: &Options,
    watch: &W,
) -> Result<Answer, Fault>
    ensures { (job : Job) → Holds LONGEST_JOB splitter.now job →
        JobSays (LatencySays asked.now options.now) job (reply_of result) }
{
    match splitter.job() {
        Ok(text) => latency_answer(rt, alloc, false, asked, text, options, watch),
        Err(JobFault::TooLong) => Err(Fault::Reading(ReadFault::TooLong(LONGEST_JOB))),
        Err(JobFault::Memory) => Err(Fault::Memory),
    }
}
