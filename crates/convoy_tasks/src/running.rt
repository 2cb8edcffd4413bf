ghost use Rattle.std.specs.Option.{option_map};
ghost use Rattle.convoy_streams.specs.Devices.{HasRun};
ghost use Rattle.convoy_commands.specs.Replies.{reply_of};
ghost use Rattle.convoy_tasks.specs.Runs.{IsRun, WritesReply, done_of};
ghost use Rattle.convoy_tasks.specs.Tasks.{IsToldAtOnce, longest_for, task_says};
ghost use Rattle.std.specs.Prelude.{◌<◌, None, length};

use super::answering::{answer, answer_at_once, longest_of};
use super::ended::Ended;
use convoy_best_plan::PlanWatch;
use convoy_commands::{Answer, Fault};
use convoy_streams::{DeviceFailed, Sink, Source, read_to_end, write_all};
use convoy_task_list::Task;
use convoy_workflow_replies::Reference;
use std::alloc::Global;
use std::sync::Wait;
use std::thread::Threads;

/// Does a task: reads a text to the end of the source, in at most `most_reads` reads, and writes what [`answer`]
/// answers for it. Nothing is written before the answer is known.
///
/// The faults are those of [`answer`]; `Fault::Reading`, of `ReadFault::Read` where the source fails,
/// `ReadFault::TooLong` at the read that brings a byte past [`longest_of`] the task, and `ReadFault::TooManyReads`
/// where `most_reads` reads give bytes and none the end; and `Fault::Write` where the sink fails, after a front of the
/// answer has gone out.
pub fn run_task<R: Threads + Wait + Sync, S: Source, K: Sink, W: PlanWatch + Sync>(
    rt: &R,
    alloc: Global,
    task: &Task,
    wanted: Option<&Reference>,
    source: &mut S,
    sink: &mut K,
    most_reads: u64,
    watches: &[W],
) -> Result<Ended, Fault>
    requires { 0 < length watches.now }
    ensures { IsRun (longest_for task.now) (task_says task.now (option_map (λ r. r.now) wanted.entry)) most_reads
        S.reads K.writes source.old source.new sink.old sink.new (done_of result) }
{
    let text = read_to_end(alloc, source, longest_of(task), most_reads)?;
    write_answer(sink, answer(rt, alloc, task, wanted, &text, watches))
}

/// The same of a task that is told at once, without threads; nothing is wanted.
pub(crate) fn run_at_once<S: Source, K: Sink>(
    alloc: Global,
    task: &Task,
    source: &mut S,
    sink: &mut K,
    most_reads: u64,
) -> Result<Ended, Fault>
    requires { IsToldAtOnce task.now }
    ensures { IsRun (longest_for task.now) (task_says task.now None) most_reads
        S.reads K.writes source.old source.new sink.old sink.new (done_of result) }
{
    let text = read_to_end(alloc, source, longest_of(task), most_reads)?;
    write_answer(sink, answer_at_once(alloc, task, None, &text))
}

/// Writes what is answered. Where that is a fault nothing is written; `Fault::Write` where the sink fails, after a
/// front of the text.
fn write_answer<K: Sink>(sink: &mut K, answered: Result<Answer, Fault>) -> Result<Ended, Fault>
    ensures { HasRun K.writes sink.old sink.new
        (λ answers. WritesReply (reply_of answered) answers (done_of result)) }
{
    let Answer { done, text, known } = answered?;
    match write_all(sink, &text) {
        Ok(()) => Ok(Ended { done, known }),
        Err(DeviceFailed) => Err(Fault::Write),
    }
}
