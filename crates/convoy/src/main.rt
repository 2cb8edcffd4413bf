//! Convoy, the program: its command line, the standard streams and the files that are read. What is written is
//! said by the libraries that it calls.
#![tactic(auto)]

ghost use Rattle.std.specs.Prelude.{◌≡◌, ◌<◌, length};
ghost use Rattle.convoy_arguments.specs.Verdicts.{IsVerdict};
ghost use Rattle.convoy_arguments.specs.declared.limits.TheConstants.{MOST_READS};
ghost use Rattle.convoy_commands.specs.Searches.{LatencySays};
ghost use Rattle.convoy_batches.specs.Batches.{IsBatchRun};
ghost use Rattle.convoy_tasks.specs.Runs.{IsRun, done_of};
ghost use Rattle.convoy_tasks.specs.Tasks.{longest_for, task_says};
ghost use Rattle.convoy.specs.Verdicts.{IsWantedRead, Obeys, Performs, Tells, done_of_run};

mod ending;
mod obeying;

use convoy_arguments::{Input, Inputs, MOST_READS, Verdict, judge, judge_bytes};
use convoy_batches::run_batch;
use convoy_best_plan::PlanWatch;
use convoy_commands::{Done, Fault, Options, Watch, fault_line};
use convoy_hints_run::{
    End, Finished, KeptWriter, greeting, reads_standard, tell_ended, write_line,
};
use convoy_progress::{Progress, Together, screen_for, several_for};
use convoy_streams::{DeviceFailed, Sink, Source, StreamSink, hold_closed, write_all};
use convoy_task_list::Task;
use convoy_tasks::{Ended, Reference, read_reference, run_task};
use convoy_toml::Asked;
use ending::{FAULT, status_of};
use obeying::open_and_obey;
use std::alloc::Global;
use std::io::{ErrorKind, IsTerminal};
use std::process::ExitCode;
use std::rt::Env;
use std::sync::Wait;
use std::thread::Threads;
use std::{env, io};

fn main(rt: HostRuntime) -> ExitCode {
    let _held = hold_closed(&rt);
    let alloc = rt.alloc();
    let words = words(&rt);
    let verdict = verdict(alloc, &words);
    let words = words.unwrap_or(Vec::new(alloc));
    if !verdict.is_quiet() && reads_standard(&verdict) && rt.stdin().is_terminal() {
        write_line(&mut rt.stderr(), greeting(alloc, &verdict));
    }
    let mut sink = StreamSink {
        writer: KeptWriter::new(rt.stdout()),
    };
    let screen = screen_for(&verdict, rt.stderr().is_terminal());
    let together = Together::new();
    let alone = [Progress::new(&rt, alloc, rt.stderr(), screen, &together, true)];
    let several = several_for(&rt, alloc, rt.stderr(), screen, &together, verdict.jobs());
    let watches = watches_of(&alone, &several);
    let obeyed = open_and_obey(&rt, alloc, rt.stdin(), &verdict, &mut sink, watches);
    if let Some(first) = several.first() {
        first.finish();
    }
    let status = match &obeyed.result {
        Ok(end) => status_of(&verdict, end.done),
        Err(fault) => {
            tell(alloc, fault, &mut sink);
            FAULT
        }
    };
    let finished = Finished {
        verdict: &verdict,
        words: &words,
        result: &obeyed.result,
        reader: &obeyed.source.reader,
        scenario_reader: &obeyed.other.reader,
        writer: &sink.writer,
        is_stopped: watches.iter().any(|watch| watch.is_stopped()),
    };
    tell_ended(&mut rt.stderr(), alloc, &finished);
    ExitCode::from(status)
}

/// Who watches: several, where there are, or else the one.
fn watches_of<'a, W>(alone: &'a [W], several: &'a [W]) -> &'a [W]
    requires { 0 < length alone.now }
    ensures { 0 < length result.now }
{
    if several.is_empty() { alone } else { several }
}

/// What is to be done, by the words of the command line.
fn verdict(alloc: Global, words: &io::Result<Vec<String>>) -> Verdict
    ensures { IsVerdict result }
{
    match words {
        Ok(words) => judge(alloc, words),
        Err(error) if error.kind() == ErrorKind::OutOfMemory => Verdict::Memory,
        Err(_) => judge_bytes(alloc),
    }
}

/// The words of the command line, without the program's own name.
fn words<R: Env + AllocGlobal>(rt: &R) -> io::Result<Vec<String>> {
    let mut words = env::args(rt)?;
    let _ = words.next();
    Ok(words.collect(rt.alloc())?)
}

/// Does what the command line asks for, and answers how that ended. The other source is that of the scenario
/// which a certificate is to be of.
fn obey<R: Threads + Wait + Sync, S: Source, K: Sink, W: PlanWatch + Sync>(
    rt: &R,
    alloc: Global,
    verdict: &Verdict,
    source: &mut S,
    other: &mut S,
    sink: &mut K,
    watches: &[W],
) -> Result<End, Fault>
    requires watched { 0 < length watches.now }
    requires verdict { IsVerdict verdict.now }
    ensures { Obeys S.reads K.writes verdict.now source.old source.new other.old other.new sink.old sink.new (done_of_run result) }
{
    match verdict {
        Verdict::Ask { task, inputs, .. } => {
            perform(rt, alloc, task, inputs, source, other, sink, watches)
        }
        Verdict::Batch { asked, options, .. } => Ok(End::of(answer_batch(
            rt,
            alloc,
            asked,
            options,
            source,
            sink,
            &watches[0],
        )?)),
        Verdict::Text { text, .. } => match write_all(sink, text.as_bytes()) {
            Ok(()) => Ok(End::of(Done::Fine)),
            Err(DeviceFailed) => Err(Fault::Write),
        },
        Verdict::Memory => Err(Fault::Memory),
    }
}

/// Does a task, for the scenario or the workflow that is wanted, if one is: that is read first. The buffer of a batch lies on the stack,
/// and no task is to have it there.
#[inline(never)]
fn perform<R: Threads + Wait + Sync, S: Source, K: Sink, W: PlanWatch + Sync>(
    rt: &R,
    alloc: Global,
    task: &Task,
    inputs: &Inputs,
    source: &mut S,
    other: &mut S,
    sink: &mut K,
    watches: &[W],
) -> Result<End, Fault>
    requires { 0 < length watches.now }
    ensures { Performs S.reads K.writes task.now inputs.now.wanted
        source.old source.new other.old other.new sink.old sink.new (done_of_run result) }
{
    let wanted = read_wanted(alloc, task, &inputs.wanted, other)?;
    let ended = run_for(rt, alloc, task, &wanted, source, sink, watches)?;
    Ok(End {
        done: ended.done,
        known: ended.known,
        wanted,
    })
}

/// The scenario or the workflow that is wanted, where an input for it is named.
fn read_wanted<S: Source>(
    alloc: Global,
    task: &Task,
    named: &Option<Input>,
    other: &mut S,
) -> Result<Option<Reference>, Fault>
    ensures { IsWantedRead S.reads task.now named.now other.old other.new result }
{
    match named {
        Some(_) => Ok(Some(read_reference(alloc, task, other, MOST_READS)?)),
        None => Ok(None),
    }
}

/// Does a task for that.
fn run_for<R: Threads + Wait + Sync, S: Source, K: Sink, W: PlanWatch + Sync>(
    rt: &R,
    alloc: Global,
    task: &Task,
    wanted: &Option<Reference>,
    source: &mut S,
    sink: &mut K,
    watches: &[W],
) -> Result<Ended, Fault>
    requires { 0 < length watches.now }
    ensures { IsRun (longest_for task.now) (task_says task.now wanted.now) MOST_READS
        S.reads K.writes source.old source.new sink.old sink.new (done_of result) }
{
    match wanted {
        Some(wanted) => run_task(
            rt,
            alloc,
            task,
            Some(wanted),
            source,
            sink,
            MOST_READS,
            watches,
        ),
        None => run_task(rt, alloc, task, None, source, sink, MOST_READS, watches),
    }
}

/// Answers a batch, block by block, where this is asked of each text.
#[inline(never)]
fn answer_batch<R: Threads + Wait + Sync, S: Source, K: Sink, W: Watch + Sync>(
    rt: &R,
    alloc: Global,
    asked: &Asked,
    options: &Options,
    source: &mut S,
    sink: &mut K,
    watch: &W,
) -> Result<Done, Fault>
    requires { options.now.most_reads ≡ MOST_READS }
    ensures { IsBatchRun (LatencySays asked.now options.now) MOST_READS S.reads K.writes source.old source.new sink.old sink.new result }
{
    run_batch(rt, alloc, asked, source, sink, options, watch)
}

/// Writes the line of a fault. Where memory runs out or the write fails, nothing more is written.
fn tell<K: Sink>(alloc: Global, fault: &Fault, sink: &mut K)
    ensures { Tells K.writes fault.now sink.old sink.new }
{
    let mut line = Vec::new(alloc);
    if fault_line(fault, &mut line).is_ok() {
        let _ = write_all(sink, &line);
    }
}
