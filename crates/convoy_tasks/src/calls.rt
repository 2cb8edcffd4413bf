//! Commands as calls of their own, which nobody watches.

ghost use Rattle.std.specs.Prelude.{None, false};
ghost use Rattle.convoy_commands.specs.declared.limits.TheConstants.{LONGEST_CERTIFICATE, LONGEST_JOB};
ghost use Rattle.convoy_commands.specs.First.{FirstSays};
ghost use Rattle.convoy_toml.specs.Reading.{as_written};
ghost use Rattle.convoy_tasks.specs.Runs.{IsRun};
ghost use Rattle.convoy_tasks.specs.Tasks.{analyse_by, certificate_says, latency_by, told_by};
ghost use Rattle.convoy_commands.specs.declared.telling.Telling.TheVariants.{Simulate, Timeline};
ghost use Rattle.convoy_task_list.specs.declared.of_certificates.CertificateTask.TheVariants.{Check};

use super::running::{run_at_once, run_task};
use convoy_commands::{Done, Fault, NoGate, Options, Telling};
use convoy_streams::{Sink, Source};
use convoy_task_list::{CertificateTask, ScenarioTask, SearchTask, Task};
use convoy_toml::Asked;
use std::alloc::Global;
use std::sync::Wait;
use std::thread::Threads;

/// The command `first`: reads a scenario to the end of the source, and writes the latency in ticks
/// that the schedule of least delays attains, and that schedule (docs/FORMATS.md, "What `first`
/// writes").
///
/// At most `most_reads` reads are made. Nothing is written before the answer is known. The faults are
/// `Fault::Scenario`, of that of [`read_toml`](convoy_toml::read_toml); `Fault::Reading`, of
/// `ReadFault::Read` where the source fails, `ReadFault::TooLong` at the read that brings a byte past
/// [`LONGEST_JOB`](convoy_commands::LONGEST_JOB), and `ReadFault::TooManyReads` where `most_reads` reads give bytes
/// and none the end; `Fault::Write` where the sink fails, after a front of the answer has gone out; and
/// `Fault::Memory`.
pub fn run_first<S: Source, K: Sink>(
    alloc: Global,
    source: &mut S,
    sink: &mut K,
    most_reads: u64,
) -> Result<Done, Fault>
    ensures { IsRun LONGEST_JOB (FirstSays as_written) most_reads S.reads K.writes source.old source.new sink.old sink.new result }
{
    let task = Task::Scenario {
        asked: Asked::as_written(),
        what: ScenarioTask::First,
    };
    Ok(run_at_once(alloc, &task, source, sink, most_reads)?.done)
}

/// The command `simulate`: reads a scenario to the end of the source, and writes the latency in ticks
/// under the schedule that is given beside it, or where none is under the least delays, and that
/// schedule; or reads a certificate, and writes the same of its schedule (docs/FORMATS.md, "What
/// `simulate` writes").
///
/// At most `most_reads` reads are made. Nothing is written before the answer is known. The faults are
/// those of [`run_first`](super::run_first), `Fault::Schedule` for delays that are no schedule of the
/// scenario, and `Fault::Order` for an order of ties that is none of it. A scenario that is too long is
/// told once it is read. Where the text begins as a certificate does and is none, it ends as
/// `Done::Refused`, with the refusal of [`run_check`](super::run_check); whether the certificate is
/// valid is not looked at.
pub fn run_simulate<S: Source, K: Sink>(
    alloc: Global,
    source: &mut S,
    sink: &mut K,
    most_reads: u64,
) -> Result<Done, Fault>
    ensures { IsRun LONGEST_CERTIFICATE (told_by Simulate) most_reads S.reads K.writes source.old source.new sink.old sink.new result }
{
    let task = Task::Tell(Telling::Simulate);
    Ok(run_at_once(alloc, &task, source, sink, most_reads)?.done)
}

/// The command `timeline`: reads a scenario to the end of the source, and writes what happens at each
/// group, tick by tick, under the schedule that is given beside it, or where none is under the least
/// delays; or reads a certificate, and writes the same of its schedule (docs/FORMATS.md, "What
/// `timeline` writes").
///
/// At most `most_reads` reads are made. Nothing is written before the answer is known. The faults are
/// those of [`run_simulate`](super::run_simulate).
pub fn run_timeline<S: Source, K: Sink>(
    alloc: Global,
    source: &mut S,
    sink: &mut K,
    most_reads: u64,
) -> Result<Done, Fault>
    ensures { IsRun LONGEST_CERTIFICATE (told_by Timeline) most_reads S.reads K.writes source.old source.new sink.old sink.new result }
{
    let task = Task::Tell(Telling::Timeline);
    Ok(run_at_once(alloc, &task, source, sink, most_reads)?.done)
}

/// The command `check`: reads the text of a certificate to the end of the source, and writes the yes
/// with the latency that is the greatest of its scenario, where replicas have to answer too if it is one of finishes, or
/// with the greatest time of its workflow, or the first fault for which the certificate is refused (docs/FORMATS.md, "What
/// `check` writes").
///
/// At most `most_reads` reads are made, and where there is a `limit` at most so many steps are taken (docs/FORMATS.md,
/// "Steps"): where checking takes more it ends as `Done::NotChecked`, and the line that says so is written.
/// Nothing is written before the answer is known. It ends as `Done::Fine` or, with the refusal, as
/// `Done::Refused`; of a certificate of a workflow or of finishes, whose steps are not counted, as `Done::WorkflowRefused`
/// or `Done::FinishRefused`.
/// The faults are `Fault::Reading` and `Fault::Write` as of [`run_first`](super::run_first), but with the
/// limit [`LONGEST_CERTIFICATE`](convoy_commands::LONGEST_CERTIFICATE), and `Fault::Memory`.
pub fn run_check<S: Source, K: Sink>(
    alloc: Global,
    limit: Option<u64>,
    source: &mut S,
    sink: &mut K,
    most_reads: u64,
) -> Result<Done, Fault>
    ensures { IsRun LONGEST_CERTIFICATE (certificate_says (Check false) None None limit) most_reads
        S.reads K.writes source.old source.new sink.old sink.new result }
{
    let task = Task::Certificate {
        unit: None,
        limit,
        what: CertificateTask::Check { tells: false },
    };
    Ok(run_at_once(alloc, &task, source, sink, most_reads)?.done)
}

/// The command `analyse`: reads a scenario or a workflow to the end of the source, and writes the certificate of its
/// greatest latency, or of the greatest time of the workflow (docs/FORMATS.md, "What `analyse` writes").
///
/// At `Done::Fine` what was written for a scenario is the text of a certificate of it. Its
/// schedule has the stated latency, and no assignment of delays to the packets has a greater one. The
/// command `check` accepts the text. At `Done::Open` boxes are left: the search spent all tickets that
/// the options give it, both ways as many as [`plain_share`](convoy_commands::plain_share) and
/// [`lead_share`](convoy_commands::lead_share) say. What was written is the line `open LEAST MOST`, where the
/// greatest latency is at least LEAST ticks and at most MOST, and then the lines of a schedule that has the
/// latency LEAST. Nobody watches this search, so seconds in the options do not stop it: for that there
/// is [`run_task`](super::run_task).
///
/// For a workflow it is the certificate of its greatest time, and where groups are replicated by white box that of the
/// greatest latency until their replicas have answered, or where that is not known what
/// [`workflow_proof_answer`](convoy_workflow_answers::workflow_proof_answer) and
/// [`finish_proof_answer`](convoy_finish_answers::finish_proof_answer) write in its place.
///
/// Where the text gives the target a deadline the same is written, and it ends as [`run_latency`] does.
///
/// At most `options.most_reads()` reads are made. Nothing is written before the answer is known. The
/// faults are those of [`run_first`](super::run_first).
pub fn run_analyse<R: Threads + Wait + Sync, S: Source, K: Sink>(
    rt: &R,
    alloc: Global,
    source: &mut S,
    sink: &mut K,
    options: &Options,
) -> Result<Done, Fault>
    ensures { IsRun LONGEST_JOB (analyse_by as_written options.now) options.now.most_reads
        S.reads K.writes source.old source.new sink.old sink.new result }
{
    let task = Task::Search {
        asked: Asked::as_written(),
        options: *options,
        what: SearchTask::Analyse,
    };
    let most_reads = options.most_reads();
    Ok(run_task(rt, alloc, &task, None, source, sink, most_reads, &[NoGate])?.done)
}

/// The command `latency`: reads a scenario or a workflow to the end of the source, and writes its greatest latency
/// (docs/FORMATS.md, "What `latency` writes").
///
/// At `Done::Fine` what was written is the line `greatest N`: some assignment of delays to the packets
/// has the latency of N ticks, and none has a greater one. At `Done::Open` boxes are left, as told of
/// [`run_analyse`]: what was written is the line `open LEAST MOST`, where the greatest latency is at
/// least LEAST ticks and at most MOST. Where the length of a tick is known, both lines go on with the
/// same as times and their unit: that of the options, or else that in which the scenario tells D.
///
/// Where the text tells outages by its key `outage`, a line below tells what no latency is above through them, by which a
/// deadline is then judged, too (docs/FORMATS.md, "Latencies through outages").
///
/// Where the text gives the target a deadline a line below tells how that is kept, and so does the end: `Done::Fine` where
/// no latency is above it, `Done::Beyond` where some schedule has one that is, and `Done::Open` where neither is known.
///
/// At most `options.most_reads()` reads are made. Nothing is written before the answer is known. The
/// faults are those of [`run_first`](super::run_first).
pub fn run_latency<R: Threads + Wait + Sync, S: Source, K: Sink>(
    rt: &R,
    alloc: Global,
    source: &mut S,
    sink: &mut K,
    options: &Options,
) -> Result<Done, Fault>
    ensures { IsRun LONGEST_JOB (latency_by None None false as_written options.now) options.now.most_reads
        S.reads K.writes source.old source.new sink.old sink.new result }
{
    let task = Task::Search {
        asked: Asked::as_written(),
        options: *options,
        what: SearchTask::Latency {
            with_ceiling: false,
            outage: None,
            accept: None,
        },
    };
    let most_reads = options.most_reads();
    Ok(run_task(rt, alloc, &task, None, source, sink, most_reads, &[NoGate])?.done)
}
