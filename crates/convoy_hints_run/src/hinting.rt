//! What the program writes to standard error, for people: a line before it waits for a terminal, why a file
//! could not be read, and a hint where it has no answer or an open one, and with some answers
//! (docs/HINTS.md).

use super::end::End;
use super::kept::KeptWriter;
use super::kind_hints::{hint_for_kinds, hint_for_shared};
use super::other_hints::{CertificateForm, hint_for_other};
use super::sweep_hints::hint_for_sweep;
use super::table_hints::hint_for_table;
use super::trace_hints::{hint_for_long_trace, hint_for_trace};
use super::workflow_hints::{
    hint_for_open_workflow, hint_for_scenario_of_workflow, hint_for_workflow,
};
use convoy_arguments::{Input, REJECTED, Verdict};
use convoy_batches::MOST_JOBS;
use convoy_command_line::{MOST_SECONDS, hint_for_words};
use convoy_commands::{
    Bounds, Done, Fault, Known, LONGEST_JOB, ListFault, MOST_SIMULATIONS, MOST_STEPS, MOST_TICKETS,
    Options, OrderFault, ReadFault, ScenarioFault, Telling, Ways, lead_share, plain_share,
};
use convoy_hints::{
    CheckedText, Hint, hint_for_batch, hint_for_both, hint_for_ceiling, hint_for_certificate,
    hint_for_changes, hint_for_file_as_group, hint_for_first, hint_for_given_order,
    hint_for_given_schedule, hint_for_greatest, hint_for_jobs, hint_for_late_certificate,
    hint_for_late_message, hint_for_leads, hint_for_length, hint_for_limit, hint_for_named_group,
    hint_for_open_accept, hint_for_open_through_outages, hint_for_order, hint_for_order_in_ticks,
    hint_for_outage, hint_for_plain_number, hint_for_plan, hint_for_reading, hint_for_replicas,
    hint_for_scenario, hint_for_seconds, hint_for_tickets, hint_for_unchecked, hint_for_writing,
    hint_of_text, is_name_of_file, line_for_file,
};
use convoy_plans::PlanFault;
use convoy_scenario::{Key, Scenario};
use convoy_streams::KeptReader;
use convoy_task_list::{
    CertificateTask, KindsTask, PlanTask, ScenarioTask, SearchTask, Task, TraceTask,
};
use convoy_toml::{Asked, MOST_CASES, accepts_by_text, cases_of_text, outage_of_text};
use convoy_workflows::is_workflow;
use std::alloc::{AllocError, Global};
use std::io::{Error, Write};

// Hints tell these limits in words.
const _: () = prove!(MOST_TICKETS == 4_000_000);

const _: () = prove!(MOST_SIMULATIONS == 1_000_000);

/// How a run ended, and what is known of its streams.
#[derive(Drop)]
pub struct Finished<'a, R, W> {
    pub verdict: &'a Verdict,
    /// The words of the command line: what a rejected one meant.
    pub words: &'a [String],
    pub result: &'a Result<End, Fault>,
    pub reader: &'a KeptReader<R>,
    /// That of the scenario which a certificate is to be of.
    pub scenario_reader: &'a KeptReader<R>,
    pub writer: &'a KeptWriter<W>,
    /// Whether a search was stopped, as its time was over.
    pub is_stopped: bool,
}

/// Whether a text is read from standard input: the one that is asked about, or the scenario that is wanted.
pub fn reads_standard(verdict: &Verdict) -> bool {
    match verdict {
        Verdict::Ask { inputs, .. } => {
            matches!(inputs.text, Input::Standard) || wants_standard(&inputs.wanted)
        }
        Verdict::Batch { input, .. } => matches!(input, Input::Standard),
        Verdict::Text { .. } | Verdict::Memory => false,
    }
}

/// Whether the scenario that is wanted is read from standard input.
fn wants_standard(wanted: &Option<Input>) -> bool {
    matches!(wanted, Some(Input::Standard))
}

/// The line that is written before a terminal is read.
pub fn greeting(alloc: Global, verdict: &Verdict) -> Result<Option<String>, AllocError> {
    let wanted = match verdict {
        Verdict::Ask { inputs, .. } if wants_standard(&inputs.wanted) => "a scenario",
        Verdict::Ask { task, .. } => text_of(task),
        Verdict::Batch { .. } => "scenarios",
        Verdict::Text { .. } | Verdict::Memory => return Ok(None),
    };
    let line = format!(in alloc;
        "hint: reading {wanted} from standard input, up to its end; 'convoy --help' tells more\n"
    )?;
    match group_of(verdict) {
        Some(group) if is_name_of_file(group) => {
            let more = hint_for_file_as_group(alloc, group)?;
            format!(in alloc; "{line}{more}").map(Some)
        }
        _ => Ok(Some(line)),
    }
}

/// What a task reads, in words.
fn text_of(task: &Task) -> &'static str {
    match task {
        Task::Scenario { .. } | Task::Ceilings { .. } | Task::Search { .. } => "a scenario",
        Task::Plan {
            what: PlanTask::Check,
            ..
        } => "a plan and its certificate",
        Task::Plan { .. } => "a plan",
        Task::Kinds { .. } => "kinds of messages",
        Task::Ranges { .. } => "a table of round trips",
        Task::Trace(_) => "a trace",
        Task::Certificate { .. } => "a certificate",
        Task::Tell(_) => "a scenario or a certificate",
        Task::BatchTable { .. } => "scenarios",
    }
}

/// Writes why a file could not be read, and the hint for how the run ended unless it is to be quiet.
pub fn tell_ended<E: Write, R, W>(errors: &mut E, alloc: Global, run: &Finished<'_, R, W>) {
    write_line(errors, line_for_input(alloc, run));
    if !run.verdict.is_quiet() {
        write_line(errors, hint_for(alloc, run));
    }
}

/// The line for a file that could not be opened or read; None where there is none.
fn line_for_input<R, W>(
    alloc: Global,
    run: &Finished<'_, R, W>,
) -> Result<Option<String>, AllocError> {
    let Err(Fault::Reading(ReadFault::Read)) = run.result else {
        return Ok(None);
    };
    match failed_input(run) {
        (Some(file), Some(error)) => Ok(Some(line_for_file(alloc, file, &error)?)),
        _ => Ok(None),
    }
}

/// The input of which a read failed, where one did: the name of its file, if it is one, and why.
fn failed_input<'a, R, W>(run: &Finished<'a, R, W>) -> (Option<&'a str>, Option<Error>) {
    match run.scenario_reader.failure() {
        Some(error) => (run.verdict.scenario_file(), Some(error)),
        None => (run.verdict.file(), run.reader.failure()),
    }
}

/// The hint for how a run ended; None where there is none.
fn hint_for<R, W>(alloc: Global, run: &Finished<'_, R, W>) -> Hint {
    match (run.verdict, run.result) {
        (
            Verdict::Text {
                status: REJECTED,
                ..
            },
            Ok(_),
        ) => hint_for_words(alloc, run.words),
        (Verdict::Text { .. }, Ok(_)) => Ok(None),
        (_, Ok(end)) => hint_for_end(alloc, run, end),
        (
            _,
            Err(
                fault @ (Fault::Scenario(_)
                | Fault::Workflow(_)
                | Fault::Reading(ReadFault::TooLong(_))),
            ),
        ) => {
            let hint = hint_for_fault(alloc, run, fault)?;
            hint_of_one(alloc, run, hint)
        }
        (_, Err(fault)) => hint_for_fault(alloc, run, fault),
    }
}

/// The hint, with which text it is of where a certificate is checked against a scenario.
fn hint_of_one<R, W>(alloc: Global, run: &Finished<'_, R, W>, hint: Option<String>) -> Hint {
    if judges_trace(run.verdict) {
        Ok(hint)
    } else if is_of_scenario(run) {
        hint_of_text(alloc, CheckedText::Scenario, hint)
    } else if names_scenario(run.verdict) {
        hint_of_text(alloc, CheckedText::Certificate, hint)
    } else {
        Ok(hint)
    }
}

/// The hint for how a task ended.
fn hint_for_end<R, W>(alloc: Global, run: &Finished<'_, R, W>, end: &End) -> Hint {
    match end.done {
        Done::Refused(refusal) => {
            let reader = run.reader;
            let hint = hint_for_certificate(alloc, reader.text(), reader.is_whole(), refusal)?;
            hint_of_one(alloc, run, hint)
        }
        Done::NotChecked => match steps_of(run.verdict) {
            Some(limit) => hint_for_unchecked(alloc, limit, MOST_STEPS).map(Some),
            None => Ok(None),
        },
        Done::Differs(_) => match (&end.wanted, &end.known) {
            (Some(wanted), Some(known)) => {
                let form = CertificateForm::of(run.reader.text());
                hint_for_other(alloc, wanted, form, &known.scenario).map(Some)
            }
            _ => Ok(None),
        },
        Done::Open if !is_batch(run.verdict) => hint_for_open(alloc, run),
        Done::Departs | Done::PlanRefused | Done::WorkflowRefused | Done::FinishRefused => {
            Ok(None)
        }
        Done::Fine | Done::Open | Done::Beyond | Done::Faulty => hint_for_answer(alloc, run, end),
    }
}

/// The hint for a run that had a fault.
fn hint_for_fault<R, W>(alloc: Global, run: &Finished<'_, R, W>, fault: &Fault) -> Hint {
    let reader = if is_of_scenario(run) {
        run.scenario_reader
    } else {
        run.reader
    };
    match fault {
        Fault::Plan(fault) if reader.is_whole() => {
            hint_for_plan_of(alloc, run.verdict, reader.text(), *fault)
        }
        Fault::Scenario(fault) if reader.is_whole() && reads_plan(run.verdict) => {
            hint_for_plan_of(
                alloc,
                run.verdict,
                reader.text(),
                PlanFault::Scenario(*fault),
            )
        }
        Fault::Scenario(fault) if reads_kinds(run.verdict) => hint_for_shared(alloc, *fault),
        Fault::Kinds(fault) => hint_for_kinds(alloc, *fault).map(Some),
        Fault::Workflow(fault) => hint_for_workflow(alloc, *fault).map(Some),
        Fault::Scenario(fault) if reader.is_whole() => {
            hint_for_scenario_text(alloc, run, reader.text(), *fault)
        }
        Fault::Schedule(fault) if reader.is_whole() => {
            hint_for_given_schedule(alloc, reader.text(), *fault)
        }
        Fault::Order(fault) if reader.is_whole() => { hint_for_ranks(alloc, reader.text(), *fault) }
        Fault::Reading(ReadFault::Read) => match failed_input(run) {
            (None, Some(error)) => Ok(Some(hint_for_reading(alloc, &error)?)),
            _ => Ok(None),
        },
        Fault::Reading(ReadFault::TooLong(most)) if is_batch(run.verdict) => {
            Ok(Some(hint_for_long_batch(alloc, *most)?))
        }
        Fault::Reading(ReadFault::TooLong(most))
            if judges_trace(run.verdict) && !is_of_scenario(run) => {
            hint_for_long_trace(alloc, *most).map(Some)
        }
        Fault::Reading(ReadFault::TooLong(most)) => {
            Ok(Some(hint_for_length(alloc, reader.text(), *most)?))
        }
        Fault::Write => match run.writer.failure() {
            Some(error) => Ok(Some(hint_for_writing(alloc, &error)?)),
            None => Ok(None),
        },
        Fault::TooManyJobs => Ok(Some(hint_for_jobs(alloc, MOST_JOBS)?)),
        Fault::Sweep(cause) => Ok(Some(hint_for_sweep(alloc, *cause)?)),
        Fault::Ranges(cause) => hint_for_table(alloc, *cause),
        Fault::Trace(cause) => hint_for_trace(alloc, *cause).map(Some),
        Fault::Outage(cause) => hint_for_outage(alloc, *cause).map(Some),
        Fault::Replicas(cause) => hint_for_replicas(alloc, *cause).map(Some),
        Fault::Scenario(_)
        | Fault::Plan(_)
        | Fault::Schedule(_)
        | Fault::Order(_)
        | Fault::Reading(ReadFault::TooManyReads | ReadFault::Memory)
        | Fault::Memory => Ok(None),
    }
}

/// The hint for a text in which who sends the messages may be chosen in too many ways.
fn hint_for_cases(alloc: Global) -> Result<String, AllocError> {
    format!(in alloc;
        "hint: who sends which message may be chosen in more than {MOST_CASES} ways: leave out senders that are no worse than others, or ask about some of them at a time\n"
    )
}

/// The hint for a fault that a scenario has, in the text of one or of a workflow.
fn hint_for_scenario_text<R, W>(
    alloc: Global,
    run: &Finished<'_, R, W>,
    text: &[u8],
    fault: ScenarioFault,
) -> Hint {
    if tells_workflow(alloc, text)? {
        let is_taken = takes_workflow(run.verdict) && !asks_for_outages(alloc, run)?;
        return hint_for_scenario_of_workflow(alloc, is_taken, fault);
    }
    let is_of_sender = matches!(fault, ScenarioFault::Shape(Key::From));
    if is_of_sender && has_many_cases(alloc, text)? {
        return hint_for_cases(alloc).map(Some);
    }
    let asked = asked_of_input(run);
    hint_for_scenario_or_group(alloc, run.verdict, text, asked, fault)
}

/// Whether who sends the messages of a text may be chosen in more ways than are asked about.
fn has_many_cases(alloc: Global, text: &[u8]) -> Result<bool, AllocError> {
    let count = cases_of_text(alloc, text)?;
    Ok(count > MOST_CASES)
}

/// Whether the command line asks for what is told of a workflow, too.
fn takes_workflow(verdict: &Verdict) -> bool {
    match verdict {
        Verdict::Ask { task, .. } => matches!(
            task,
            Task::Tell(Telling::Toml)
                | Task::Certificate { .. }
                | Task::Search {
                    what: SearchTask::Analyse
                        | SearchTask::Latency {
                            with_ceiling: false,
                            outage: None,
                            accept: None,
                        },
                    ..
                }
        ),
        Verdict::Batch { .. } | Verdict::Text { .. } | Verdict::Memory => false,
    }
}

/// Whether the command line asks for what a trace is read for.
fn judges_trace(verdict: &Verdict) -> bool {
    matches!(task_of(verdict), Some(Task::Trace(_)))
}

/// Whether the command line asks for what kinds of messages are read for.
fn reads_kinds(verdict: &Verdict) -> bool {
    matches!(task_of(verdict), Some(Task::Kinds { .. }))
}

/// Whether the command line asks for what a plan is read for.
fn reads_plan(verdict: &Verdict) -> bool {
    matches!(task_of(verdict), Some(Task::Plan { .. }))
}

/// The hint for a fault of a plan, or of what a plan has as a scenario has it.
fn hint_for_plan_of(alloc: Global, verdict: &Verdict, text: &[u8], fault: PlanFault) -> Hint {
    match asked_of(verdict) {
        Some(asked) => hint_for_plan(alloc, text, asked, fault),
        None => Ok(None),
    }
}

/// What the command line asks of the text that was read last, beside what that says; None where it asks nothing.
fn asked_of_input<'a, R, W>(run: &Finished<'a, R, W>) -> Option<&'a Asked> {
    if is_of_scenario(run) {
        None
    } else {
        asked_of(run.verdict)
    }
}

/// What the command line asks of its text beside what that says; None where it asks nothing.
fn asked_of(verdict: &Verdict) -> Option<&Asked> {
    match verdict {
        Verdict::Batch { asked, .. } => Some(asked),
        verdict => asked_of_task(task_of(verdict)?),
    }
}

/// What a task asks of a scenario beside its text.
fn asked_of_task(task: &Task) -> Option<&Asked> {
    match task {
        Task::Scenario { asked, .. }
        | Task::Ceilings { asked, .. }
        | Task::Search { asked, .. }
        | Task::Plan { asked, .. }
        | Task::BatchTable { asked, .. } => Some(asked),
        Task::Tell(_)
        | Task::Certificate { .. }
        | Task::Kinds { .. }
        | Task::Trace(_)
        | Task::Ranges { .. } => None,
    }
}

/// The hint for a fault of a scenario. A group that is unknown is the one that the command line names, where the
/// text is that of a scenario without it; and where that is the name of a file, no scenario was given.
fn hint_for_scenario_or_group(
    alloc: Global,
    verdict: &Verdict,
    text: &[u8],
    asked: Option<&Asked>,
    fault: ScenarioFault,
) -> Hint {
    let hint = match group_of(verdict) {
        Some(group) => hint_for_named_group(alloc, text, group, fault)?,
        None => None,
    };
    match (hint, asked) {
        (Some(hint), _) => Ok(Some(hint)),
        (None, Some(asked)) => hint_for_scenario(alloc, text, asked, fault),
        (None, None) => {
            let asked = Asked::as_written();
            hint_for_scenario(alloc, text, &asked, fault)
        }
    }
}

/// The group at which the command line asks for ceilings, where it names one.
fn group_of(verdict: &Verdict) -> Option<&str> {
    match task_of(verdict) {
        Some(
            Task::Ceilings {
                group: Some(name),
                ..
            },
        ) => Some(name.as_str()),
        _ => None,
    }
}

/// The task that the command line asks for, if it does.
fn task_of(verdict: &Verdict) -> Option<&Task> {
    match verdict {
        Verdict::Ask { task, .. } => Some(task),
        Verdict::Batch { .. } | Verdict::Text { .. } | Verdict::Memory => None,
    }
}

/// The hint for an order of ties that is none of the scenario.
fn hint_for_ranks(alloc: Global, text: &[u8], fault: OrderFault) -> Hint {
    match fault {
        OrderFault::InTicks => hint_for_order_in_ticks(alloc).map(Some),
        OrderFault::Length => hint_for_given_order(alloc, text, ListFault::Length),
        OrderFault::Rank(place) => hint_for_given_order(alloc, text, ListFault::Range(place)),
    }
}

/// Whether a fault is one of the scenario that a certificate is to be of. That is read first, and the certificate
/// only where it has none.
fn is_of_scenario<R, W>(run: &Finished<'_, R, W>) -> bool {
    names_scenario(run.verdict) && !run.reader.is_read()
}

/// Whether the command line names a scenario that a certificate is to be of.
fn names_scenario(verdict: &Verdict) -> bool {
    match verdict {
        Verdict::Ask { inputs, .. } => inputs.wanted.is_some(),
        _ => false,
    }
}

/// The hint for a batch that is too long for a table.
fn hint_for_long_batch(alloc: Global, most: usize) -> Result<String, AllocError> {
    format!(in alloc;
        "hint: a table is written of at most {most} bytes: cut the input in two at a line '---', or leave the format out\n"
    )
}

/// The hint for a search that did not end, or traffic that does not attain the ceiling.
fn hint_for_open<R, W>(alloc: Global, run: &Finished<'_, R, W>) -> Hint {
    if let Some(simulations) = traffic_sought(run.verdict) {
        let with_outages = asks_for_outages(alloc, run)?;
        let hint = hint_for_ceiling(alloc, with_outages, simulations, MOST_SIMULATIONS)?;
        return Ok(Some(hint));
    }
    let waits_for_replicas = asks_for_replicas(alloc, run)?;
    if !waits_for_replicas && asks_for_outages(alloc, run)? {
        return hint_for_open_through_outages(alloc).map(Some);
    }
    let Some(options) = options_of(run.verdict) else {
        return Ok(None);
    };
    if waits_for_replicas {
        let word = if writes_certificate(run.verdict) {
            "open"
        } else {
            "accept-open"
        };
        let simulations = options.simulations();
        return hint_for_open_accept(alloc, word, simulations, MOST_SIMULATIONS).map(Some);
    }
    if of_workflow(alloc, run)? {
        return hint_for_open_workflow(alloc, options.simulations(), MOST_SIMULATIONS).map(Some);
    }
    let hint = match options.seconds() {
        Some(seconds) if run.is_stopped => hint_for_seconds(alloc, seconds, MOST_SECONDS)?,
        _ => hint_for_search(alloc, options, names_bounds(run.verdict))?,
    };
    Ok(Some(hint))
}

/// Whether a workflow was asked about.
fn of_workflow<R, W>(alloc: Global, run: &Finished<'_, R, W>) -> Result<bool, AllocError> {
    if !takes_workflow(run.verdict) || !run.reader.is_whole() {
        return Ok(false);
    }
    tells_workflow(alloc, run.reader.text())
}

/// Whether a text is that of a workflow.
fn tells_workflow(alloc: Global, text: &[u8]) -> Result<bool, AllocError> {
    match is_workflow(alloc, text) {
        Ok(is_workflow) => Ok(is_workflow),
        Err(_) => Err(AllocError),
    }
}

/// How many steps may be taken to check a certificate, where the command line asks for that.
fn steps_of(verdict: &Verdict) -> Option<u64> {
    match task_of(verdict)? {
        Task::Certificate { limit, .. } => *limit,
        _ => None,
    }
}

/// By how many simulations at most traffic was sought, where the command line asks for ceilings.
fn traffic_sought(verdict: &Verdict) -> Option<u64> {
    match task_of(verdict)? {
        Task::Scenario {
            what: ScenarioTask::Ceiling { simulations, .. },
            ..
        }
        | Task::Ceilings { simulations, .. }
        | Task::Kinds {
            what: KindsTask::Worst { simulations },
            ..
        } => Some(*simulations),
        _ => None,
    }
}

/// Whether it was asked what no latency is above through outages, on the command line or in the text.
fn asks_for_outages<R, W>(alloc: Global, run: &Finished<'_, R, W>) -> Result<bool, AllocError> {
    match option_for_outages(run.verdict) {
        Some(false) if run.reader.is_whole() => tells_outages(alloc, run.reader.text()),
        Some(is_given) => Ok(is_given),
        None => Ok(false),
    }
}

/// Whether the command line asks for that; None where it asks for what is not told through outages, whatever the text says.
fn option_for_outages(verdict: &Verdict) -> Option<bool> {
    match task_of(verdict)? {
        Task::Scenario {
            what: ScenarioTask::Ceiling { outage, .. },
            ..
        }
        | Task::Ceilings { outage, .. }
        | Task::Search {
            what: SearchTask::Latency {
                outage,
                accept: None,
                ..
            }
            | SearchTask::Survey { outage, .. },
            ..
        } => Some(outage.is_some()),
        _ => None,
    }
}

/// Whether a text says how long outages last.
fn tells_outages(alloc: Global, text: &[u8]) -> Result<bool, AllocError> {
    let outage = outage_of_text(alloc, text)?;
    Ok(outage.is_some())
}

/// Whether it was asked for the greatest latency where replicas have to answer, on the command line or in the text.
fn asks_for_replicas<R, W>(alloc: Global, run: &Finished<'_, R, W>) -> Result<bool, AllocError> {
    match task_of(run.verdict) {
        Some(
            Task::Search {
                what: SearchTask::Latency {
                    accept: Some(_),
                    ..
                },
                ..
            },
        ) => Ok(true),
        Some(
            Task::Search {
                what: SearchTask::Analyse
                | SearchTask::Latency {
                    with_ceiling: false,
                    outage: None,
                    accept: None,
                },
                ..
            },
        ) if run.reader.is_whole() => accepts_by_text(alloc, run.reader.text()),
        _ => Ok(false),
    }
}

/// Whether a certificate is asked for.
fn writes_certificate(verdict: &Verdict) -> bool {
    match task_of(verdict) {
        Some(Task::Search { what, .. }) => matches!(what, SearchTask::Analyse),
        _ => false,
    }
}

/// The options of the search, or of the searches, that the command line asks for.
fn options_of(verdict: &Verdict) -> Option<&Options> {
    match task_of(verdict)? {
        Task::Search { options, .. }
        | Task::Plan {
            what: PlanTask::Table { options, .. }
            | PlanTask::Scenario { options, .. }
            | PlanTask::Proof { options },
            ..
        } => Some(options),
        _ => None,
    }
}

/// Whether the command line asks for a batch.
fn is_batch(verdict: &Verdict) -> bool {
    match verdict {
        Verdict::Batch { .. } => true,
        _ => matches!(task_of(verdict), Some(Task::BatchTable { .. })),
    }
}

/// The hint for a search that did not end with its tickets.
fn hint_for_search(
    alloc: Global,
    options: &Options,
    names_bounds: bool,
) -> Result<String, AllocError> {
    let tickets = options.limit();
    match options.ways() {
        Ways::One(Bounds::Plain) if !names_bounds => hint_for_limit(alloc, tickets),
        Ways::One(Bounds::Plain | Bounds::Stamp) => hint_for_leads(alloc, tickets),
        Ways::One(Bounds::Lead) => {
            hint_for_tickets(alloc, tickets, Bounds::Lead.most_nodes() as u64)
        }
        Ways::Both if lead_share(tickets) == 0 => hint_for_leads(alloc, tickets),
        Ways::Both => {
            let (by_plain, by_leads) = (plain_share(tickets), lead_share(tickets));
            hint_for_both(alloc, by_plain, by_leads, Bounds::Lead.most_nodes() as u64)
        }
    }
}

/// Whether the command line names the bounds by which a search goes.
fn names_bounds(verdict: &Verdict) -> bool {
    match verdict {
        Verdict::Ask { manner, .. } | Verdict::Batch { manner, .. } => manner.names_bounds,
        Verdict::Text { .. } | Verdict::Memory => false,
    }
}

/// The hints for a run that gave its answer: that for its kind, and what a plain number among durations of its scenario
/// was taken for.
fn hint_for_answer<R, W>(alloc: Global, run: &Finished<'_, R, W>, end: &End) -> Hint {
    let reader = run.reader;
    if is_batch(run.verdict) {
        return hint_for_jobs_of(alloc, run);
    }
    // (none of them speaks of replicas that have to answer)
    let hint = match hint_for_kind_of_answer(alloc, run.verdict, end)? {
        Some(_) if asks_for_replicas(alloc, run)? => None,
        hint => hint,
    };
    let more = match &end.known {
        Some(
            Known {
                scenario,
                plain: Some(plain),
                ..
            },
        ) if reader.is_whole() => hint_for_plain_number(alloc, reader.text(), scenario, *plain)?,
        _ => None,
    };
    match (hint, more) {
        (Some(hint), Some(more)) => format!(in alloc; "{hint}{more}").map(Some),
        (hint, more) => Ok(hint.or(more)),
    }
}

/// The hints for the jobs of a batch.
fn hint_for_jobs_of<R, W>(alloc: Global, run: &Finished<'_, R, W>) -> Hint {
    let (text, is_whole) = (run.reader.text(), run.reader.is_whole());
    match asked_of(run.verdict) {
        Some(asked) => hint_for_batch(alloc, text, asked, is_whole, LONGEST_JOB),
        None => Ok(None),
    }
}

/// The hint for the kind of answer: without a command word the answer is that of one schedule, a deadline may not be
/// kept, an order is one of the numbers by which groups break ties, and a greatest latency may be the ceiling.
fn hint_for_kind_of_answer(alloc: Global, verdict: &Verdict, end: &End) -> Hint {
    let Verdict::Ask { task, manner, .. } = verdict else {
        return Ok(None);
    };
    match task {
        Task::Scenario {
            what: ScenarioTask::First,
            ..
        } if !manner.names_command => Ok(Some(hint_for_first(alloc)?)),
        Task::Search { what, .. } => hint_for_found(alloc, what, end),
        Task::Plan {
            what: PlanTask::Table { .. } | PlanTask::Scenario { .. },
            ..
        } => hint_for_order(alloc).map(Some),
        Task::Certificate {
            what: CertificateTask::Explain { .. },
            ..
        } => hint_for_latency(alloc, &end.known),
        _ => Ok(None),
    }
}

/// The hint for what a search found.
fn hint_for_found(alloc: Global, what: &SearchTask, end: &End) -> Hint {
    match (what, end.done) {
        // (in several cases there is no one scenario to ask more about)
        (SearchTask::Latency { .. }, Done::Beyond) if end.known.is_some() => {
            hint_for_late_message(alloc).map(Some)
        }
        (SearchTask::Analyse, Done::Beyond) => hint_for_late_certificate(alloc).map(Some),
        (SearchTask::Order { .. } | SearchTask::Listing { .. }, _) => {
            hint_for_order(alloc).map(Some)
        }
        (SearchTask::Latency { .. } | SearchTask::Analyse, _) => {
            hint_for_latency(alloc, &end.known)
        }
        (SearchTask::WhatIf { .. }, _) => match greatest_of(&end.known) {
            Some((scenario, greatest)) => hint_for_changes(alloc, scenario, greatest),
            None => Ok(None),
        },
        _ => Ok(None),
    }
}

/// The hint for the greatest latency that is known, where that is the ceiling.
fn hint_for_latency(alloc: Global, known: &Option<Known>) -> Hint {
    match greatest_of(known) {
        Some((scenario, greatest)) => hint_for_greatest(alloc, scenario, greatest),
        None => Ok(None),
    }
}

/// The greatest latency that is known, and its scenario.
fn greatest_of(known: &Option<Known>) -> Option<(&Scenario, u32)> {
    match known {
        Some(
            Known {
                scenario,
                greatest: Some(greatest),
                ..
            },
        ) => Some((scenario, *greatest)),
        _ => None,
    }
}

/// Writes a line that may be missing; where the write fails, that is all.
pub fn write_line<W: Write>(writer: &mut W, line: Hint) {
    if let Ok(Some(line)) = line {
        let _ = writer.write_all(line.as_bytes());
    }
}
