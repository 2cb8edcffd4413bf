ghost use Rattle.std.specs.Prelude.{◌≡◌, ◌<◌, length, string_bytes};
ghost use Rattle.std.specs.Option.{option_map};
ghost use Rattle.convoy_commands.specs.Replies.{SaysUnlessMemory, reply_of};
ghost use Rattle.convoy_tasks.specs.Tasks.{IsToldAtOnce, analyse_by, ceiling_by, ceilings_by, kinds_say, longest_for, longest_for_plan, plan_says, scenario_proof_by, scenario_says, scenario_wanted, search_says, task_says, telling_by, text_told, told_by, trace_of_says, trace_task_says};
ghost use Rattle.convoy_commands.specs.declared.telling.Telling.TheVariants.{Toml};

use super::certificates::answer_certificate;
use super::latency::{answer_latency, outage_told};
use super::scenario_text::answer_scenario;
use super::surveying::answer_survey;
use convoy_batches::{LONGEST_BATCH, batch_table_answer};
use convoy_best_order::{Wanted, listing_answer, order_answer};
use convoy_best_plan::{PlanWatch, placing_answer, plan_answer};
use convoy_budget::budget_answer;
use convoy_commands::{
    Answer, Fault, LONGEST_CERTIFICATE, LONGEST_JOB, Options, Telling, Watch, analyse_answer,
    ceiling_answer, first_answer, ranges_answer, tell,
};
use convoy_finish_answers::finish_proof_answer;
use convoy_finish_replies::scenario_text;
use convoy_outages::Outage;
use convoy_plan_ceilings::{ceiling_placing_answer, plan_ceiling_answer};
use convoy_plan_checker::plan_check_answer;
use convoy_plan_proof::plan_proof_answer;
use convoy_ranges::MOST_BYTES;
use convoy_report::report_answer;
use convoy_scenario::{Scenario, TimeUnit};
use convoy_survey::ceilings_answer;
use convoy_sweep::{curve_told, sweep_told};
use convoy_tables::Format;
use convoy_task_list::{KindsTask, PlanTask, ScenarioTask, SearchTask, Task, TraceTask};
use convoy_text_answers::{
    answer_beside, answer_fits, answer_kinds, answer_trace_ranges, answer_trace_table,
    answer_worst_kind,
};
use convoy_toml::{Asked, accepts_by_text};
use convoy_what_if::what_if_answer;
use convoy_workflow_answers::{late_run_answer, workflow_proof_answer};
use convoy_workflow_replies::{Reference, told_text};
use convoy_workflows::is_workflow;
use std::alloc::Global;
use std::sync::Wait;
use std::thread::Threads;

/// Answers a task for a text: how it ends, what is to be written, and what is known besides. A certificate has to be of
/// the scenario or the workflow that is wanted, if one is, and a trace of a run of that scenario; no other task looks at it.
/// The rows of a table are made as many at a time as there are watches, and one search alone is watched by the first;
/// [`NoGate`](convoy_branch::NoGate) is a watch where nobody watches. Who watches counts the seconds that the options give
/// a search.
///
/// The faults are those of a text: `Fault::Scenario` where it is that of no scenario, where none of its groups has the
/// name that is given, or where a change of it makes none; `Fault::Sweep` where its keys can't be given the values of a
/// sweep; `Fault::Plan` where it is that of no plan, or of one that has no placement; `Fault::Kinds` where it is that of no
/// kinds of messages; `Fault::Workflow` where it is that of no workflow; `Fault::Trace` where it is no trace of the scenario;
/// `Fault::Outage` where outages are asked of it whose ticks are not known or too many, and `Fault::Replicas` where replicas
/// are, likewise; `Fault::Schedule` and `Fault::Order` for a schedule that is none of it; `Fault::Reading` for a scenario of more than [`LONGEST_JOB`] bytes where a certificate may
/// be longer; `Fault::TooManyJobs`; and `Fault::Memory`.
pub fn answer<R: Threads + Wait + Sync, W: PlanWatch + Sync>(
    rt: &R,
    alloc: Global,
    task: &Task,
    wanted: Option<&Reference>,
    text: &[u8],
    watches: &[W],
) -> Result<Answer, Fault>
    requires { 0 < length watches.now }
    ensures { SaysUnlessMemory (task_says task.now (option_map (λ r. r.now) wanted.entry)) text.now
        (reply_of result) }
{
    match task {
        Task::Search {
            asked,
            options,
            what,
        } => answer_search(rt, alloc, what, asked, options, text, watches),
        Task::Plan {
            wanted,
            asked,
            what,
        } => answer_plan(rt, alloc, what, *wanted, asked, text, watches),
        Task::BatchTable {
            format,
            asked,
            options,
            ..
        } => batch_table_answer(rt, alloc, asked, options, *format, text, watches),
        Task::Ceilings {
            format,
            group,
            simulations,
            outage,
            asked,
            unit,
        } => answer_ceilings(
            rt,
            alloc,
            *format,
            *outage,
            asked,
            *unit,
            group,
            *simulations,
            text,
            watches,
        ),
        Task::Kinds { unit, what } => answer_of_kinds(alloc, *what, *unit, text),
        Task::Trace(what) => answer_trace(alloc, what, wanted, text),
        Task::Ranges { rules } => ranges_answer(alloc, rules, text),
        Task::Tell(_) | Task::Scenario { .. } | Task::Certificate { .. } => {
            answer_at_once(alloc, task, wanted, text)
        }
    }
}

/// The same of what is told of a scenario or of a certificate without a search, and so without threads.
pub(crate) fn answer_at_once(
    alloc: Global,
    task: &Task,
    wanted: Option<&Reference>,
    text: &[u8],
) -> Result<Answer, Fault>
    requires { IsToldAtOnce task.now }
    ensures { SaysUnlessMemory (task_says task.now (option_map (λ r. r.now) wanted.entry)) text.now
        (reply_of result) }
{
    match task {
        Task::Tell(telling) => answer_run_told(alloc, *telling, text),
        Task::Scenario { asked, what } => answer_of_scenario(alloc, what, asked, text),
        Task::Certificate { unit, limit, what } => answer_certificate(
            alloc, *what, wanted, *unit, *limit, text,
        ),
        _ => unreachable!(),
    }
}

/// What is told of a text: of a certificate of a workflow or of finishes what is told of the certificate in it.
fn answer_run_told(alloc: Global, telling: Telling, text: &[u8]) -> Result<Answer, Fault>
    ensures { SaysUnlessMemory (told_by telling) text.now (reply_of result) }
{
    answer_telling(alloc, telling, text_told(telling, text))
}

/// The text of which that is told. No delivery is told of a certificate of finishes: it has another run in it.
fn text_told(telling: Telling, text: &[u8]) -> &[u8]
    ensures { result.now ≡ text_told telling text.now }
{
    match telling {
        Telling::Simulate | Telling::Timeline => told_text(text),
        Telling::Packets | Telling::Toml => scenario_text(text),
    }
}

/// What is told of a scenario or of a certificate, or a late run of a workflow, where its scenario is asked for.
fn answer_telling(alloc: Global, telling: Telling, text: &[u8]) -> Result<Answer, Fault>
    ensures { SaysUnlessMemory (telling_by telling) text.now (reply_of result) }
{
    match telling {
        Telling::Toml => answer_toml(alloc, text),
        Telling::Simulate | Telling::Timeline | Telling::Packets => tell(alloc, telling, text),
    }
}

/// The scenario of a text and its schedule, or that of a workflow with a late run.
fn answer_toml(alloc: Global, text: &[u8]) -> Result<Answer, Fault>
    ensures { SaysUnlessMemory (telling_by Toml) text.now (reply_of result) }
{
    let is_workflow = is_workflow(alloc, text)?;
    if is_workflow {
        late_run_answer(alloc, &Asked::as_written(), text)
    } else {
        tell(alloc, Telling::Toml, text)
    }
}

/// What a scenario answers without a search.
fn answer_of_scenario(
    alloc: Global,
    what: &ScenarioTask,
    asked: &Asked,
    text: &[u8],
) -> Result<Answer, Fault>
    ensures { SaysUnlessMemory (scenario_says what.now asked.now) text.now (reply_of result) }
{
    match what {
        ScenarioTask::First => first_answer(alloc, asked, text),
        ScenarioTask::Text => answer_scenario(alloc, asked, text),
        ScenarioTask::Ceiling {
            simulations,
            outage,
            unit,
        } => answer_ceiling(alloc, *simulations, *outage, asked, *unit, text),
    }
}

/// The ceiling, and that through outages where the option or the text tells some.
fn answer_ceiling(
    alloc: Global,
    simulations: u64,
    outage: Option<Outage>,
    asked: &Asked,
    unit: Option<TimeUnit>,
    text: &[u8],
) -> Result<Answer, Fault>
    ensures { SaysUnlessMemory (ceiling_by outage asked.now unit) text.now (reply_of result) }
{
    let outage = outage_told(alloc, outage, text)?;
    ceiling_answer(alloc, simulations, outage, asked, unit, text)
}

/// What is found in a scenario by searches.
fn answer_search<R: Threads + Wait + Sync, W: PlanWatch + Sync>(
    rt: &R,
    alloc: Global,
    what: &SearchTask,
    asked: &Asked,
    options: &Options,
    text: &[u8],
    watches: &[W],
) -> Result<Answer, Fault>
    requires { 0 < length watches.now }
    ensures { SaysUnlessMemory (search_says what.now asked.now options.now) text.now (reply_of result) }
{
    match what {
        SearchTask::Analyse => answer_proof(rt, alloc, asked, options, text, &watches[0]),
        SearchTask::Latency {
            with_ceiling,
            outage,
            accept,
        } => answer_latency(
            rt,
            alloc,
            *with_ceiling,
            *outage,
            *accept,
            asked,
            options,
            text,
            &watches[0],
        ),
        SearchTask::Survey {
            format,
            with_ceilings,
            outage,
        } => answer_survey(
            rt,
            alloc,
            *format,
            *with_ceilings,
            *outage,
            asked,
            options,
            text,
            watches,
        ),
        SearchTask::WhatIf { format, shows_all } => what_if_answer(
            rt, alloc, *format, *shows_all, asked, options, text, watches,
        ),
        SearchTask::Report => report_answer(rt, alloc, asked, options, text, watches),
        SearchTask::Budget {
            format,
            of_all,
            of_ceiling,
        } => budget_answer(
            rt,
            alloc,
            *format,
            *of_all,
            *of_ceiling,
            asked,
            options,
            text,
            watches,
        ),
        SearchTask::Order {
            format,
            wanted,
            with_reasons,
        } => order_answer(
            rt,
            alloc,
            *format,
            *wanted,
            *with_reasons,
            asked,
            options,
            text,
            watches,
        ),
        SearchTask::Listing { wanted } => {
            listing_answer(rt, alloc, *wanted, asked, options, text, watches)
        }
        SearchTask::Sweep {
            format,
            sweep,
            envelope,
        } => sweep_told(
            rt, alloc, *format, sweep, *envelope, asked, options, text, watches,
        ),
        SearchTask::Curve { setting, envelope } => {
            curve_told(rt, alloc, setting, *envelope, asked, options, text, watches)
        }
    }
}

/// A certificate: of a workflow, where the text is that of one, and else of a scenario.
fn answer_proof<R: Threads + Wait + Sync, W: Watch + Sync>(
    rt: &R,
    alloc: Global,
    asked: &Asked,
    options: &Options,
    text: &[u8],
    watch: &W,
) -> Result<Answer, Fault>
    ensures { SaysUnlessMemory (analyse_by asked.now options.now) text.now (reply_of result) }
{
    let is_workflow = is_workflow(alloc, text)?;
    if is_workflow {
        workflow_proof_answer(alloc, asked, text, options)
    } else {
        answer_scenario_proof(rt, alloc, asked, options, text, watch)
    }
}

/// A certificate of a scenario, or of finishes where its groups are replicated by white box.
fn answer_scenario_proof<R: Threads + Wait + Sync, W: Watch + Sync>(
    rt: &R,
    alloc: Global,
    asked: &Asked,
    options: &Options,
    text: &[u8],
    watch: &W,
) -> Result<Answer, Fault>
    ensures { SaysUnlessMemory (scenario_proof_by asked.now options.now) text.now (reply_of result) }
{
    let accepts = accepts_by_text(alloc, text)?;
    if accepts {
        finish_proof_answer(rt, alloc, asked, options, text, watch)
    } else {
        analyse_answer(rt, alloc, asked, text, options, watch)
    }
}

/// What a plan answers.
fn answer_plan<R: Threads + Wait + Sync, W: PlanWatch + Sync>(
    rt: &R,
    alloc: Global,
    what: &PlanTask,
    wanted: Wanted,
    asked: &Asked,
    text: &[u8],
    watches: &[W],
) -> Result<Answer, Fault>
    requires { 0 < length watches.now }
    ensures { SaysUnlessMemory (plan_says what.now wanted asked.now) text.now (reply_of result) }
{
    match what {
        PlanTask::Table {
            format,
            with_reasons,
            first,
            options,
        } => plan_answer(
            rt,
            alloc,
            *format,
            wanted,
            *with_reasons,
            *first,
            asked,
            options,
            text,
            watches,
        ),
        PlanTask::Scenario { first, options } => {
            placing_answer(rt, alloc, wanted, *first, asked, options, text, watches)
        }
        PlanTask::Proof { options } => {
            plan_proof_answer(rt, alloc, wanted, asked, options, text, watches)
        }
        PlanTask::Ceiling { format, unit } => {
            plan_ceiling_answer(alloc, *format, wanted, asked, *unit, text)
        }
        PlanTask::CeilingScenario => ceiling_placing_answer(alloc, wanted, asked, text),
        PlanTask::Check => plan_check_answer(alloc, wanted, asked, text),
    }
}

/// What kinds of messages answer.
fn answer_of_kinds(
    alloc: Global,
    what: KindsTask,
    unit: Option<TimeUnit>,
    text: &[u8],
) -> Result<Answer, Fault>
    ensures { SaysUnlessMemory (kinds_say what unit) text.now (reply_of result) }
{
    match what {
        KindsTask::Table { format } => answer_kinds(alloc, format, unit, text),
        KindsTask::Worst { simulations } => answer_worst_kind(alloc, simulations, unit, text),
    }
}

/// What a trace answers.
fn answer_trace(
    alloc: Global,
    what: &TraceTask,
    wanted: Option<&Reference>,
    text: &[u8],
) -> Result<Answer, Fault>
    ensures { SaysUnlessMemory (trace_task_says what.now (option_map (λ r. r.now) wanted.entry)) text.now
        (reply_of result) }
{
    answer_trace_of(alloc, what, scenario_in(wanted), text)
}

/// The scenario that is wanted, if one is: no trace is asked to be one of something else.
fn scenario_in(wanted: Option<&Reference>) -> Option<&Scenario>
    ensures { option_map (λ s. s.now) result ≡ scenario_wanted (option_map (λ r. r.now) wanted.entry) }
{
    match wanted {
        Some(Reference::Scenario(scenario)) => Some(scenario),
        Some(Reference::Accepted(_) | Reference::Workflow(_)) | None => None,
    }
}

/// What a trace answers of a run of that scenario.
fn answer_trace_of(
    alloc: Global,
    what: &TraceTask,
    wanted: Option<&Scenario>,
    text: &[u8],
) -> Result<Answer, Fault>
    ensures { SaysUnlessMemory (trace_of_says what.now (option_map (λ s. s.now) wanted.entry)) text.now
        (reply_of result) }
{
    match what {
        TraceTask::Fits { skew, unit } => answer_fits(alloc, wanted, *skew, *unit, text),
        TraceTask::Ranges { rules, unit } => answer_trace_ranges(alloc, rules, *unit, text),
        TraceTask::Table { format, unit } => answer_trace_table(alloc, *format, *unit, text),
        TraceTask::Beside { format, unit } => answer_beside(alloc, wanted, *format, *unit, text),
    }
}

/// The ceilings at all groups, or at the one that is named, and those through outages where the option or the text tells some.
fn answer_ceilings<R: Threads + Sync, W: Sync>(
    rt: &R,
    alloc: Global,
    format: Format,
    outage: Option<Outage>,
    asked: &Asked,
    unit: Option<TimeUnit>,
    group: &Option<String>,
    simulations: u64,
    text: &[u8],
    watches: &[W],
) -> Result<Answer, Fault>
    requires { 0 < length watches.now }
    ensures { SaysUnlessMemory (ceilings_by format outage asked.now unit (option_map string_bytes group.now)) text.now
        (reply_of result) }
{
    let outage = outage_told(alloc, outage, text)?;
    match group {
        Some(name) => {
            let name = Some(name.as_str());
            ceilings_answer(
                rt,
                alloc,
                format,
                outage,
                asked,
                unit,
                name,
                simulations,
                text,
                watches,
            )
        }
        None => ceilings_answer(
            rt,
            alloc,
            format,
            outage,
            asked,
            unit,
            None,
            simulations,
            text,
            watches,
        ),
    }
}

/// How many bytes the text of a task has at most.
pub fn longest_of(task: &Task) -> usize
    ensures { result ≡ longest_for task.now }
{
    match task {
        Task::Tell(_) | Task::Certificate { .. } | Task::Trace(_) => LONGEST_CERTIFICATE,
        Task::Plan { what, .. } => longest_of_plan(what),
        Task::BatchTable { .. } => LONGEST_BATCH,
        Task::Ranges { .. } => MOST_BYTES,
        Task::Scenario { .. } | Task::Ceilings { .. } | Task::Search { .. } | Task::Kinds { .. } =>
            LONGEST_JOB,
    }
}

/// How many bytes a plan has at most, and a plan with a certificate below it.
fn longest_of_plan(what: &PlanTask) -> usize
    ensures { result ≡ longest_for_plan what.now }
{
    match what {
        PlanTask::Check => LONGEST_CERTIFICATE,
        _ => LONGEST_JOB,
    }
}
