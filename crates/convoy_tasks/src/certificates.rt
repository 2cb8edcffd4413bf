//! What certificates answer: of scenarios, of workflows and of finishes.

ghost use Rattle.std.specs.Option.{option_map};
ghost use Rattle.convoy_commands.specs.Replies.{SaysUnlessMemory, reply_of};
ghost use Rattle.convoy_commands.specs.WithCeilings.{explain_says};
ghost use Rattle.convoy_commands.specs.Withins.{SaysWithin};
ghost use Rattle.convoy_commands.specs.declared.done.Done.TheVariants.{NotChecked};
ghost use Rattle.convoy_tasks.specs.Tasks.{certificate_says, check_against, check_by, of_finish_says, of_others_says, of_scenario_says, of_workflow_says};

use convoy_commands::{Answer, Asking, Fault, ask, explain_with_ceiling};
use convoy_finish_replies::{check_finish_answer, explain_finish, is_finish_certificate};
use convoy_scenario::{Part, TimeUnit};
use convoy_task_list::CertificateTask;
use convoy_text_answers::check_answer;
use convoy_workflow_replies::{
    Reference, ask_workflow, check_of_other, check_workflow_answer, is_workflow_certificate,
};
use std::alloc::Global;

/// What a certificate answers, of a workflow, of finishes or of a scenario.
pub(crate) fn answer_certificate(
    alloc: Global,
    what: CertificateTask,
    wanted: Option<&Reference>,
    unit: Option<TimeUnit>,
    limit: Option<u64>,
    text: &[u8],
) -> Result<Answer, Fault>
    ensures { SaysUnlessMemory
        (certificate_says what (option_map (λ r. r.now) wanted.entry) unit limit) text.now
        (reply_of result) }
{
    if is_workflow_certificate(text) {
        answer_of_workflow(alloc, what, wanted, unit, text)
    } else {
        answer_of_others(alloc, what, wanted, unit, limit, text)
    }
}

/// What one answers that is of no workflow. No image is drawn of a certificate of finishes.
fn answer_of_others(
    alloc: Global,
    what: CertificateTask,
    wanted: Option<&Reference>,
    unit: Option<TimeUnit>,
    limit: Option<u64>,
    text: &[u8],
) -> Result<Answer, Fault>
    ensures { SaysUnlessMemory
        (of_others_says what (option_map (λ r. r.now) wanted.entry) unit limit) text.now
        (reply_of result) }
{
    if is_finish_certificate(text) {
        answer_of_finish(alloc, what, wanted, unit, limit, text)
    } else {
        answer_of_run(alloc, what, wanted, unit, limit, text)
    }
}

/// What the certificate of finishes answers.
fn answer_of_finish(
    alloc: Global,
    what: CertificateTask,
    wanted: Option<&Reference>,
    unit: Option<TimeUnit>,
    limit: Option<u64>,
    text: &[u8],
) -> Result<Answer, Fault>
    ensures { SaysUnlessMemory
        (of_finish_says what (option_map (λ r. r.now) wanted.entry) unit limit) text.now
        (reply_of result) }
{
    match what {
        CertificateTask::Check { tells } => check_finish_answer(alloc, wanted, tells, unit, text),
        CertificateTask::Explain { .. } => explain_finish(alloc, unit, text),
        CertificateTask::Draw => ask(alloc, Asking::Draw(unit), limit, text),
    }
}

/// What the certificate of a workflow answers.
fn answer_of_workflow(
    alloc: Global,
    what: CertificateTask,
    wanted: Option<&Reference>,
    unit: Option<TimeUnit>,
    text: &[u8],
) -> Result<Answer, Fault>
    ensures { SaysUnlessMemory
        (of_workflow_says what (option_map (λ r. r.now) wanted.entry) unit) text.now
        (reply_of result) }
{
    match what {
        CertificateTask::Check { tells } => {
            check_workflow_answer(alloc, wanted, tells, unit, text)
        }
        CertificateTask::Explain { .. } => ask_workflow(alloc, Asking::Explain(unit), text),
        CertificateTask::Draw => ask_workflow(alloc, Asking::Draw(unit), text),
    }
}

/// What the certificate of a scenario answers.
fn answer_of_run(
    alloc: Global,
    what: CertificateTask,
    wanted: Option<&Reference>,
    unit: Option<TimeUnit>,
    limit: Option<u64>,
    text: &[u8],
) -> Result<Answer, Fault>
    ensures { SaysUnlessMemory
        (of_scenario_says what (option_map (λ r. r.now) wanted.entry) unit limit) text.now
        (reply_of result) }
{
    match what {
        CertificateTask::Check { tells } => answer_check(alloc, wanted, tells, unit, limit, text),
        CertificateTask::Explain { with_ceiling } => {
            answer_explain(alloc, with_ceiling, unit, limit, text)
        }
        CertificateTask::Draw => ask(alloc, Asking::Draw(unit), limit, text),
    }
}

/// Whether the certificate of a scenario is valid, and is of what is wanted, if something is.
fn answer_check(
    alloc: Global,
    wanted: Option<&Reference>,
    tells: bool,
    unit: Option<TimeUnit>,
    limit: Option<u64>,
    text: &[u8],
) -> Result<Answer, Fault>
    ensures { SaysUnlessMemory
        (SaysWithin limit NotChecked (check_by (option_map (λ r. r.now) wanted.entry) tells unit)) text.now
        (reply_of result) }
{
    match wanted {
        Some(reference) => check_against(alloc, reference, tells, unit, limit, text),
        None => check_answer(alloc, None, tells, unit, limit, text),
    }
}

/// Whether it is valid, and is of that.
fn check_against(
    alloc: Global,
    reference: &Reference,
    tells: bool,
    unit: Option<TimeUnit>,
    limit: Option<u64>,
    text: &[u8],
) -> Result<Answer, Fault>
    ensures { SaysUnlessMemory (SaysWithin limit NotChecked (check_against reference.now tells unit)) text.now
        (reply_of result) }
{
    match reference {
        Reference::Scenario(scenario) => {
            check_answer(alloc, Some(scenario), tells, unit, limit, text)
        }
        Reference::Accepted(_) => check_of_other(alloc, Part::Groups, limit, text),
        Reference::Workflow(_) => check_of_other(alloc, Part::Multicasts, limit, text),
    }
}

/// The explanation of a certificate, and below it the ceiling where that is asked for.
fn answer_explain(
    alloc: Global,
    with_ceiling: bool,
    unit: Option<TimeUnit>,
    limit: Option<u64>,
    text: &[u8],
) -> Result<Answer, Fault>
    ensures { SaysUnlessMemory (SaysWithin limit NotChecked (explain_says with_ceiling unit)) text.now
        (reply_of result) }
{
    if with_ceiling {
        explain_with_ceiling(alloc, unit, limit, text)
    } else {
        ask(alloc, Asking::Explain(unit), limit, text)
    }
}
