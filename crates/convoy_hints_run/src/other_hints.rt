//! Hints for valid certificates that are not of what is wanted.

use convoy_finish_replies::is_finish_certificate;
use convoy_hints::hint_for_difference;
use convoy_scenario::{Scenario, difference};
use convoy_workflow_replies::{Reference, is_workflow_certificate};
use std::alloc::{AllocError, Global};

/// Of what a certificate is, by its first line.
#[derive(Clone, Copy)]
pub(crate) enum CertificateForm {
    Scenario,
    Workflow,
    Finishes,
}

impl CertificateForm {
    /// The form of a text.
    pub(crate) fn of(text: &[u8]) -> CertificateForm {
        if is_workflow_certificate(text) {
            CertificateForm::Workflow
        } else if is_finish_certificate(text) {
            CertificateForm::Finishes
        } else {
            CertificateForm::Scenario
        }
    }
}

/// The hint for a valid certificate of that form that is not of what is wanted, and has this scenario: in what the two
/// scenarios differ, or else in what they do not tell.
pub(crate) fn hint_for_other(
    alloc: Global,
    wanted: &Reference,
    form: CertificateForm,
    found: &Scenario,
) -> Result<String, AllocError> {
    match (wanted, form) {
        (Reference::Scenario(scenario), CertificateForm::Scenario) => {
            hint_for_difference(alloc, scenario, found)
        }
        (Reference::Workflow(workflow), CertificateForm::Workflow) => hint_for_same(
            alloc,
            &workflow.scenario,
            found,
            "of another workflow: messages follow others in another way, or the time counts from another message, than in that of '--scenario'",
        ),
        (Reference::Accepted(accepted), CertificateForm::Finishes) => hint_for_same(
            alloc,
            &accepted.scenario,
            found,
            "with replicas that are not as far from their leaders as in the scenario of '--scenario'",
        ),
        _ => {
            let what = what_is_other(wanted, form);
            format!(in alloc; "hint: the certificate is valid, {what}\n")
        }
    }
}

/// The same where both are of one form, with these scenarios: these are compared first.
fn hint_for_same(
    alloc: Global,
    wanted: &Scenario,
    found: &Scenario,
    what: &str,
) -> Result<String, AllocError> {
    match difference(wanted, found) {
        Some(_) => hint_for_difference(alloc, wanted, found),
        None => format!(in alloc; "hint: the certificate is valid, {what}\n"),
    }
}

/// In what it differs where it is of another form.
fn what_is_other(wanted: &Reference, form: CertificateForm) -> &'static str {
    match (wanted, form) {
        (_, CertificateForm::Workflow) => {
            "of a workflow: in the scenario of '--scenario' no message follows another"
        }
        (Reference::Workflow(_), _) => {
            "of a scenario: in the workflow of '--scenario' messages follow others"
        }
        (_, CertificateForm::Finishes) => {
            "of groups that are replicated by white box: in the scenario of '--scenario' they are not"
        }
        (_, CertificateForm::Scenario) => {
            "of a scenario without answers of replicas: in that of '--scenario' groups are replicated by white box"
        }
    }
}
