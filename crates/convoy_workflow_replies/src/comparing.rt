//! In what a certificate of a workflow is not the one that is wanted.

ghost use Rattle.std.specs.Prelude.{◌≡◌, ◌↔◌, IsTrue, MatchOption};
ghost use Rattle.std.specs.Option.{option_map};
ghost use Rattle.convoy_workflow_replies.specs.References.{DiffersBeside, DiffersFrom, DiffersFromWanted, DiffersFromWorkflow, IsOf, IsOfWanted, IsOfWorkflow};

use super::reference::Reference;
use convoy_causes::Cause;
use convoy_scenario::{Part, difference};
use convoy_workflow_certificate::WorkflowCertificate;
use convoy_workflows::Workflow;

/// The first part in which a certificate of a workflow differs from what is wanted, if something is; none where it is
/// that.
pub(crate) fn unwanted_part(
    wanted: Option<&Reference>,
    certificate: &WorkflowCertificate,
) -> Option<Part>
    ensures { MatchOption result (IsOfWanted (option_map (λ r. r.now) wanted.entry) certificate.now)
        (DiffersFromWanted (option_map (λ r. r.now) wanted.entry) certificate.now) }
{
    match wanted {
        Some(reference) => part_other_than(reference, certificate),
        None => None,
    }
}

/// The first part in which it differs from that.
fn part_other_than(reference: &Reference, certificate: &WorkflowCertificate) -> Option<Part>
    ensures { MatchOption result (IsOf reference.now certificate.now) (DiffersFrom reference.now certificate.now) }
{
    match reference {
        Reference::Scenario(_) | Reference::Accepted(_) => Some(Part::Multicasts),
        Reference::Workflow(workflow) => part_other_than_in(workflow, certificate),
    }
}

/// The first part in which it differs from a workflow: one of the scenario, or else of what is said beside that.
fn part_other_than_in(workflow: &Workflow, certificate: &WorkflowCertificate) -> Option<Part>
    ensures { MatchOption result (IsOfWorkflow workflow.now certificate.now) (DiffersFromWorkflow workflow.now certificate.now) }
{
    match difference(&workflow.scenario, certificate.run.scenario()) {
        Some(part) => Some(part),
        None => part_beside(workflow, certificate),
    }
}

/// The same where the scenarios are one.
fn part_beside(workflow: &Workflow, certificate: &WorkflowCertificate) -> Option<Part>
    requires { certificate.now.run.scenario ≡ workflow.now.scenario }
    ensures { MatchOption result (IsOfWorkflow workflow.now certificate.now) (DiffersBeside workflow.now certificate.now) }
{
    if !are_same_causes(&workflow.causes, &certificate.causes) {
        Some(Part::Multicasts)
    } else if certificate.origin != workflow.origin {
        Some(Part::Target)
    } else {
        None
    }
}

/// Whether these messages follow the same, in the same order.
fn are_same_causes(causes: &[Cause], others: &[Cause]) -> bool
    ensures { IsTrue result ↔ (others.now ≡ causes.now) }
{
    if others.len() != causes.len() {
        return false;
    }
    for i in 0..causes.len() {
        if !is_same_cause(causes[i], others[i]) {
            return false;
        }
    }
    true
}

fn is_same_cause(cause: Cause, other: Cause) -> bool
    ensures { IsTrue result ↔ (other ≡ cause) }
{
    other.effect == cause.effect
        && other.message == cause.message
        && other.event == cause.event
        && other.group == cause.group
        && other.least == cause.least
        && other.most == cause.most
}
