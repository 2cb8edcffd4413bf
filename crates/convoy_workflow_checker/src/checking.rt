ghost use Rattle.std.specs.Prelude.{◌≡◌, ◌↔◌, ◌<◌, [], length, Ok, IfOk, IsTrue};
ghost use Rattle.convoy_scenario.specs.Memory.{IsUnlessMemory};
ghost use Rattle.convoy_causes.specs.Causes.{AreCauses, IsCaused, time_from};
ghost use Rattle.convoy_causes.specs.CauseWindows.{closes_by, has_room_from};
ghost use Rattle.convoy_workflow_certificate.specs.WorkflowTexts.{workflow_certificate_text};
ghost use Rattle.convoy_workflow_checker.specs.declared.workflow_refused.WorkflowRefused.TheVariants.{Memory};
ghost use Rattle.convoy_workflow_checker.specs.WorkflowCheckLaws.{IsGreatestOfWorkflow};
ghost use Rattle.convoy_workflow_checker.specs.WorkflowValidity.{IsValidWorkflow};

use super::causes::{first_not_followed, first_unknown};
use super::workflow_check_laws::valid_workflow_is_greatest;
use super::workflow_refusal::WorkflowRefusal;
use super::workflow_refused::WorkflowRefused;
use convoy_causes::{CausedRun, closes_by, may_be_origin};
use convoy_scenario::Scenario;
use convoy_workflow_certificate::{WorkflowCertificate, read_workflow_certificate};
use std::alloc::{AllocError, Global};

/// Checks a certificate of a workflow: then some run in which messages follow their causes takes the time that it states,
/// and none takes longer, whoever made it (docs/FORMATS.md, "Certificates of workflows").
///
/// A certificate that is not valid is refused with its first fault, in the order of `WorkflowRefused`; where memory runs
/// out, `WorkflowRefused::Memory` is the answer, and says nothing of the certificate.
pub fn check_workflow(
    alloc: Global,
    certificate: &WorkflowCertificate,
) -> Result<(), WorkflowRefused>
    // What is accepted is valid, and then its time is the greatest.
    ensures valid { IfOk result (λ _. IsValidWorkflow certificate.now) }
    ensures greatest { IfOk result (λ _. IsGreatestOfWorkflow certificate.now) }
    // What is valid is accepted, unless memory runs out.
    ensures only { IsValidWorkflow certificate.now → IsUnlessMemory Memory (Ok tt) result }
{
    valid_workflow_is_greatest();
    // A certificate is well formed.
    let _nodes = certificate.run.nodes();
    check_parts(alloc, certificate)
}

/// The same of a text.
pub fn check_workflow_text(
    alloc: Global,
    text: &[u8],
) -> Result<WorkflowCertificate, WorkflowRefusal>
    // What is accepted is the text of a certificate that is valid, and then its time is the greatest.
    ensures text { IfOk result (λ certificate. text.now ≡ workflow_certificate_text certificate) }
    ensures valid { IfOk result IsValidWorkflow }
    ensures greatest { IfOk result IsGreatestOfWorkflow }
{
    let certificate = match read_workflow_certificate(alloc, text) {
        Ok(certificate) => certificate,
        Err(fault) => return Err(WorkflowRefusal::Text(fault)),
    };
    match check_workflow(alloc, &certificate) {
        Ok(()) => Ok(certificate),
        Err(refused) => Err(WorkflowRefusal::Check(refused)),
    }
}

/// Checks the parts of a certificate, in their order.
fn check_parts(alloc: Global, certificate: &WorkflowCertificate) -> Result<(), WorkflowRefused>
    ensures valid { IfOk result (λ _. IsValidWorkflow certificate.now) }
    ensures only { IsValidWorkflow certificate.now → IsUnlessMemory Memory (Ok tt) result }
{
    if !is_bare(certificate) {
        return Err(WorkflowRefused::Tree);
    }
    if let Some(place) = first_unknown(certificate.run.scenario(), &certificate.causes) {
        return Err(WorkflowRefused::Cause(place));
    }
    if !is_known(certificate.run.scenario(), certificate.origin)? {
        return Err(WorkflowRefused::Origin);
    }
    match check_run(alloc, certificate) {
        Ok(()) => check_closed(alloc, certificate),
        Err(refused) => Err(refused),
    }
}

/// Whether the certificate below has no nodes.
fn is_bare(certificate: &WorkflowCertificate) -> bool
    ensures { IsTrue result ↔ (certificate.now.run.nodes ≡ []) }
{
    certificate.run.nodes().is_empty()
}

/// Whether there is a message of that number, and room to know its issue.
fn is_known(scenario: &Scenario, origin: usize) -> Result<bool, AllocError>
    ensures { IfOk result (λ known. IsTrue known
        ↔ ((origin < length scenario.now.multicasts) × IsTrue (has_room_from scenario.now origin))) }
{
    may_be_origin(scenario, origin)
}

/// Checks the run of a certificate: in it messages follow their causes, and it takes the time that is stated.
fn check_run(alloc: Global, certificate: &WorkflowCertificate) -> Result<(), WorkflowRefused>
    requires causes { AreCauses certificate.now.run.scenario certificate.now.causes.items }
    requires origin { certificate.now.origin < length certificate.now.run.scenario.multicasts }
    ensures caused { IfOk result (λ _. IsCaused certificate.now.run.scenario certificate.now.causes.items
        certificate.now.run.schedule) }
    ensures time { IfOk result (λ _. time_from certificate.now.run.scenario certificate.now.origin
        certificate.now.run.schedule ≡ certificate.now.run.latency) }
    ensures only { IsCaused certificate.now.run.scenario certificate.now.causes.items certificate.now.run.schedule
        → time_from certificate.now.run.scenario certificate.now.origin certificate.now.run.schedule
        ≡ certificate.now.run.latency
        → IsUnlessMemory Memory (Ok tt) result }
{
    let run = CausedRun::of(
        alloc,
        certificate.run.instance(),
        certificate.run.schedule(),
    )?;
    if let Some(place) = first_not_followed(&run, &certificate.causes) {
        return Err(WorkflowRefused::Followed(place));
    }
    let time = run.time_from(certificate.origin);
    if time == certificate.run.latency() {
        Ok(())
    } else {
        Err(WorkflowRefused::Time(time))
    }
}

/// Checks that no run in which messages follow their causes takes longer than the time that is stated.
fn check_closed(alloc: Global, certificate: &WorkflowCertificate) -> Result<(), WorkflowRefused>
    requires causes { AreCauses certificate.now.run.scenario certificate.now.causes.items }
    requires origin { certificate.now.origin < length certificate.now.run.scenario.multicasts }
    ensures closed { IfOk result (λ _. IsTrue (closes_by certificate.now.run.scenario certificate.now.causes.items
        certificate.now.origin certificate.now.within.items certificate.now.run.latency)) }
    ensures only { IsTrue (closes_by certificate.now.run.scenario certificate.now.causes.items
        certificate.now.origin certificate.now.within.items certificate.now.run.latency)
        → IsUnlessMemory Memory (Ok tt) result }
{
    let closed = closes_by(
        alloc,
        certificate.run.instance(),
        &certificate.causes,
        certificate.origin,
        &certificate.within,
        certificate.run.latency(),
    )?;
    if closed {
        Ok(())
    } else {
        Err(WorkflowRefused::Open)
    }
}
