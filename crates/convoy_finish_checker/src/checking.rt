ghost use Rattle.std.specs.Prelude.{◌≡◌, ◌↔◌, [], Ok, IfOk, IsTrue};
ghost use Rattle.convoy_scenario.specs.Memory.{IsUnlessMemory};
ghost use Rattle.convoy_finishes.specs.Finishes.{finish_latency};
ghost use Rattle.convoy_finishes.specs.FinishClosing.{closes_finishing};
ghost use Rattle.convoy_finish_checker.specs.declared.finish_refused.FinishRefused.TheVariants.{Memory};
ghost use Rattle.convoy_finish_checker.specs.FinishCheckLaws.{IsGreatestOfFinish};
ghost use Rattle.convoy_finish_checker.specs.FinishTexts.{finish_certificate_text};
ghost use Rattle.convoy_finish_checker.specs.FinishValidity.{IsValidFinish};

use super::finish_certificate::FinishCertificate;
use super::finish_check_laws::valid_finish_is_greatest;
use super::finish_refusal::FinishRefusal;
use super::finish_refused::FinishRefused;
use super::reading::read_finish_certificate;
use convoy_finishes::{closes_finishing, finish_latency};
use std::alloc::Global;

/// Checks a certificate of finishes: then some run of its scenario delivers the target after the latency that it states, and
/// none later, where messages are finished by its ways, whoever made it (docs/FORMATS.md, "Certificates of finishes").
///
/// A certificate that is not valid is refused with its first fault, in the order of `FinishRefused`; where memory runs
/// out, `FinishRefused::Memory` is the answer, and says nothing of the certificate.
pub fn check_finish(alloc: Global, certificate: &FinishCertificate) -> Result<(), FinishRefused>
    // What is accepted is valid, and then its latency is the greatest.
    ensures valid { IfOk result (λ _. IsValidFinish certificate.now) }
    ensures greatest { IfOk result (λ _. IsGreatestOfFinish certificate.now) }
    // What is valid is accepted, unless memory runs out.
    ensures only { IsValidFinish certificate.now → IsUnlessMemory Memory (Ok tt) result }
{
    valid_finish_is_greatest();
    // A certificate is well formed.
    let _nodes = certificate.run.nodes();
    check_parts(alloc, certificate)
}

/// The same of a text.
pub fn check_finish_text(alloc: Global, text: &[u8]) -> Result<FinishCertificate, FinishRefusal>
    // What is accepted is the text of a certificate that is valid, and then its latency is the greatest.
    ensures text { IfOk result (λ certificate. text.now ≡ finish_certificate_text certificate) }
    ensures valid { IfOk result IsValidFinish }
    ensures greatest { IfOk result IsGreatestOfFinish }
{
    let certificate = match read_finish_certificate(alloc, text) {
        Ok(certificate) => certificate,
        Err(fault) => return Err(FinishRefusal::Text(fault)),
    };
    match check_finish(alloc, &certificate) {
        Ok(()) => Ok(certificate),
        Err(refused) => Err(FinishRefusal::Check(refused)),
    }
}

/// Checks the parts of a certificate, in their order.
fn check_parts(alloc: Global, certificate: &FinishCertificate) -> Result<(), FinishRefused>
    ensures valid { IfOk result (λ _. IsValidFinish certificate.now) }
    ensures only { IsValidFinish certificate.now → IsUnlessMemory Memory (Ok tt) result }
{
    if !is_bare(certificate) {
        return Err(FinishRefused::Tree);
    }
    match check_run(alloc, certificate) {
        Ok(()) => check_closed(alloc, certificate),
        Err(refused) => Err(refused),
    }
}

/// Whether the certificate below has no nodes.
fn is_bare(certificate: &FinishCertificate) -> bool
    ensures { IsTrue result ↔ (certificate.now.run.nodes ≡ []) }
{
    certificate.run.nodes().is_empty()
}

/// Checks that the run of a certificate has the latency that is stated.
fn check_run(alloc: Global, certificate: &FinishCertificate) -> Result<(), FinishRefused>
    ensures latency { IfOk result (λ _. finish_latency certificate.now.run.scenario certificate.now.ways
        certificate.now.run.schedule ≡ certificate.now.run.latency) }
    ensures only { finish_latency certificate.now.run.scenario certificate.now.ways certificate.now.run.schedule
        ≡ certificate.now.run.latency → IsUnlessMemory Memory (Ok tt) result }
{
    let latency = finish_latency(
        alloc,
        certificate.run.instance(),
        certificate.run.schedule(),
        &certificate.ways,
    )?;
    if latency == certificate.run.latency() {
        Ok(())
    } else {
        Err(FinishRefused::Latency(latency))
    }
}

/// Checks that no run has a greater latency than is stated.
fn check_closed(alloc: Global, certificate: &FinishCertificate) -> Result<(), FinishRefused>
    ensures closed { IfOk result (λ _. IsTrue (closes_finishing certificate.now.run.scenario certificate.now.ways
        certificate.now.run.latency)) }
    ensures only { IsTrue (closes_finishing certificate.now.run.scenario certificate.now.ways certificate.now.run.latency)
        → IsUnlessMemory Memory (Ok tt) result }
{
    let closed = closes_finishing(
        alloc,
        certificate.run.instance(),
        &certificate.ways,
        certificate.run.latency(),
    )?;
    if closed {
        Ok(())
    } else {
        Err(FinishRefused::Open)
    }
}
