//! The certificate of the greatest latency where replicas have to answer.

ghost use Rattle.std.specs.Prelude.{◌≡◌, ◌++◌, IfOk, IsTrue};
ghost use Rattle.convoy_packets.specs.Assignment.{IsAssignment};
ghost use Rattle.convoy_commands.specs.ReplyLines.{open_line, schedule_text};
ghost use Rattle.convoy_commands.specs.Replies.{SaysUnlessMemory, reply_of};
ghost use Rattle.convoy_finish_checker.specs.FinishCheckLaws.{IsGreatestOfFinish};
ghost use Rattle.convoy_finish_checker.specs.FinishValidity.{IsValidFinish};
ghost use Rattle.convoy_finish_answers.specs.FinishProofs.{FinishProofSays, IsProvedBy, IsRunTold, IsSought};

use super::accepted::{Accepted, read_accepted};
use super::best::best_schedule;
use super::finishing::{SoughtFinish, seek_finish};
use convoy_branch::Options;
use convoy_certificate::{Certificate, push_schedule};
use convoy_commands::{
    Answer, Done, Fault, Watch, deadline_at, judged, push_open, search_instance,
};
use convoy_finish_checker::{
    FinishCertificate, FinishRefused, check_finish, finish_certificate_text,
};
use convoy_finishes::Ways;
use convoy_packets::Instance;
use convoy_times::Measure;
use convoy_toml::Asked;
use std::alloc::{AllocError, Global};
use std::sync::Wait;
use std::thread::Threads;

/// A certificate of the greatest latency of a scenario text whose groups are replicated by white box, where that is asked
/// (docs/FORMATS.md, "Certificates of finishes"), or where that latency is not known, what it is at least and at most, and
/// the schedule of the run that is latest of those that were found. By that is judged how the deadline of the target is
/// kept. Late runs are sought from the one that a search finds which goes as
/// [`latency_answer`](convoy_commands::latency_answer) does, and by as many simulations as the options give. The faults are
/// those of [`read_accepted`]. Who watches is told of the search, by [`NoGate`](convoy_branch::NoGate) where nobody cares.
pub fn finish_proof_answer<R: Threads + Wait + Sync, W: Watch + Sync>(
    rt: &R,
    alloc: Global,
    asked: &Asked,
    options: &Options,
    text: &[u8],
    watch: &W,
) -> Result<Answer, Fault>
    ensures { SaysUnlessMemory (FinishProofSays asked.now options.now) text.now (reply_of result) }
{
    let Accepted {
        scenario,
        ways,
        deadlines,
        unit,
        plain,
    } = read_accepted(alloc, text, asked)?;
    let measure = Measure::of(&scenario, options.unit(), unit);
    let deadline = deadline_at(&deadlines, scenario.target_message());
    let instance = Instance::of(alloc, scenario)?;
    let sought = sought_of(rt, alloc, &instance, &ways, options, watch)?;
    let most = sought.most;
    let certificate = certificate_of(alloc, instance, ways, sought);
    let (end, text) = run_told(alloc, &measure, &certificate, most)?;
    let done = judged(deadline, certificate.run.latency(), most, end);
    let (instance, ..) = certificate.run.into_parts();
    Ok(Answer::about(done, text, instance.into_scenario(), plain))
}

/// What is known of an instance once a search has ended, and late runs were sought from what that found.
fn sought_of<R: Threads + Wait + Sync, W: Watch + Sync>(
    rt: &R,
    alloc: Global,
    instance: &Instance,
    ways: &Ways,
    options: &Options,
    watch: &W,
) -> Result<SoughtFinish, AllocError>
    ensures { IfOk result (IsSought instance.now ways.now) }
{
    let outcome = search_instance(rt, alloc, instance, options, watch)?;
    let start = best_schedule(instance, options, &outcome)?;
    let sought = seek_finish(alloc, instance, ways, start, options.simulations())?;
    Ok(sought)
}

/// The certificate that a run makes.
fn certificate_of(
    alloc: Global,
    instance: Instance,
    ways: Ways,
    sought: SoughtFinish,
) -> FinishCertificate
    requires { IsAssignment instance sought.schedule }
    ensures ways { result.ways ≡ ways }
    ensures scenario { result.run.scenario ≡ instance }
    ensures latency { result.run.latency ≡ sought.least }
    ensures schedule { result.run.schedule ≡ sought.schedule }
{
    FinishCertificate {
        ways,
        run: Certificate::new(instance, sought.least, sought.schedule, Vec::new(alloc)),
    }
}

/// How it ends for a run, where none has a greater latency than `most`, and what is written: the certificate that it makes,
/// where that is accepted and its latency is that, or else both numbers and the schedule of the run.
fn run_told(
    alloc: Global,
    measure: &Option<Measure>,
    certificate: &FinishCertificate,
    most: u32,
) -> Result<(Done, Vec<u8>), AllocError>
    ensures { IfOk result (λ told. IsRunTold measure.now certificate.now most told.0 told.1.items) }
{
    if is_proved(alloc, certificate, most)? {
        Ok((Done::Fine, finish_certificate_text(alloc, certificate)?))
    } else {
        Ok((
            Done::Open,
            open_text(alloc, measure, &certificate.run, most)?,
        ))
    }
}

/// Whether the latency of a certificate is that, and the checker accepts the certificate.
fn is_proved(alloc: Global, certificate: &FinishCertificate, most: u32) -> Result<bool, AllocError>
    ensures { IfOk result (λ proved. IsTrue proved → IsProvedBy certificate.now most) }
{
    let _schedule = certificate.run.schedule();
    if certificate.run.latency() == most {
        is_accepted(alloc, certificate)
    } else {
        Ok(false)
    }
}

/// What the greatest latency is at least and at most, and the schedule of a run.
fn open_text(
    alloc: Global,
    measure: &Option<Measure>,
    run: &Certificate,
    most: u32,
) -> Result<Vec<u8>, AllocError>
    ensures { IfOk result (λ text. text.items
        ≡ open_line measure.now run.now.latency most ++ schedule_text run.now.scenario run.now.schedule) }
{
    let mut text = Vec::new(alloc);
    push_open(*measure, run.latency(), most, &mut text)?;
    push_schedule(alloc, run.scenario(), run.schedule(), &mut text)?;
    Ok(text)
}

/// Whether the checker accepts a certificate.
fn is_accepted(alloc: Global, certificate: &FinishCertificate) -> Result<bool, AllocError>
    ensures valid { IfOk result (λ accepted. IsTrue accepted → IsValidFinish certificate.now) }
    ensures greatest { IfOk result (λ accepted. IsTrue accepted → IsGreatestOfFinish certificate.now) }
{
    match check_finish(alloc, certificate) {
        Ok(()) => Ok(true),
        Err(FinishRefused::Memory) => Err(AllocError),
        Err(_) => Ok(false),
    }
}
