ghost use Rattle.std.specs.Prelude.{◌≡◌, IfOk};
ghost use Rattle.std.specs.Result.{result_map_both};
ghost use Rattle.convoy_certificate.specs.Reading.{certificate_of};
ghost use Rattle.convoy_timeline.specs.PacketLists.{packets_text};
ghost use Rattle.convoy_commands.specs.declared.fault.Fault.TheVariants.{Memory};
ghost use Rattle.convoy_commands.specs.declared.telling.Telling.TheVariants.{Packets, Simulate, Timeline, Toml};
ghost use Rattle.convoy_commands.specs.Inputs.{reply_of_job, reply_of_reading};
ghost use Rattle.convoy_commands.specs.Memory.{IsUnlessMemory};
ghost use Rattle.convoy_commands.specs.Replies.{IsReply, SaysUnlessMemory, reply_of};
ghost use Rattle.convoy_commands.specs.Tells.{TellSays, certificate_told, job_told, packets_told, scheduled_told, text_told};

use super::answer::{Answer, Known, ReadInstance};
use super::asking::answer_to_fault;
use super::done::Done;
use super::fault::Fault;
use super::limits::LONGEST_JOB;
use super::scheduled::Scheduled;
use convoy_certificate::{Form, form_of, push_schedule, read};
use convoy_lines::push_number_line;
use convoy_packets::Instance;
use convoy_sim::{latency, simulate};
use convoy_streams::ReadFault;
use convoy_timeline::{write_packets, write_scheduled_packets, write_timeline};
use convoy_toml::read_toml;
use convoy_toml_writer::write_toml;
use std::alloc::{AllocError, Global};

/// What is to be told of a scenario or of a certificate.
#[derive(Clone, Copy)]
pub enum Telling {
    /// The latency under the schedule and the order of ties that are given, and these.
    Simulate,
    /// What happens at each group under that schedule.
    Timeline,
    /// The packets, with their ranges; those of a certificate also with the delays of its schedule.
    Packets,
    /// The scenario and that schedule, in TOML.
    Toml,
}

/// What is told of the scenario or of the certificate of a text (docs/FORMATS.md, "Commands"). The faults are
/// those of [`read_toml`], `Fault::Schedule` and `Fault::Order` for a schedule that is none of the scenario,
/// `Fault::Reading` for a scenario of more than [`LONGEST_JOB`] bytes, and `Fault::Memory`. A text that begins as a
/// certificate does and is none is refused.
pub fn tell(alloc: Global, telling: Telling, text: &[u8]) -> Result<Answer, Fault>
    ensures { SaysUnlessMemory (TellSays telling) text.now (reply_of result) }
{
    match form_of(text) {
        Form::Certificate(_) => tell_certificate(alloc, telling, text),
        Form::Other => tell_job(alloc, telling, text),
    }
}

/// The answer to a text of the form of a certificate.
fn tell_certificate(alloc: Global, telling: Telling, text: &[u8]) -> Result<Answer, Fault>
    ensures { IsReply (reply_of_reading (certificate_told telling) (certificate_of text.now)) (reply_of result) }
{
    match read(alloc, text) {
        Ok(certificate) => {
            let scheduled = Scheduled::of_certificate(certificate);
            Ok(Answer {
                done: Done::Fine,
                text: told(alloc, telling, &scheduled)?,
                known: None,
            })
        }
        Err(fault) => answer_to_fault(alloc, fault),
    }
}

/// The answer to any other text.
fn tell_job(alloc: Global, telling: Telling, text: &[u8]) -> Result<Answer, Fault>
    ensures { IsReply (reply_of_job (job_told telling) text.now) (reply_of result) }
{
    if text.len() > LONGEST_JOB {
        return Err(Fault::Reading(ReadFault::TooLong(LONGEST_JOB)));
    }
    let (text, known) = told_of_job(alloc, telling, text)?;
    Ok(Answer {
        done: Done::Fine,
        text,
        known: Some(known),
    })
}

/// What is written for a scenario's text, and what is known of the scenario. Where packets are told, no schedule is
/// looked at.
fn told_of_job(alloc: Global, telling: Telling, text: &[u8]) -> Result<(Vec<u8>, Known), Fault>
    ensures { IsUnlessMemory Memory (job_told telling text.now)
        (result_map_both (λ told. told.0.items) (λ fault. fault) result) }
{
    match telling {
        Telling::Simulate | Telling::Timeline | Telling::Toml => {
            told_with_schedule(alloc, telling, text)
        }
        Telling::Packets => told_without_schedule(alloc, text),
    }
}

/// What is told of the scenario and the schedule that a text gives.
fn told_with_schedule(
    alloc: Global,
    telling: Telling,
    text: &[u8],
) -> Result<(Vec<u8>, Known), Fault>
    ensures { IsUnlessMemory Memory (scheduled_told telling text.now)
        (result_map_both (λ told. told.0.items) (λ fault. fault) result) }
{
    let scheduled = Scheduled::read(alloc, text)?;
    let told = told(alloc, telling, &scheduled)?;
    Ok((told, scheduled.into_known()))
}

/// The packets of the scenario that a text gives.
fn told_without_schedule(alloc: Global, text: &[u8]) -> Result<(Vec<u8>, Known), Fault>
    ensures { IsUnlessMemory Memory (packets_told text.now)
        (result_map_both (λ told. told.0.items) (λ fault. fault) result) }
{
    let input = read_toml(alloc, text)?;
    let instance = Instance::of(alloc, input.scenario)?;
    let listed = listed(alloc, &instance)?;
    let read = ReadInstance {
        instance,
        plain: input.plain,
    };
    Ok((listed, Known::of(read, None)))
}

/// The packets of a scenario.
fn listed(alloc: Global, instance: &Instance) -> Result<Vec<u8>, AllocError>
    ensures { IfOk result (λ text. text.items ≡ packets_text instance.now) }
{
    let mut text = Vec::new(alloc);
    write_packets(instance, &mut text)?;
    Ok(text)
}

/// What is told of a scenario with a schedule.
fn told(alloc: Global, telling: Telling, scheduled: &Scheduled) -> Result<Vec<u8>, AllocError>
    ensures { IfOk result (λ text. text.items ≡ text_told telling scheduled.now) }
{
    match telling {
        Telling::Simulate => told_latency(alloc, scheduled),
        Telling::Timeline => told_timeline(alloc, scheduled),
        Telling::Packets => told_packets(alloc, scheduled),
        Telling::Toml => told_toml(alloc, scheduled),
    }
}

/// The latency of the schedule's run, and the schedule.
fn told_latency(alloc: Global, scheduled: &Scheduled) -> Result<Vec<u8>, AllocError>
    ensures { IfOk result (λ text. text.items ≡ text_told Simulate scheduled.now) }
{
    let (instance, schedule) = (scheduled.instance(), scheduled.schedule());
    let latency = latency(instance, schedule);
    let mut text = Vec::new(alloc);
    push_number_line(&mut text, "latency", latency)?;
    push_schedule(alloc, instance.scenario(), schedule, &mut text)?;
    Ok(text)
}

/// The timeline of the schedule's run.
fn told_timeline(alloc: Global, scheduled: &Scheduled) -> Result<Vec<u8>, AllocError>
    ensures { IfOk result (λ text. text.items ≡ text_told Timeline scheduled.now) }
{
    let (instance, schedule) = (scheduled.instance(), scheduled.schedule());
    let run = simulate(alloc, instance, schedule)?;
    let mut text = Vec::new(alloc);
    write_timeline(instance, schedule, &run, &mut text)?;
    Ok(text)
}

/// The packets, with the delays of the schedule.
fn told_packets(alloc: Global, scheduled: &Scheduled) -> Result<Vec<u8>, AllocError>
    ensures { IfOk result (λ text. text.items ≡ text_told Packets scheduled.now) }
{
    let (instance, schedule) = (scheduled.instance(), scheduled.schedule());
    let mut text = Vec::new(alloc);
    write_scheduled_packets(instance, schedule, &mut text)?;
    Ok(text)
}

/// The scenario and the schedule.
fn told_toml(alloc: Global, scheduled: &Scheduled) -> Result<Vec<u8>, AllocError>
    ensures { IfOk result (λ text. text.items ≡ text_told Toml scheduled.now) }
{
    let mut text = Vec::new(alloc);
    write_toml(
        scheduled.instance().scenario(),
        scheduled.schedule(),
        &mut text,
    )?;
    Ok(text)
}
