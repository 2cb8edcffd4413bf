ghost use Rattle.std.specs.Prelude.{◌≡◌, IfOk};
ghost use Rattle.std.specs.Result.{result_map_both};
ghost use Rattle.convoy_commands.specs.declared.fault.Fault.TheVariants.{Memory};
ghost use Rattle.convoy_commands.specs.Memory.{IsUnlessMemory};
ghost use Rattle.convoy_commands.specs.First.{FirstSays, attained_text, first_text, least_schedule};
ghost use Rattle.convoy_commands.specs.Replies.{SaysUnlessMemory, fine, reply_of};

use super::answer::{Answer, Known, ReadInstance};
use super::done::Done;
use super::fault::Fault;
use convoy_certificate::push_schedule;
use convoy_lines::push_number_line;
use convoy_packets::schedule_laws::fixed_order_is_order;
use convoy_packets::{Instance, Schedule};
use convoy_sim::latency;
use convoy_toml::{Asked, read_toml_asked};
use std::alloc::{AllocError, Global};

/// The latency that the schedule of least delays attains in the scenario of a text, where that is asked, and that
/// schedule (docs/FORMATS.md, "What `first` writes"). The faults are those of [`read_toml_asked`], and `Fault::Memory`.
pub fn first_answer(alloc: Global, asked: &Asked, text: &[u8]) -> Result<Answer, Fault>
    ensures { SaysUnlessMemory (FirstSays asked.now) text.now (reply_of result) }
{
    fine(first_text(alloc, asked, text))
}

/// The answer of a command that ends well whenever it has one.
fn fine(told: Result<(Vec<u8>, Known), Fault>) -> Result<Answer, Fault>
    ensures { reply_of result ≡ fine (result_map_both (λ told. told.0.items) (λ fault. fault) told) }
{
    let (text, known) = told?;
    Ok(Answer {
        done: Done::Fine,
        text,
        known: Some(known),
    })
}

/// The latency that the least delays attain, and those delays.
fn attained(alloc: Global, instance: &Instance) -> Result<Vec<u8>, AllocError>
    ensures { IfOk result (λ text. text.items ≡ attained_text instance.now (least_schedule instance.now)) }
{
    fixed_order_is_order();
    let schedule = Schedule::least(alloc, instance.table())?;
    let attained = latency(instance, &schedule);
    let mut text = Vec::new(alloc);
    push_number_line(&mut text, "attained", attained)?;
    push_schedule(alloc, instance.scenario(), &schedule, &mut text)?;
    Ok(text)
}

/// What is written for a text, and what is known of its scenario.
fn first_text(alloc: Global, asked: &Asked, text: &[u8]) -> Result<(Vec<u8>, Known), Fault>
    ensures { IsUnlessMemory Memory (first_text asked.now text.now)
        (result_map_both (λ told. told.0.items) (λ fault. fault) result) }
{
    let input = read_toml_asked(alloc, text, asked)?;
    let instance = Instance::of(alloc, input.scenario)?;
    let attained = attained(alloc, &instance)?;
    let read = ReadInstance {
        instance,
        plain: input.plain,
    };
    Ok((attained, Known::of(read, None)))
}
