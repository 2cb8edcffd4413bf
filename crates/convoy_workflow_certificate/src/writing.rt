ghost use Rattle.std.specs.Prelude.{◌≡◌, ◌++◌, decimal, flat_map, IfOk, OnOk};
ghost use Rattle.convoy_lines.specs.Texts.{spaced};
ghost use Rattle.convoy_workflow_certificate.specs.WorkflowTexts.{event_word, follow_text, from_text, within_text, workflow_certificate_text};

use super::workflow_certificate::WorkflowCertificate;
use convoy_causes::{Cause, Event};
use convoy_certificate::write;
use convoy_lines::push_further_word;
use itoa::Buffer;
use std::alloc::{AllocError, Global};

/// The text of a certificate of a workflow (docs/FORMATS.md, "Certificates of workflows"). The error is that memory ran out;
/// all that is taken is given back.
pub fn workflow_certificate_text(
    alloc: Global,
    certificate: &WorkflowCertificate,
) -> Result<Vec<u8>, AllocError>
    ensures { IfOk result (λ text. text.items ≡ workflow_certificate_text certificate.now) }
{
    let mut text = Vec::from_slice(alloc, b"convoy workflow 1\n")?;
    push_causes(&mut text, &certificate.causes)?;
    push_within(&mut text, &certificate.within)?;
    push_origin(&mut text, certificate.origin)?;
    write(alloc, &certificate.run, &mut text)?;
    Ok(text)
}

/// Appends what messages follow, a line for each.
fn push_causes(text: &mut Vec<u8>, causes: &[Cause]) -> Result<(), AllocError>
    ensures { OnOk result (text.new.items ≡ text.old.items ++ flat_map follow_text causes.now) }
{
    for cause in causes {
        push_cause(text, cause)?;
    }
    Ok(())
}

/// Appends the line of what a message follows.
fn push_cause(text: &mut Vec<u8>, cause: &Cause) -> Result<(), AllocError>
    ensures { OnOk result (text.new.items ≡ text.old.items ++ follow_text cause.now) }
{
    text.extend_from_slice(b"follow")?;
    push_further_number(text, cause.effect)?;
    push_further_number(text, cause.message)?;
    push_further_word(text, event_word(cause.event))?;
    push_further_number(text, cause.group)?;
    push_further_number(text, cause.least as usize)?;
    push_further_number(text, cause.most as usize)?;
    Ok(text.push(b'\n')?)
}

/// The word of an event.
fn event_word(event: Event) -> &'static str
    ensures { result.now ≡ event_word event }
{
    match event {
        Event::Issue => "issue",
        Event::Arrival => "arrival",
        Event::Commit => "commit",
        Event::Delivery => "delivery",
    }
}

/// Appends the line of the ticks within which deliveries come.
fn push_within(text: &mut Vec<u8>, within: &[u32]) -> Result<(), AllocError>
    ensures { OnOk result (text.new.items ≡ text.old.items ++ within_text within.now) }
{
    text.extend_from_slice(b"within")?;
    for ticks in within {
        push_further_number(text, *ticks as usize)?;
    }
    Ok(text.push(b'\n')?)
}

/// Appends the line of the message from whose issue time is counted.
fn push_origin(text: &mut Vec<u8>, origin: usize) -> Result<(), AllocError>
    ensures { OnOk result (text.new.items ≡ text.old.items ++ from_text origin) }
{
    text.extend_from_slice(b"from")?;
    push_further_number(text, origin)?;
    Ok(text.push(b'\n')?)
}

/// Appends a space and a number.
fn push_further_number(text: &mut Vec<u8>, number: usize) -> Result<(), AllocError>
    ensures { OnOk result (text.new.items ≡ text.old.items ++ spaced (decimal number)) }
{
    let mut buffer = Buffer::new();
    push_further_word(text, buffer.format(number))
}
