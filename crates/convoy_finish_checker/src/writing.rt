ghost use Rattle.std.specs.Prelude.{◌≡◌, ◌<◌, ◌≤◌, ◌++◌, decimal, flat_map, length, IfOk, OnOk};
ghost use Rattle.std.specs.List.{range_with_len};
ghost use Rattle.convoy_lines.specs.Texts.{spaced};
ghost use Rattle.convoy_finishes.specs.Finishes.{way_at};
ghost use Rattle.convoy_finish_checker.specs.FinishTexts.{finish_certificate_text, ways_line};

use super::finish_certificate::FinishCertificate;
use convoy_certificate::write;
use convoy_finishes::Ways;
use convoy_lines::push_further_word;
use itoa::Buffer;
use std::alloc::{AllocError, Global};

/// The text of a certificate of finishes (docs/FORMATS.md, "Certificates of finishes"). The error is that memory ran out;
/// all that is taken is given back.
pub fn finish_certificate_text(
    alloc: Global,
    certificate: &FinishCertificate,
) -> Result<Vec<u8>, AllocError>
    ensures { IfOk result (λ text. text.items ≡ finish_certificate_text certificate.now) }
{
    let mut text = Vec::from_slice(alloc, b"convoy finish 1\n")?;
    push_ways(&mut text, certificate)?;
    write(alloc, &certificate.run, &mut text)?;
    Ok(text)
}

/// Appends the ways, a line for each message.
fn push_ways(text: &mut Vec<u8>, certificate: &FinishCertificate) -> Result<(), AllocError>
    ensures { OnOk result (text.new.items ≡ text.old.items
        ++ flat_map (ways_line certificate.now) (range_with_len 0 (length certificate.now.run.scenario.multicasts))) }
{
    let count = certificate.run.scenario().message_count();
    for message in 0..count {
        push_ways_of(text, certificate, message)?;
    }
    Ok(())
}

/// Appends the line of the ways of a message.
fn push_ways_of(
    text: &mut Vec<u8>,
    certificate: &FinishCertificate,
    message: usize,
) -> Result<(), AllocError>
    requires { message < length certificate.now.run.scenario.multicasts }
    ensures { OnOk result (text.new.items ≡ text.old.items ++ ways_line certificate.now message) }
{
    text.extend_from_slice(b"ways")?;
    let groups = certificate.run.scenario().group_count();
    push_numbers(text, &certificate.ways, message, groups)?;
    Ok(text.push(b'\n')?)
}

/// Appends the ways of a message by each of so many groups.
fn push_numbers(
    text: &mut Vec<u8>,
    ways: &Ways,
    message: usize,
    groups: usize,
) -> Result<(), AllocError>
    requires message { message < 16 }
    requires groups { groups ≤ 8 }
    ensures { OnOk result (text.new.items ≡ text.old.items
        ++ flat_map (λ k. spaced (decimal (way_at ways.now message k))) (range_with_len 0 groups)) }
{
    for group in 0..groups {
        push_further_number(text, ways.way(message, group) as usize)?;
    }
    Ok(())
}

/// Appends a space and a number.
fn push_further_number(text: &mut Vec<u8>, number: usize) -> Result<(), AllocError>
    ensures { OnOk result (text.new.items ≡ text.old.items ++ spaced (decimal number)) }
{
    let mut buffer = Buffer::new();
    push_further_word(text, buffer.format(number))
}
