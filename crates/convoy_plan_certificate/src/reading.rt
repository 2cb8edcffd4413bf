ghost use Rattle.std.specs.Prelude.{◌≡◌, IfOk};
ghost use Rattle.convoy_plan_certificate.specs.PlanTexts.{plan_certificate_text};

use super::branch::{Branch, Witness};
use super::plan_certificate::PlanCertificate;
use super::plan_text_fault::{PlanLine, PlanTextFault};
use super::writing::plan_certificate_text;
use convoy_certificate::{Certificate, TextFault, read};
use convoy_lines::{LineReader, Words, number_of, words_after};
use std::alloc::{AllocError, Global};

/// What is read of a text, or the first fault there.
type Read<T> = Result<T, PlanTextFault>;

/// Reads the text of a certificate of a plan (docs/FORMATS.md, "Certificates of plans").
///
/// What is read is written again and compared with the text, so that there is one text for each certificate, and no yes rests
/// on how it is read. A text that is refused gets the first fault in the order of its lines; where memory runs out, that is
/// `PlanTextFault::Memory`, and says nothing of the text.
pub fn read_plan_certificate(alloc: Global, text: &[u8]) -> Read<PlanCertificate>
    ensures { IfOk result (λ certificate. text.now ≡ plan_certificate_text certificate) }
{
    let certificate = read_parts(alloc, text)?;
    let written = plan_certificate_text(alloc, &certificate)?;
    if written.as_slice() == text {
        Ok(certificate)
    } else {
        Err(PlanTextFault::Spelling)
    }
}

fn read_parts(alloc: Global, text: &[u8]) -> Read<PlanCertificate> {
    let mut reader = LineReader::over(text);
    read_first(&mut reader)?;
    let placement = read_numbers(alloc, &mut reader, b"sites", PlanLine::Sites)?;
    let order = read_numbers(alloc, &mut reader, b"order", PlanLine::Order)?;
    let shown = read_shown(alloc, &mut reader, text.len())?;
    let nodes = read_nodes(alloc, &mut reader, text.len())?;
    if !reader.at_end() {
        return Err(PlanTextFault::AfterEnd);
    }
    Ok(PlanCertificate {
        placement,
        order,
        shown,
        nodes,
    })
}

fn read_first(reader: &mut LineReader) -> Read<()> {
    let wrong = PlanTextFault::Line(reader.number(), PlanLine::Plan);
    let line = reader.line().ok_or(wrong)?;
    if line == b"convoy plan 1".as_slice() {
        Ok(())
    } else {
        Err(wrong)
    }
}

/// The numbers of the next line, which has this label.
fn read_numbers(
    alloc: Global,
    reader: &mut LineReader,
    label: &[u8],
    expected: PlanLine,
) -> Read<Vec<usize>> {
    let wrong = PlanTextFault::Line(reader.number(), expected);
    let line = reader.line().ok_or(wrong)?;
    numbers_of(alloc, words_after(line, label).ok_or(wrong)?, wrong)
}

/// The numbers that these words are.
fn numbers_of(alloc: Global, words: Words, wrong: PlanTextFault) -> Read<Vec<usize>> {
    let mut words = words;
    let mut numbers = Vec::new(alloc);
    while let Some(word) = words.next() {
        let number = number_of(word, u32::MAX).ok_or(wrong)?;
        numbers.push(number as usize)?;
    }
    Ok(numbers)
}

/// The certificates up to the line `tree`, in so many lines at most.
fn read_shown(alloc: Global, reader: &mut LineReader, lines: usize) -> Read<Vec<Certificate>> {
    let mut shown = Vec::new(alloc);
    for _ in 0..lines {
        if !reader.begins_with(b"convoy") {
            break;
        }
        let certificate = read_one(alloc, reader, lines, shown.len())?;
        shown.push(certificate)?;
    }
    let wrong = PlanTextFault::Line(reader.number(), PlanLine::Tree);
    if reader.line() == Some(b"tree".as_slice()) {
        Ok(shown)
    } else {
        Err(wrong)
    }
}

/// The certificate of that number, up to its line `end`, in so many lines at most.
fn read_one(
    alloc: Global,
    reader: &mut LineReader,
    lines: usize,
    number: usize,
) -> Read<Certificate> {
    let text = text_to_end(alloc, reader, lines)?;
    match read(alloc, &text) {
        Ok(certificate) => Ok(certificate),
        Err(TextFault::Memory) => Err(PlanTextFault::Memory),
        Err(fault) => Err(PlanTextFault::Certificate(number, fault)),
    }
}

/// The next lines up to a line `end`, in so many lines at most.
fn text_to_end(
    alloc: Global,
    reader: &mut LineReader,
    lines: usize,
) -> Result<Vec<u8>, AllocError> {
    let mut text = Vec::new(alloc);
    for _ in 0..lines {
        let Some(line) = reader.line() else {
            break;
        };
        text.extend_from_slice(line)?;
        text.push(b'\n')?;
        if line == b"end".as_slice() {
            break;
        }
    }
    Ok(text)
}

/// The nodes up to the line `end`, in so many lines at most.
fn read_nodes(alloc: Global, reader: &mut LineReader, lines: usize) -> Read<Vec<Branch>> {
    let mut nodes = Vec::new(alloc);
    for _ in 0..lines {
        match read_node(alloc, reader, lines)? {
            Some(node) => nodes.push(node)?,
            None => return Ok(nodes),
        }
    }
    Err(PlanTextFault::Line(reader.number(), PlanLine::Node))
}

/// The node of the next lines, or none at the line `end`.
fn read_node(alloc: Global, reader: &mut LineReader, lines: usize) -> Read<Option<Branch>> {
    let wrong = PlanTextFault::Line(reader.number(), PlanLine::Node);
    let line = reader.line().ok_or(wrong)?;
    match line {
        b"end" => Ok(None),
        b"n" => Ok(Some(Branch::NoScenario)),
        b"w" => Ok(Some(Branch::Late(read_witnesses(alloc, reader, lines)?))),
        _ => {
            let node = node_of_numbers(line);
            Ok(Some(node.ok_or(wrong)?))
        }
    }
}

/// The node of a line that is a letter and numbers.
fn node_of_numbers(line: &[u8]) -> Option<Branch> {
    let mut words = Words::of(line);
    let letter = words.next()?;
    let first = number_of(words.next()?, u32::MAX)? as usize;
    match letter {
        b"s" => Some(Branch::Split(first)),
        b"c" => Some(Branch::Commit(first)),
        b"a" => {
            let second = number_of(words.next()?, u32::MAX)? as usize;
            Some(Branch::Apart(first, second))
        }
        _ => None,
    }
}

/// The witnesses that follow, in so many lines at most.
fn read_witnesses(alloc: Global, reader: &mut LineReader, lines: usize) -> Read<Vec<Witness>> {
    let mut witnesses = Vec::new(alloc);
    for _ in 0..lines {
        if !reader.begins_with(b"t") {
            break;
        }
        witnesses.push(read_witness(alloc, reader)?)?;
    }
    Ok(witnesses)
}

fn read_witness(alloc: Global, reader: &mut LineReader) -> Read<Witness> {
    let wrong = PlanTextFault::Line(reader.number(), PlanLine::Witness);
    let line = reader.line().ok_or(wrong)?;
    let mut words = words_after(line, b"t").ok_or(wrong)?;
    let target = number_of(words.next().ok_or(wrong)?, u32::MAX).ok_or(wrong)?;
    let delays = read_list(alloc, reader, b"schedule", PlanLine::Schedule)?;
    let ranks = read_ranks(alloc, reader)?;
    Ok(Witness {
        target: target as usize,
        delays,
        ranks,
    })
}

/// The ranks of the next line, if it is one of ranks.
fn read_ranks(alloc: Global, reader: &mut LineReader) -> Read<Vec<u16>> {
    if reader.begins_with(b"order") {
        read_list(alloc, reader, b"order", PlanLine::Ranks)
    } else {
        Ok(Vec::new(alloc))
    }
}

/// The numbers of the next line, which has this label, each at most 65,535.
fn read_list(
    alloc: Global,
    reader: &mut LineReader,
    label: &[u8],
    expected: PlanLine,
) -> Read<Vec<u16>> {
    let wrong = PlanTextFault::Line(reader.number(), expected);
    let line = reader.line().ok_or(wrong)?;
    let mut words = words_after(line, label).ok_or(wrong)?;
    let mut numbers = Vec::new(alloc);
    while let Some(word) = words.next() {
        let number = number_of(word, u32::from(u16::MAX)).ok_or(wrong)?;
        numbers.push(number as u16)?;
    }
    Ok(numbers)
}
