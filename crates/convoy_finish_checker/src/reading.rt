ghost use Rattle.std.specs.Prelude.{◌≡◌, IfOk};
ghost use Rattle.convoy_finish_checker.specs.FinishTexts.{finish_certificate_text};

use super::finish_certificate::FinishCertificate;
use super::finish_text_fault::{FinishLine, FinishTextFault};
use super::writing::finish_certificate_text;
use convoy_certificate::{Certificate, TextFault, read};
use convoy_finishes::{LONGEST_WAY, Ways};
use convoy_lines::{LineReader, Words, number_of, words_after};
use convoy_scenario::{MOST_GROUPS, MOST_MULTICASTS};
use std::alloc::Global;

/// What is read of a text, or the first fault there.
type Read<T> = Result<T, FinishTextFault>;

/// Reads the text of a certificate of finishes (docs/FORMATS.md, "Certificates of finishes").
///
/// What is read is written again and compared with the text, so that there is one text for each certificate, and no yes rests
/// on how it is read. A text that is refused gets the first fault in the order of its lines; where memory runs out, that is
/// `FinishTextFault::Memory`, and says nothing of the text.
pub fn read_finish_certificate(
    alloc: Global,
    text: &[u8],
) -> Result<FinishCertificate, FinishTextFault>
    ensures { IfOk result (λ certificate. text.now ≡ finish_certificate_text certificate) }
{
    let certificate = read_parts(alloc, text)?;
    let written = finish_certificate_text(alloc, &certificate)?;
    if written.as_slice() == text {
        Ok(certificate)
    } else {
        Err(FinishTextFault::Spelling)
    }
}

fn read_parts(alloc: Global, text: &[u8]) -> Read<FinishCertificate> {
    let mut lines = Lines::of(text);
    read_first(&mut lines)?;
    let ways = read_ways(alloc, &mut lines)?;
    let run = read_run(alloc, text, &lines)?;
    Ok(FinishCertificate { ways, run })
}

/// The lines above a certificate, and how many bytes those have that were read.
#[derive(Drop)]
struct Lines<'a> {
    reader: LineReader<'a>,
    bytes: usize,
}

impl<'a> Lines<'a> {
    fn of(text: &'a [u8]) -> Lines<'a> {
        Lines {
            reader: LineReader::over(text),
            bytes: 0,
        }
    }

    /// What is wrong with the next line, where this is expected.
    fn wrong(&self, expected: FinishLine) -> FinishTextFault {
        FinishTextFault::Line(self.reader.number(), expected)
    }

    /// The next line.
    fn line(&mut self) -> Option<&'a [u8]> {
        let line = self.reader.line()?;
        self.bytes = self.bytes.saturating_add(line.len()).saturating_add(1);
        Some(line)
    }

    /// How many lines were read.
    fn count(&self) -> usize {
        self.reader.number().saturating_sub(1)
    }
}

fn read_first(lines: &mut Lines) -> Read<()> {
    let wrong = lines.wrong(FinishLine::Finish);
    let line = lines.line().ok_or(wrong)?;
    if line == b"convoy finish 1".as_slice() {
        Ok(())
    } else {
        Err(wrong)
    }
}

/// The ways of messages, up to a line that begins otherwise: there is one line at least, and none for more messages than a
/// scenario may have.
fn read_ways(alloc: Global, lines: &mut Lines) -> Read<Ways> {
    let wrong = lines.wrong(FinishLine::Ways);
    let mut entries = Vec::new(alloc);
    for message in 0..MOST_MULTICASTS {
        if 1 <= message && !lines.reader.begins_with(b"ways") {
            break;
        }
        push_ways_of(lines, &mut entries)?;
    }
    Ways::listed(entries).ok_or(wrong)
}

/// Appends the ways of a message by each group, and 0 by each that is not there.
fn push_ways_of(lines: &mut Lines, entries: &mut Vec<u32>) -> Read<()> {
    let wrong = lines.wrong(FinishLine::Ways);
    let line = lines.line().ok_or(wrong)?;
    let mut words = words_after(line, b"ways").ok_or(wrong)?;
    for _ in 0..MOST_GROUPS {
        entries.push(next_way(&mut words).ok_or(wrong)?)?;
    }
    words.are_over().then_some(()).ok_or(wrong)
}

/// The way that the next word is; 0 where there is none.
fn next_way(words: &mut Words) -> Option<u32> {
    match words.next() {
        Some(word) => number_of(word, LONGEST_WAY),
        None => Some(0),
    }
}

/// The certificate below the lines of a text that were read. Its lines count from the first one of the text.
fn read_run(alloc: Global, text: &[u8], lines: &Lines) -> Read<Certificate> {
    let start = lines.bytes.min(text.len());
    match read(alloc, &text[start..]) {
        Ok(certificate) => Ok(certificate),
        Err(fault) => Err(fault_below(lines.count(), fault)),
    }
}

/// The fault of a certificate that stands below so many lines.
fn fault_below(lines: usize, fault: TextFault) -> FinishTextFault {
    match fault {
        TextFault::Memory => FinishTextFault::Memory,
        TextFault::Line(number, expected) => {
            FinishTextFault::Certificate(TextFault::Line(number.saturating_add(lines), expected))
        }
        other => FinishTextFault::Certificate(other),
    }
}
