ghost use Rattle.std.specs.Prelude.{◌≡◌, IfOk};
ghost use Rattle.convoy_workflow_certificate.specs.WorkflowTexts.{workflow_certificate_text};

use super::workflow_certificate::WorkflowCertificate;
use super::workflow_text_fault::{WorkflowLine, WorkflowTextFault};
use super::writing::workflow_certificate_text;
use convoy_causes::{Cause, Event};
use convoy_certificate::{Certificate, TextFault, read};
use convoy_lines::{LineReader, Words, number_in, number_of, words_after};
use std::alloc::Global;

/// What is read of a text, or the first fault there.
type Read<T> = Result<T, WorkflowTextFault>;

/// Reads the text of a certificate of a workflow (docs/FORMATS.md, "Certificates of workflows").
///
/// What is read is written again and compared with the text, so that there is one text for each certificate, and no yes rests
/// on how it is read. A text that is refused gets the first fault in the order of its lines; where memory runs out, that is
/// `WorkflowTextFault::Memory`, and says nothing of the text.
pub fn read_workflow_certificate(
    alloc: Global,
    text: &[u8],
) -> Result<WorkflowCertificate, WorkflowTextFault>
    ensures { IfOk result (λ certificate. text.now ≡ workflow_certificate_text certificate) }
{
    let certificate = read_parts(alloc, text)?;
    let written = workflow_certificate_text(alloc, &certificate)?;
    if written.as_slice() == text {
        Ok(certificate)
    } else {
        Err(WorkflowTextFault::Spelling)
    }
}

fn read_parts(alloc: Global, text: &[u8]) -> Read<WorkflowCertificate> {
    let mut lines = Lines::of(text);
    read_first(&mut lines)?;
    let causes = read_causes(alloc, &mut lines, text.len())?;
    let within = read_within(alloc, &mut lines)?;
    let origin = read_origin(&mut lines)?;
    let run = read_run(alloc, text, &lines)?;
    Ok(WorkflowCertificate {
        causes,
        within,
        origin,
        run,
    })
}

/// The lines above a certificate, and how many bytes those have that were read.
#[derive(Drop)]
struct Lines<'a> {
    reader: LineReader<'a>,
    bytes: usize,
}

impl<'a> Lines<'a> {
    fn of(text: &'a [u8]) -> Lines<'a> {
        Lines {
            reader: LineReader::over(text),
            bytes: 0,
        }
    }

    /// What is wrong with the next line, where this is expected.
    fn wrong(&self, expected: WorkflowLine) -> WorkflowTextFault {
        WorkflowTextFault::Line(self.reader.number(), expected)
    }

    /// The next line.
    fn line(&mut self) -> Option<&'a [u8]> {
        let line = self.reader.line()?;
        self.bytes = self.bytes.saturating_add(line.len()).saturating_add(1);
        Some(line)
    }

    /// How many lines were read.
    fn count(&self) -> usize {
        self.reader.number().saturating_sub(1)
    }
}

fn read_first(lines: &mut Lines) -> Read<()> {
    let wrong = lines.wrong(WorkflowLine::Workflow);
    let line = lines.line().ok_or(wrong)?;
    if line == b"convoy workflow 1".as_slice() {
        Ok(())
    } else {
        Err(wrong)
    }
}

/// What messages follow, up to a line that begins otherwise, in so many lines at most.
fn read_causes(alloc: Global, lines: &mut Lines, most: usize) -> Read<Vec<Cause>> {
    let mut causes = Vec::new(alloc);
    for _ in 0..most {
        if !lines.reader.begins_with(b"follow") {
            break;
        }
        causes.push(read_cause(lines)?)?;
    }
    Ok(causes)
}

fn read_cause(lines: &mut Lines) -> Read<Cause> {
    let wrong = lines.wrong(WorkflowLine::Follow);
    let line = lines.line().ok_or(wrong)?;
    cause_in(line).ok_or(wrong)
}

/// What a message follows, by its line.
fn cause_in(line: &[u8]) -> Option<Cause> {
    let mut words = words_after(line, b"follow")?;
    let effect = next_number(&mut words)? as usize;
    let message = next_number(&mut words)? as usize;
    let event = event_of(words.next()?)?;
    let group = next_number(&mut words)? as usize;
    let least = next_number(&mut words)?;
    let most = next_number(&mut words)?;
    words.are_over().then_some(Cause {
        effect,
        message,
        event,
        group,
        least,
        most,
    })
}

/// The number that the next word is.
fn next_number(words: &mut Words) -> Option<u32> {
    number_of(words.next()?, u32::MAX)
}

/// The event of that word.
fn event_of(word: &[u8]) -> Option<Event> {
    match word {
        b"issue" => Some(Event::Issue),
        b"arrival" => Some(Event::Arrival),
        b"commit" => Some(Event::Commit),
        b"delivery" => Some(Event::Delivery),
        _ => None,
    }
}

/// The ticks within which deliveries come.
fn read_within(alloc: Global, lines: &mut Lines) -> Read<Vec<u32>> {
    if !lines.reader.begins_with(b"within") {
        return Err(lines.wrong(WorkflowLine::Follow));
    }
    let wrong = lines.wrong(WorkflowLine::Within);
    let line = lines.line().ok_or(wrong)?;
    numbers_of(alloc, words_after(line, b"within").ok_or(wrong)?, wrong)
}

/// The numbers that these words are.
fn numbers_of(alloc: Global, words: Words, wrong: WorkflowTextFault) -> Read<Vec<u32>> {
    let mut words = words;
    let mut numbers = Vec::new(alloc);
    while let Some(word) = words.next() {
        numbers.push(number_of(word, u32::MAX).ok_or(wrong)?)?;
    }
    Ok(numbers)
}

/// The message from whose issue time is counted.
fn read_origin(lines: &mut Lines) -> Read<usize> {
    let wrong = lines.wrong(WorkflowLine::From);
    let line = lines.line().ok_or(wrong)?;
    let number = number_in(line, b"from").ok_or(wrong)?;
    Ok(number as usize)
}

/// The certificate below the lines of a text that were read. Its lines count from the first one of the text.
fn read_run(alloc: Global, text: &[u8], lines: &Lines) -> Read<Certificate> {
    let start = lines.bytes.min(text.len());
    match read(alloc, &text[start..]) {
        Ok(certificate) => Ok(certificate),
        Err(fault) => Err(fault_below(lines.count(), fault)),
    }
}

/// The fault of a certificate that stands below so many lines.
fn fault_below(lines: usize, fault: TextFault) -> WorkflowTextFault {
    match fault {
        TextFault::Memory => WorkflowTextFault::Memory,
        TextFault::Line(number, expected) => {
            WorkflowTextFault::Certificate(TextFault::Line(number.saturating_add(lines), expected))
        }
        other => WorkflowTextFault::Certificate(other),
    }
}
