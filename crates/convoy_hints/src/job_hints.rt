use super::dividers::hint_for_dividers;
use convoy_hints_scenario::hint_for_fault;
use convoy_hints_sketch::{Hint, noun};
use convoy_scenario::ScenarioFault;
use convoy_streams::{JobFault, Splitter};
use convoy_toml::{Asked, read_toml_asked};
use std::alloc::{AllocError, Global};

/// What is wrong with the jobs of a batch, where this is asked of each, in a line `hint: job ..` for each that has a
/// fault. Each has at most `longest` bytes. The text may have been cut, where it is not `whole`: of the job that was cut
/// it is told at most that it is too long. None where no job has a fault of which anything can be said.
pub fn hint_for_batch(
    alloc: Global,
    text: &[u8],
    asked: &Asked,
    whole: bool,
    longest: usize,
) -> Hint {
    let mut jobs = Jobs::of(alloc, text, asked, longest);
    for byte in text {
        jobs.take(*byte)?;
    }
    if whole {
        jobs.finish()?;
    } else if jobs.splitter.job() == Err(JobFault::TooLong) {
        jobs.add_hint()?;
    }
    Ok((!jobs.hints.is_empty()).then_some(jobs.hints))
}

/// A job of a batch: its number and the number of its first line, both from 1, and the place in the text at
/// which it begins.
#[derive(Clone, Copy, Drop)]
struct Place {
    job: usize,
    line: usize,
    start: usize,
}

/// The jobs of a text that is taken byte by byte, and the hints for those that have ended.
#[derive(Drop)]
struct Jobs<'a> {
    alloc: Global,
    text: &'a [u8],
    asked: &'a Asked,
    longest: usize,
    splitter: Splitter,
    /// The job under way.
    place: Place,
    /// How many bytes were taken.
    taken: usize,
    /// The line of the next byte.
    line: usize,
    hints: String,
}

impl<'a> Jobs<'a> {
    /// The jobs of that text, of which nothing was taken yet.
    fn of(alloc: Global, text: &'a [u8], asked: &'a Asked, longest: usize) -> Jobs<'a> {
        Jobs {
            alloc,
            text,
            asked,
            longest,
            splitter: Splitter::new(alloc, longest),
            place: Place {
                job: 1,
                line: 1,
                start: 0,
            },
            taken: 0,
            line: 1,
            hints: String::new(alloc),
        }
    }

    /// Takes the next byte of the text.
    fn take(&mut self, byte: u8) -> Result<(), AllocError> {
        let was_named = self.is_named();
        let ends = self.splitter.take(byte);
        self.taken = self.taken.saturating_add(1);
        if byte == b'\n' {
            self.line = self.line.saturating_add(1);
        }
        if ends {
            self.add_hint()?;
            self.start_next();
        } else if self.is_named() && !was_named {
            self.begin(self.place.job);
        }
        Ok(())
    }

    /// The text is over.
    fn finish(&mut self) -> Result<(), AllocError> {
        if self.splitter.finish() {
            self.add_hint()?;
            self.line = self.line.saturating_add(1);
            self.start_next();
        }
        self.add_hint()
    }

    /// Whether the job under way has a label.
    fn is_named(&self) -> bool {
        !self.splitter.label().is_empty()
    }

    /// Starts the next job, after a divider.
    fn start_next(&mut self) {
        self.splitter.start_next();
        self.begin(self.place.job.saturating_add(1));
    }

    /// The text of the job of that number begins here.
    fn begin(&mut self, job: usize) {
        self.place = Place {
            job,
            line: self.line,
            start: self.taken,
        };
    }

    /// Adds the hint for the job that ended, where there is one.
    fn add_hint(&mut self) -> Result<(), AllocError> {
        let alloc = self.alloc;
        let label = std::str::from_utf8(self.splitter.label()).unwrap_or("");
        let hint = match self.splitter.job() {
            Ok(text) => hint_for_job(alloc, label, text, self.asked)?,
            Err(JobFault::TooLong) => {
                let raw = self.text.get(self.place.start..self.taken).unwrap_or(&[]);
                Some(hint_for_long_job(alloc, raw, self.longest)?)
            }
            Err(JobFault::Memory) => None,
        };
        if let Some(hint) = hint {
            let (job, line) = (self.place.job, self.place.line);
            let space = if label.is_empty() { "" } else { " " };
            let told = format!(in alloc;
                "hint: job {job}{space}{label}, which begins at line {line}: {hint}\n"
            )?;
            self.hints.push_str(told.as_str())?;
        }
        Ok(())
    }
}

/// What is wrong with the scenario of a job, where this is asked; None where nothing is. Lines are counted within the job.
fn hint_for_job(alloc: Global, label: &str, text: &[u8], asked: &Asked) -> Hint {
    match read_toml_asked(alloc, text, asked) {
        Ok(_) | Err(ScenarioFault::Memory) => Ok(None),
        Err(_) if text.iter().all(|byte| byte.is_ascii_whitespace()) => {
            Ok(Some(hint_for_nothing(alloc, label)?))
        }
        Err(fault) => match hint_for_dividers(alloc, text)? {
            Some(hint) => Ok(Some(hint)),
            None => hint_for_fault(alloc, text, asked, fault),
        },
    }
}

/// What is wrong with a job that has no scenario.
fn hint_for_nothing(alloc: Global, label: &str) -> Result<String, AllocError> {
    if label.is_empty() {
        let hint =
            "it is empty: a line '---' stands between two scenarios, and not before the first or after the last";
        return String::from_str(alloc, hint);
    }
    format!(in alloc; "it is empty: no scenario stands after the line '--- {label}'")
}

/// What is wrong with a job that is too long, which begins so. Lines that were to divide it may be the cause.
fn hint_for_long_job(alloc: Global, text: &[u8], longest: usize) -> Result<String, AllocError> {
    let bytes = noun(longest == 1, "byte", "bytes");
    let hint = format!(in alloc;
        "it has more than {longest} {bytes}, which is the most that is read"
    )?;
    match hint_for_dividers(alloc, text)? {
        Some(cause) => format!(in alloc; "{hint}; {cause}"),
        None => Ok(hint),
    }
}
