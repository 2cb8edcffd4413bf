ghost use Rattle.std.specs.Prelude.{◌≡◌, ◌≤◌, ◌<◌, [], ◌∷◌, ◌++◌, List, ℕ, length, MatchBool, MatchResult};
ghost use Rattle.convoy_streams.specs.Jobs.{Job, begun, ended_jobs, is_blank, with_bytes};
ghost use Rattle.convoy_streams.specs.Splitting.{DividesJob, EndsJob, Finishes, GoesOn, Holds, IsAfter, IsBegun, IsJobFault, IsJobStart, next_label_of};
ghost use Rattle.convoy_streams.specs.Steps.{front_of};

use super::label::{LONGEST_LABEL, Label};
use super::line::{Line, Step};
use std::alloc::{AllocError, Global};
use thiserror::Error;

/// Why the text of a job is not at hand.
#[derive(Clone, Copy, Debug, PartialEq, Eq, Error)]
pub enum JobFault {
    /// It has more bytes than a job may have.
    #[error("the job is too long")]
    TooLong,
    /// Memory ran out.
    #[error("out of memory")]
    Memory,
}

/// Splits a text into its jobs as it comes, and keeps the label and the text of one job. A line that is
/// exactly `---`, or `--- LABEL`, divides two jobs, but for a label that comes before all else of a job that
/// has none: that names the job (docs/FORMATS.md, "Batch").
///
/// A job of more than `longest` bytes is read to its end and not kept, and so is one for which memory
/// runs out.
#[derive(Drop)]
pub struct Splitter {
    text: Vec<u8>,
    /// How many bytes more the job may have.
    room: usize,
    fault: Option<JobFault>,
    line: Line,
    label: Label,
    /// What has come of a label in the line that is being read; after a divider, the label of the next job.
    next_label: Label,
    longest: usize,
}

impl Splitter {
    /// A splitter at the beginning of a text, whose jobs have at most `longest` bytes.
    pub fn new(alloc: Global, longest: usize) -> Splitter
        ensures { IsAfter longest result [] }
    {
        Splitter {
            text: Vec::new(alloc),
            room: longest,
            fault: None,
            line: Line::Start,
            label: Label::new(),
            next_label: Label::new(),
            longest,
        }
    }

    /// Takes the next byte of the text, and answers whether a job has ended with it, by a divider. Then
    /// [`label`](Self::label) and [`job`](Self::job) are those of that job, until
    /// [`start_next`](Self::start_next).
    pub fn take(&mut self, byte: u8) -> bool
        ensures { (longest : ℕ) (text : List ℕ) → IsAfter longest self.old text →
            MatchBool result (EndsJob longest self.new text (byte ∷ [])) (GoesOn longest self.new text (byte ∷ [])) }
    {
        match self.line.step(self.next_label.len(), byte) {
            Step::Ends => self.divide(),
            Step::Waits(line) => {
                self.line = line;
                false
            }
            Step::Adds => {
                self.next_label.push(byte);
                false
            }
            Step::Keeps(line) => {
                self.keep_line();
                self.keep(&[byte]);
                self.line = line;
                false
            }
        }
    }

    /// Starts the next job, after a divider.
    pub fn start_next(&mut self)
        ensures begun { (longest : ℕ) (job : Job) → Holds longest self.old job →
            IsBegun longest self.new (next_label_of self.old) }
        ensures after { (longest : ℕ) (job : Job) → Holds longest self.old job →
            (text : List ℕ) → IsJobStart (next_label_of self.old) text → IsAfter longest self.new text }
    {
        self.text.clear();
        self.room = self.longest;
        self.fault = None;
        self.line = Line::Start;
        self.label = self.next_label.take();
    }

    /// The text is over. Answers whether a job ends by its last line, a divider that has no byte 10: then one
    /// more job follows, without text. [`label`](Self::label) and [`job`](Self::job) are those of the job
    /// that ended.
    pub fn finish(&mut self) -> bool
        ensures { (longest : ℕ) (text : List ℕ) → IsAfter longest self.old text → Finishes longest self.new text result }
    {
        if self.line.is_whole(self.next_label.len()) {
            return self.divide();
        }
        self.keep_line();
        false
    }

    /// The label of the job that ended, empty where it has none.
    pub fn label(&self) -> &[u8]
        ensures label { (longest : ℕ) (job : Job) → Holds longest self.now job → result.now ≡ job.label }
        ensures short { length result.now ≤ LONGEST_LABEL }
    {
        self.label.as_slice()
    }

    /// The text of the job that ended, or why it is not at hand.
    pub fn job(&self) -> Result<&[u8], JobFault>
        ensures { (longest : ℕ) (job : Job) → Holds longest self.now job →
            MatchResult result (λ text. (text.now ≡ job.text) × (length job.text ≤ longest))
            (λ fault. IsJobFault longest job.text fault) }
    {
        match self.fault {
            None => Ok(self.text.as_slice()),
            Some(fault) => Err(fault),
        }
    }

    /// A divider has come: answers whether it ends the job. Where nothing has come of that, not even a label,
    /// a divider with a label only names it.
    fn divide(&mut self) -> bool
        ensures { (longest : ℕ) (job : Job) → Holds longest self.old job →
            DividesJob longest self.new (next_label_of self.old) job result }
    {
        if self.next_label.is_empty() || !self.is_blank() {
            return true;
        }
        self.start_next();
        false
    }

    /// Whether nothing has come of the job, not even a label.
    fn is_blank(&self) -> bool
        ensures { (longest : ℕ) (job : Job) → Holds longest self.now job → result ≡ is_blank job }
    {
        if let Some(JobFault::TooLong) = self.fault {
            return false;
        }
        self.label.is_empty() && self.room == self.longest
    }

    /// Adds to the job what was not kept of the line that is being read, as it might have been a divider.
    fn keep_line(&mut self)
        ensures held { (longest : ℕ) (job : Job) → Holds longest self.old job →
            Holds longest self.new (with_bytes job (front_of self.old.line ++ next_label_of self.old)) }
        ensures none { next_label_of self.new ≡ [] }
        ensures line { self.new.line ≡ self.old.line }
    {
        let label = self.next_label.take();
        self.keep(self.line.front());
        self.keep(&label);
    }

    /// Adds bytes to the job.
    fn keep(&mut self, bytes: &[u8])
        ensures held { (longest : ℕ) (job : Job) → Holds longest self.old job → Holds longest self.new (with_bytes job bytes.now) }
        ensures line { self.new.line ≡ self.old.line }
        ensures next { next_label_of self.new ≡ next_label_of self.old }
    {
        if bytes.len() > self.room {
            self.room = 0;
            self.fault = Some(JobFault::TooLong);
            return;
        }
        self.room -= bytes.len();
        if self.fault.is_some() {
            return;
        }
        match self.text.extend_from_slice(bytes) {
            Ok(()) => {}
            Err(AllocError) => self.fault = Some(JobFault::Memory),
        }
    }
}
