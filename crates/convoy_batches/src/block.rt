ghost use Rattle.std.specs.Prelude.{◌≡◌, ◌≤◌, ◌+◌, ℕ, List, ◌++◌, length, Ok};
ghost use Rattle.std.specs.List.{flat_map};
ghost use Rattle.convoy_lines.specs.Texts.{spaced};
ghost use Rattle.convoy_streams.specs.declared.label.TheConstants.{LONGEST_LABEL};
ghost use Rattle.convoy_batches.specs.BatchSteps.{IsBlockFor, end_of};
ghost use Rattle.convoy_batches.specs.Batches.{job_line, label_words};
ghost use Rattle.convoy_commands.specs.Faults.{IsShortEnding, ending_text, fault_line_of};
ghost use Rattle.convoy_commands.specs.Replies.{reply_of};

use convoy_commands::{Answer, Done, Fault, FaultEnding, fault_row};
use convoy_lines::ReservedText;
use itoa::Buffer;

/// Makes a text the block of the job of that number and label: what is answered for the job, or the line of
/// its fault. Answers how the job so ended.
pub(crate) fn fill(
    block: &mut ReservedText,
    number: u32,
    label: &[u8],
    answer: Result<Answer, Fault>,
) -> Done
    requires { length label.now ≤ LONGEST_LABEL }
    ensures { IsBlockFor number label.now (reply_of answer) result block.new }
{
    start(block, number, label);
    match answer {
        Ok(answer) => {
            if block.append(&answer.text).is_err() {
                push_fault(block, &Fault::Memory);
                return Done::Faulty;
            }
            end_of_answer(answer.done)
        }
        Err(fault) => {
            push_fault(block, &fault);
            Done::Faulty
        }
    }
}

/// Makes a text the first line of a block.
fn start(block: &mut ReservedText, number: u32, label: &[u8])
    requires { length label.now ≤ LONGEST_LABEL }
    ensures line { block.new ≡ job_line number label.now }
    ensures short { length block.new ≤ 128 }
{
    let mut digits = Buffer::new();
    block.clear();
    block.push(b"job ");
    block.push(digits.format(number).as_bytes());
    push_label(block, label);
    block.push(b"\n");
}

/// Appends a label as a further word, where it has a byte.
fn push_label(block: &mut ReservedText, label: &[u8])
    requires room { length block.old ≤ 1024 }
    requires short { length label.now ≤ LONGEST_LABEL }
    ensures text { block.new ≡ block.old ++ flat_map spaced (label_words label.now) }
    ensures short { length block.new ≤ length block.old + 1 + length label.now }
{
    if label.is_empty() {
        return;
    }
    block.push(b" ");
    block.push(label);
}

/// Appends the line of a fault.
fn push_fault(block: &mut ReservedText, fault: &Fault)
    requires { length block.old ≤ 128 }
    ensures { block.new ≡ block.old ++ fault_line_of fault.now }
{
    let (number, phrase, ending) = fault_row(fault);
    let mut digits = Buffer::new();
    block.push(b"fault ");
    block.push(digits.format(number).as_bytes());
    block.push(b" ");
    block.push(phrase.as_bytes());
    push_ending(block, ending);
    block.push(b"\n");
}

/// Appends what ends the text of a fault.
fn push_ending(block: &mut ReservedText, ending: FaultEnding)
    requires room { length block.old ≤ 1024 }
    requires short { IsShortEnding ending }
    ensures text { block.new ≡ block.old ++ ending_text ending }
    ensures short { length block.new ≤ length block.old + 64 }
{
    match ending {
        FaultEnding::Word(word) => block.push(word.as_bytes()),
        FaultEnding::Number(value) => block.push(Buffer::new().format(value).as_bytes()),
    }
}

/// How a job ended whose answer was written.
fn end_of_answer(done: Done) -> Done
    ensures { (out : List ℕ) → result ≡ end_of (Ok (done, out)) }
{
    match done {
        Done::Fine | Done::Open | Done::Beyond => done,
        Done::Faulty
        | Done::Refused(_)
        | Done::PlanRefused
        | Done::WorkflowRefused
        | Done::FinishRefused
        | Done::Differs(_)
        | Done::Departs
        | Done::NotChecked => Done::Faulty,
    }
}
