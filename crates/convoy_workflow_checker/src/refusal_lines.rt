//! The line that tells why a certificate of a workflow is refused.

ghost use Rattle.std.specs.Prelude.{◌≡◌, IfOk, string_bytes};
ghost use Rattle.convoy_commands.specs.Refusals.{refused_line};
ghost use Rattle.convoy_workflow_checker.specs.RefusalLines.{row_of_check, row_of_refusal, row_of_text, workflow_line_word};

use super::workflow_refusal::WorkflowRefusal;
use super::workflow_refused::WorkflowRefused;
use convoy_commands::text_fault_line;
use convoy_workflow_certificate::{WorkflowLine, WorkflowTextFault};
use std::alloc::{AllocError, Global};

/// The line of a refusal: `refused`, its number, its text, and byte 10 (docs/FORMATS.md, "Certificates of workflows"). Fails
/// where memory runs out, and else never.
pub fn workflow_refusal_line(alloc: Global, refusal: WorkflowRefusal) -> Result<String, AllocError>
    ensures { IfOk result (λ line. string_bytes line ≡ refused_line (row_of_refusal refusal)) }
{
    match refusal {
        WorkflowRefusal::Text(fault) => line_of_text(alloc, fault),
        WorkflowRefusal::Check(refused) => line_of_check(alloc, refused),
    }
}

/// The line of a fault of the text.
fn line_of_text(alloc: Global, fault: WorkflowTextFault) -> Result<String, AllocError>
    ensures { IfOk result (λ line. string_bytes line ≡ refused_line (row_of_text fault)) }
{
    match fault {
        WorkflowTextFault::Line(number, expected) => {
            let word = word_of_line(expected);
            format!(in alloc; "refused 20 line {number} expected {word}\n")
        }
        WorkflowTextFault::Certificate(fault) => text_fault_line(alloc, fault),
        WorkflowTextFault::Spelling => String::from_str(alloc, "refused 80 spelling\n"),
        WorkflowTextFault::Memory => String::from_str(alloc, "refused 11 out of memory\n"),
    }
}

fn word_of_line(expected: WorkflowLine) -> &'static str
    ensures { result.now ≡ workflow_line_word expected }
{
    match expected {
        WorkflowLine::Workflow => "convoy workflow",
        WorkflowLine::Follow => "follow",
        WorkflowLine::Within => "within",
        WorkflowLine::From => "from",
    }
}

/// The line of a fault of the certificate.
fn line_of_check(alloc: Global, refused: WorkflowRefused) -> Result<String, AllocError>
    ensures { IfOk result (λ line. string_bytes line ≡ refused_line (row_of_check refused)) }
{
    match refused {
        WorkflowRefused::Tree => String::from_str(alloc, "refused 25 tree count\n"),
        WorkflowRefused::Cause(place) => format!(in alloc; "refused 92 cause {place}\n"),
        WorkflowRefused::Origin => String::from_str(alloc, "refused 93 origin\n"),
        WorkflowRefused::Followed(place) => format!(in alloc; "refused 94 not followed {place}\n"),
        WorkflowRefused::Time(time) => format!(in alloc; "refused 23 simulated {time}\n"),
        WorkflowRefused::Open => String::from_str(alloc, "refused 95 not closed\n"),
        WorkflowRefused::Memory => String::from_str(alloc, "refused 11 out of memory\n"),
    }
}
