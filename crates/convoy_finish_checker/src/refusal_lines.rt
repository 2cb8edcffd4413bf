//! The line that tells why a certificate of finishes is refused.

ghost use Rattle.std.specs.Prelude.{◌≡◌, IfOk, string_bytes};
ghost use Rattle.convoy_commands.specs.Refusals.{refused_line};
ghost use Rattle.convoy_finish_checker.specs.FinishRefusals.{row_of_check, row_of_refusal, row_of_text, finish_line_word};

use super::finish_refusal::FinishRefusal;
use super::finish_refused::FinishRefused;
use super::finish_text_fault::{FinishLine, FinishTextFault};
use convoy_commands::text_fault_line;
use std::alloc::{AllocError, Global};

/// The line of a refusal: `refused`, its number, its text, and byte 10 (docs/FORMATS.md, "Certificates of finishes"). Fails
/// where memory runs out, and else never.
pub fn finish_refusal_line(alloc: Global, refusal: FinishRefusal) -> Result<String, AllocError>
    ensures { IfOk result (λ line. string_bytes line ≡ refused_line (row_of_refusal refusal)) }
{
    match refusal {
        FinishRefusal::Text(fault) => line_of_text(alloc, fault),
        FinishRefusal::Check(refused) => line_of_check(alloc, refused),
    }
}

/// The line of a fault of the text.
fn line_of_text(alloc: Global, fault: FinishTextFault) -> Result<String, AllocError>
    ensures { IfOk result (λ line. string_bytes line ≡ refused_line (row_of_text fault)) }
{
    match fault {
        FinishTextFault::Line(number, expected) => {
            let word = word_of_line(expected);
            format!(in alloc; "refused 20 line {number} expected {word}\n")
        }
        FinishTextFault::Certificate(fault) => text_fault_line(alloc, fault),
        FinishTextFault::Spelling => String::from_str(alloc, "refused 80 spelling\n"),
        FinishTextFault::Memory => String::from_str(alloc, "refused 11 out of memory\n"),
    }
}

fn word_of_line(expected: FinishLine) -> &'static str
    ensures { result.now ≡ finish_line_word expected }
{
    match expected {
        FinishLine::Finish => "convoy finish",
        FinishLine::Ways => "ways",
    }
}

/// The line of a fault of the certificate.
fn line_of_check(alloc: Global, refused: FinishRefused) -> Result<String, AllocError>
    ensures { IfOk result (λ line. string_bytes line ≡ refused_line (row_of_check refused)) }
{
    match refused {
        FinishRefused::Tree => String::from_str(alloc, "refused 25 tree count\n"),
        FinishRefused::Latency(latency) => format!(in alloc; "refused 23 simulated {latency}\n"),
        FinishRefused::Open => String::from_str(alloc, "refused 95 not closed\n"),
        FinishRefused::Memory => String::from_str(alloc, "refused 11 out of memory\n"),
    }
}
