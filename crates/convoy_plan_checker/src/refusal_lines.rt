//! The line that tells why a certificate of a plan is refused.

ghost use Rattle.std.specs.Prelude.{◌≡◌, IfOk, string_bytes};
ghost use Rattle.convoy_commands.specs.Refusals.{refused_line};
ghost use Rattle.convoy_plan_checker.specs.RefusalLines.{plan_line_word, row_of_check, row_of_refusal, row_of_text};

use super::plan_refusal::PlanRefusal;
use super::plan_refused::PlanRefused;
use convoy_plan_certificate::{PlanLine, PlanTextFault};
use std::alloc::{AllocError, Global};

/// The line of a refusal: `refused`, its number, its text, and byte 10 (docs/FORMATS.md, "Certificates of plans"). Fails where
/// memory runs out, and else never.
pub fn plan_refusal_line(alloc: Global, refusal: PlanRefusal) -> Result<String, AllocError>
    ensures { IfOk result (λ line. string_bytes line ≡ refused_line (row_of_refusal refusal)) }
{
    match refusal {
        PlanRefusal::Text(fault) => line_of_text(alloc, fault),
        PlanRefusal::Check(refused) => line_of_check(alloc, refused),
    }
}

/// The line of a fault of the text.
fn line_of_text(alloc: Global, fault: PlanTextFault) -> Result<String, AllocError>
    ensures { IfOk result (λ line. string_bytes line ≡ refused_line (row_of_text fault)) }
{
    match fault {
        PlanTextFault::Line(number, expected) => {
            let word = word_of_line(expected);
            format!(in alloc; "refused 20 line {number} expected {word}\n")
        }
        PlanTextFault::Certificate(number, _) => {
            format!(in alloc; "refused 81 no certificate {number}\n")
        }
        PlanTextFault::AfterEnd => String::from_str(alloc, "refused 28 after end\n"),
        PlanTextFault::Spelling => String::from_str(alloc, "refused 80 spelling\n"),
        PlanTextFault::Memory => String::from_str(alloc, "refused 11 out of memory\n"),
    }
}

/// The line of a fault of the certificate.
fn line_of_check(alloc: Global, refused: PlanRefused) -> Result<String, AllocError>
    ensures { IfOk result (λ line. string_bytes line ≡ refused_line (row_of_check refused)) }
{
    match refused {
        PlanRefused::Placement => String::from_str(alloc, "refused 82 placement\n"),
        PlanRefused::Unmade => String::from_str(alloc, "refused 83 no scenario\n"),
        PlanRefused::Order => String::from_str(alloc, "refused 84 order\n"),
        PlanRefused::Count => String::from_str(alloc, "refused 85 certificate count\n"),
        PlanRefused::Scenario(number) => {
            format!(in alloc; "refused 86 other scenario {number}\n")
        }
        PlanRefused::Certificate(number, _) => {
            format!(in alloc; "refused 87 certificate {number}\n")
        }
        PlanRefused::Split(node) => format!(in alloc; "refused 24 split node {node}\n"),
        PlanRefused::Apart(node) => format!(in alloc; "refused 88 apart leaf {node}\n"),
        PlanRefused::Commit(node) => format!(in alloc; "refused 89 commit leaf {node}\n"),
        PlanRefused::NoScenario(node) => format!(in alloc; "refused 90 scenario leaf {node}\n"),
        PlanRefused::Late(node) => format!(in alloc; "refused 91 witness leaf {node}\n"),
        PlanRefused::TreeCount => String::from_str(alloc, "refused 25 tree count\n"),
        PlanRefused::Memory => String::from_str(alloc, "refused 11 out of memory\n"),
    }
}

fn word_of_line(expected: PlanLine) -> &'static str
    ensures { result.now ≡ plan_line_word expected }
{
    match expected {
        PlanLine::Plan => "convoy plan",
        PlanLine::Sites => "sites",
        PlanLine::Order => "order",
        PlanLine::Tree => "tree",
        PlanLine::Node => "node",
        PlanLine::Witness => "witness",
        PlanLine::Schedule => "schedule",
        PlanLine::Ranks => "order",
    }
}
