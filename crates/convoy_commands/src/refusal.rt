ghost use Rattle.std.specs.Prelude.{◌≡◌, ◌++◌, OnOk, OnErr, IfOk, string_bytes};
ghost use Rattle.convoy_commands.specs.Refusals.{line_word, refused_line, row_of_check, row_of_refusal, row_of_text, scenario_text};

use super::fault::{FaultEnding, scenario_row};
use convoy_certificate::TextFault;
use convoy_checker::{Refusal, Refused};
use convoy_scenario::ScenarioFault;
use convoy_scenario_lines::Expected;
use std::alloc::{AllocError, Global};

/// Appends the line of a refusal: `refused`, its number, its text, and byte 10. Where memory runs
/// out the vector is as it was.
pub(crate) fn refusal_line(refusal: Refusal, out: &mut Vec<u8>) -> Result<(), AllocError>
    ensures ok { OnOk result (out.new.items ≡ out.old.items ++ refused_line (row_of_refusal refusal)) }
    ensures err { OnErr result (out.new.items ≡ out.old.items) }
{
    let alloc = *out.allocator();
    let line = match refusal {
        Refusal::Text(fault) => text_fault_line(alloc, fault)?,
        Refusal::Check(fault) => line_of_check(alloc, fault)?,
    };
    out.extend_from_slice(line.as_bytes())
}

/// The line that tells of a fault of a certificate's text: `refused`, its number, its text, and byte 10 (docs/FORMATS.md,
/// "Refusals"). Fails where memory runs out, and else never.
pub fn text_fault_line(alloc: Global, fault: TextFault) -> Result<String, AllocError>
    ensures { IfOk result (λ line. string_bytes line ≡ refused_line (row_of_text fault)) }
{
    match fault {
        TextFault::Line(number, expected) => {
            let word = word_of_line(expected);
            format!(in alloc; "refused 20 line {number} expected {word}\n")
        }
        TextFault::Scenario(fault) => line_of_scenario(alloc, fault),
        TextFault::Schedule => String::from_str(alloc, "refused 22 schedule\n"),
        TextFault::TreeCount => String::from_str(alloc, "refused 25 tree count\n"),
        TextFault::AfterEnd => String::from_str(alloc, "refused 28 after end\n"),
        TextFault::Memory => String::from_str(alloc, "refused 11 out of memory\n"),
    }
}

/// The line of a fault of the scenario in a certificate.
fn line_of_scenario(alloc: Global, fault: ScenarioFault) -> Result<String, AllocError>
    ensures { IfOk result (λ line. string_bytes line ≡ refused_line (21, scenario_text fault)) }
{
    let (number, phrase, ending) = scenario_row(fault);
    match ending {
        FaultEnding::Word(word) => format!(in alloc;
            "refused 21 scenario {number} {phrase}{word}\n"
        ),
        FaultEnding::Number(value) => format!(in alloc;
            "refused 21 scenario {number} {phrase}{value}\n"
        ),
    }
}

/// The line of a fault of the certificate.
fn line_of_check(alloc: Global, fault: Refused) -> Result<String, AllocError>
    ensures { IfOk result (λ line. string_bytes line ≡ refused_line (row_of_check fault)) }
{
    match fault {
        Refused::Latency(simulated) => format!(in alloc; "refused 23 simulated {simulated}\n"),
        Refused::Split(node) => format!(in alloc; "refused 24 split node {node}\n"),
        Refused::TreeCount => String::from_str(alloc, "refused 25 tree count\n"),
        Refused::BoundLeaf(node, bound) => {
            format!(in alloc; "refused 26 bound leaf {node} bound {bound}\n")
        }
        Refused::PointLeaf(node) => format!(in alloc; "refused 27 point leaf {node}\n"),
        Refused::StampLeaf(node, bound) => {
            format!(in alloc; "refused 29 stamp leaf {node} bound {bound}\n")
        }
        Refused::LeadLeaf(node) => format!(in alloc; "refused 36 lead leaf {node}\n"),
        Refused::Memory => String::from_str(alloc, "refused 11 out of memory\n"),
    }
}

fn word_of_line(expected: Expected) -> &'static str
    ensures { result.now ≡ line_word expected }
{
    match expected {
        Expected::Convoy => "convoy",
        Expected::Time => "time",
        Expected::Tick => "tick",
        Expected::Delay => "delay",
        Expected::Groups => "groups",
        Expected::Places => "places",
        Expected::Link => "link",
        Expected::Multicast => "multicast",
        Expected::Target => "target",
        Expected::Latency => "latency",
        Expected::Schedule => "schedule",
        Expected::Order => "order",
        Expected::Node => "node",
    }
}
