ghost use Rattle.std.specs.Prelude.{◌≡◌, ◌++◌, map, codes, decimal, IfOk, OnOk};
ghost use Rattle.std.specs.List.{flat_map};
ghost use Rattle.convoy_certificate.specs.Text.{certificate_text};
ghost use Rattle.convoy_lines.specs.Texts.{ended, line_of, spaced};
ghost use Rattle.convoy_plan_certificate.specs.PlanTexts.{branch_text, order_text, plan_certificate_text, ranks_text, sites_text, witness_text};

use super::branch::{Branch, Witness};
use super::plan_certificate::PlanCertificate;
use convoy_certificate::{Certificate, write};
use itoa::Buffer;
use std::alloc::{AllocError, Global};

/// The text of a certificate of a plan (docs/FORMATS.md, "Certificates of plans"). Fails where memory runs out, and else never.
pub fn plan_certificate_text(
    alloc: Global,
    certificate: &PlanCertificate,
) -> Result<Vec<u8>, AllocError>
    ensures { IfOk result (λ text. text.items ≡ plan_certificate_text certificate.now) }
{
    let mut text = Vec::from_slice(alloc, b"convoy plan 1\n")?;
    push_numbers(&mut text, "sites", &certificate.placement)?;
    push_numbers(&mut text, "order", &certificate.order)?;
    push_shown(alloc, &mut text, &certificate.shown)?;
    text.extend_from_slice(b"tree\n")?;
    push_branches(&mut text, &certificate.nodes)?;
    text.extend_from_slice(b"end\n")?;
    Ok(text)
}

/// Appends the certificates, each as it is written alone.
fn push_shown(alloc: Global, text: &mut Vec<u8>, shown: &[Certificate]) -> Result<(), AllocError>
    ensures { OnOk result (text.new.items ≡ text.old.items ++ flat_map certificate_text shown.now) }
{
    for certificate in shown {
        write(alloc, certificate, text)?;
    }
    Ok(())
}

/// Appends the nodes.
fn push_branches(text: &mut Vec<u8>, nodes: &[Branch]) -> Result<(), AllocError>
    ensures { OnOk result (text.new.items ≡ text.old.items ++ flat_map branch_text nodes.now) }
{
    for node in nodes {
        push_branch(text, node)?;
    }
    Ok(())
}

/// Appends a node.
fn push_branch(text: &mut Vec<u8>, node: &Branch) -> Result<(), AllocError>
    ensures { OnOk result (text.new.items ≡ text.old.items ++ branch_text node.now) }
{
    match node {
        Branch::Split(group) => push_numbers(text, "s", &[*group]),
        Branch::Apart(group, other) => push_numbers(text, "a", &[*group, *other]),
        Branch::Commit(target) => push_numbers(text, "c", &[*target]),
        Branch::NoScenario => text.extend_from_slice(b"n\n"),
        Branch::Late(witnesses) => {
            text.extend_from_slice(b"w\n")?;
            push_witnesses(text, witnesses)
        }
    }
}

/// Appends the witnesses of a node.
fn push_witnesses(text: &mut Vec<u8>, witnesses: &[Witness]) -> Result<(), AllocError>
    ensures { OnOk result (text.new.items ≡ text.old.items ++ flat_map witness_text witnesses.now) }
{
    for witness in witnesses {
        push_witness(text, witness)?;
    }
    Ok(())
}

/// Appends a witness: the line of its target, and those of its schedule.
fn push_witness(text: &mut Vec<u8>, witness: &Witness) -> Result<(), AllocError>
    ensures { OnOk result (text.new.items ≡ text.old.items ++ witness_text witness.now) }
{
    push_numbers(text, "t", &[witness.target])?;
    push_list(text, "schedule", &witness.delays)?;
    push_ranks(text, &witness.ranks)
}

/// Appends the line of ranks, if there are any.
fn push_ranks(text: &mut Vec<u8>, ranks: &[u16]) -> Result<(), AllocError>
    ensures { OnOk result (text.new.items ≡ text.old.items ++ ranks_text ranks.now) }
{
    match ranks {
        [] => Ok(()),
        _ => push_list(text, "order", ranks),
    }
}

/// Appends a line of numbers: its label, and each number after a space.
fn push_numbers(text: &mut Vec<u8>, label: &str, numbers: &[usize]) -> Result<(), AllocError>
    ensures { OnOk result (text.new.items
        ≡ text.old.items ++ ended (line_of label.now (map decimal numbers.now))) }
{
    text.extend_from_slice(label.as_bytes())?;
    for number in numbers {
        push_further_number(text, *number)?;
    }
    Ok(text.push(b'\n')?)
}

/// The same of delays or ranks.
fn push_list(text: &mut Vec<u8>, label: &str, numbers: &[u16]) -> Result<(), AllocError>
    ensures { OnOk result (text.new.items
        ≡ text.old.items ++ ended (line_of label.now (map decimal numbers.now))) }
{
    text.extend_from_slice(label.as_bytes())?;
    for number in numbers {
        push_further_number(text, usize::from(*number))?;
    }
    Ok(text.push(b'\n')?)
}

/// Appends a space and a number.
fn push_further_number(text: &mut Vec<u8>, number: usize) -> Result<(), AllocError>
    ensures { OnOk result (text.new.items ≡ text.old.items ++ spaced (decimal number)) }
{
    let mut buffer = Buffer::new();
    text.push(b' ')?;
    text.extend_from_slice(buffer.format(number).as_bytes())
}
