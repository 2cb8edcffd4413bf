ghost use Rattle.std.specs.Prelude.{◌≡◌, ◌++◌, map, codes, decimal, IfOk, OnOk, OnErr};
ghost use Rattle.convoy_lines.specs.Texts.{ended, line_of, spaced, text_of};
ghost use Rattle.convoy_certificate.specs.Text.{version_line, schedule_lines, order_line, ranks_written, node_line, certificate_text};

use super::certificate::Certificate;
use super::node::Node;
use super::version::Version;
use convoy_lines::{push_number, push_number_line};
use convoy_packets::{Order, Schedule};
use convoy_scenario::{Scenario, Time};
use convoy_scenario_lines::write_lines;
use std::alloc::{AllocError, Global};

/// Appends the text of a certificate (docs/FORMATS.md, "Certificate text"). Where memory runs out,
/// `out` stays as it was.
pub fn write(alloc: Global, certificate: &Certificate, out: &mut Vec<u8>) -> Result<(), AllocError>
    ensures ok { OnOk result (out.new.items ≡ out.old.items ++ certificate_text certificate.now) }
    ensures err { OnErr result (out.new.items ≡ out.old.items) }
{
    let text = text_of(alloc, certificate)?;
    out.extend_from_slice(&text)
}

/// The text of a certificate (docs/FORMATS.md, "Certificate text"). Fails where memory runs out, and else never.
pub fn text_of(alloc: Global, certificate: &Certificate) -> Result<Vec<u8>, AllocError>
    ensures { IfOk result (λ text. text.items ≡ certificate_text certificate.now) }
{
    let version = certificate.version();
    let mut text = Vec::from_slice(alloc, version_line(version))?;
    let scenario = certificate.scenario();
    write_lines(alloc, version.of_lines(), scenario, &mut text)?;
    push_number_line(&mut text, "latency", certificate.latency())?;
    push_schedule(alloc, scenario, certificate.schedule(), &mut text)?;
    push_nodes(&mut text, certificate.nodes())?;
    text.extend_from_slice(b"end\n")?;
    Ok(text)
}

/// The first line, ended.
fn version_line(version: Version) -> &'static [u8]
    ensures { result.now ≡ ended (version_line version) }
{
    match version {
        Version::One => b"convoy 1\n",
        Version::Two => b"convoy 2\n",
        Version::Three => b"convoy 3\n",
        Version::Four => b"convoy 4\n",
        Version::Five => b"convoy 5\n",
    }
}

/// Appends the lines of a schedule: that of its delays in packet order, and in real time that of the
/// order of its ties. Where memory runs out, a front of the lines may have been appended.
pub fn push_schedule(
    alloc: Global,
    scenario: &Scenario,
    schedule: &Schedule,
    text: &mut Vec<u8>,
) -> Result<(), AllocError>
    ensures { OnOk result
        (text.new.items ≡ text.old.items ++ text_of (schedule_lines scenario.now schedule.now)) }
{
    push_list(text, "schedule", schedule.delays())?;
    match scenario.time() {
        Time::Ticks => Ok(()),
        Time::Real => push_order(alloc, scenario, schedule.order(), text),
    }
}

/// Appends the line of an order of ties. Where memory runs out, a front of the line may have been
/// appended.
fn push_order(
    alloc: Global,
    scenario: &Scenario,
    order: &Order,
    text: &mut Vec<u8>,
) -> Result<(), AllocError>
    ensures { OnOk result (text.new.items
        ≡ text.old.items ++ ended (order_line (ranks_written scenario.now order.now))) }
{
    if order.is_none() {
        return push_list(text, "order", &[]);
    }
    let ranks = order.ranks(alloc, scenario)?;
    push_list(text, "order", &ranks)
}

/// Appends a line of numbers: its label, and each number after a space.
fn push_list(text: &mut Vec<u8>, label: &str, numbers: &[u16]) -> Result<(), AllocError>
    ensures { OnOk result (text.new.items
        ≡ text.old.items ++ ended (line_of label.now (map decimal numbers.now))) }
{
    text.extend_from_slice(label.as_bytes())?;
    for number in numbers {
        push_further_number(text, u32::from(*number))?;
    }
    Ok(text.push(b'\n')?)
}

fn push_nodes(text: &mut Vec<u8>, nodes: &[Node]) -> Result<(), AllocError>
    ensures { OnOk result (text.new.items ≡ text.old.items ++ text_of (map node_line nodes.now)) }
{
    for node in nodes {
        push_node(text, *node)?;
    }
    Ok(())
}

fn push_node(text: &mut Vec<u8>, node: Node) -> Result<(), AllocError>
    ensures { OnOk result (text.new.items ≡ text.old.items ++ ended (node_line node)) }
{
    match node {
        Node::Split { packet, at } => {
            text.push(b's')?;
            push_further_number(text, u32::from(packet))?;
            push_further_number(text, u32::from(at))?;
        }
        Node::Order { first, second } => {
            text.push(b'o')?;
            push_further_number(text, u32::from(first))?;
            push_further_number(text, u32::from(second))?;
        }
        Node::Bound => text.push(b'b')?,
        Node::Point => text.push(b'p')?,
        Node::Stamp => text.push(b't')?,
        Node::Lead { latency } => {
            text.push(b'c')?;
            push_further_number(text, latency)?;
        }
    }
    Ok(text.push(b'\n')?)
}

/// Appends a space and a number.
fn push_further_number(text: &mut Vec<u8>, number: u32) -> Result<(), AllocError>
    ensures { OnOk result (text.new.items ≡ text.old.items ++ spaced (decimal number)) }
{
    text.push(b' ')?;
    push_number(text, number)
}
