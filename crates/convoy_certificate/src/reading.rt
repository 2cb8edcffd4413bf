ghost use Rattle.std.specs.Prelude.{◌≡◌, ◌≤◌, nat_le, if◌then◌else◌, codes, Some, None, Ok, IfOk, IfSome, IsTrue};
ghost use Rattle.std.specs.Cmp.Lexicographic.{pointwise};
ghost use Rattle.std.specs.List.{All, list_all};
ghost use Rattle.std.specs.Result.{result_map_both};
ghost use Rattle.convoy_scenario.specs.Memory.{IsUnlessMemory};
ghost use Rattle.convoy_lines.specs.Labels.{number_in};
ghost use Rattle.convoy_packets.specs.declared.order.TheConstants.{GREATEST_RANK};
ghost use Rattle.convoy_packets.specs.Assignment.{IsAssignment};
ghost use Rattle.convoy_packets.specs.Order.{IsOrder};
ghost use Rattle.convoy_packets.specs.OrderLists.{AreSmall, order_of};
ghost use Rattle.convoy_draft.specs.declared.time.Time.TheVariants.{Real};
ghost use Rattle.convoy_scenario_lines.specs.LineReading.{form_at, scenario_at};
ghost use Rattle.convoy_certificate.specs.Certificate.{Certificate, IsCertificate, IsNode, IsNodeWhere};
ghost use Rattle.convoy_certificate.specs.Forms.{version_in, schedule_in, order_in, node_or_end};
ghost use Rattle.convoy_certificate.specs.Reading.{in_text, is_same_version, is_within, is_order_list, order_in_time, order_at, are_too_many, leads_with, nodes_at, schedule_at, tree_at, certificate_of, IsTextOf};
ghost use Rattle.convoy_certificate.specs.Text.{lines_version, says_time};

use super::certificate::{Certificate, MOST_LEADS, MOST_NODES, is_lead, target_waits, version_for};
use super::certificate_laws::{texts_are_kept, texts_are_read};
use super::certificate_lines::{list_in, node_or_end, version_in};
use super::node::Node;
use super::text_fault::TextFault;
use super::version::Version;
use convoy_lines::{LineReader, number_in};
use convoy_packets::schedule_laws::{fixed_order_is_order, no_ranks_give_fixed_order};
use convoy_packets::{GREATEST_RANK, Instance, Order, Schedule};
use convoy_scenario::{Scenario, Time};
use convoy_scenario_lines::{Expected, read_lines};
use std::alloc::{AllocError, Global};

/// What is read of a text, or the first fault there.
type Read<T> = Result<T, TextFault>;

/// Reads the text of a certificate (docs/FORMATS.md, "Certificate text").
///
/// The error is the first fault of the text, in the order of the lines; where memory runs out, it is
/// `TextFault::Memory`, and says nothing of the text. The tree's shape is not
/// looked at: any list of nodes up to `MOST_NODES`, at most `MOST_LEADS` of them lead leaves, is read, an
/// empty one too.
pub fn read(alloc: Global, text: &[u8]) -> Result<Certificate, TextFault>
    // What is read is a certificate: its schedule is an assignment of its scenario.
    ensures lawful { IfOk result (λ certificate. IsCertificate certificate) }
    // What is read has this text, and no more nodes than may be read.
    ensures found { IfOk result (λ certificate. IsTextOf certificate text.now) }
    // A text of such a certificate is read, unless memory runs out.
    ensures only { (certificate : Certificate) → IsCertificate certificate → IsTextOf certificate text.now →
        IsUnlessMemory TextFault.Memory (Ok certificate) result }
    // Which fault it is.
    ensures exact { IsUnlessMemory TextFault.Memory (certificate_of text.now) result }
{
    texts_are_kept();
    texts_are_read();
    read_all(alloc, text)
}

#[tactic(auto, unfolding(crate::specs::Reading::certificate_of))]
fn read_all(alloc: Global, text: &[u8]) -> Read<Certificate>
    ensures { IsUnlessMemory TextFault.Memory (certificate_of text.now) result }
{
    let mut reader = LineReader::over(text);
    let version = read_version(&mut reader)?;
    let instance = read_instance(alloc, version, &mut reader)?;
    let latency = read_latency(&mut reader)?;
    let schedule = read_schedule(alloc, &instance, &mut reader)?;
    let nodes = read_tree(alloc, version, instance.scenario(), &mut reader)?;
    Ok(Certificate::new(instance, latency, schedule, nodes))
}

fn is_same_version(version: Version, other: Version) -> bool
    ensures { result ≡ is_same_version version other }
{
    match (version, other) {
        (Version::One, Version::One) => true,
        (Version::Two, Version::Two) => true,
        (Version::Three, Version::Three) => true,
        (Version::Four, Version::Four) => true,
        (Version::Five, Version::Five) => true,
        _ => false,
    }
}

fn read_version(reader: &mut LineReader) -> Read<Version>
    ensures { result_map_both (λ version. (version, reader.new)) (λ fault. fault) result
        ≡ in_text (form_at Expected.Convoy version_in reader.old) }
{
    let wrong = TextFault::Line(reader.number(), Expected::Convoy);
    let line = reader.line().ok_or(wrong)?;
    version_in(line).ok_or(wrong)
}

/// The scenario of the next lines, with its packets.
fn read_instance(alloc: Global, version: Version, reader: &mut LineReader) -> Read<Instance>
    ensures { IsUnlessMemory TextFault.Memory
        (in_text (scenario_at (lines_version version) reader.old))
        (result_map_both (λ instance. (instance, reader.new)) (λ fault. fault) result) }
{
    let scenario = read_lines(alloc, version.of_lines(), reader)?;
    Ok(Instance::of(alloc, scenario)?)
}

fn read_latency(reader: &mut LineReader) -> Read<u32>
    ensures { result_map_both (λ latency. (latency, reader.new)) (λ fault. fault) result
        ≡ in_text (form_at Expected.Latency (number_in (codes "latency")) reader.old) }
{
    let wrong = TextFault::Line(reader.number(), Expected::Latency);
    let line = reader.line().ok_or(wrong)?;
    number_in(line, b"latency").ok_or(wrong)
}

/// The schedule of the next lines: one delay for each packet, each in its packet's range, and the order
/// of ties.
fn read_schedule(alloc: Global, instance: &Instance, reader: &mut LineReader) -> Read<Schedule>
    ensures value { IsUnlessMemory TextFault.Memory (schedule_at instance.now reader.old)
        (result_map_both (λ schedule. (schedule, reader.new)) (λ fault. fault) result) }
    ensures lawful { IfOk result (λ schedule. IsAssignment instance.now schedule) }
{
    let delays = read_delays(alloc, reader)?;
    if !are_within(instance.table().ranges(), &delays) {
        return Err(TextFault::Schedule);
    }
    let order = read_order(alloc, instance.scenario(), reader)?;
    Ok(Schedule::with_order(delays, order))
}

fn read_delays(alloc: Global, reader: &mut LineReader) -> Read<Vec<u16>>
    ensures { IsUnlessMemory TextFault.Memory
        (in_text (form_at Expected.Schedule schedule_in reader.old))
        (result_map_both (λ delays. (delays.items, reader.new)) (λ fault. fault) result) }
{
    let wrong = TextFault::Line(reader.number(), Expected::Schedule);
    let line = reader.line().ok_or(wrong)?;
    list_in(alloc, b"schedule", line, wrong)
}

/// Whether there is one delay for each range, in its range.
fn are_within(ranges: &[(u16, u16)], delays: &[u16]) -> bool
    ensures { result ≡ pointwise is_within ranges.now delays.now }
{
    let mut rest = delays;
    for range in ranges {
        let Some((delay, tail)) = rest.split_first() else {
            return false;
        };
        if *delay < range.0 || range.1 < *delay {
            return false;
        }
        rest = tail;
    }
    rest.is_empty()
}

/// The order of ties: that of the next line in real time, and the fixed one in whole ticks.
fn read_order(alloc: Global, scenario: &Scenario, reader: &mut LineReader) -> Read<Order>
    ensures value { IsUnlessMemory TextFault.Memory (order_at scenario.now reader.old)
        (result_map_both (λ order. (order, reader.new)) (λ fault. fault) result) }
    ensures lawful { IfOk result (λ order. IsOrder scenario.now order) }
{
    fixed_order_is_order();
    match scenario.time() {
        Time::Ticks => Ok(Order::none()),
        Time::Real => {
            let ranks = read_ranks(alloc, reader)?;
            order_of(scenario, &ranks).ok_or(TextFault::Schedule)
        }
    }
}

fn read_ranks(alloc: Global, reader: &mut LineReader) -> Read<Vec<u16>>
    ensures { IsUnlessMemory TextFault.Memory (in_text (form_at Expected.Order order_in reader.old))
        (result_map_both (λ ranks. (ranks.items, reader.new)) (λ fault. fault) result) }
{
    let wrong = TextFault::Line(reader.number(), Expected::Order);
    let line = reader.line().ok_or(wrong)?;
    list_in(alloc, b"order", line, wrong)
}

/// The order of the scenario's ties that a list of ranks is; None where it is not written as one.
fn order_of(scenario: &Scenario, ranks: &[u16]) -> Option<Order>
    requires { scenario.now.time ≡ Real }
    ensures value { result ≡ (if is_order_list scenario.now ranks.now
        then Some (order_of scenario.now ranks.now) else None) }
    ensures lawful { IfSome result (IsOrder scenario.now) }
{
    no_ranks_give_fixed_order();
    fixed_order_is_order();
    if ranks.is_empty() {
        return Some(Order::none());
    }
    if ranks.len() != Order::rank_count(scenario) || !are_small(ranks) {
        return None;
    }
    let order = Order::from_ranks(scenario, ranks);
    (!order.is_none()).then_some(order)
}

/// Whether none of the ranks is too great.
fn are_small(ranks: &[u16]) -> bool
    ensures value { result ≡ list_all (λ rank. nat_le rank GREATEST_RANK) ranks.now }
    ensures lawful { IsTrue result → AreSmall ranks.now }
{
    ranks.iter().all(|rank| *rank <= u16::from(GREATEST_RANK))
}

/// The nodes of the next lines, which are the last: those of a certificate of the scenario that is
/// written in that version.
fn read_tree(
    alloc: Global,
    version: Version,
    scenario: &Scenario,
    reader: &mut LineReader,
) -> Read<Vec<Node>>
    ensures value { IsUnlessMemory TextFault.Memory (tree_at version scenario.now reader.old)
        (result_map_both (λ nodes. nodes.items) (λ fault. fault) result) }
    ensures lawful { IfOk result (λ nodes. All (IsNode scenario.now) nodes.items) }
{
    let time = scenario.time();
    let nodes = read_nodes(alloc, version, time, reader)?;
    let waits = target_waits(scenario);
    let due = version_for(
        time,
        scenario.is_timed(),
        waits,
        scenario.link_count(),
        &nodes,
    );
    if !is_same_version(version, due) {
        return Err(TextFault::Line(1, Expected::Convoy));
    }
    if !reader.at_end() {
        return Err(TextFault::AfterEnd);
    }
    Ok(nodes)
}

/// The nodes up to the line `end`.
fn read_nodes(
    alloc: Global,
    version: Version,
    time: Time,
    reader: &mut LineReader,
) -> Read<Vec<Node>>
    ensures value { IsUnlessMemory TextFault.Memory (nodes_at version time 0 0 reader.old)
        (result_map_both (λ nodes. (nodes.items, reader.new)) (λ fault. fault) result) }
    ensures lawful { IfOk result (λ nodes. All (IsNodeWhere (says_time version) time) nodes.items) }
{
    let mut nodes = Vec::new(alloc);
    let mut leads = 0;
    while let Some(node) = read_node(version, time, reader)? {
        leads = leads_with(leads, node);
        if are_too_many(nodes.len(), leads) {
            return Err(TextFault::TreeCount);
        }
        nodes.push(node).map_err(AllocError::from)?;
    }
    Ok(nodes)
}

/// How many lead leaves there are with that node, after so many of them.
fn leads_with(leads: usize, node: Node) -> usize
    requires { leads ≤ MOST_LEADS }
    ensures { result ≡ leads_with leads node }
{
    if is_lead(node) { leads + 1 } else { leads }
}

/// Whether a node after so many, with so many lead leaves by then, is one too many.
fn are_too_many(count: usize, leads: usize) -> bool
    ensures { result ≡ are_too_many count leads }
{
    count == MOST_NODES || MOST_LEADS < leads
}

/// The node of the next line, or None at the line `end`.
fn read_node(version: Version, time: Time, reader: &mut LineReader) -> Read<Option<Node>>
    ensures value { result_map_both (λ node. (node, reader.new)) (λ fault. fault) result
        ≡ in_text (form_at Expected.Node (node_or_end version time) reader.old) }
    ensures lawful { IfOk result (λ node. IfSome node (IsNodeWhere (says_time version) time)) }
{
    let wrong = TextFault::Line(reader.number(), Expected::Node);
    let line = reader.line().ok_or(wrong)?;
    node_or_end(version, time, line).ok_or(wrong)
}
