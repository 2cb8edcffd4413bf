ghost use Rattle.std.specs.Prelude.{◌≡◌, Bool, ok_or, IfSome};
ghost use Rattle.convoy_draft.specs.declared.time.Time.TheVariants.{Real};
ghost use Rattle.convoy_certificate.specs.Certificate.{IsNodeWhere, greatest_packet, least_place, greatest_place};
ghost use Rattle.std.specs.Result.{result_map_both};
ghost use Rattle.convoy_scenario.specs.Memory.{IsUnlessMemory};
ghost use Rattle.convoy_lines.specs.Labels.{words_after};
ghost use Rattle.convoy_certificate.specs.Forms.{version_in, list_in, split_in, moments_in, order_split_in, lead_in, point_in, stamp_in, leaf_in, node_in, node_or_end};
ghost use Rattle.convoy_certificate.specs.Text.{says_time};

use super::node::{GREATEST_MOMENT, GREATEST_PACKET, GREATEST_UNTIMED_PACKET, Node};
use super::text_fault::TextFault;
use super::version::Version;
use convoy_lines::{Words, number_of, words_after};
use convoy_scenario::{GREATEST_DELAY, GREATEST_WHOLE_DELAY, Time};
use std::alloc::{AllocError, Global};

/// The version of a text whose first line this is.
pub fn version_in(line: &[u8]) -> Option<Version>
    ensures { result ≡ version_in line.now }
{
    if line == b"convoy 1".as_slice() {
        Some(Version::One)
    } else if line == b"convoy 2".as_slice() {
        Some(Version::Two)
    } else if line == b"convoy 3".as_slice() {
        Some(Version::Three)
    } else if line == b"convoy 4".as_slice() {
        Some(Version::Four)
    } else if line == b"convoy 5".as_slice() {
        Some(Version::Five)
    } else {
        None
    }
}

/// The node of a line in that version, where time goes so, or `Some(None)` at the line `end`; None where
/// the line has neither form.
pub fn node_or_end(version: Version, time: Time, line: &[u8]) -> Option<Option<Node>>
    ensures value { result ≡ node_or_end version time line.now }
    ensures lawful { IfSome result (λ node. IfSome node (IsNodeWhere (says_time version) time)) }
{
    if line == b"end".as_slice() {
        return Some(None);
    }
    Some(Some(node_in(version, time, line)?))
}

fn node_in(version: Version, time: Time, line: &[u8]) -> Option<Node>
    ensures value { result ≡ node_in version time line.now }
    ensures lawful { IfSome result (IsNodeWhere (says_time version) time) }
{
    let mut words = Words::of(line);
    let first = words.next()?;
    if first == b"s".as_slice() {
        split_in(version, words)
    } else if first == b"o".as_slice() {
        order_split_in(version, time, words)
    } else if first == b"c".as_slice() {
        lead_in(version, words)
    } else if words.are_over() {
        leaf_in(version, time, first)
    } else {
        None
    }
}

/// The split of a line `s`, by the words after its first.
fn split_in(version: Version, words: Words) -> Option<Node>
    ensures value { result ≡ split_in (says_time version) words.entry }
    ensures lawful { (time : Time) → IfSome result (IsNodeWhere (says_time version) time) }
{
    let mut words = words;
    let packet = number_of(words.next()?, u32::from(greatest_packet(version)))?;
    let at = number_of(words.next()?, u32::from(greatest_place(version)))?;
    (least_place(version) <= at && words.are_over()).then_some(Node::Split {
        packet: packet as u16,
        at: at as u16,
    })
}

/// The greatest number of a packet that a split names in that version.
fn greatest_packet(version: Version) -> u16
    ensures { result ≡ greatest_packet (says_time version) }
{
    match version {
        Version::One | Version::Two | Version::Three => GREATEST_UNTIMED_PACKET,
        Version::Four | Version::Five => GREATEST_PACKET,
    }
}

/// The least number of ticks after which a split cuts in that version.
fn least_place(version: Version) -> u32
    ensures { result ≡ least_place (says_time version) }
{
    match version {
        Version::One | Version::Two | Version::Three => 1,
        Version::Four | Version::Five => 0,
    }
}

/// The greatest number of ticks after which a split cuts in that version.
fn greatest_place(version: Version) -> u16
    ensures { result ≡ greatest_place (says_time version) }
{
    match version {
        Version::One | Version::Two | Version::Three => GREATEST_WHOLE_DELAY,
        Version::Four | Version::Five => GREATEST_DELAY,
    }
}

/// The split of a line `o`, by the words after its first. Version 5 alone has such lines, and in real
/// time alone.
fn order_split_in(version: Version, time: Time, words: Words) -> Option<Node>
    ensures value { result ≡ order_split_in version time words.entry }
    ensures lawful { IfSome result (IsNodeWhere (says_time version) time) }
{
    match (version, time) {
        (Version::Five, Time::Real) => moments_in(words),
        _ => None,
    }
}

/// The split by order of two moments whose numbers these words are, the first below the second.
fn moments_in(words: Words) -> Option<Node>
    ensures value { result ≡ moments_in words.entry }
    ensures lawful { (timed : Bool) → IfSome result (IsNodeWhere timed Real) }
{
    let mut words = words;
    let first = number_of(words.next()?, u32::from(GREATEST_MOMENT))?;
    let second = number_of(words.next()?, u32::from(GREATEST_MOMENT))?;
    (first < second && words.are_over()).then_some(Node::Order {
        first: first as u8,
        second: second as u8,
    })
}

/// The lead leaf of a line `c`, by the words after its first. Versions 1 and 2 have none.
fn lead_in(version: Version, words: Words) -> Option<Node>
    ensures value { result ≡ lead_in version words.entry }
    ensures lawful { (time : Time) → IfSome result (IsNodeWhere (says_time version) time) }
{
    match version {
        Version::One | Version::Two => None,
        Version::Three | Version::Four | Version::Five => {
            let mut words = words;
            let latency = number_of(words.next()?, u32::MAX)?;
            words.are_over().then_some(Node::Lead { latency })
        }
    }
}

fn leaf_in(version: Version, time: Time, word: &[u8]) -> Option<Node>
    ensures value { result ≡ leaf_in version time word.now }
    ensures lawful { IfSome result (IsNodeWhere (says_time version) time) }
{
    match word {
        b"b" => Some(Node::Bound),
        b"p" => point_in(version, time),
        b"t" => stamp_in(version, time),
        _ => None,
    }
}

/// The point leaf, which in real time version 5 alone has.
fn point_in(version: Version, time: Time) -> Option<Node>
    ensures value { result ≡ point_in version time }
    ensures lawful { IfSome result (IsNodeWhere (says_time version) time) }
{
    match (version, time) {
        (_, Time::Ticks) | (Version::Five, Time::Real) => Some(Node::Point),
        _ => None,
    }
}

/// The stamp leaf, which is of whole ticks alone, and which version 1 lacks.
fn stamp_in(version: Version, time: Time) -> Option<Node>
    ensures value { result ≡ stamp_in version time }
    ensures lawful { IfSome result (IsNodeWhere (says_time version) time) }
{
    match (version, time) {
        (Version::One, _) | (_, Time::Real) => None,
        _ => Some(Node::Stamp),
    }
}

/// The numbers after the label of a line, each at most 65,535; `wrong` where the line has not its
/// form.
pub fn list_in(
    alloc: Global,
    label: &[u8],
    line: &[u8],
    wrong: TextFault,
) -> Result<Vec<u16>, TextFault>
    ensures { IsUnlessMemory TextFault.Memory (ok_or (list_in label.now line.now) wrong)
        (result_map_both (λ numbers. numbers.items) (λ fault. fault) result) }
{
    let mut words = words_after(line, label).ok_or(wrong)?;
    let mut numbers = Vec::new(alloc);
    while let Some(word) = words.next() {
        let number = number_of(word, u32::from(u16::MAX)).ok_or(wrong)?;
        numbers.push(number as u16).map_err(AllocError::from)?;
    }
    Ok(numbers)
}
