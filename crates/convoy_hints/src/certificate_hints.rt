use super::body::{decides_ties, has_order, says_time};
use super::scenario_lines::{numbers_of, scenario_in, sketch_of_lines};
use super::search_hints::rest_of_option;
use super::tree_hints::hint_for_refused;
use convoy_certificate::{TextFault, read};
use convoy_checker::{Refusal, Refused};
use convoy_hints_scenario::{
    hint_for_bytes, hint_for_damage, hint_for_order, hint_for_schedule, hint_for_sketch,
    is_meant_as_certificate, is_meant_as_scenario, is_text_of_plan, with_label,
};
use convoy_hints_sketch::{Hint, Quoted, noun};
use convoy_packets::{Instance, ListFault, Order, Schedule};
use convoy_scenario::{Scenario, ScenarioFault};
use convoy_scenario_lines::Expected;
use std::alloc::{AllocError, Global};

/// Why a certificate is refused, in one line `hint: ..`: by its text, which may have been cut where it
/// is not `whole`, and by the refusal that was answered. None where nothing can be said beyond that.
pub fn hint_for_certificate(alloc: Global, text: &[u8], whole: bool, refusal: Refusal) -> Hint {
    let hint = match refusal {
        // Whether there are too many nodes to be read or for a tree, it is the tree that shows it.
        Refusal::Text(TextFault::TreeCount) => {
            hint_for_refused(alloc, text, whole, Refused::TreeCount)?
        }
        Refusal::Text(fault) => hint_for_refused_text(alloc, text, whole, fault)?,
        Refusal::Check(refused) => hint_for_refused(alloc, text, whole, refused)?,
    };
    with_label(alloc, hint)
}

/// How many steps of a check a second has time for, where they take as long as any do.
const STEPS_PER_SECOND: u64 = 500_000;

/// What to do where a certificate is not checked, since that takes more than so many steps, of `most` that it
/// may take, in one line `hint: ..`: to allow more of them, knowing about how long so many last.
pub fn hint_for_unchecked(alloc: Global, limit: u64, most: u64) -> Result<String, AllocError> {
    let steps = noun(limit == 1, "step", "steps");
    let length = (limit / STEPS_PER_SECOND).max(1);
    let seconds = noun(length == 1, "second", "seconds");
    let rest = rest_of_option(alloc, ": '--limit'", limit, most)?;
    format!(in alloc;
        "hint: checking the certificate takes more than {limit} {steps}, and so many last about {length} {seconds} at most{rest}\n"
    )
}

/// Why a text is that of no certificate.
fn hint_for_refused_text(alloc: Global, text: &[u8], whole: bool, fault: TextFault) -> Hint {
    match hint_for_damage(alloc, text)? {
        Some(hint) => Ok(Some(hint)),
        None if text.starts_with(b"convoy finish ") => format!(in alloc;
            "the input is a certificate of groups that are replicated by white box, which 'check', 'explain', 'packets' and 'scenario' read"
        ).map(Some),
        None if is_meant_as_certificate(text) => hint_for_lines(alloc, text, whole, fault),
        None => hint_for_other_text(alloc, text).map(Some),
    }
}

/// What the text is, where it does not begin as a certificate does.
fn hint_for_other_text(alloc: Global, text: &[u8]) -> Result<String, AllocError> {
    if text.is_empty() {
        return String::from_str(
            alloc,
            "the input is empty: a certificate is read here, which 'convoy analyse' writes",
        );
    }
    if text.starts_with(b"open ") {
        return String::from_str(
            alloc,
            "the input is the answer of a search that did not end, which has no certificate: ask 'convoy analyse' with --bounds lead",
        );
    }
    if text.starts_with(b"fault ") {
        return String::from_str(
            alloc,
            "the input is a fault of the command before, and no certificate",
        );
    }
    if is_text_of_plan(alloc, text) {
        return String::from_str(
            alloc,
            "the input is a plan, and a certificate is read here: convoy plan --scenario plan.toml | convoy analyse | convoy check",
        );
    }
    if is_meant_as_scenario(alloc, text) {
        return String::from_str(
            alloc,
            "the input is a scenario, and a certificate is read here: convoy analyse scenario.toml | convoy check",
        );
    }
    String::from_str(
        alloc,
        "the input does not begin as a certificate, with one of the lines 'convoy 1' to 'convoy 5'",
    )
}

/// What is wrong with a text that begins as a certificate does, and has that fault.
fn hint_for_lines(alloc: Global, text: &[u8], whole: bool, fault: TextFault) -> Hint {
    let words = match std::str::from_utf8(text) {
        Ok(words) => words,
        Err(error) => return hint_for_cut_bytes(alloc, text, whole, error.valid_up_to()),
    };
    if !whole && !has_fault(alloc, text, fault) {
        return Ok(None);
    }
    match fault {
        TextFault::Line(number, expected) if whole || is_ended(words, number) => {
            hint_for_line(alloc, words, number, expected).map(Some)
        }
        TextFault::Line(_, _) | TextFault::TreeCount | TextFault::Memory => Ok(None),
        TextFault::Scenario(fault) => hint_for_scenario_lines(alloc, words, fault),
        TextFault::Schedule => hint_for_schedule_lines(alloc, text),
        TextFault::AfterEnd => String::from_str(
            alloc,
            "something follows the line 'end': cut the text after that line",
        )
        .map(Some),
    }
}

/// Whether a text has that fault: the front of one that has it may have another, or none.
fn has_fault(alloc: Global, text: &[u8], fault: TextFault) -> bool {
    matches!(read(alloc, text), Err(found) if found == fault)
}

/// How many bytes a character has at most.
const LONGEST_CHARACTER: usize = 4;

/// Where the bytes are not UTF-8, unless the text was cut in the middle of a character.
fn hint_for_cut_bytes(alloc: Global, text: &[u8], whole: bool, offset: usize) -> Hint {
    if !whole && text.len().saturating_sub(offset) < LONGEST_CHARACTER {
        return Ok(None);
    }
    hint_for_bytes(alloc, text, offset).map(Some)
}

/// Whether the text has the end of its line of that number, from 1.
fn is_ended(text: &str, number: usize) -> bool {
    let mut ends: usize = 0;
    for byte in text.bytes() {
        if byte == b'\n' {
            ends = ends.saturating_add(1);
        }
    }
    ends >= number
}

/// The line of that number, from 1, without the byte 10 that ends it; None where the text ends before it.
fn line_at(text: &str, number: usize) -> Option<&str> {
    let line = text.split('\n').nth(number.saturating_sub(1))?;
    if line.is_empty() && !is_ended(text, number) {
        return None;
    }
    Some(line)
}

/// What is wrong with the scenario in a certificate.
fn hint_for_scenario_lines(alloc: Global, text: &str, fault: ScenarioFault) -> Hint {
    hint_for_sketch(alloc, &sketch_of_lines(alloc, text)?, fault)
}

/// What is wrong with the schedule in a certificate, or else with the order of its ties. Which of the two is
/// no part of the fault.
fn hint_for_schedule_lines(alloc: Global, text: &[u8]) -> Hint {
    let Some((scenario, mut reader)) = scenario_in(alloc, text) else {
        return Ok(None);
    };
    let _ = reader.line();
    let delays = reader.line().unwrap_or(b"");
    let ranks = reader.line().unwrap_or(b"");
    let instance = Instance::of(alloc, scenario)?;
    match hint_for_delays(alloc, &instance, delays)? {
        None if has_order(text) => hint_for_ranks(alloc, instance.scenario(), ranks),
        hint => Ok(hint),
    }
}

/// What is wrong with the delays of a line; None where they are a schedule.
fn hint_for_delays(alloc: Global, instance: &Instance, line: &[u8]) -> Hint {
    let delays = numbers_of(alloc, line)?;
    match fault_of_delays(alloc, instance, &delays) {
        Some(ListFault::Memory) => Err(AllocError),
        Some(fault) => hint_for_schedule(alloc, instance, &delays, fault),
        None => Ok(None),
    }
}

/// Why delays are no schedule; None where they are one.
fn fault_of_delays(alloc: Global, instance: &Instance, delays: &[i64]) -> Option<ListFault> {
    Schedule::from_list(alloc, instance.table(), delays).err()
}

/// What is wrong with the ranks of a line, the delays before it being right.
fn hint_for_ranks(alloc: Global, scenario: &Scenario, line: &[u8]) -> Hint {
    let ranks = numbers_of(alloc, line)?;
    match Order::from_list(alloc, scenario, &ranks) {
        Err(fault) => hint_for_order(alloc, scenario, &ranks, fault),
        Ok(_) => String::from_str(
            alloc,
            "the ranks are all 0, and the line is to be 'order' alone",
        )
        .map(Some),
    }
}

/// The first lines of certificates.
const VERSIONS: [&str; 4] = ["convoy 1", "convoy 2", "convoy 3", "convoy 4"];

/// What is wrong with a line.
fn hint_for_line(
    alloc: Global,
    text: &str,
    number: usize,
    expected: Expected,
) -> Result<String, AllocError> {
    let form = form_of_line(expected, text.as_bytes());
    let Some(line) = line_at(text, number) else {
        return format!(in alloc;
            "the text ends before line {number}, which is to be {form}: a part of it is missing"
        );
    };
    let shown = Quoted(line);
    if !is_ended(text, number) {
        return format!(in alloc;
            "line {number}, {shown}, is not ended by byte 10: a part of the text is missing"
        );
    }
    if expected == Expected::Convoy && VERSIONS.contains(&line) {
        return format!(in alloc;
            "line {number}, {shown}, is another version than the lines below need"
        );
    }
    let flaw = match flaw_of(line) {
        None if expected == Expected::Multicast => {
            flaw_of_issue(line, says_time(text.as_bytes()))
        }
        flaw => flaw,
    };
    match flaw {
        Some(flaw) => format!(in alloc; "line {number}, {shown}, {flaw}, and is to be {form}"),
        None => format!(in alloc; "line {number} is {shown}, and is to be {form}"),
    }
}

/// What no line of a certificate has.
fn flaw_of(line: &str) -> Option<&'static str> {
    if line.ends_with('\r') {
        Some("ends with a carriage return")
    } else if line.starts_with(' ') {
        Some("begins with a space")
    } else if line.ends_with(' ') {
        Some("ends with a space")
    } else if line.contains("  ") {
        Some("has two spaces side by side")
    } else if line.contains('\t') {
        Some("has a tab")
    } else {
        None
    }
}

/// What is wrong with the ticks at which a message may be issued, in its line; None where it has one tick
/// alone, or two that are not of their form. They may stand there where the lines say how time goes.
fn flaw_of_issue(line: &str, is_timed: bool) -> Option<&'static str> {
    let (first, last) = line.split(' ').nth(3)?.split_once("..")?;
    if !is_timed {
        return Some(
            "has two ticks of issue, which stand in certificates 'convoy 4' and 'convoy 5' alone",
        );
    }
    let first: u32 = first.parse().ok()?;
    let last: u32 = last.parse().ok()?;
    (last <= first).then_some("has a last tick of issue that is not after the first")
}

/// The form of a line of a certificate with that text (docs/FORMATS.md, "Certificate text").
fn form_of_line(expected: Expected, text: &[u8]) -> &'static str {
    match expected {
        Expected::Convoy => "one of 'convoy 1' to 'convoy 5'",
        Expected::Time => "'time real' or 'time ticks'",
        Expected::Tick =>
            "'tick COUNT UNIT', in the greatest of the units s, ms, us and ns that divides it",
        Expected::Delay => "'delay D'",
        Expected::Groups => "'groups G ..'",
        Expected::Places => "'places P ..'",
        Expected::Link =>
            "'link FROM TO LEAST MOST', in ascending order, and not with the range 1 to D but from a group to itself",
        Expected::Multicast if says_time(text) =>
            "'multicast NAME FROM AT TO ..', with FIRST..LAST for AT where the message may wait, and the destinations in the order of the groups",
        Expected::Multicast =>
            "'multicast NAME FROM AT TO ..', with the destinations in the order of the groups",
        Expected::Target => "'target MESSAGE GROUP'",
        Expected::Latency => "'latency L'",
        Expected::Schedule => "'schedule C ..'",
        Expected::Order => "'order R ..', or 'order' alone where all ranks are 0",
        Expected::Node if decides_ties(text) => "'s P A', 'o I J', 'b', 'p', 'c N' or 'end'",
        Expected::Node if has_order(text) => "'s P A', 'b', 'c N' or 'end'",
        Expected::Node => "'s P A', 'b', 'p', 't', 'c N' or 'end'",
    }
}
