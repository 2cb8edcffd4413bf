//! What is told of all cases together.

ghost use Rattle.std.specs.Prelude.{◌≡◌, ◌<◌, ◌++◌, None, length, nat_le, find, flat_map, is_some, option_copied, IfOk, OnOk};
ghost use Rattle.std.specs.List.{list_all, list_any, range_with_len};
ghost use Rattle.convoy_lines.specs.Texts.{spaced};
ghost use Rattle.convoy_case_answers.specs.Told.{AreTotals, back_line, back_text, between_line, case_line, cases_text, first_line, greatest_of, is_known, late_text, sent_text, worse_share, worst_line, worst_share, worst_text};

use super::found::Found;
use super::late::Late;
use super::totals::Totals;
use convoy_commands::{push_open, push_outside, push_ticks_line, push_verdict};
use convoy_scenario::Scenario;
use convoy_scenario::naming::{group_name, message_name, sender_word};
use convoy_times::Measure;
use std::alloc::{AllocError, Global};

/// What is written of all cases, of which these are the greatest numbers.
#[tactic(auto, using(std::proofs::lemmas::List::append_assoc))]
pub(crate) fn cases_text(
    alloc: Global,
    late: &Late,
    measure: &Option<Measure>,
    deadline: Option<u32>,
    founds: &[Found],
    totals: &Totals,
) -> Result<Vec<u8>, AllocError>
    requires { AreTotals founds.now totals.now }
    ensures { IfOk result (λ text. text.items ≡ cases_text late.now measure.now deadline founds.now) }
{
    let mut text = Vec::new(alloc);
    push_first(measure, founds, totals, &mut text)?;
    push_worst(founds, totals.back_most, &mut text)?;
    push_late(
        late,
        measure,
        totals.late_least,
        totals.late_most,
        &mut text,
    )?;
    push_back(late, measure, founds, totals, &mut text)?;
    push_verdict(
        *measure,
        deadline,
        totals.back_least,
        totals.back_most,
        &mut text,
    )?;
    push_outside(worst_share(founds), &mut text)?;
    Ok(text)
}

/// Appends the line of the greatest latency, or of the least and the most that it may be.
fn push_first(
    measure: &Option<Measure>,
    founds: &[Found],
    totals: &Totals,
    out: &mut Vec<u8>,
) -> Result<(), AllocError>
    requires { AreTotals founds.now totals.now }
    ensures { OnOk result (out.new.items ≡ out.old.items ++ first_line measure.now founds.now) }
{
    if is_known(founds, totals) {
        push_ticks_line("greatest", *measure, totals.least, out)
    } else {
        push_open(*measure, totals.least, totals.most, out)
    }
}

/// Whether the greatest latency is known: each search has ended, or of several cases some run has what none is above.
pub(crate) fn is_known(founds: &[Found], totals: &Totals) -> bool
    ensures { result ≡ is_known totals.now.least totals.now.most founds.now }
{
    are_proved(founds) || founds.len() >= 2 && totals.least == totals.most
}

/// Whether the search of each case has ended.
fn are_proved(founds: &[Found]) -> bool
    ensures { result ≡ list_all (λ found. found.is_proved) founds.now }
{
    founds.iter().all(|found| found.is_proved)
}

/// Appends the line of a latency by that word, or of the least and the most that it may be with the other one in front.
#[tactic(auto, using(std::proofs::lemmas::List::append_assoc))]
fn push_between(
    word: &str,
    front: &[u8],
    measure: &Option<Measure>,
    least: u32,
    most: u32,
    out: &mut Vec<u8>,
) -> Result<(), AllocError>
    ensures { OnOk result (out.new.items ≡ out.old.items ++ between_line word.now front.now measure.now least most) }
{
    if least == most {
        return push_ticks_line(word, *measure, least, out);
    }
    out.extend_from_slice(front)?;
    push_open(*measure, least, most, out)
}

/// Appends the line of the case in which the word may be back as late as in any, where there are several.
fn push_worst(founds: &[Found], most: u32, out: &mut Vec<u8>) -> Result<(), AllocError>
    requires { most ≡ greatest_of (λ f. f.back_most) founds.now }
    ensures { OnOk result (out.new.items ≡ out.old.items ++ worst_text founds.now) }
{
    if founds.len() < 2 {
        return Ok(());
    }
    push_worst_line(founds, most, out)
}

/// Appends the line of the first case in which the word may be back so late.
fn push_worst_line(founds: &[Found], most: u32, out: &mut Vec<u8>) -> Result<(), AllocError>
    ensures { OnOk result (out.new.items ≡ out.old.items ++ worst_line most founds.now) }
{
    match as_late(founds, most) {
        Some(found) => push_case(&found.scenario, out),
        None => Ok(()),
    }
}

/// The first case in which the word may be back so late.
fn as_late(founds: &[Found], most: u32) -> Option<&Found>
    ensures { option_copied result ≡ find (λ found. nat_le most found.back_most) founds.now }
{
    founds.iter().find(|found| most <= found.back_most)
}

/// Appends the line of a case.
#[tactic(auto, using(std::proofs::lemmas::List::append_assoc))]
fn push_case(scenario: &Scenario, out: &mut Vec<u8>) -> Result<(), AllocError>
    ensures { OnOk result (out.new.items ≡ out.old.items ++ case_line scenario.now) }
{
    out.extend_from_slice(b"worst")?;
    push_spaced(group_name(scenario, scenario.target_group()), out)?;
    push_senders(scenario, out)?;
    out.push(b'\n')?;
    Ok(())
}

/// Appends each message and who sends it.
fn push_senders(scenario: &Scenario, out: &mut Vec<u8>) -> Result<(), AllocError>
    ensures { OnOk result (out.new.items
        ≡ out.old.items ++ flat_map (sent_text scenario.now) (range_with_len 0 (length scenario.now.multicasts))) }
{
    for message in 0..scenario.message_count() {
        push_sender(scenario, message, out)?;
    }
    Ok(())
}

/// Appends a message and who sends it.
#[tactic(auto, using(std::proofs::lemmas::List::append_assoc))]
fn push_sender(scenario: &Scenario, message: usize, out: &mut Vec<u8>) -> Result<(), AllocError>
    requires { message < length scenario.now.multicasts }
    ensures { OnOk result (out.new.items
        ≡ out.old.items ++ sent_text scenario.now message) }
{
    push_spaced(message_name(scenario, message), out)?;
    push_spaced(sender_word(scenario, scenario.sender(message)), out)
}

/// Appends a word after a space.
#[tactic(auto, using(std::proofs::lemmas::List::append_assoc))]
fn push_spaced(word: &str, out: &mut Vec<u8>) -> Result<(), AllocError>
    ensures { OnOk result (out.new.items ≡ out.old.items ++ spaced word.now) }
{
    out.push(b' ')?;
    out.extend_from_slice(word.as_bytes())?;
    Ok(())
}

/// Appends what keeps the target back.
fn push_late(
    late: &Late,
    measure: &Option<Measure>,
    least: u32,
    most: u32,
    out: &mut Vec<u8>,
) -> Result<(), AllocError>
    ensures { OnOk result (out.new.items ≡ out.old.items ++ late_text late.now measure.now least most) }
{
    match late {
        Late::Nothing => Ok(()),
        Late::Outages(_) => push_ticks_line("outage-latency", *measure, most, out),
        Late::Answers(_) => push_between("accept-latency", b"accept-", measure, least, most, out),
    }
}

/// Appends when the word is back, where one is waited for.
fn push_back(
    late: &Late,
    measure: &Option<Measure>,
    founds: &[Found],
    totals: &Totals,
    out: &mut Vec<u8>,
) -> Result<(), AllocError>
    requires { AreTotals founds.now totals.now }
    ensures { OnOk result (out.new.items ≡ out.old.items ++ back_text late.now measure.now founds.now) }
{
    if !some_wait(founds) {
        return Ok(());
    }
    push_back_line(late, measure, totals.back_least, totals.back_most, out)
}

/// Whether a word is waited for.
fn some_wait(founds: &[Found]) -> bool
    ensures { result ≡ list_any (λ found. is_some found.way) founds.now }
{
    founds.iter().any(|found| found.way.is_some())
}

/// Appends when the word is back.
fn push_back_line(
    late: &Late,
    measure: &Option<Measure>,
    least: u32,
    most: u32,
    out: &mut Vec<u8>,
) -> Result<(), AllocError>
    ensures { OnOk result (out.new.items ≡ out.old.items ++ back_line late.now measure.now least most) }
{
    match late {
        Late::Outages(_) => push_ticks_line("reply-latency", *measure, most, out),
        Late::Nothing | Late::Answers(_) => {
            push_between("reply-latency", b"reply-", measure, least, most, out)
        }
    }
}

/// In at most how many billionths of runs a packet leaves its range, in any case.
fn worst_share(founds: &[Found]) -> Option<u64>
    ensures { result ≡ worst_share None founds.now }
{
    let mut worst = None;
    for found in founds {
        worst = worse_share(worst, found.outside);
    }
    worst
}

/// The greater of two shares, where there are such.
fn worse_share(share: Option<u64>, other: Option<u64>) -> Option<u64>
    ensures { result ≡ worse_share share other }
{
    match (share, other) {
        (None, other) => other,
        (Some(share), None) => Some(share),
        (Some(share), Some(other)) => Some(share.max(other)),
    }
}
