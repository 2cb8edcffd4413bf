ghost use Rattle.std.specs.Prelude.{◌≡◌, ◌++◌, OnErr, OnOk, IfOk, string_bytes};
ghost use Rattle.std.specs.List.{flat_map};
ghost use Rattle.convoy_timeline.specs.Explanations.{answered_text, awaited_text, commit_text, flight_text};
ghost use Rattle.convoy_timeline.specs.Explanations.{doing_word, gap_after, holder_text, last_text, latency_text};
ghost use Rattle.convoy_timeline.specs.Explanations.{node_word, rise_line, rises_text, sent_text, text_of, with_stamp_text};
ghost use Rattle.convoy_timeline.specs.Explanations.{in_unit_text, issue_text, ticks_text, tie_won_text};
ghost use Rattle.convoy_timeline.specs.Explanations.{target_window_text, tied_text, wait_text, way_text, window_text, worst_text};

use super::explanation::{Explanation, Flight, Holder, LastProposal, Rise};
use super::words::{sender_text, stamp_text, tick_word};
use convoy_scenario::lookup::{may_wait, sender_of, window};
use convoy_scenario::naming::{group_name, message_name};
use convoy_scenario::{AllocResult, Scenario, Time};
use convoy_sim::{MomentKind, Proposal};
use convoy_times::Measure;
use std::alloc::Global;

/// Appends the text of an explanation of the schedule of a valid certificate, which has so many nodes, and of
/// the rises of clocks that explain its stamp, for a reader who asks why the greatest latency is what it is
/// (docs/FORMATS.md, "What `explain` writes"):
///
/// ```text
/// MESSAGE at GROUP: at worst N ticks, from its issue at tick N to its delivery at tick N
/// committed at GROUP at tick N with stamp TIME.GROUP, given by GROUP at tick N
///   tick N   MESSAGE is committed at GROUP, whose clock rises to TIME, with stamp TIME.GROUP, given by GROUP at tick N
///   tick N   MESSAGE comes to GROUP, whose clock rises to TIME
/// held back by MESSAGE, which came to GROUP at tick N with stamp TIME.GROUP, before TIME.GROUP
/// MESSAGE may be issued from tick N to N: here SENDER issues it at tick N
/// MESSAGE is committed at GROUP at tick N, when the last proposal comes:
///   tick N   SENDER sends MESSAGE to GROUP, packet N, N ticks
///   tick N   GROUP proposes TIME.GROUP to GROUP, packet N, N ticks
/// no schedule is worse: N nodes, checked
/// ```
///
/// The two lines below the second say why the stamp has its time, latest first, in any number and order: each
/// tells what raised the clock of the group that gave the stamp before it, to one less than the time of that
/// stamp. The line of a window is there where the message that it names may wait before its issue.
///
/// Where there is a measure, the greatest latency is told in its unit, too, as `N ticks (TIME UNIT)`. Where time is real and the order of a tie gave the target its stamp, or lets the message hold
/// it back, the line ends with that: `after MESSAGE in a tie`, `and before that commit in a tie`.
///
/// The text says that no schedule is worse, which the certificate has to show: it is for a certificate
/// that was checked. Where memory runs out the vector is as it was.
pub fn write_explanation(
    scenario: &Scenario,
    measure: Option<Measure>,
    why: &Explanation,
    rises: &[Rise],
    nodes: usize,
    out: &mut Vec<u8>,
) -> AllocResult<()>
    ensures ok { OnOk result (out.new.items ≡ out.old.items ++ text_of measure scenario.now why.now rises.now nodes) }
    ensures err { OnErr result (out.new.items ≡ out.old.items) }
{
    let text = text(*out.allocator(), scenario, measure, why, rises, nodes)?;
    out.extend_from_slice(&text)
}

/// The lines of an explanation.
#[tactic(auto, unfolding(crate::specs::Explanations::text_of))]
fn text(
    alloc: Global,
    scenario: &Scenario,
    measure: Option<Measure>,
    why: &Explanation,
    rises: &[Rise],
    nodes: usize,
) -> AllocResult<Vec<u8>>
    ensures { IfOk result (λ text. text.items ≡ text_of measure scenario.now why.now rises.now nodes) }
{
    let mut text = Vec::new(alloc);
    text.extend_from_slice(latency_line(alloc, scenario, measure, why)?.as_bytes())?;
    text.extend_from_slice(target_window_line(alloc, scenario, &why.last)?.as_bytes())?;
    text.extend_from_slice(commit_line(alloc, scenario, why)?.as_bytes())?;
    text.extend_from_slice(rise_lines(alloc, scenario, rises)?.as_bytes())?;
    text.extend_from_slice(holder_line(alloc, scenario, why)?.as_bytes())?;
    text.extend_from_slice(&last_lines(alloc, scenario, &why.last)?)?;
    text.extend_from_slice(worst_line(alloc, nodes)?.as_bytes())?;
    Ok(text)
}

/// How late the target is, and when.
fn latency_line(
    alloc: Global,
    scenario: &Scenario,
    measure: Option<Measure>,
    why: &Explanation,
) -> AllocResult<String>
    ensures { IfOk result (λ line. string_bytes line ≡ latency_text measure scenario.now why.now) }
{
    let message = message_name(scenario, scenario.target_message());
    let group = group_name(scenario, scenario.target_group());
    let latency = ticks_text(alloc, measure, why.latency)?;
    let issue = why.delivered.saturating_sub(why.latency);
    format!(in alloc;
        "{message} at {group}: at worst {latency}, from its issue at tick {issue} to its delivery at tick {}\n",
        why.delivered,
    )
}

/// From when to when the target may be issued, if it may wait and is not the awaited message, of which that is told.
fn target_window_line(
    alloc: Global,
    scenario: &Scenario,
    last: &LastProposal,
) -> AllocResult<String>
    ensures { IfOk result (λ line. string_bytes line ≡ target_window_text scenario.now last.now) }
{
    let target = scenario.target_message();
    if may_wait(scenario, target) && last.message != target {
        let window = window_text(alloc, scenario, target)?;
        format!(in alloc; "{window}\n")
    } else {
        Ok(String::new(alloc))
    }
}

/// When the target is committed at its group, and with which stamp.
fn commit_line(alloc: Global, scenario: &Scenario, why: &Explanation) -> AllocResult<String>
    ensures { IfOk result (λ line. string_bytes line ≡ commit_text scenario.now why.now) }
{
    let group = group_name(scenario, scenario.target_group());
    let stamp = stamp_text(alloc, scenario, why.stamped.stamp)?;
    let giver = group_name(scenario, why.stamped.stamp.group);
    let tied = tied_text(alloc, scenario, why.tied)?;
    format!(in alloc;
        "committed at {group} at tick {} with stamp {stamp}, given by {giver} at tick {}{tied}\n",
        why.committed, why.stamped.tick,
    )
}

/// What raised clocks to the time of the target's final stamp.
fn rise_lines(alloc: Global, scenario: &Scenario, rises: &[Rise]) -> AllocResult<String>
    ensures { IfOk result (λ lines. string_bytes lines ≡ rises_text scenario.now rises.now) }
{
    let mut lines = String::new(alloc);
    for rise in rises {
        let line = rise_line(alloc, scenario, rise)?;
        lines.push_str(&line)?;
    }
    Ok(lines)
}

/// What raised a clock, and to which time.
fn rise_line(alloc: Global, scenario: &Scenario, rise: &Rise) -> AllocResult<String>
    ensures { IfOk result (λ line. string_bytes line ≡ rise_line scenario.now rise.now) }
{
    let (moment, time) = (&rise.moment, rise.stamped.stamp.time);
    let gap = gap_after(moment.tick);
    let message = message_name(scenario, moment.message);
    let doing = doing_word(moment.kind);
    let group = group_name(scenario, moment.group);
    let stamp = with_stamp_text(alloc, scenario, moment.kind, &rise.stamped)?;
    format!(in alloc;
        "  tick {}{gap}{message} {doing} {group}, whose clock rises to {time}{stamp}\n",
        moment.tick,
    )
}

/// What a message does at a group as the clock there rises.
fn doing_word(kind: MomentKind) -> &'static str
    ensures { result.now ≡ doing_word kind }
{
    match kind {
        MomentKind::Arrival => "comes to",
        MomentKind::Commit => "is committed at",
    }
}

/// The stamp of a message that is committed at a group, to whose time the clock there rises.
#[tactic(auto, unfolding(crate::specs::Explanations::with_stamp_text))]
fn with_stamp_text(
    alloc: Global,
    scenario: &Scenario,
    kind: MomentKind,
    stamped: &Proposal,
) -> AllocResult<String>
    ensures { IfOk result (λ text. string_bytes text ≡ with_stamp_text scenario.now kind stamped.now) }
{
    match kind {
        MomentKind::Arrival => Ok(String::new(alloc)),
        MomentKind::Commit => {
            let stamp = stamp_text(alloc, scenario, stamped.stamp)?;
            let giver = group_name(scenario, stamped.stamp.group);
            format!(in alloc;
                ", with stamp {stamp}, given by {giver} at tick {}",
                stamped.tick
            )
        }
    }
}

/// What holds the target back.
fn holder_line(alloc: Global, scenario: &Scenario, why: &Explanation) -> AllocResult<String>
    ensures { IfOk result (λ line. string_bytes line ≡ holder_text scenario.now why.now why.now.holder) }
{
    match &why.holder {
        Some(holder) => held_line(alloc, scenario, why, holder),
        None => String::from_str(
            alloc,
            "no message holds it back: it is delivered as it is committed\n",
        ),
    }
}

/// That a message holds the target back.
fn held_line(
    alloc: Global,
    scenario: &Scenario,
    why: &Explanation,
    holder: &Holder,
) -> AllocResult<String>
    ensures { IfOk result (λ line. string_bytes line ≡ holder_text scenario.now why.now (Some holder.now)) }
{
    let message = message_name(scenario, holder.message);
    let group = group_name(scenario, scenario.target_group());
    let stamp = stamp_text(alloc, scenario, holder.proposal.stamp)?;
    let last = stamp_text(alloc, scenario, why.stamped.stamp)?;
    let won = tie_won_text(scenario, why, holder);
    format!(in alloc;
        "held back by {message}, which came to {group} at tick {} with stamp {stamp}, before {last}{won}\n",
        holder.proposal.tick,
    )
}

/// How the last proposal for the awaited message comes.
#[tactic(auto, unfolding(crate::specs::Explanations::last_text))]
fn last_lines(alloc: Global, scenario: &Scenario, last: &LastProposal) -> AllocResult<Vec<u8>>
    ensures { IfOk result (λ text. text.items ≡ last_text scenario.now last.now) }
{
    let mut text = Vec::new(alloc);
    text.extend_from_slice(wait_line(alloc, scenario, last)?.as_bytes())?;
    text.extend_from_slice(awaited_line(alloc, scenario, last)?.as_bytes())?;
    text.extend_from_slice(sent_line(alloc, scenario, last)?.as_bytes())?;
    text.extend_from_slice(answered_line(alloc, scenario, last)?.as_bytes())?;
    Ok(text)
}

/// When the awaited message is issued, where it may wait before.
fn wait_line(alloc: Global, scenario: &Scenario, last: &LastProposal) -> AllocResult<String>
    ensures { IfOk result (λ line. string_bytes line ≡ wait_text scenario.now last.now) }
{
    if may_wait(scenario, last.message) {
        issue_line(alloc, scenario, last)
    } else {
        Ok(String::new(alloc))
    }
}

/// Who issues the awaited message, and when, of the ticks at which it may be.
fn issue_line(alloc: Global, scenario: &Scenario, last: &LastProposal) -> AllocResult<String>
    ensures { IfOk result (λ line. string_bytes line ≡ issue_text scenario.now last.now) }
{
    let window = window_text(alloc, scenario, last.message)?;
    let sender = sender_text(alloc, scenario, sender_of(scenario, last.message))?;
    format!(in alloc;
        "{window}: here {sender} issues it at tick {}\n",
        last.issued
    )
}

/// When the awaited message is committed.
fn awaited_line(alloc: Global, scenario: &Scenario, last: &LastProposal) -> AllocResult<String>
    ensures { IfOk result (λ line. string_bytes line ≡ awaited_text scenario.now last.now) }
{
    let message = message_name(scenario, last.message);
    let group = group_name(scenario, scenario.target_group());
    format!(in alloc;
        "{message} is committed at {group} at tick {}, when the last proposal comes:\n",
        last.committed,
    )
}

/// How the awaited message comes to the group of the last proposal.
fn sent_line(alloc: Global, scenario: &Scenario, last: &LastProposal) -> AllocResult<String>
    ensures { IfOk result (λ line. string_bytes line ≡ sent_text scenario.now last.now last.now.sent) }
{
    match &last.sent {
        Some(flight) => flown_line(alloc, scenario, last, flight),
        None => issued_line(alloc, scenario, last),
    }
}

/// That the awaited message goes to the group of the last proposal.
fn flown_line(
    alloc: Global,
    scenario: &Scenario,
    last: &LastProposal,
    flight: &Flight,
) -> AllocResult<String>
    ensures { IfOk result (λ line. string_bytes line ≡ sent_text scenario.now last.now (Some flight.now)) }
{
    let tick = last.issued;
    let gap = gap_after(tick);
    let sender = sender_text(alloc, scenario, sender_of(scenario, last.message))?;
    let message = message_name(scenario, last.message);
    let to = group_name(scenario, last.from);
    let flight = flight_text(alloc, flight)?;
    format!(in alloc; "  tick {tick}{gap}{sender} sends {message} to {to}{flight}\n")
}

/// That the group of the last proposal issues the awaited message itself.
fn issued_line(alloc: Global, scenario: &Scenario, last: &LastProposal) -> AllocResult<String>
    ensures { IfOk result (λ line. string_bytes line ≡ sent_text scenario.now last.now None) }
{
    let tick = last.issued;
    let gap = gap_after(tick);
    let group = group_name(scenario, last.from);
    let message = message_name(scenario, last.message);
    format!(in alloc; "  tick {tick}{gap}{group} issues {message}\n")
}

/// How the last proposal comes to the target's group.
fn answered_line(alloc: Global, scenario: &Scenario, last: &LastProposal) -> AllocResult<String>
    ensures { IfOk result (λ line. string_bytes line ≡ answered_text scenario.now last.now last.now.answered) }
{
    let tick = last.proposal.tick;
    let gap = gap_after(tick);
    let from = group_name(scenario, last.from);
    let stamp = stamp_text(alloc, scenario, last.proposal.stamp)?;
    let way = way_text(alloc, scenario, &last.answered)?;
    format!(in alloc; "  tick {tick}{gap}{from} proposes {stamp}{way}\n")
}

/// The way of a proposal to the target's group, if it is not that group's own.
#[tactic(auto, unfolding(crate::specs::Explanations::way_text))]
fn way_text(alloc: Global, scenario: &Scenario, way: &Option<Flight>) -> AllocResult<String>
    ensures { IfOk result (λ text. string_bytes text ≡ way_text scenario.now way.now) }
{
    match way {
        Some(flight) => {
            let to = group_name(scenario, scenario.target_group());
            let flight = flight_text(alloc, flight)?;
            format!(in alloc; " to {to}{flight}")
        }
        None => String::from_str(alloc, " itself"),
    }
}

/// That no schedule is worse.
fn worst_line(alloc: Global, nodes: usize) -> AllocResult<String>
    ensures { IfOk result (λ line. string_bytes line ≡ worst_text nodes) }
{
    let word = node_word(nodes);
    format!(in alloc; "no schedule is worse: {nodes} {word}, checked\n")
}

/// A number of ticks, and where there is a measure the same in its unit, as `12 ticks (0.6 ms)`. Fails where memory runs out, and else never.
#[tactic(auto, unfolding(crate::specs::Explanations::ticks_text))]
pub fn ticks_text(alloc: Global, measure: Option<Measure>, ticks: u32) -> AllocResult<String>
    ensures { IfOk result (λ text. string_bytes text ≡ ticks_text measure ticks) }
{
    let word = tick_word(ticks);
    let in_unit = in_unit_text(alloc, measure, ticks)?;
    format!(in alloc; "{ticks} {word}{in_unit}")
}

/// What follows a number of ticks, where there is a measure.
#[tactic(auto, unfolding(crate::specs::Explanations::in_unit_text))]
fn in_unit_text(alloc: Global, measure: Option<Measure>, ticks: u32) -> AllocResult<String>
    ensures { IfOk result (λ text. string_bytes text ≡ in_unit_text measure ticks) }
{
    match measure {
        Some(known) => in_brackets(alloc, known, ticks),
        None => Ok(String::new(alloc)),
    }
}

/// A number of ticks as a time, in brackets after a space.
#[tactic(auto, unfolding(crate::specs::Explanations::in_unit_text))]
fn in_brackets(alloc: Global, measure: Measure, ticks: u32) -> AllocResult<String>
    ensures { IfOk result (λ text. string_bytes text ≡ in_unit_text (Some measure) ticks) }
{
    let unit = measure.unit.word();
    let told = measure.text(alloc, ticks)?;
    format!(in alloc; " ({told} {unit})")
}

/// That another message came to the group of the target's stamp in the same tick, and before it.
fn tied_text(alloc: Global, scenario: &Scenario, tied: Option<usize>) -> AllocResult<String>
    ensures { IfOk result (λ text. string_bytes text ≡ tied_text scenario.now tied) }
{
    match tied {
        Some(other) => {
            let name = message_name(scenario, other);
            format!(in alloc; ", after {name} in a tie")
        }
        None => Ok(String::new(alloc)),
    }
}

/// That a message came to the target's group in the tick in which the target is committed there, and
/// before that.
fn tie_won_text(scenario: &Scenario, why: &Explanation, holder: &Holder) -> &'static str
    ensures { result.now ≡ tie_won_text scenario.now why.now holder.now }
{
    if scenario.time() == Time::Real && holder.proposal.tick == why.committed {
        ", and before that commit in a tie"
    } else {
        ""
    }
}

/// From when to when a message may be issued, as `y may be issued from tick 2 to 10`; 0 to 0 and without a
/// name where the scenario has no such message. Fails where memory runs out, and else never.
#[tactic(auto, unfolding(crate::specs::Explanations::window_text))]
pub fn window_text(alloc: Global, scenario: &Scenario, message: usize) -> AllocResult<String>
    ensures { IfOk result (λ text. string_bytes text ≡ window_text scenario.now message) }
{
    let name = message_name(scenario, message);
    let (first, last) = window(scenario, message);
    format!(in alloc; "{name} may be issued from tick {first} to {last}")
}

/// A packet on its way.
#[tactic(auto, unfolding(crate::specs::Explanations::flight_text))]
fn flight_text(alloc: Global, flight: &Flight) -> AllocResult<String>
    ensures { IfOk result (λ text. string_bytes text ≡ flight_text flight.now) }
{
    let ticks = tick_word(u32::from(flight.delay));
    format!(in alloc; ", packet {}, {} {ticks}", flight.packet, flight.delay)
}

fn node_word(count: usize) -> &'static str
    ensures { result.now ≡ node_word count }
{
    if count == 1 { "node" } else { "nodes" }
}

/// What follows a tick at the head of a line.
fn gap_after(tick: u32) -> &'static str
    ensures { result.now ≡ gap_after tick }
{
    if tick < 10 {
        "   "
    } else if tick < 100 {
        "  "
    } else {
        " "
    }
}
