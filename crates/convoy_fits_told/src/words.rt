//! The words of a verdict on a trace.

ghost use Rattle.std.specs.Prelude.{◌≡◌, IfOk, string_bytes};
ghost use Rattle.convoy_traces.specs.declared.told.Event.TheVariants.{Proposal};
ghost use Rattle.convoy_timeline.specs.PacketLists.{packet_text};
ghost use Rattle.convoy_timeline.specs.Explanations.{stamp_text};
ghost use Rattle.convoy_fits_told.specs.Words.{at_text, corrected_text, departure_text, early_text, event_text, explained_of, explained_text, fits_text, latency_text, missing_text, moment_text, other_stamp_text, range_text, span_text, taken_text, told_by, unfinished_text, verdict_text, window_text};

use super::counting::{deliveries_of, deliveries_told};
use super::scale::Scale;
use convoy_fits::{Departure, Verdict, explained};
use convoy_packets::Packet;
use convoy_scenario::lookup::{sender_of, window};
use convoy_scenario::naming::{group_name, message_name, sender_word};
use convoy_scenario::{AllocResult, Scenario};
use convoy_sim::Timestamp;
use convoy_timeline::stamp_text;
use convoy_traces::{Event, Told, Trace};
use std::alloc::Global;

/// The lines of a verdict by clocks that are right within a skew. Fails where memory runs out, and else never.
pub(crate) fn verdict_text(
    alloc: Global,
    scale: &Scale,
    scenario: &Scenario,
    trace: &Trace,
    skew: u32,
    verdict: Verdict,
) -> AllocResult<String>
    ensures { IfOk result (λ text. string_bytes text ≡ verdict_text scale.now scenario.now trace.now skew verdict) }
{
    match verdict {
        Verdict::Fits(latency) => {
            let first = fits_text(alloc, scale, skew)?;
            let told = deliveries_told(trace.told());
            let unfinished = unfinished_text(alloc, told, deliveries_of(scenario))?;
            let latency = latency_text(alloc, scale, latency)?;
            format!(in alloc; "{first}{unfinished}{latency}")
        }
        Verdict::Outside(departure) => {
            let words = departure_text(alloc, scale, scenario, departure)?;
            let part = explained_of(skew, scenario, departure);
            let explained = explained_text(alloc, scale, skew, part)?;
            format!(in alloc; "departs: {words}{explained}\n")
        }
        Verdict::Departs(departure) => {
            let words = departure_text(alloc, scale, scenario, departure)?;
            let corrected = corrected_text(alloc, scale, skew)?;
            format!(in alloc; "departs: {words}{corrected}\n")
        }
    }
}

/// That a trace fits, and by which clocks.
#[tactic(auto, unfolding(crate::specs::Words::fits_text))]
fn fits_text(alloc: Global, scale: &Scale, skew: u32) -> AllocResult<String>
    ensures { IfOk result (λ text. string_bytes text ≡ fits_text scale.now skew) }
{
    if skew == 0 {
        return String::from_str(alloc, "fits\n");
    }
    let skew = scale.fine_text(alloc, skew)?;
    format!(in alloc; "fits, with clocks within {skew}\n")
}

/// That a trace tells so many deliveries of more; nothing where it tells all.
#[tactic(auto, unfolding(crate::specs::Words::unfinished_text))]
fn unfinished_text(alloc: Global, told: usize, all: u128) -> AllocResult<String>
    ensures { IfOk result (λ text. string_bytes text ≡ unfinished_text told all) }
{
    if (told as u128) < all {
        format!(in alloc; "unfinished: {told} of {all} deliveries are told\n")
    } else {
        String::from_str(alloc, "")
    }
}

/// The latency of the target in fine ticks, where it is known.
#[tactic(auto, unfolding(crate::specs::Words::latency_text))]
fn latency_text(alloc: Global, scale: &Scale, latency: Option<u32>) -> AllocResult<String>
    ensures { IfOk result (λ text. string_bytes text ≡ latency_text scale.now latency) }
{
    let Some(latency) = latency else {
        return String::from_str(alloc, "");
    };
    let latency = scale.fine_text(alloc, latency)?;
    format!(in alloc; "latency {latency}\n")
}

/// How much of what departs clocks may explain, in fine ticks.
fn explained_of(skew: u32, scenario: &Scenario, departure: Departure) -> u64
    ensures { result ≡ explained_of skew scenario.now departure }
{
    match departure {
        Departure::Window(_, _, _, _) => u64::from(skew),
        Departure::Packet(packet, _, _, _, _) => explained(skew, scenario, packet),
        Departure::Moment(_, _) => 0,
        Departure::Stamp(_, _) => 0,
        Departure::Missing(_, _, _) => 0,
    }
}

/// What clocks may explain of a departure that they do not explain; nothing where they are right.
#[tactic(auto, unfolding(crate::specs::Words::explained_text))]
fn explained_text(alloc: Global, scale: &Scale, skew: u32, part: u64) -> AllocResult<String>
    ensures { IfOk result (λ text. string_bytes text ≡ explained_text scale.now skew part) }
{
    if skew == 0 {
        return String::from_str(alloc, "");
    }
    let skew = scale.fine_text(alloc, skew)?;
    let part = scale.fine_text(alloc, told_by(part))?;
    format!(in alloc; ", and clocks within {skew} explain {part} of it")
}

/// That a trace departs once its clocks are corrected; nothing where they are right.
#[tactic(auto, unfolding(crate::specs::Words::corrected_text))]
fn corrected_text(alloc: Global, scale: &Scale, skew: u32) -> AllocResult<String>
    ensures { IfOk result (λ text. string_bytes text ≡ corrected_text scale.now skew) }
{
    if skew == 0 {
        return String::from_str(alloc, "");
    }
    let skew = scale.fine_text(alloc, skew)?;
    format!(in alloc; ", with clocks corrected by at most {skew}")
}

/// In what a trace departs.
fn departure_text(
    alloc: Global,
    scale: &Scale,
    scenario: &Scenario,
    departure: Departure,
) -> AllocResult<String>
    ensures { IfOk result (λ text. string_bytes text ≡ departure_text scale.now scenario.now departure) }
{
    match departure {
        Departure::Window(message, time, _, _) => {
            window_text(alloc, scale, scenario, message, time)
        }
        Departure::Packet(packet, sent, came, least, most) => {
            if came < sent {
                early_text(alloc, scale, scenario, packet, sent, came)
            } else {
                taken_text(alloc, scale, scenario, packet, came - sent, least, most)
            }
        }
        Departure::Moment(told, moment) => moment_text(alloc, scale, scenario, told, moment),
        Departure::Stamp(told, stamp) => other_stamp_text(alloc, scale, scenario, told, stamp),
        Departure::Missing(message, group, tick) => {
            missing_text(alloc, scale, scenario, message, group, tick)
        }
    }
}

/// What happens.
#[tactic(auto, unfolding(crate::specs::Words::event_text))]
fn event_text(
    alloc: Global,
    scenario: &Scenario,
    message: usize,
    event: Event,
) -> AllocResult<String>
    ensures { IfOk result (λ text. string_bytes text ≡ event_text scenario.now message event) }
{
    match event {
        Event::Issue => {
            let name = message_name(scenario, message);
            format!(in alloc; "{name} is issued")
        }
        Event::Arrival(group) => at_text(alloc, scenario, message, " arrives at ", group),
        Event::Proposal(group, from) => proposal_text(alloc, scenario, message, group, from),
        Event::Commit(group) => at_text(alloc, scenario, message, " is committed at ", group),
        Event::Delivery(group) => at_text(alloc, scenario, message, " is delivered at ", group),
    }
}

/// That a proposal comes to a group from another one.
#[tactic(auto, unfolding(crate::specs::Words::event_text))]
fn proposal_text(
    alloc: Global,
    scenario: &Scenario,
    message: usize,
    group: usize,
    from: usize,
) -> AllocResult<String>
    ensures { IfOk result (λ text. string_bytes text ≡ event_text scenario.now message (Proposal group from)) }
{
    let proposer = group_name(scenario, from);
    let what = at_text(alloc, scenario, message, " comes to ", group)?;
    format!(in alloc; "the proposal of {proposer} for {what}")
}

/// What a message does at a group, in these words.
#[tactic(auto, unfolding(crate::specs::Words::at_text))]
fn at_text(
    alloc: Global,
    scenario: &Scenario,
    message: usize,
    words: &str,
    group: usize,
) -> AllocResult<String>
    ensures { IfOk result (λ text. string_bytes text ≡ at_text scenario.now message words.now group) }
{
    let name = message_name(scenario, message);
    let place = group_name(scenario, group);
    format!(in alloc; "{name}{words}{place}")
}

/// From the first tick to the last.
#[tactic(auto, unfolding(crate::specs::Words::span_text))]
fn span_text(alloc: Global, scale: &Scale, span: (u32, u32)) -> AllocResult<String>
    ensures { IfOk result (λ text. string_bytes text ≡ span_text scale.now span) }
{
    let first = scale.ticks_text(alloc, span.0)?;
    let last = scale.ticks_text(alloc, span.1)?;
    format!(in alloc; "from {first} to {last}")
}

/// A message that is issued at no time at which it may be.
fn window_text(
    alloc: Global,
    scale: &Scale,
    scenario: &Scenario,
    message: usize,
    time: u32,
) -> AllocResult<String>
    ensures { IfOk result (λ text. string_bytes text ≡ window_text scale.now scenario.now message time) }
{
    let issue = event_text(alloc, scenario, message, Event::Issue)?;
    let time = scale.fine_text(alloc, time)?;
    let span = span_text(alloc, scale, window(scenario, message))?;
    format!(in alloc; "{issue} at {time}: it may be {span}")
}

/// A packet that comes before it is sent.
fn early_text(
    alloc: Global,
    scale: &Scale,
    scenario: &Scenario,
    packet: Packet,
    sent: u32,
    came: u32,
) -> AllocResult<String>
    ensures { IfOk result (λ text. string_bytes text ≡ early_text scale.now scenario.now packet sent came) }
{
    let what = packet_text(alloc, scenario, packet)?;
    let first = scale.fine_text(alloc, sent)?;
    let second = scale.fine_text(alloc, came)?;
    format!(in alloc; "{what} is sent at {first} and comes at {second}")
}

/// A packet that takes longer than it may, or less long, in fine ticks, with the least and the most that it may take.
fn taken_text(
    alloc: Global,
    scale: &Scale,
    scenario: &Scenario,
    packet: Packet,
    time: u32,
    least: u64,
    most: u64,
) -> AllocResult<String>
    ensures { IfOk result (λ text. string_bytes text ≡ taken_text scale.now scenario.now packet time least most) }
{
    let what = packet_text(alloc, scenario, packet)?;
    let taken = scale.fine_text(alloc, time)?;
    let range = range_text(alloc, scale, least, most)?;
    format!(in alloc; "{what} takes {taken}: {range}")
}

/// How long a packet may take, in fine ticks.
#[tactic(auto, unfolding(crate::specs::Words::range_text))]
fn range_text(alloc: Global, scale: &Scale, least: u64, most: u64) -> AllocResult<String>
    ensures { IfOk result (λ text. string_bytes text ≡ range_text scale.now least most) }
{
    if most == 0 {
        return String::from_str(alloc, "it takes no time");
    }
    let least = scale.fine_text(alloc, told_by(least))?;
    let most = scale.fine_text(alloc, told_by(most))?;
    format!(in alloc; "it may take from {least} to {most}")
}

/// A number of fine ticks as it is told.
fn told_by(ticks: u64) -> u32
    ensures { result ≡ told_by ticks }
{
    ticks.min(4_294_967_295) as u32
}

/// What a packet is, or which message waits.
#[tactic(auto, unfolding(convoy_timeline::specs::PacketLists::packet_text))]
fn packet_text(alloc: Global, scenario: &Scenario, packet: Packet) -> AllocResult<String>
    ensures { IfOk result (λ text. string_bytes text ≡ packet_text scenario.now packet) }
{
    match packet {
        Packet::Wait { message } => {
            let name = message_name(scenario, message);
            format!(in alloc; "{name} waits")
        }
        Packet::Multicast { message, to } => {
            let name = message_name(scenario, message);
            let sender = sender_word(scenario, sender_of(scenario, message));
            let to = group_name(scenario, to);
            format!(in alloc; "{name} from {sender} to {to}")
        }
        Packet::Propose { message, from, to } => {
            let name = message_name(scenario, message);
            let from = group_name(scenario, from);
            let to = group_name(scenario, to);
            format!(in alloc; "proposal of {name} from {from} to {to}")
        }
    }
}

/// What happens at another time than that of the protocol, in fine ticks.
fn moment_text(
    alloc: Global,
    scale: &Scale,
    scenario: &Scenario,
    told: Told,
    moment: u64,
) -> AllocResult<String>
    ensures { IfOk result (λ text. string_bytes text
        ≡ moment_text scale.now scenario.now told.message told.event told.time moment) }
{
    let what = event_text(alloc, scenario, told.message, told.event)?;
    let time = scale.fine_text(alloc, told.time)?;
    let moment = scale.fine_text(alloc, told_by(moment))?;
    format!(in alloc; "{what} at {time}: by the protocol at {moment}")
}

/// What happens with another stamp than that of the protocol.
fn other_stamp_text(
    alloc: Global,
    scale: &Scale,
    scenario: &Scenario,
    told: Told,
    stamp: Timestamp,
) -> AllocResult<String>
    ensures { IfOk result (λ text. string_bytes text
        ≡ other_stamp_text scale.now scenario.now told.message told.event told.time (stamp_text scenario.now stamp)) }
{
    let what = event_text(alloc, scenario, told.message, told.event)?;
    let time = scale.fine_text(alloc, told.time)?;
    let stamp = stamp_text(alloc, scenario, stamp)?;
    format!(in alloc; "{what} at {time} with another stamp: by the protocol it is {stamp}")
}

/// A delivery that is not told, and comes at that fine tick.
fn missing_text(
    alloc: Global,
    scale: &Scale,
    scenario: &Scenario,
    message: usize,
    group: usize,
    tick: u32,
) -> AllocResult<String>
    ensures { IfOk result (λ text. string_bytes text ≡ missing_text scale.now scenario.now message group tick) }
{
    let what = at_text(alloc, scenario, message, " is not delivered at ", group)?;
    let time = scale.fine_text(alloc, tick)?;
    format!(in alloc; "{what}: by the protocol at {time}")
}
