ghost use Rattle.std.specs.Prelude.{◌≡◌, IfOk, string_bytes};
ghost use Rattle.convoy_picture.specs.Words.{answer_text, doing_text, entry_text, flight_text, load_text, outcome_text, reason_text, since_text, time_since, way_text};
ghost use Rattle.convoy_packets.specs.Assignment.{receiver_of};

use super::flight::Flight;
use super::mark::issue_tick;
use super::picture::Picture;
use convoy_packets::Packet;
use convoy_scenario::lookup::sender_of;
use convoy_scenario::naming::{group_name, message_name};
use convoy_scenario::{AllocResult, Scenario};
use convoy_timeline::{Entry, EntryKind, Explanation, sender_text, stamp_text, ticks_text};
use convoy_times::Measure;
use std::alloc::Global;

/// The answer: how late the target of the scenario is at worst, in ticks, and as a time where there is a measure, by the
/// picture of a run (docs/FORMATS.md, "What `draw` writes"). Time counts from the issue of message `origin`, which is named
/// where it is not the target. Fails where memory runs out, and else never.
#[tactic(auto, unfolding(crate::specs::Words::answer_text))]
pub fn answer_words(
    alloc: Global,
    scenario: &Scenario,
    measure: &Option<Measure>,
    picture: &Picture,
    origin: usize,
) -> AllocResult<String>
    ensures { IfOk result (λ words. string_bytes words ≡ answer_text measure.now scenario.now picture.now origin) }
{
    let message = message_name(scenario, scenario.target_message());
    let group = group_name(scenario, scenario.target_group());
    let long = ticks_text(alloc, *measure, time_since(scenario, picture, origin))?;
    let since = since_words(alloc, scenario, origin)?;
    format!(in alloc; "{message} at {group}: at worst {long}{since}")
}

/// The time from the issue of a message to the delivery of the target, in ticks.
fn time_since(scenario: &Scenario, picture: &Picture, origin: usize) -> u32
    ensures { result ≡ time_since scenario.now picture.now origin }
{
    let why = picture.why();
    if origin == scenario.target_message() {
        why.latency
    } else {
        why.delivered.saturating_sub(issue_tick(picture, origin))
    }
}

/// From whose issue time counts, where that is not the target itself.
fn since_words(alloc: Global, scenario: &Scenario, origin: usize) -> AllocResult<String>
    ensures { IfOk result (λ words. string_bytes words ≡ since_text scenario.now origin) }
{
    if origin == scenario.target_message() {
        Ok(String::new(alloc))
    } else {
        format!(in alloc; ", from the issue of {}", message_name(scenario, origin))
    }
}

/// Why the target of the scenario is so late, in a line: who issues it and when, what it waits for by the
/// explanation of a run, and the tick at which it is delivered (docs/FORMATS.md, "What `draw` writes").
/// Fails where memory runs out, and else never.
#[tactic(auto, unfolding(crate::specs::Words::reason_text))]
pub fn reason_words(alloc: Global, scenario: &Scenario, why: &Explanation) -> AllocResult<String>
    ensures { IfOk result (λ words. string_bytes words ≡ reason_text scenario.now why.now) }
{
    let target = scenario.target_message();
    let sender = sender_text(alloc, scenario, sender_of(scenario, target))?;
    let name = message_name(scenario, target);
    let at = why.delivered.saturating_sub(why.latency);
    let outcome = outcome_words(alloc, scenario, why)?;
    format!(in alloc; "{sender} issues {name} at tick {at}{outcome}")
}

/// When the target is committed and delivered, and what it waits for between the two.
fn outcome_words(alloc: Global, scenario: &Scenario, why: &Explanation) -> AllocResult<String>
    ensures { IfOk result (λ words. string_bytes words ≡ outcome_text scenario.now why.now why.now.holder) }
{
    match &why.holder {
        Some(holder) => {
            let holder = message_name(scenario, holder.message);
            format!(in alloc;
                "; committed at tick {}, it waits for {holder}, and is delivered at tick {}",
                why.committed, why.delivered,
            )
        }
        None => {
            format!(in alloc;
                "; it is delivered as it is committed, at tick {}",
                why.delivered,
            )
        }
    }
}

/// A packet on its way in a run of the scenario, in words: its number, what it brings, from where to
/// where, and the ticks at which it is sent and comes (docs/FORMATS.md, "What `draw` writes"). Where the
/// scenario has no such message or group, it is told without a name. Fails where memory runs out, and
/// else never.
#[tactic(auto, unfolding(crate::specs::Words::flight_text))]
pub fn flight_words(alloc: Global, scenario: &Scenario, flight: &Flight) -> AllocResult<String>
    ensures { IfOk result (λ words. string_bytes words ≡ flight_text scenario.now flight.now) }
{
    let way = way_words(alloc, scenario, flight)?;
    format!(in alloc;
        "packet {}: {way}, sent at tick {}, there at tick {}",
        flight.number, flight.sent, flight.arrival,
    )
}

/// What a packet brings, and from where to where.
#[tactic(auto, unfolding(crate::specs::Words::way_text))]
fn way_words(alloc: Global, scenario: &Scenario, flight: &Flight) -> AllocResult<String>
    ensures { IfOk result (λ words. string_bytes words ≡ way_text scenario.now flight.now) }
{
    let load = load_words(alloc, scenario, flight.packet)?;
    let from = sender_text(alloc, scenario, flight.from)?;
    let to = group_name(scenario, receiver_of(flight.packet));
    format!(in alloc; "{load} from {from} to {to}")
}

/// What a packet brings.
fn load_words(alloc: Global, scenario: &Scenario, packet: Packet) -> AllocResult<String>
    ensures { IfOk result (λ words. string_bytes words ≡ load_text scenario.now packet) }
{
    match packet {
        Packet::Wait { message } => format!(in alloc;
            "wait of {}",
            message_name(scenario, message)
        ),
        Packet::Multicast { message, .. } => {
            String::from_str(alloc, message_name(scenario, message))
        }
        Packet::Propose { message, .. } => {
            let name = message_name(scenario, message);
            format!(in alloc; "proposal of {name}")
        }
    }
}

/// What happens to a message at a group in a run of the scenario, in words, with the tick and the stamp
/// (docs/FORMATS.md, "What `draw` writes"). Where the scenario has no such message or group, it is told
/// without a name. Fails where memory runs out, and else never.
#[tactic(auto, unfolding(crate::specs::Words::entry_text))]
pub fn entry_words(alloc: Global, scenario: &Scenario, entry: &Entry) -> AllocResult<String>
    ensures { IfOk result (λ words. string_bytes words ≡ entry_text scenario.now entry.now) }
{
    let name = message_name(scenario, entry.message);
    let doing = doing_word(entry.kind);
    let group = group_name(scenario, entry.group);
    let stamp = stamp_text(alloc, scenario, entry.stamp)?;
    format!(in alloc;
        "{name} {doing} at {group} at tick {} with stamp {stamp}",
        entry.tick
    )
}

/// What becomes of a message.
fn doing_word(kind: EntryKind) -> &'static str
    ensures { result.now ≡ doing_text kind }
{
    match kind {
        EntryKind::Propose => "arrives",
        EntryKind::Commit => "is committed",
        EntryKind::Deliver => "is delivered",
    }
}

/// The number of the group to which a packet goes; 0 for a wait, which goes nowhere.
pub fn receiver_of(packet: Packet) -> usize
    ensures { result ≡ receiver_of packet }
{
    match packet {
        Packet::Wait { .. } => 0,
        Packet::Multicast { to, .. } => to,
        Packet::Propose { to, .. } => to,
    }
}
