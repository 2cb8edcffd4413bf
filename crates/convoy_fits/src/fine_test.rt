//! Whether a scenario is another one in fine ticks.

ghost use Rattle.std.specs.Prelude.{◌≡◌, ◌<◌, length, IfOk, IsTrue};
ghost use Rattle.std.specs.List.{list_all};
ghost use Rattle.std.specs.Str.{bytes_eq};
ghost use Rattle.convoy_scenario.specs.Scenario.{message_at};
ghost use Rattle.convoy_packets.specs.Packets.{packets_of};
ghost use Rattle.convoy_fits.specs.Finer.{all_take_time, are_finer_messages, has_finer_range, have_same_homes, is_finer, is_finer_message, is_real, takes_too};
ghost use Rattle.convoy_fits.specs.Runs.{goes_there, is_there};

use super::corrected::Corrected;
use super::fine_draft::fine_draft;
use super::network::{is_addressed, range_of};
use convoy_packets::{Instance, Packet};
use convoy_scenario::{Link, Scenario, Time, is_same_sender};
use convoy_traces::{Event, Told};
use std::alloc::{AllocError, Global};

/// Whether time is real.
fn is_real(time: Time) -> bool
    ensures { result ≡ is_real time }
{
    match time {
        Time::Real => true,
        Time::Ticks => false,
    }
}

/// Whether the numbers are the same, in the same order.
fn are_same(numbers: &[usize], others: &[usize]) -> bool
    ensures { result ≡ bytes_eq numbers.now others.now }
{
    numbers == others
}

/// Whether a message is told in fine ticks.
fn is_finer_message(factor: u16, scenario: &Scenario, finer: &Instance, message: usize) -> bool
    requires here { message < length scenario.now.multicasts }
    requires there { message < length finer.now.multicasts }
    ensures { result ≡ is_finer_message factor (message_at scenario.now message) (message_at finer.now message) }
{
    let factor = u64::from(factor);
    let at = u64::from(scenario.issue_tick(message));
    let until = at + u64::from(scenario.longest_wait(message));
    let finer_at = u64::from(finer.issue_tick(message));
    let finer_until = finer_at + u64::from(finer.longest_wait(message));
    is_same_sender(finer.sender(message), scenario.sender(message))
        && are_same(finer.destinations(message), scenario.destinations(message))
        && factor * at <= finer_at
        && finer_until <= factor * until
}

/// Whether all messages are told in fine ticks.
fn are_finer_messages(factor: u16, scenario: &Scenario, finer: &Instance) -> bool
    requires { length finer.now.multicasts ≡ length scenario.now.multicasts }
    ensures { result ≡ are_finer_messages factor scenario.now.multicasts finer.now.multicasts }
{
    for message in 0..scenario.message_count() {
        if !is_finer_message(factor, scenario, finer, message) {
            return false;
        }
    }
    true
}

/// Whether what goes by the link takes time in the scenario, too, and where it is for stamps these do.
fn takes_too(scenario: &Scenario, link: &Link) -> bool
    ensures { result ≡ takes_too scenario.now link.now }
{
    scenario.takes_time(link.sender, link.to)
        && (!link.stamps || scenario.stamp_takes_time(link.to, link.to))
}

/// Whether what goes by any of these links takes time in the scenario, too.
fn all_take_time(scenario: &Scenario, links: &[Link]) -> bool
    ensures { result ≡ all_take_time scenario.now links.now }
{
    links.iter().all(|link| takes_too(scenario, link))
}

/// Whether the same groups have links to themselves in both, for messages alone or for stamps, too.
fn have_same_homes(scenario: &Scenario, finer: &Scenario) -> bool
    ensures { result ≡ have_same_homes scenario.now finer.now }
{
    all_take_time(scenario, finer.links()) && all_take_time(finer, scenario.links())
}

/// Whether a packet may take no time in fine ticks that it may not take in ticks.
fn has_finer_range(factor: u16, scenario: &Scenario, finer: &Instance, packet: Packet) -> bool
    ensures { result ≡ has_finer_range factor scenario.now finer.now packet }
{
    let factor = u64::from(factor);
    let (least, most) = range_of(scenario, packet);
    let (finer_least, finer_most) = range_of(finer.scenario(), packet);
    factor * u64::from(least) <= u64::from(finer_least)
        && u64::from(finer_most) <= factor * u64::from(most)
}

/// Whether all packets may take no time in fine ticks that they may not take in ticks.
fn have_finer_ranges(factor: u16, scenario: &Scenario, finer: &Instance) -> bool
    ensures { result ≡ list_all (has_finer_range factor scenario.now finer.now) (packets_of finer.now) }
{
    let table = finer.table();
    for at in 0..table.len() {
        if !has_finer_range(factor, scenario, finer, table.packet(at)) {
            return false;
        }
    }
    true
}

/// Whether a scenario is another one in fine ticks, and in real time.
fn is_finer(factor: u16, scenario: &Scenario, finer: &Instance) -> bool
    ensures { result ≡ is_finer factor scenario.now finer.now }
{
    is_real(finer.time())
        && 1 <= factor
        && finer.group_count() == scenario.group_count()
        && finer.message_count() == scenario.message_count()
        && are_finer_messages(factor, scenario, finer)
        && have_same_homes(scenario, finer.scenario())
        && have_finer_ranges(factor, scenario, finer)
        && finer.target_message() == scenario.target_message()
        && finer.target_group() == scenario.target_group()
}

/// Whether the message goes to the groups of the event.
fn goes_there(scenario: &Scenario, message: usize, event: Event) -> bool
    ensures { result ≡ goes_there scenario.now message event }
{
    match event {
        Event::Issue => true,
        Event::Arrival(group) => is_addressed(scenario, message, group),
        Event::Proposal(group, from) => {
            is_addressed(scenario, message, group) && is_addressed(scenario, message, from)
        }
        Event::Commit(group) => is_addressed(scenario, message, group),
        Event::Delivery(group) => is_addressed(scenario, message, group),
    }
}

/// Whether what is told is of a message of the scenario, at groups that it goes to.
pub(crate) fn is_there(scenario: &Scenario, one: &Told) -> bool
    ensures { result ≡ is_there scenario.now one.now }
{
    one.message < scenario.message_count() && goes_there(scenario, one.message, one.event)
}

/// Whether all that is told is of messages of the scenario, at groups that they go to.
fn are_there(finer: &Instance, told: &[Told]) -> bool
    ensures { result ≡ list_all (is_there finer.now) told.now }
{
    for one in told {
        if !is_there(finer.scenario(), one) {
            return false;
        }
    }
    true
}

/// The scenario in fine ticks, with each message issued when the trace tells it. Fails where memory runs out; a trace that
/// is within the limits gives no other cause.
pub(crate) fn finer_of(
    alloc: Global,
    scenario: &Scenario,
    trace: &Corrected,
) -> Result<Instance, AllocError>
    ensures finer { IfOk result (λ finer. IsTrue (is_finer trace.now.factor scenario.now finer)) }
    ensures there { IfOk result (λ finer. IsTrue (list_all (is_there finer) trace.now.told)) }
{
    let draft = fine_draft(alloc, scenario, trace)?;
    let finer = match Scenario::from_draft(alloc, draft) {
        Ok(finer) => Instance::of(alloc, finer)?,
        Err(_) => return Err(AllocError),
    };
    if is_finer(trace.factor(), scenario, &finer) && are_there(&finer, trace.told()) {
        Ok(finer)
    } else {
        Err(AllocError)
    }
}
