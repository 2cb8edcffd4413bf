//! Lags of clocks by which packets may have taken times in their ranges. Nothing is believed of them: what a trace tells by
//! clocks with these lags is judged as that of any other.

ghost use Rattle.std.specs.Prelude.{◌≡◌, IfOk};

use super::corrected::Corrected;
use super::lags::Lags;
use super::network::{fine_range, in_fine_ticks};
use super::teller::{Teller, teller_of};
use super::told_times::time_told;
use convoy_packets::Packet;
use convoy_scenario::lookup::window;
use convoy_scenario::{MOST_GROUPS, MOST_MULTICASTS, Scenario};
use convoy_traces::{Event, LAST_TIME, Told};
use std::alloc::{AllocError, Global};

/// What stands at the first place: 0.
const NOTHING: usize = 0;

/// The place of the lag of the first group.
const GROUPS: usize = 1;

/// The place of the lag of the client that issues the first message; of a message of which no issue is told that is when it
/// was issued.
const CLIENTS: usize = GROUPS + MOST_GROUPS;

/// How many places there are.
const PLACES: usize = CLIENTS + MOST_MULTICASTS;

/// What stands at a place is at least what stands at another, and so much more.
#[derive(Clone, Copy)]
struct Rule {
    from: usize,
    to: usize,
    more: i64,
}

/// When something happened: at the time, with what stands at the place added, and less the skew.
#[derive(Clone, Copy)]
struct Moment {
    place: usize,
    time: i64,
}

/// The least lags of clocks of which none is ahead, or else the least ones of all, where there are any. Fails where memory
/// runs out, and else never.
pub(crate) fn near_lags(
    alloc: Global,
    scenario: &Scenario,
    trace: &Corrected,
    skew: u32,
) -> Result<Lags, AllocError>
    ensures { IfOk result (λ lags. lags.skew ≡ skew) }
{
    let rules = rules_of(alloc, scenario, trace, skew)?;
    let mut lags = lags_from(alloc, scenario, trace, i64::from(skew))?;
    if !keep(&mut lags, &rules) {
        lags = lags_from(alloc, scenario, trace, 0)?;
        let _kept = keep(&mut lags, &rules);
    }
    told_lags(alloc, &lags, skew)
}

/// The least lags, where there are any. Fails where memory runs out, and else never.
pub(crate) fn least_lags(
    alloc: Global,
    scenario: &Scenario,
    trace: &Corrected,
    skew: u32,
) -> Result<Lags, AllocError>
    ensures { IfOk result (λ lags. lags.skew ≡ skew) }
{
    let rules = rules_of(alloc, scenario, trace, skew)?;
    let mut lags = lags_from(alloc, scenario, trace, 0)?;
    let _kept = keep(&mut lags, &rules);
    told_lags(alloc, &lags, skew)
}

/// What stands at the places at first: that lag for each clock. Fails where memory runs out, and else never.
fn lags_from(
    alloc: Global,
    scenario: &Scenario,
    trace: &Corrected,
    lag: i64,
) -> Result<Vec<i64>, AllocError> {
    let mut lags = Vec::new(alloc);
    for place in 0..PLACES {
        let first = if is_clock(scenario, trace, place) {
            lag
        } else {
            0
        };
        lags.push(first)?;
    }
    Ok(lags)
}

/// Whether a lag stands at the place, and not when a message was issued.
fn is_clock(scenario: &Scenario, trace: &Corrected, place: usize) -> bool {
    if place < CLIENTS {
        return place != NOTHING;
    }
    let message = place - CLIENTS;
    message < scenario.message_count() && time_told(trace.told(), message, Event::Issue).is_some()
}

/// Raises what stands at the places until all rules hold. Whether they do: some never do, if the first place is raised.
fn keep(lags: &mut Vec<i64>, rules: &[Rule]) -> bool {
    for _ in 0..=PLACES {
        if !raise(lags, rules) {
            return lag_of(lags.as_slice(), NOTHING) == 0;
        }
    }
    false
}

/// Raises what stands at each place as much as each rule asks. Whether something was raised.
fn raise(lags: &mut Vec<i64>, rules: &[Rule]) -> bool {
    let mut is_raised = false;
    for rule in rules {
        let least = lag_of(lags.as_slice(), rule.from).saturating_add(rule.more);
        if let Some(lag) = lags.get_mut(rule.to)
            && *lag < least
        {
            *lag = least;
            is_raised = true;
        }
    }
    is_raised
}

/// What stands at a place; 0 where there is none.
fn lag_of(lags: &[i64], place: usize) -> i64 {
    match lags.get(place) {
        Some(lag) => *lag,
        None => 0,
    }
}

/// The lags of groups and of clients. Fails where memory runs out, and else never.
fn told_lags(alloc: Global, lags: &[i64], skew: u32) -> Result<Lags, AllocError>
    ensures { IfOk result (λ lags. lags.skew ≡ skew) }
{
    let groups = lags_between(alloc, lags, GROUPS, MOST_GROUPS)?;
    let clients = lags_between(alloc, lags, CLIENTS, MOST_MULTICASTS)?;
    Ok(Lags::new(skew, groups, clients))
}

/// So many lags from a place on. Fails where memory runs out, and else never.
fn lags_between(
    alloc: Global,
    lags: &[i64],
    first: usize,
    count: usize,
) -> Result<Vec<u32>, AllocError> {
    let mut told = Vec::new(alloc);
    for lag in lags.iter().skip(first).take(count) {
        told.push(u32::try_from(*lag).unwrap_or(0))?;
    }
    Ok(told)
}

/// All rules of a trace. Fails where memory runs out, and else never.
fn rules_of(
    alloc: Global,
    scenario: &Scenario,
    trace: &Corrected,
    skew: u32,
) -> Result<Vec<Rule>, AllocError> {
    let mut rules = Vec::new(alloc);
    for place in GROUPS..PLACES {
        push_limits(scenario, trace, skew, place, &mut rules)?;
    }
    for one in trace.told() {
        push_told(scenario, trace, skew, one, &mut rules)?;
    }
    Ok(rules)
}

/// Appends that what stands at the place is within the skew, or within the window of a message of which no issue is told.
fn push_limits(
    scenario: &Scenario,
    trace: &Corrected,
    skew: u32,
    place: usize,
    rules: &mut Vec<Rule>,
) -> Result<(), AllocError> {
    let here = Moment { place, time: 0 };
    if is_clock(scenario, trace, place) || place < CLIENTS {
        return push_between(here, 0, 2 * i64::from(skew), rules);
    }
    let (first, last) = in_fine_ticks(trace.factor(), window(scenario, place - CLIENTS));
    push_between(here, told_by(first), told_by(last), rules)
}

/// Appends that a moment, with the skew added, is between two times.
fn push_between(
    here: Moment,
    first: i64,
    last: i64,
    rules: &mut Vec<Rule>,
) -> Result<(), AllocError> {
    let start = Moment {
        place: NOTHING,
        time: 0,
    };
    push_least(start, here, first, rules)?;
    push_most(start, here, last, rules)
}

/// Appends that a moment comes so long after another at least.
fn push_least(
    sent: Moment,
    came: Moment,
    least: i64,
    rules: &mut Vec<Rule>,
) -> Result<(), AllocError> {
    rules.push(Rule {
        from: sent.place,
        to: came.place,
        more: least.saturating_sub(came.time.saturating_sub(sent.time)),
    })?;
    Ok(())
}

/// Appends that a moment comes so long after another at most.
fn push_most(
    sent: Moment,
    came: Moment,
    most: i64,
    rules: &mut Vec<Rule>,
) -> Result<(), AllocError> {
    rules.push(Rule {
        from: came.place,
        to: sent.place,
        more: came.time.saturating_sub(sent.time).saturating_sub(most),
    })?;
    Ok(())
}

/// Appends what follows from something that is told: it is since the start, and what came took a time in its range.
fn push_told(
    scenario: &Scenario,
    trace: &Corrected,
    skew: u32,
    one: &Told,
    rules: &mut Vec<Rule>,
) -> Result<(), AllocError> {
    let slack = i64::from(skew);
    let here = moment_of(scenario, one.message, one.event, one.time);
    push_between(
        here,
        slack,
        slack.saturating_add(i64::from(LAST_TIME)),
        rules,
    )?;
    match one.event {
        Event::Issue => {
            let (first, last) = in_fine_ticks(trace.factor(), window(scenario, one.message));
            let (first, last) = (told_by(first), told_by(last));
            push_between(
                here,
                slack.saturating_add(first),
                slack.saturating_add(last),
                rules,
            )
        }
        Event::Arrival(group) => {
            let (sent, range) = sent_to(scenario, trace, skew, one.message, group);
            push_range(sent, here, range, rules)
        }
        Event::Proposal(group, from) => {
            let (sent, range) = proposed_to(scenario, trace, skew, one.message, from, group);
            push_range(sent, here, range, rules)
        }
        Event::Commit(group) | Event::Delivery(group) => {
            push_proposals(scenario, trace, here, one.message, group, rules)
        }
    }
}

/// Appends that what came took a time in a range.
fn push_range(
    sent: Moment,
    came: Moment,
    range: (i64, i64),
    rules: &mut Vec<Rule>,
) -> Result<(), AllocError> {
    push_least(sent, came, range.0, rules)?;
    push_most(sent, came, range.1, rules)
}

/// Appends that proposals of groups where the message is told to arrive came to a group before it is committed there.
fn push_proposals(
    scenario: &Scenario,
    trace: &Corrected,
    here: Moment,
    message: usize,
    to: usize,
    rules: &mut Vec<Rule>,
) -> Result<(), AllocError> {
    for one in trace.told() {
        if one.message == message
            && let Event::Arrival(from) = one.event
        {
            let sent = moment_of(scenario, message, one.event, one.time);
            let packet = Packet::Propose { message, from, to };
            push_least(sent, here, range_of(scenario, trace, packet).0, rules)?;
        }
    }
    Ok(())
}

/// When the event of a message happened that is told to have happened then.
fn moment_of(scenario: &Scenario, message: usize, event: Event, time: u32) -> Moment {
    Moment {
        place: place_of(teller_of(scenario, message, event)),
        time: i64::from(time),
    }
}

/// The place of a clock.
fn place_of(teller: Teller) -> usize {
    match teller {
        Teller::Group(group) => group.saturating_add(GROUPS),
        Teller::Client(message) => message.saturating_add(CLIENTS),
    }
}

/// When a message was issued.
fn issue_of(scenario: &Scenario, trace: &Corrected, skew: u32, message: usize) -> Moment {
    match time_told(trace.told(), message, Event::Issue) {
        Some(time) => moment_of(scenario, message, Event::Issue, time),
        None => Moment {
            place: place_of(Teller::Client(message)),
            time: i64::from(skew),
        },
    }
}

/// When a message was issued, and in which range it comes to a group after that.
fn sent_to(
    scenario: &Scenario,
    trace: &Corrected,
    skew: u32,
    message: usize,
    to: usize,
) -> (Moment, (i64, i64)) {
    let range = range_of(scenario, trace, Packet::Multicast { message, to });
    (issue_of(scenario, trace, skew, message), range)
}

/// When the message arrived where a proposal came from, and in which range that comes after it; or else when it was issued,
/// and in which range the proposal comes after that.
fn proposed_to(
    scenario: &Scenario,
    trace: &Corrected,
    skew: u32,
    message: usize,
    from: usize,
    to: usize,
) -> (Moment, (i64, i64)) {
    let range = range_of(scenario, trace, Packet::Propose { message, from, to });
    if let Some(time) = time_told(trace.told(), message, Event::Arrival(from)) {
        return (
            moment_of(scenario, message, Event::Arrival(from), time),
            range,
        );
    }
    let (sent, first) = sent_to(scenario, trace, skew, message, from);
    let least = first.0.saturating_add(range.0);
    (sent, (least, first.1.saturating_add(range.1)))
}

/// What a packet may take, in fine ticks.
fn range_of(scenario: &Scenario, trace: &Corrected, packet: Packet) -> (i64, i64) {
    let (least, most) = fine_range(trace.factor(), scenario, packet);
    (told_by(least), told_by(most))
}

/// A number of fine ticks as one that may be negative; none is so great that it is another one.
fn told_by(ticks: u64) -> i64 {
    i64::try_from(ticks).unwrap_or(i64::MAX)
}
