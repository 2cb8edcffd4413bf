ghost use Rattle.std.specs.Prelude.{◌≡◌, ◌≤◌, ◌<◌, length, IfOk};
ghost use Rattle.convoy_packets.specs.Assignment.{Schedule};
ghost use Rattle.convoy_sim.specs.Delivery.{latency_of};
ghost use Rattle.convoy_intervals.specs.Boxes.{IsBox, IsIn};
ghost use Rattle.convoy_stamps.specs.StampBounds.{lowest_stamp, highest_final, stamp_bound};
ghost use Rattle.convoy_stamps.specs.Spans.{tables_in, is_sure_before, may_hold_back, last_commit_by};

use super::reach::{pairs_of, reach_size};
use super::spans::Spans;
use super::stamp_bound_laws::stamp_bound_holds;
use convoy_intervals::{DelayBox, Tracked};
use convoy_packets::Instance;
use convoy_sim::Timestamp;
use std::alloc::{AllocError, Global};

/// The stamp bound of a box: no schedule of the box has a greater latency, in ticks, and it is at
/// most the plain bound. It is that without the rivals whose stamps at the target's group are surely
/// greater than the target's final stamp: the former by how many messages surely arrive there before,
/// the latter by how many stamps it may have risen from (docs/PROTOCOL.md). The error is that memory
/// ran out.
pub fn stamp_bound(
    alloc: Global,
    instance: &Instance,
    delay_box: &DelayBox,
) -> Result<u32, AllocError>
    requires inside { IsBox instance.now delay_box.now }
    ensures value { IfOk result (λ bound. bound ≡ stamp_bound instance.now delay_box.now) }
    ensures holds { IfOk result (λ bound. (schedule : Schedule) → IsIn delay_box.now schedule
        → latency_of instance.now schedule ≤ bound) }
{
    let tracked = Tracked::over(alloc, instance, delay_box.copy()?)?;
    stamp_bound_of(alloc, instance, &tracked)
}

/// The same of a box that is tracked: what is kept of it is not computed again. The error is that
/// memory ran out.
pub fn stamp_bound_of(
    alloc: Global,
    instance: &Instance,
    tracked: &Tracked,
) -> Result<u32, AllocError>
    requires { tracked.now.scenario ≡ instance.now }
    ensures value { IfOk result (λ bound. bound ≡ stamp_bound instance.now tracked.now.delay_box) }
    ensures holds { IfOk result (λ bound. (schedule : Schedule) → IsIn tracked.now.delay_box schedule
        → latency_of instance.now schedule ≤ bound) }
{
    stamp_bound_holds();
    let spans = Spans::of(instance, tracked);
    let highest = highest_final(alloc, &spans)?;
    let issued = instance.issue_tick(instance.target_message());
    Ok(last_commit(&spans, highest).saturating_sub(issued))
}

/// A stamp that no final stamp of the target exceeds: the greatest, over its destinations, of the size
/// of the reach of its local stamp there.
fn highest_final(alloc: Global, spans: &Spans) -> Result<Timestamp, AllocError>
    ensures { IfOk result (λ highest. highest
        ≡ highest_final spans.now.scenario (tables_in spans.now)) }
{
    let scenario = spans.scenario();
    let pairs = pairs_of(alloc, scenario)?;
    let mut highest = Timestamp::NONE;
    for group in scenario.destinations(scenario.target_message()) {
        let size = reach_size(alloc, spans, &pairs, *group)?;
        let stamp = Timestamp {
            time: size as u64,
            group: *group,
        };
        highest = highest.later(stamp);
    }
    Ok(highest)
}

/// The last commit at the target's group, of the target and of its rivals, but for those whose stamps
/// there are surely greater than `highest`.
fn last_commit(spans: &Spans, highest: Timestamp) -> u32
    ensures { result ≡ last_commit_by spans.now highest }
{
    let scenario = spans.scenario();
    let target = spans.target_span(scenario.target_message());
    let mut last = target.settling.1;
    for message in 0..scenario.message_count() {
        if may_hold_back(spans, target.settling.1, highest, message) {
            last = last.max(spans.target_span(message).settling.1);
        }
    }
    last
}

/// Whether a message goes to the target's group, may arrive there by that tick, and has a stamp there
/// that is not surely greater than `highest`.
fn may_hold_back(spans: &Spans, committed: u32, highest: Timestamp, message: usize) -> bool
    requires { message < length spans.now.scenario.multicasts }
    ensures { result ≡ may_hold_back spans.now committed highest message }
{
    spans.goes_to_target(message)
        && spans.target_span(message).arrival.0 <= committed
        && !highest.is_less(lowest_stamp(spans, message))
}

/// A stamp that no stamp of a message at the target's group falls below: its time is one more than the
/// number of messages that surely arrive there before.
fn lowest_stamp(spans: &Spans, message: usize) -> Timestamp
    requires { message < length spans.now.scenario.multicasts }
    ensures { let scenario = spans.now.scenario in result
        ≡ lowest_stamp scenario (tables_in spans.now) message scenario.target_group }
{
    let mut time = 1;
    for other in 0..spans.scenario().message_count() {
        if is_sure_before(spans, message, other) {
            time += 1;
        }
    }
    Timestamp {
        time,
        group: spans.scenario().target_group(),
    }
}

/// Whether another message goes to the target's group and surely arrives there before the message.
fn is_sure_before(spans: &Spans, message: usize, other: usize) -> bool
    requires message { message < length spans.now.scenario.multicasts }
    requires other { other < length spans.now.scenario.multicasts }
    ensures { result ≡ is_sure_before spans.now message other }
{
    spans.goes_to_target(other)
        && other != message
        && spans.target_span(other).arrival.1 < spans.target_span(message).arrival.0
}
