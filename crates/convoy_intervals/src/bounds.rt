ghost use Rattle.std.specs.Prelude.{◌≡◌, ℕ, ◌≤◌, ◌<◌, ◌&&◌, nat_le, List, length};
ghost use Rattle.convoy_scenario.specs.Scenario.{message_at, is_addressed};
ghost use Rattle.convoy_packets.specs.Assignment.{Schedule};
ghost use Rattle.convoy_packets.specs.Table.{least_of};
ghost use Rattle.convoy_sim.specs.Times.{arrive};
ghost use Rattle.convoy_sim.specs.Delivery.{latency_of};
ghost use Rattle.convoy_intervals.specs.Boxes.{IsBox, IsIn};
ghost use Rattle.convoy_intervals.specs.Bounds.{plain_bound, plain_bound_over};
ghost use Rattle.convoy_intervals.specs.Spans.{tables_in, AreAllSpans};

use super::box_laws::plain_bound_holds;
use super::delay_box::DelayBox;
use super::spans::{Span, place};
use super::times::{arrivals, settlings};
use convoy_packets::Instance;

/// The plain bound of a box: no schedule of the box has a greater latency, in ticks. It goes from
/// the issue of the target to the last commit, with greatest delays, at its group: of the target
/// and of each message that goes there and, with least delays, arrives no later than the target is
/// committed with greatest ones (docs/PROTOCOL.md).
pub fn bound(instance: &Instance, delay_box: &DelayBox) -> u32
    requires inside { IsBox instance.now delay_box.now }
    ensures value { result ≡ plain_bound instance.now delay_box.now }
    ensures holds { (schedule : Schedule) → IsIn delay_box.now schedule
        → latency_of instance.now schedule ≤ result }
{
    plain_bound_holds();
    let target = instance.target_message();
    let group = instance.target_group();
    let (_, committed) = settlings(instance, delay_box, target, group);
    let mut last = committed;
    for message in 0..instance.message_count() {
        if is_rival(instance, delay_box, message, committed) {
            let (_, settled) = settlings(instance, delay_box, message, group);
            last = last.max(settled);
        }
    }
    last.saturating_sub(instance.issue_tick(target))
}

/// Whether a message goes to the target's group and may arrive there by that tick.
fn is_rival(instance: &Instance, delay_box: &DelayBox, message: usize, committed: u32) -> bool
    requires known { message < length instance.now.multicasts }
    requires inside { IsBox instance.now delay_box.now }
    ensures { let group = instance.now.target_group in result
        ≡ (is_addressed (message_at instance.now message) group
        && nat_le (arrive instance.now (least_of delay_box.now) message group) committed) }
{
    let group = instance.target_group();
    if !instance.destinations(message).contains(&group) {
        return false;
    }
    let (first, _) = arrivals(instance, delay_box, message, group);
    first <= committed
}

/// The plain bound over the tables that a list of spans is, in ticks.
pub(crate) fn bound_over(instance: &Instance, spans: &[Span]) -> u32
    requires { AreAllSpans instance.now spans.now }
    ensures { result ≡ plain_bound_over instance.now (tables_in instance.now spans.now) }
{
    let target = instance.target_message();
    let group = instance.target_group();
    let (_, committed) = spans[place(instance, target, group)].settling;
    let mut last = committed;
    for message in 0..instance.message_count() {
        let span = spans[place(instance, message, group)];
        if is_rival_by(instance, span, message, committed) {
            last = last.max(span.settling.1);
        }
    }
    last.saturating_sub(instance.issue_tick(target))
}

/// Whether a message goes to the target's group and, by its span there, may arrive by that tick.
fn is_rival_by(instance: &Instance, span: Span, message: usize, committed: u32) -> bool
    requires { message < length instance.now.multicasts }
    ensures { result
        ≡ (is_addressed (message_at instance.now message) instance.now.target_group
        && nat_le span.arrival.0 committed) }
{
    let group = instance.target_group();
    instance.destinations(message).contains(&group) && span.arrival.0 <= committed
}
