ghost use Rattle.std.specs.Prelude.{◌≡◌, ℕ, ◌+◌, ◌≤◌, ◌<◌, length, IfSome};
ghost use Rattle.std.specs.Option.{option_map_or};
ghost use Rattle.convoy_scenario.specs.Scenario.{message_at};
ghost use Rattle.convoy_packets.specs.declared.packet.Packet.TheVariants.{Multicast, Propose};
ghost use Rattle.convoy_packets.specs.Assignment.{delay_of};
ghost use Rattle.convoy_packets.specs.Table.{least_of};
ghost use Rattle.convoy_sim.specs.Times.{issue, arrive, settle, propose_arrive};
ghost use Rattle.convoy_intervals.specs.Boxes.{range_at, greatest_of, IsBox};
ghost use Rattle.convoy_intervals.specs.Spans.{arrival_span};

use super::delay_box::DelayBox;
use convoy_packets::Instance;
use convoy_scenario::GREATEST_UNTIL;

/// From when to when something may happen: the least and the greatest tick.
pub type Window = (u32, u32);

/// The range of the packet at that place; what is no packet takes no time.
fn range_of(delay_box: &DelayBox, place: Option<u16>) -> (u16, u16)
    requires { IfSome place (λ i. i < length delay_box.now) }
    ensures { result ≡ option_map_or (range_at delay_box.now) place (0, 0) }
{
    place.map_or((0, 0), |packet| delay_box.range(usize::from(packet)))
}

/// The least and the greatest tick at which a message is issued, over the members of a box: those of
/// the box's least and greatest waits.
pub(crate) fn issues(instance: &Instance, delay_box: &DelayBox, message: usize) -> Window
    requires known { message < length instance.now.multicasts }
    requires inside { IsBox instance.now delay_box.now }
    ensures least { result.0 ≡ issue instance.now (least_of delay_box.now) message }
    ensures greatest { result.1 ≡ issue instance.now (greatest_of delay_box.now) message }
    ensures fits { (result.0 ≤ GREATEST_UNTIL) × (result.1 ≤ GREATEST_UNTIL) }
{
    let (least, most) = range_of(delay_box, instance.table().wait(message));
    let first = instance.issue_tick(message);
    (first + u32::from(least), first + u32::from(most))
}

/// The least and the greatest delay of a message on its way to a group, over the members of a box, in
/// ticks; 0 where there is no such packet.
pub fn multicast_delays(
    instance: &Instance,
    delay_box: &DelayBox,
    message: usize,
    to: usize,
) -> (u16, u16)
    requires inside { IsBox instance.now delay_box.now }
    ensures least { result.0
        ≡ delay_of instance.now (least_of delay_box.now) (Multicast message to) }
    ensures greatest { result.1
        ≡ delay_of instance.now (greatest_of delay_box.now) (Multicast message to) }
{
    range_of(delay_box, instance.table().multicast_to(message, to))
}

/// The least and the greatest tick at which a message arrives at a group, over the members of a box:
/// those of the box's least and greatest delays (docs/PROTOCOL.md).
pub fn arrivals(instance: &Instance, delay_box: &DelayBox, message: usize, group: usize) -> Window
    requires known { message < length instance.now.multicasts }
    requires inside { IsBox instance.now delay_box.now }
    ensures least { result.0 ≡ arrive instance.now (least_of delay_box.now) message group }
    ensures greatest { result.1 ≡ arrive instance.now (greatest_of delay_box.now) message group }
    ensures fits { (result.0 ≤ GREATEST_UNTIL + u16.MAX) × (result.1 ≤ GREATEST_UNTIL + u16.MAX) }
{
    let (least, most) = range_of(delay_box, instance.table().multicast_to(message, group));
    let (first, last) = issues(instance, delay_box, message);
    (first + u32::from(least), last + u32::from(most))
}

/// The least and the greatest tick at which the group `to` has the stamp that the group `from`
/// proposes for a message, over the members of a box.
fn proposals(
    instance: &Instance,
    delay_box: &DelayBox,
    message: usize,
    from: usize,
    to: usize,
) -> Window
    requires known { message < length instance.now.multicasts }
    requires inside { IsBox instance.now delay_box.now }
    ensures least { result.0
        ≡ propose_arrive instance.now (least_of delay_box.now) message to from }
    ensures greatest { result.1
        ≡ propose_arrive instance.now (greatest_of delay_box.now) message to from }
{
    let arrival = arrivals(instance, delay_box, message, from);
    proposals_after(instance, delay_box, arrival, message, from, to)
}

/// The same from the least and the greatest tick at which the message arrives at the group `from`.
pub(crate) fn proposals_after(
    instance: &Instance,
    delay_box: &DelayBox,
    arrival: Window,
    message: usize,
    from: usize,
    to: usize,
) -> Window
    requires inside { IsBox instance.now delay_box.now }
    requires arrival { arrival ≡ arrival_span instance.now delay_box.now message from }
    requires fits { (arrival.0 ≤ GREATEST_UNTIL + u16.MAX) × (arrival.1 ≤ GREATEST_UNTIL + u16.MAX) }
    ensures least { result.0
        ≡ propose_arrive instance.now (least_of delay_box.now) message to from }
    ensures greatest { result.1
        ≡ propose_arrive instance.now (greatest_of delay_box.now) message to from }
{
    let (least, most) = range_of(delay_box, instance.table().propose(message, from, to));
    (arrival.0 + u32::from(least), arrival.1 + u32::from(most))
}

/// The least and the greatest delay of the stamp that the group `from` proposes for a message, on
/// its way to the group `to`, over the members of a box, in ticks; 0 where there is no such packet.
pub fn proposal_delays(
    instance: &Instance,
    delay_box: &DelayBox,
    message: usize,
    from: usize,
    to: usize,
) -> (u16, u16)
    requires inside { IsBox instance.now delay_box.now }
    ensures least { result.0
        ≡ delay_of instance.now (least_of delay_box.now) (Propose message from to) }
    ensures greatest { result.1
        ≡ delay_of instance.now (greatest_of delay_box.now) (Propose message from to) }
{
    range_of(delay_box, instance.table().propose(message, from, to))
}

/// The least and the greatest tick at which a message is committed at a group, over the members of
/// a box: those of the box's least and greatest delays (docs/PROTOCOL.md).
#[tactic(auto, unfolding(convoy_sim::specs::Times::settle))]
pub fn settlings(instance: &Instance, delay_box: &DelayBox, message: usize, group: usize) -> Window
    requires known { message < length instance.now.multicasts }
    requires inside { IsBox instance.now delay_box.now }
    ensures least { result.0 ≡ settle instance.now (least_of delay_box.now) message group }
    ensures greatest { result.1 ≡ settle instance.now (greatest_of delay_box.now) message group }
{
    let mut least = 0;
    let mut most = 0;
    for from in instance.destinations(message) {
        let (first, last) = proposals(instance, delay_box, message, *from, group);
        least = least.max(first);
        most = most.max(last);
    }
    (least, most)
}
