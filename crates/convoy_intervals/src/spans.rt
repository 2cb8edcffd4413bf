ghost use Rattle.std.specs.Prelude.{◌≡◌, ◌*◌, ◌+◌, ◌<◌, ◌≤◌, length, slice_set, IfOk, IsTrue};
ghost use Rattle.convoy_scenario.specs.WellFormed.{IsScenario};
ghost use Rattle.convoy_packets.specs.ScheduleLaws.{is_sent};
ghost use Rattle.convoy_intervals.specs.Boxes.{IsBox};
ghost use Rattle.convoy_intervals.specs.Spans.{arrival_span, settling_span, span_place, span_at};
ghost use Rattle.convoy_intervals.specs.Spans.{AreAllSpans, AreArrivals, AreOthersKept, AreSettlings};
ghost use Rattle.convoy_intervals.specs.Spans.{AreSpans, AreSpansBut};

use super::delay_box::DelayBox;
use super::times::{Window, arrivals, proposals_after};
use convoy_packets::{Instance, Packet};
use convoy_scenario::GREATEST_UNTIL;
use convoy_sim::protocol_laws::arrives_within_one_delay;
use std::alloc::{AllocError, Global};

/// From when to when a message may arrive at a group, and be committed there, over the members of a
/// box.
#[derive(Clone, Copy)]
pub struct Span {
    /// The least and the greatest tick at which the message arrives.
    pub arrival: Window,
    /// The least and the greatest tick at which it is committed.
    pub settling: Window,
}

impl Span {
    /// What stands in a place until its span is written.
    const NONE: Span = Span {
        arrival: (0, 0),
        settling: (0, 0),
    };
}

/// The place of a message at a group in a list of spans.
pub(crate) fn place(instance: &Instance, message: usize, group: usize) -> usize
    requires message { message < length instance.now.multicasts }
    requires group { group < length instance.now.groups }
    ensures value { result ≡ span_place instance.now message group }
    ensures within { result < length instance.now.groups * length instance.now.multicasts }
    ensures lawful { IsScenario instance.now }
{
    message * instance.group_count() + group
}

/// The spans of all messages at all groups over a box.
pub(crate) fn list_spans(
    alloc: Global,
    instance: &Instance,
    delay_box: &DelayBox,
) -> Result<Vec<Span>, AllocError>
    requires inside { IsBox instance.now delay_box.now }
    ensures { IfOk result (λ spans. AreSpans instance.now delay_box.now spans.items) }
{
    let mut spans = Vec::new(alloc);
    spans.resize(
        instance.group_count() * instance.message_count(),
        Span::NONE,
    )?;
    write_spans(spans.as_mut_slice(), instance, delay_box);
    Ok(spans)
}

/// Writes the spans of all messages.
fn write_spans(spans: &mut [Span], instance: &Instance, delay_box: &DelayBox)
    requires inside { IsBox instance.now delay_box.now }
    requires all { AreAllSpans instance.now spans.old }
    ensures { AreSpans instance.now delay_box.now spans.new }
{
    for message in 0..instance.message_count() {
        write_message(spans, instance, delay_box, message);
    }
}

/// Brings the spans up to date with a box in which that packet has got another range.
pub(crate) fn follow_packet(
    spans: &mut [Span],
    instance: &Instance,
    delay_box: &DelayBox,
    packet: Packet,
)
    requires inside { IsBox instance.now delay_box.now }
    requires sent { IsTrue (is_sent instance.now packet) }
    requires but { AreSpansBut packet instance.now delay_box.now spans.old }
    ensures { AreSpans instance.now delay_box.now spans.new }
{
    let _delay = instance.delay();
    match packet {
        Packet::Wait { message } => {
            write_message(spans, instance, delay_box, message);
        }
        Packet::Multicast { message, .. } => {
            write_message(spans, instance, delay_box, message);
        }
        Packet::Propose { message, to, .. } => {
            write_settling(spans, instance, delay_box, message, to);
        }
    }
}

/// Writes the spans of a message at all groups.
fn write_message(spans: &mut [Span], instance: &Instance, delay_box: &DelayBox, message: usize)
    requires known { message < length instance.now.multicasts }
    requires inside { IsBox instance.now delay_box.now }
    requires all { AreAllSpans instance.now spans.old }
    ensures arrivals { AreArrivals instance.now delay_box.now spans.new message
        (length instance.now.groups) }
    ensures settlings { AreSettlings instance.now delay_box.now spans.new message
        (length instance.now.groups) }
    ensures others { AreOthersKept instance.now message spans.old spans.new }
    ensures all { AreAllSpans instance.now spans.new }
{
    write_arrivals(spans, instance, delay_box, message);
    for group in 0..instance.group_count() {
        write_settling(spans, instance, delay_box, message, group);
    }
}

/// Writes from when to when a message may arrive at each group.
fn write_arrivals(spans: &mut [Span], instance: &Instance, delay_box: &DelayBox, message: usize)
    requires known { message < length instance.now.multicasts }
    requires inside { IsBox instance.now delay_box.now }
    requires all { AreAllSpans instance.now spans.old }
    ensures arrivals { AreArrivals instance.now delay_box.now spans.new message
        (length instance.now.groups) }
    ensures others { AreOthersKept instance.now message spans.old spans.new }
    ensures all { AreAllSpans instance.now spans.new }
{
    for group in 0..instance.group_count() {
        let span = &mut spans[place(instance, message, group)];
        span.arrival = arrivals(instance, delay_box, message, group);
    }
}

/// Writes from when to when a message may be committed at a group.
fn write_settling(
    spans: &mut [Span],
    instance: &Instance,
    delay_box: &DelayBox,
    message: usize,
    group: usize,
)
    requires known { message < length instance.now.multicasts }
    requires group { group < length instance.now.groups }
    requires inside { IsBox instance.now delay_box.now }
    requires all { AreAllSpans instance.now spans.old }
    requires arrivals { AreArrivals instance.now delay_box.now spans.old message
        (length instance.now.groups) }
    ensures { spans.new ≡ slice_set spans.old (span_place instance.now message group)
        (record (span_at instance.now spans.old message group)
        { settling = settling_span instance.now delay_box.now message group }) }
{
    let settling = settling_from(spans, instance, delay_box, message, group);
    let span = &mut spans[place(instance, message, group)];
    span.settling = settling;
}

/// From when to when a message may be committed at a group, with the arrivals that the spans have.
#[tactic(auto, unfolding(convoy_sim::specs::Times::settle))]
fn settling_from(
    spans: &[Span],
    instance: &Instance,
    delay_box: &DelayBox,
    message: usize,
    group: usize,
) -> Window
    requires known { message < length instance.now.multicasts }
    requires inside { IsBox instance.now delay_box.now }
    requires all { AreAllSpans instance.now spans.now }
    requires arrivals { AreArrivals instance.now delay_box.now spans.now message
        (length instance.now.groups) }
    ensures { result ≡ settling_span instance.now delay_box.now message group }
{
    let mut least = 0;
    let mut most = 0;
    for from in instance.destinations(message) {
        let arrival = arrival_from(spans, instance, delay_box, message, *from);
        let (first, last) = proposals_after(instance, delay_box, arrival, message, *from, group);
        least = least.max(first);
        most = most.max(last);
    }
    (least, most)
}

/// From when to when a message may arrive at a group, as the spans have it.
fn arrival_from(
    spans: &[Span],
    instance: &Instance,
    delay_box: &DelayBox,
    message: usize,
    group: usize,
) -> Window
    requires known { message < length instance.now.multicasts }
    requires group { group < length instance.now.groups }
    requires inside { IsBox instance.now delay_box.now }
    requires all { AreAllSpans instance.now spans.now }
    requires arrivals { AreArrivals instance.now delay_box.now spans.now message
        (length instance.now.groups) }
    ensures value { result ≡ arrival_span instance.now delay_box.now message group }
    ensures fits { (result.0 ≤ GREATEST_UNTIL + u16.MAX) × (result.1 ≤ GREATEST_UNTIL + u16.MAX) }
{
    arrives_within_one_delay();
    let _delay_box = delay_box;
    spans[place(instance, message, group)].arrival
}
