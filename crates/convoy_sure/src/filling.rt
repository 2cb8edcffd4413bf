ghost use Rattle.std.specs.Prelude.{◌≡◌, ℕ, ◌*◌, ◌+◌, ◌≤◌, ◌<◌, length, map, All, IfOk};
ghost use Rattle.std.specs.List.{range_with_len};
ghost use Rattle.convoy_packets.specs.Assignment.{delay_of};
ghost use Rattle.convoy_packets.specs.Table.{least_of};
ghost use Rattle.convoy_packets.specs.declared.packet.Packet.TheVariants.{Multicast};
ghost use Rattle.convoy_sim.specs.Times.{settle};
ghost use Rattle.convoy_intervals.specs.Boxes.{IsBox, greatest_of};
ghost use Rattle.convoy_intervals.specs.Bounds.{tables_of};
ghost use Rattle.convoy_sure.specs.Filling.{place_count, least_entry, greatest_entry, last_entry};
ghost use Rattle.convoy_sure.specs.Windows.{entry_of, proposal_entry};
ghost use Rattle.convoy_sure.specs.Windows.{windows_of};

use super::ends::Ends;
use super::messages::is_addressed;
use super::windows::{LAST_ARRIVAL, LAST_SETTLING, Windows};
use convoy_intervals::box_laws::{greatest_is_member, least_is_member, members_are_assignments};
use convoy_intervals::{DelayBox, Window, arrivals, multicast_delays, proposal_delays, settlings};
use convoy_packets::Instance;
use convoy_packets::schedule_laws::fixed_order_is_order;
use convoy_scenario::{AllocResult, MOST_GROUPS};
use convoy_sim::protocol_laws::{committed_within_two_delays, issued_within_its_wait};
use std::alloc::Global;

impl Windows {
    /// The windows of a box of the instance. The error is that memory ran out.
    pub fn of(alloc: Global, instance: &Instance, delay_box: &DelayBox) -> AllocResult<Windows>
        requires inside { IsBox instance.now delay_box.now }
        ensures { IfOk result (λ windows. windows ≡ windows_of instance.now delay_box.now) }
    {
        let places = instance.message_count() * MOST_GROUPS;
        let arrivals = ends_of(alloc, instance, delay_box, Kind::Arrivals, places)?;
        let settlings = ends_of(alloc, instance, delay_box, Kind::Settlings, places)?;
        let multicasts = ends_of(alloc, instance, delay_box, Kind::Multicasts, places)?;
        let proposals = ends_of(
            alloc,
            instance,
            delay_box,
            Kind::Proposals,
            places * MOST_GROUPS,
        )?;
        Ok(Windows {
            arrivals,
            settlings,
            multicasts,
            proposals,
        })
    }
}

/// What windows have lists of: ticks or delays of messages at groups, or the delays of proposals from
/// groups to others.
#[derive(Clone, Copy)]
pub(crate) enum Kind {
    /// When a message arrives at a group.
    Arrivals,
    /// When it is committed there.
    Settlings,
    /// How long it takes to there.
    Multicasts,
    /// How long a proposal takes.
    Proposals,
}

/// The least and the greatest entries of a kind, at so many places.
fn ends_of(
    alloc: Global,
    instance: &Instance,
    delay_box: &DelayBox,
    kind: Kind,
    places: usize,
) -> AllocResult<Ends>
    requires places { places ≡ place_count instance.now kind }
    requires inside { IsBox instance.now delay_box.now }
    ensures least { IfOk result
        (λ ends. ends.least.items ≡ map (least_entry instance.now delay_box.now kind)
        (range_with_len 0 (place_count instance.now kind))) }
    ensures greatest { IfOk result
        (λ ends. ends.greatest.items ≡ map (greatest_entry instance.now delay_box.now kind)
        (range_with_len 0 (place_count instance.now kind))) }
    ensures least_fit { IfOk result
        (λ ends. All (λ entry. entry ≤ last_entry kind) ends.least.items) }
    ensures greatest_fit { IfOk result
        (λ ends. All (λ entry. entry ≤ last_entry kind) ends.greatest.items) }
{
    let mut least = Vec::with_capacity(alloc, places)?;
    let mut greatest = Vec::with_capacity(alloc, places)?;
    for place in 0..places {
        let (low, high) = ends_at(instance, delay_box, kind, place);
        least.push(low)?;
        greatest.push(high)?;
    }
    Ok(Ends { least, greatest })
}

/// The least and the greatest entry of a kind at a place.
fn ends_at(instance: &Instance, delay_box: &DelayBox, kind: Kind, place: usize) -> (u32, u32)
    requires known { place < place_count instance.now kind }
    requires inside { IsBox instance.now delay_box.now }
    ensures least { result.0 ≡ least_entry instance.now delay_box.now kind place }
    ensures greatest { result.1 ≡ greatest_entry instance.now delay_box.now kind place }
    ensures fits { (result.0 ≤ last_entry kind) × (result.1 ≤ last_entry kind) }
{
    match kind {
        Kind::Arrivals => arrivals_at(instance, delay_box, place),
        Kind::Settlings => settlings_at(instance, delay_box, place),
        Kind::Multicasts => multicasts_at(instance, delay_box, place),
        Kind::Proposals => proposals_at(instance, delay_box, place),
    }
}

/// The least and the greatest arrival at a place of their tables.
fn arrivals_at(instance: &Instance, delay_box: &DelayBox, place: usize) -> Window
    requires known { place < length instance.now.multicasts * MOST_GROUPS }
    requires inside { IsBox instance.now delay_box.now }
    ensures least { result.0
        ≡ entry_of instance.now (tables_of instance.now delay_box.now).least_arrival place }
    ensures greatest { result.1
        ≡ entry_of instance.now (tables_of instance.now delay_box.now).greatest_arrival place }
    ensures fits { (result.0 ≤ LAST_ARRIVAL) × (result.1 ≤ LAST_ARRIVAL) }
{
    let (message, group) = (place / MOST_GROUPS, place % MOST_GROUPS);
    if is_addressed(instance.scenario(), message, group) {
        arrivals(instance, delay_box, message, group)
    } else {
        (0, 0)
    }
}

/// The least and the greatest settling at a place of their tables.
fn settlings_at(instance: &Instance, delay_box: &DelayBox, place: usize) -> Window
    requires known { place < length instance.now.multicasts * MOST_GROUPS }
    requires inside { IsBox instance.now delay_box.now }
    ensures least { result.0
        ≡ entry_of instance.now (tables_of instance.now delay_box.now).least_settling place }
    ensures greatest { result.1
        ≡ entry_of instance.now (tables_of instance.now delay_box.now).greatest_settling place }
    ensures fits { (result.0 ≤ LAST_SETTLING) × (result.1 ≤ LAST_SETTLING) }
{
    let (message, group) = (place / MOST_GROUPS, place % MOST_GROUPS);
    if is_addressed(instance.scenario(), message, group) {
        settlings_in(instance, delay_box, message, group)
    } else {
        (0, 0)
    }
}

/// The least and the greatest settling of a message at a group, which are none after the last one of
/// a scenario.
fn settlings_in(instance: &Instance, delay_box: &DelayBox, message: usize, group: usize) -> Window
    requires known { message < length instance.now.multicasts }
    requires inside { IsBox instance.now delay_box.now }
    ensures least { result.0 ≡ settle instance.now (least_of delay_box.now) message group }
    ensures greatest { result.1 ≡ settle instance.now (greatest_of delay_box.now) message group }
    ensures fits { (result.0 ≤ LAST_SETTLING) × (result.1 ≤ LAST_SETTLING) }
{
    fixed_order_is_order();
    least_is_member();
    greatest_is_member();
    members_are_assignments();
    committed_within_two_delays();
    issued_within_its_wait();
    let _delay = instance.delay();
    settlings(instance, delay_box, message, group)
}

/// The least and the greatest delay of a message to a group, at a place of their tables.
fn multicasts_at(instance: &Instance, delay_box: &DelayBox, place: usize) -> (u32, u32)
    requires known { place < length instance.now.multicasts * MOST_GROUPS }
    requires inside { IsBox instance.now delay_box.now }
    ensures least { result.0
        ≡ entry_of instance.now (λ m g. delay_of instance.now (least_of delay_box.now) (Multicast m g)) place }
    ensures greatest { result.1
        ≡ entry_of instance.now (λ m g. delay_of instance.now (greatest_of delay_box.now) (Multicast m g)) place }
    ensures fits { (result.0 ≤ u16.MAX) × (result.1 ≤ u16.MAX) }
{
    let (message, group) = (place / MOST_GROUPS, place % MOST_GROUPS);
    if is_addressed(instance.scenario(), message, group) {
        let (least, greatest) = multicast_delays(instance, delay_box, message, group);
        (u32::from(least), u32::from(greatest))
    } else {
        (0, 0)
    }
}

/// The least and the greatest delay of a proposal at a place of their tables.
fn proposals_at(instance: &Instance, delay_box: &DelayBox, place: usize) -> (u32, u32)
    requires known { place < length instance.now.multicasts * MOST_GROUPS * MOST_GROUPS }
    requires inside { IsBox instance.now delay_box.now }
    ensures least { result.0 ≡ proposal_entry instance.now (least_of delay_box.now) place }
    ensures greatest { result.1 ≡ proposal_entry instance.now (greatest_of delay_box.now) place }
    ensures fits { (result.0 ≤ u16.MAX) × (result.1 ≤ u16.MAX) }
{
    let (stamp, to) = (place / MOST_GROUPS, place % MOST_GROUPS);
    let (message, from) = (stamp / MOST_GROUPS, stamp % MOST_GROUPS);
    if is_addressed(instance.scenario(), message, from)
        && is_addressed(instance.scenario(), message, to)
    {
        let (least, greatest) = proposal_delays(instance, delay_box, message, from, to);
        (u32::from(least), u32::from(greatest))
    } else {
        (0, 0)
    }
}
