ghost use Rattle.std.specs.Prelude.{◌≡◌, ℕ, ◌<◌, ◌==◌, List, length, slice_index, slice_set, IfOk, IfSome};
ghost use Rattle.std.specs.List.{slice_get};
ghost use Rattle.std.specs.Option.{option_map_or};
ghost use Rattle.std.specs.Result.{result_map_both};
ghost use Rattle.convoy_packets.specs.Assignment.{AreWithin, IsWithin, in_fixed_order};
ghost use Rattle.convoy_packets.specs.Table.{least_of, least_delays, greatest_of, greatest_delays};
ghost use Rattle.convoy_packets.specs.Given.{delay_given, delays_given, schedule_of};
ghost use Rattle.convoy_scenario.specs.Memory.{IsUnlessMemory};

use super::fault::ListFault;
use super::order::Order;
use super::table::PacketTable;
use std::alloc::{AllocError, Global};
use std::marker::Model;

/// A schedule: the delay of each packet in ticks, in the order of a packet table, and the order in
/// which ties fall.
#[derive(Drop)]
pub struct Schedule {
    delays: Vec<u16>,
    order: Order,
}

impl Model for Schedule {
    ghost use Rattle.convoy_packets.specs.Assignment.{Schedule};

    ghost Value = { Schedule };

    ghost view = { λ s. record { delays = s.delays.items; order = s.order } };
}

impl Schedule {
    /// The schedule in which each packet takes the least time that it may take. Fails where memory
    /// runs out, and else never.
    pub fn least(alloc: Global, table: &PacketTable) -> Result<Schedule, AllocError>
        ensures value { IfOk result (λ schedule. schedule ≡ least_of table.now.ranges) }
        ensures within { IfOk result (λ schedule. AreWithin table.now.ranges schedule.delays) }
    {
        let delays = least_delays(alloc, table.ranges())?;
        Ok(Schedule::of(delays))
    }

    /// The schedule in which each packet takes the greatest time that it may take. Fails where memory
    /// runs out, and else never.
    pub fn greatest(alloc: Global, table: &PacketTable) -> Result<Schedule, AllocError>
        ensures value { IfOk result (λ schedule. schedule ≡ greatest_of table.now.ranges) }
        ensures within { IfOk result (λ schedule. AreWithin table.now.ranges schedule.delays) }
    {
        let delays = greatest_delays(alloc, table.ranges())?;
        Ok(Schedule::of(delays))
    }

    /// The schedule that a list of numbers gives: the delay of each packet in ticks, in the order of
    /// the table.
    ///
    /// A list that is no schedule gives its first fault, in the order of `ListFault`. Where memory
    /// runs out, the answer is `ListFault::Memory`, which says nothing of the list.
    pub fn from_list(
        alloc: Global,
        table: &PacketTable,
        list: &[i64],
    ) -> Result<Schedule, ListFault>
        ensures value { IsUnlessMemory ListFault.Memory
            (schedule_of table.now.ranges list.now) result }
        ensures within { IfOk result (λ schedule. AreWithin table.now.ranges schedule.delays) }
    {
        let ranges = table.ranges();
        if list.len() != ranges.len() {
            return Err(ListFault::Length);
        }
        let delays = delays_given(alloc, ranges, list)?;
        Ok(Schedule::of(delays))
    }

    /// The same schedule, in memory of its own. Fails where memory runs out, and else never.
    pub fn copy(&self) -> Result<Schedule, AllocError>
        ensures { IfOk result (λ copy. copy ≡ self.now) }
    {
        let delays = Vec::from_slice(*self.delays.allocator(), &self.delays)?;
        Ok(Schedule {
            delays,
            order: self.order,
        })
    }

    /// The schedule with these delays, in which ties fall in the fixed order.
    pub fn of(delays: Vec<u16>) -> Schedule
        ensures { result ≡ in_fixed_order delays.items }
    {
        Schedule {
            delays,
            order: Order::none(),
        }
    }

    /// The schedule with these delays and that order of ties.
    pub fn with_order(delays: Vec<u16>, order: Order) -> Schedule
        ensures { result ≡ record { delays = delays.items; order = order } }
    {
        Schedule { delays, order }
    }

    /// The order in which ties fall.
    pub fn order(&self) -> &Order
        ensures { result.now ≡ self.now.order }
    {
        &self.order
    }

    /// Gives the schedule another order of ties.
    pub fn set_order(&mut self, order: Order)
        ensures { self.new ≡ record self.old { order = order } }
    {
        self.order = order;
    }

    /// Gives the packet at a place another delay, in ticks. A schedule within some ranges stays within
    /// them where the delay is in the one at that place.
    pub fn set(&mut self, place: usize, delay: u16)
        requires { place < length self.old.delays }
        ensures value { self.new ≡ record self.old { delays = slice_set self.old.delays place delay } }
        ensures within { (ranges : List (ℕ × ℕ)) → AreWithin ranges self.old.delays
            → IfSome (slice_get ranges place) (λ range. IsWithin range delay)
            → AreWithin ranges self.new.delays }
    {
        self.delays[place] = delay;
    }

    /// Takes over the delays and the order of ties of another schedule of as many packets.
    pub fn copy_from(&mut self, other: &Schedule)
        requires { length self.old.delays ≡ length other.now.delays }
        ensures { self.new ≡ other.now }
    {
        self.delays.copy_from_slice(other.delays());
        self.order = other.order;
    }

    /// The delays in ticks, in the order of the packets.
    pub fn delays(&self) -> &[u16]
        ensures { result.now ≡ self.now.delays }
    {
        self.delays.as_slice()
    }

    /// How many packets the schedule has.
    pub fn len(&self) -> usize
        ensures { result ≡ length self.now.delays }
    {
        self.delays.len()
    }

    /// Whether the schedule has no packet.
    pub fn is_empty(&self) -> bool
        ensures { result ≡ (length self.now.delays == 0) }
    {
        self.delays.is_empty()
    }

    /// The delay of the packet at a place, in ticks.
    pub fn delay(&self, place: usize) -> u16
        requires { place < length self.now.delays }
        ensures { result ≡ slice_index self.now.delays place }
    {
        self.delays[place]
    }

    /// The delay of the packet at a place that was looked up, in ticks; 0 where there is none.
    pub(crate) fn delay_at(&self, place: Option<u16>) -> u16
        ensures { result ≡ option_map_or (λ i. slice_index self.now.delays i) place 0 }
    {
        place
            .and_then(|i| self.delays.get(usize::from(i)))
            .copied()
            .unwrap_or(0)
    }
}

/// The least delay of each range.
fn least_delays(alloc: Global, ranges: &[(u16, u16)]) -> Result<Vec<u16>, AllocError>
    ensures { IfOk result (λ delays. delays.items ≡ least_delays ranges.now) }
{
    ranges.iter().map(|range| range.0).collect(alloc)
}

/// The greatest delay of each range.
fn greatest_delays(alloc: Global, ranges: &[(u16, u16)]) -> Result<Vec<u16>, AllocError>
    ensures { IfOk result (λ delays. delays.items ≡ greatest_delays ranges.now) }
{
    ranges.iter().map(|range| range.1).collect(alloc)
}

/// The numbers as delays, each in the range that stands at its place.
fn delays_given(alloc: Global, ranges: &[(u16, u16)], list: &[i64]) -> Result<Vec<u16>, ListFault>
    requires { length list.now ≡ length ranges.now }
    ensures { IsUnlessMemory ListFault.Memory (delays_given 0 ranges.now list.now)
        (result_map_both (λ delays. delays.items) (λ fault. fault) result) }
{
    let mut delays = Vec::with_capacity(alloc, list.len())?;
    for (i, number) in list.iter().enumerate() {
        let delay = delay_given(ranges[i], *number).ok_or(ListFault::Range(i))?;
        delays.push(delay).map_err(AllocError::from)?;
    }
    Ok(delays)
}

/// The number as a delay, where it is in the range.
pub(crate) fn delay_given(range: (u16, u16), number: i64) -> Option<u16>
    ensures { result ≡ delay_given range number }
{
    if i64::from(range.0) <= number && number <= i64::from(range.1) {
        Some(number as u16)
    } else {
        None
    }
}
