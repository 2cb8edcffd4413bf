//! Orders of ties to be tried, by what a trace tells. Nothing is believed of them.

ghost use Rattle.std.specs.Prelude.{◌≡◌, IfOk};
ghost use Rattle.convoy_draft.specs.declared.time.Time.TheVariants.{Real};
ghost use Rattle.convoy_packets.specs.Order.{IsOrder};

use super::network::is_addressed;
use convoy_packets::schedule_laws::fixed_order_is_order;
use convoy_packets::{GREATEST_RANK, Instance, ListFault, Order};
use convoy_scenario::MOST_GROUPS;
use convoy_traces::{Event, Told};
use std::alloc::{AllocError, Global};

/// By what the moments of a tick are put in order.
#[derive(Clone, Copy)]
pub(crate) enum Ties {
    /// By the stamps that are told: an arrival is before the commits whose stamps are no less than its own.
    Stamps,
    /// In the fixed order.
    Fixed,
    /// Arrivals by when the messages are delivered, and commits before them.
    CommitsFirst,
    /// Arrivals by when the messages are delivered, and commits after them.
    CommitsLast,
}

/// The time of the stamp that is told with an event of a message at a group, of an arrival or of a commit; 0 where none
/// is told.
fn stamp_time(told: &[Told], message: usize, group: usize, arrives: bool) -> u32 {
    for one in told {
        if one.message == message
            && is_at(one.event, group, arrives)
            && let Some(stamp) = one.stamp
        {
            return stamp.time;
        }
    }
    0
}

/// Whether the event tells the local stamp of a message at a group, or the final one.
fn is_at(event: Event, group: usize, arrives: bool) -> bool {
    match event {
        Event::Issue => false,
        Event::Arrival(at) => arrives && at == group,
        Event::Proposal(_, from) => arrives && from == group,
        Event::Commit(_) => !arrives,
        Event::Delivery(_) => !arrives,
    }
}

/// How many messages are told to be delivered, at some group, before this one is at its first.
fn deliveries_before(told: &[Told], message: usize) -> u32 {
    let first = first_delivery(told, message);
    let mut count: u32 = 0;
    for one in told {
        if let Event::Delivery(_) = one.event
            && one.time < first
        {
            count = count.saturating_add(1);
        }
    }
    count
}

/// When a message is first delivered.
fn first_delivery(told: &[Told], message: usize) -> u32 {
    let mut first = u32::MAX;
    for one in told {
        if let Event::Delivery(_) = one.event
            && one.message == message
        {
            first = first.min(one.time);
        }
    }
    first
}

/// The rank of the arrival of a message at a group.
fn arrival_rank(told: &[Told], message: usize, group: usize, ties: Ties) -> i64 {
    match ties {
        Ties::Stamps => rank(stamp_time(told, message, group, true).saturating_mul(2)),
        Ties::Fixed => 0,
        Ties::CommitsFirst => rank(deliveries_before(told, message).saturating_add(1)),
        Ties::CommitsLast => rank(deliveries_before(told, message)),
    }
}

/// The rank of the commit of a message.
fn commit_rank(told: &[Told], message: usize, group: usize, ties: Ties) -> i64 {
    match ties {
        Ties::Stamps => {
            let stamp = stamp_time(told, message, group, false);
            rank(
                stamp
                    .saturating_mul(2)
                    .saturating_add(u32::from(stamp != 0)),
            )
        }
        Ties::Fixed => 0,
        Ties::CommitsFirst => 0,
        Ties::CommitsLast => rank(u32::MAX),
    }
}

/// A number as a rank: those that are too great are the greatest.
fn rank(number: u32) -> i64 {
    i64::from(number.min(u32::from(GREATEST_RANK)))
}

/// The ranks of an order. Fails where memory runs out, and else never.
fn ranks_by(
    alloc: Global,
    finer: &Instance,
    told: &[Told],
    ties: Ties,
) -> Result<Vec<i64>, AllocError> {
    let mut ranks = Vec::new(alloc);
    for message in 0..finer.message_count() {
        for group in 0..MOST_GROUPS {
            if is_addressed(finer.scenario(), message, group) {
                ranks.push(arrival_rank(told, message, group, ties))?;
                ranks.push(commit_rank(told, message, group, ties))?;
            }
        }
    }
    Ok(ranks)
}

/// An order of ties in real time. Fails where memory runs out, and else never.
pub(crate) fn order_by(
    alloc: Global,
    finer: &Instance,
    told: &[Told],
    ties: Ties,
) -> Result<Order, AllocError>
    requires { finer.now.time ≡ Real }
    ensures { IfOk result (λ order. IsOrder finer.now order) }
{
    fixed_order_is_order();
    let ranks = ranks_by(alloc, finer, told, ties)?;
    match Order::from_list(alloc, finer.scenario(), &ranks) {
        Ok(order) => Ok(order),
        Err(ListFault::Memory) => Err(AllocError),
        Err(_) => Ok(Order::none()),
    }
}
