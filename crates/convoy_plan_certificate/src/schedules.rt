ghost use Rattle.std.specs.Prelude.{◌≡◌, nat_le, if◌then◌else◌, Some, None, IfOk, IfSome, IsTrue};
ghost use Rattle.std.specs.Cmp.Lexicographic.{pointwise};
ghost use Rattle.std.specs.List.{list_all};
ghost use Rattle.convoy_draft.specs.declared.time.Time.TheVariants.{Real};
ghost use Rattle.convoy_packets.specs.declared.order.TheConstants.{GREATEST_RANK};
ghost use Rattle.convoy_packets.specs.Assignment.{IsAssignment};
ghost use Rattle.convoy_packets.specs.Order.{IsOrder};
ghost use Rattle.convoy_packets.specs.OrderLists.{AreSmall, order_of};
ghost use Rattle.convoy_certificate.specs.Reading.{is_order_list, is_within};
ghost use Rattle.convoy_plan_certificate.specs.Schedules.{order_in, schedule_in};

use super::branch::Witness;
use convoy_packets::schedule_laws::{fixed_order_is_order, no_ranks_give_fixed_order};
use convoy_packets::{GREATEST_RANK, Instance, Order, Schedule};
use convoy_scenario::{Scenario, Time};
use std::alloc::{AllocError, Global};

impl Witness {
    /// The schedule of the witness in an instance, if it is one there. Fails where memory runs out, and else never.
    pub fn schedule(
        &self,
        alloc: Global,
        instance: &Instance,
    ) -> Result<Option<Schedule>, AllocError>
        ensures value { IfOk result (λ schedule. schedule ≡ schedule_in instance.now self.now) }
        ensures lawful { IfOk result (λ schedule. IfSome schedule (IsAssignment instance.now)) }
    {
        if !are_within(instance.table().ranges(), &self.delays) {
            return Ok(None);
        }
        match order_in(instance.scenario(), &self.ranks) {
            None => Ok(None),
            Some(order) => {
                let delays = Vec::from_slice(alloc, &self.delays)?;
                Ok(Some(Schedule::with_order(delays, order)))
            }
        }
    }
}

/// The order of ties that ranks give in a scenario, if they give one.
fn order_in(scenario: &Scenario, ranks: &[u16]) -> Option<Order>
    ensures value { result ≡ order_in scenario.now.time scenario.now ranks.now }
    ensures lawful { IfSome result (IsOrder scenario.now) }
{
    fixed_order_is_order();
    match scenario.time() {
        Time::Ticks if ranks.is_empty() => Some(Order::none()),
        Time::Ticks => None,
        Time::Real => order_of(scenario, ranks),
    }
}

/// The same in real time.
fn order_of(scenario: &Scenario, ranks: &[u16]) -> Option<Order>
    requires { scenario.now.time ≡ Real }
    ensures value { result ≡ (if is_order_list scenario.now ranks.now
        then Some (order_of scenario.now ranks.now) else None) }
    ensures lawful { IfSome result (IsOrder scenario.now) }
{
    no_ranks_give_fixed_order();
    fixed_order_is_order();
    if ranks.is_empty() {
        return Some(Order::none());
    }
    if ranks.len() != Order::rank_count(scenario) || !are_small(ranks) {
        return None;
    }
    let order = Order::from_ranks(scenario, ranks);
    (!order.is_none()).then_some(order)
}

/// Whether none of the ranks is too great.
fn are_small(ranks: &[u16]) -> bool
    ensures value { result ≡ list_all (λ rank. nat_le rank GREATEST_RANK) ranks.now }
    ensures lawful { IsTrue result → AreSmall ranks.now }
{
    ranks.iter().all(|rank| *rank <= u16::from(GREATEST_RANK))
}

/// Whether there is one delay for each range, in its range.
fn are_within(ranges: &[(u16, u16)], delays: &[u16]) -> bool
    ensures { result ≡ pointwise is_within ranges.now delays.now }
{
    let mut rest = delays;
    for range in ranges {
        let Some((delay, tail)) = rest.split_first() else {
            return false;
        };
        if *delay < range.0 || range.1 < *delay {
            return false;
        }
        rest = tail;
    }
    rest.is_empty()
}
