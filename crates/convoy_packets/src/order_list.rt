ghost use Rattle.std.specs.Prelude.{◌≡◌, ◌==◌, ◌*◌, ◌≤◌, IfOk};
ghost use Rattle.std.specs.List.{list_all};
ghost use Rattle.std.specs.Result.{result_map_both};
ghost use Rattle.convoy_draft.specs.declared.time.Time.TheVariants.{Real};
ghost use Rattle.convoy_scenario.specs.Memory.{IsUnlessMemory};
ghost use Rattle.convoy_packets.specs.Order.{IsOrder};
ghost use Rattle.convoy_packets.specs.declared.order.TheConstants.{GREATEST_RANK};
ghost use Rattle.convoy_packets.specs.declared.table_places.TheConstants.{PLACES};
ghost use Rattle.convoy_packets.specs.OrderLists.{has_moments, ranks_of, rank_count, order_of, order_given, ranks_given, AreSmall, is_no_order};

use super::fault::ListFault;
use super::order::{GREATEST_RANK, Order};
use super::schedule::delay_given;
use super::table_places::PLACES;
use convoy_scenario::{MOST_GROUPS, Scenario};
use std::alloc::{AllocError, Global};

impl Order {
    /// How many ranks an order of the scenario's ties has as a list: two for each message at each of
    /// its destinations.
    pub fn rank_count(scenario: &Scenario) -> usize
        ensures value { result ≡ rank_count scenario.now }
        ensures few { result ≤ 2 * PLACES }
    {
        let mut count = 0;
        for place in 0..PLACES {
            if has_moments(scenario, place) {
                count += 2;
            }
        }
        count
    }

    /// The order that a list of ranks gives: message by message, and of each message by destination,
    /// the rank of its arrival there and then that of its commit. Where the list has too few, the
    /// ranks that it lacks are 0; what it has beyond the last is left out.
    ///
    /// In real time it is an order of the scenario's ties; in whole ticks these fall in the fixed
    /// order, and only ranks that are all 0 give one.
    pub fn from_ranks(scenario: &Scenario, ranks: &[u16]) -> Order
        requires { AreSmall ranks.now }
        ensures value { result ≡ order_of scenario.now ranks.now }
        ensures lawful { scenario.now.time ≡ Real → IsOrder scenario.now result }
    {
        let mut arrivals = [0; PLACES];
        let mut commits = [0; PLACES];
        let mut rest = ranks;
        for place in 0..PLACES {
            if has_moments(scenario, place)
                && let [arrival, commit, more @ ..] = rest
            {
                arrivals[place] = *arrival as u8;
                commits[place] = *commit as u8;
                rest = more;
            }
        }
        Order::of_tables(arrivals, commits)
    }

    /// The order that a list of numbers gives, as `from_ranks`.
    ///
    /// A list that has not one number for each rank, or a number that is no rank, gives its first
    /// fault, in the order of `ListFault`: `ListFault::Range` has the place in the list of the first
    /// number outside 0 to `GREATEST_RANK`. Where memory runs out, the answer is
    /// `ListFault::Memory`, which says nothing of the list.
    pub fn from_list(alloc: Global, scenario: &Scenario, list: &[i64]) -> Result<Order, ListFault>
        ensures value { IsUnlessMemory ListFault.Memory (order_given scenario.now list.now) result }
        ensures lawful { scenario.now.time ≡ Real → IfOk result (λ order. IsOrder scenario.now order) }
    {
        if list.len() != Order::rank_count(scenario) {
            return Err(ListFault::Length);
        }
        let ranks = ranks_given(alloc, list)?;
        Ok(Order::from_ranks(scenario, &ranks))
    }

    /// The ranks as a list, which `from_ranks` reads: message by message, and of each message by
    /// destination, the rank of its arrival there and then that of its commit. Fails where memory runs
    /// out, and else never.
    pub fn ranks(&self, alloc: Global, scenario: &Scenario) -> Result<Vec<u16>, AllocError>
        ensures { IfOk result (λ ranks. ranks.items ≡ ranks_of scenario.now self.now) }
    {
        let (arrivals, commits) = (self.arrivals(), self.commits());
        let mut ranks = Vec::new(alloc);
        for place in 0..PLACES {
            if has_moments(scenario, place) {
                ranks.push(u16::from(arrivals[place]))?;
                ranks.push(u16::from(commits[place]))?;
            }
        }
        Ok(ranks)
    }

    /// Whether all ranks are 0, so that ties fall in the fixed order.
    pub fn is_none(&self) -> bool
        ensures { result ≡ is_no_order self.now }
    {
        are_zero(self.arrivals()) && are_zero(self.commits())
    }
}

/// Whether the message of a place goes to its group.
fn has_moments(scenario: &Scenario, place: usize) -> bool
    ensures { result ≡ has_moments scenario.now place }
{
    let (message, group) = (place / MOST_GROUPS, place % MOST_GROUPS);
    message < scenario.message_count() && scenario.destinations(message).contains(&group)
}

/// The numbers as ranks.
fn ranks_given(alloc: Global, list: &[i64]) -> Result<Vec<u16>, ListFault>
    ensures { IsUnlessMemory ListFault.Memory (ranks_given 0 list.now)
        (result_map_both (λ ranks. ranks.items) (λ fault. fault) result) }
{
    let mut ranks = Vec::with_capacity(alloc, list.len())?;
    for (i, number) in list.iter().enumerate() {
        let rank = delay_given((0, u16::from(GREATEST_RANK)), *number).ok_or(ListFault::Range(i))?;
        ranks.push(rank).map_err(AllocError::from)?;
    }
    Ok(ranks)
}

fn are_zero(ranks: &[u8]) -> bool
    ensures { result ≡ list_all (λ rank. rank == 0) ranks.now }
{
    ranks.iter().all(|rank| *rank == 0)
}
