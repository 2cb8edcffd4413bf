//! The search both ways by several workers.

ghost use Rattle.std.specs.Prelude.{◌≡◌, ◌≤◌, IfOk};
ghost use Rattle.convoy_shares.specs.declared.shares.TheConstants.{MOST_WORKERS};
ghost use Rattle.convoy_packets.specs.Assignment.{ranges_of};
ghost use Rattle.convoy_packets.specs.Table.{least_of};
ghost use Rattle.convoy_sim.specs.Delivery.{latency_of};
ghost use Rattle.convoy_branch.specs.BothWays.{IsWithinBothWays, IsOutcomeBothWays};
ghost use Rattle.convoy_branch.specs.Outcomes.{best_of};
ghost use Rattle.convoy_ledger.specs.Tickets.{most_tickets};

use super::searching::search_from;
use convoy_branch::{AfterPlain, Bounds, Gate, Limit, Outcome, after_plain};
use convoy_packets::Instance;
use convoy_sim::Record;
use std::alloc::{AllocError, Global};
use std::sync::Wait;
use std::thread::Threads;

/// Searches both ways with so many workers, from an opening record of the scenario: as
/// [`convoy_branch::search_both_ways`] does, where each of the two searches is one as [`search_from`]
/// makes. The gate is told of the second search before its threads start. Where it may stop the search,
/// and does so before then, there is no second one; where it stops either, regions may be left with fewer
/// tickets spent.
///
/// The only error is that memory ran out, in either search.
pub fn search_both_ways<R: Threads + Wait + Sync, G: Gate + Sync>(
    rt: &R,
    alloc: Global,
    instance: &Instance,
    opening: Record,
    workers: u32,
    limit: Limit,
    gate: &G,
) -> Result<Outcome, AllocError>
    requires of_scenario { opening.scenario ≡ instance.now }
    requires least { latency_of instance.now (least_of (ranges_of instance.now)) ≤ opening.latency }
    requires workers { (1 ≤ workers) × (workers ≤ MOST_WORKERS) }
    requires tickets { (1 ≤ limit.tickets) × (limit.tickets ≤ most_tickets) }
    ensures value { IfOk result (λ outcome. IsWithinBothWays limit
        (λ plain leads. IsOutcomeBothWays instance.now workers plain leads outcome)) }
    ensures opened { IfOk result (λ outcome. opening.latency ≤ best_of outcome) }
{
    let plain = limit.by_plain();
    let first = search_from(
        rt,
        alloc,
        instance,
        opening,
        workers,
        plain,
        Bounds::Plain,
        gate,
    )?;
    match after_plain(first, limit, gate) {
        AfterPlain::Ended(outcome) => Ok(outcome),
        AfterPlain::ByLeads { best, upper } => {
            let lead = limit.by_leads();
            let second = search_from(rt, alloc, instance, best, workers, lead, Bounds::Lead, gate)?;
            Ok(second.with_upper(upper))
        }
    }
}
