//! The search both ways: by plain bounds, and where regions are left then, by leads.

ghost use Rattle.std.specs.Prelude.{◌≡◌, ℕ, ◌≤◌, List, IfOk};
ghost use Rattle.convoy_scenario.specs.Scenario.{Scenario};
ghost use Rattle.convoy_packets.specs.Assignment.{ranges_of};
ghost use Rattle.convoy_packets.specs.Table.{least_of};
ghost use Rattle.convoy_sim.specs.Delivery.{latency_of};
ghost use Rattle.convoy_sim.specs.Record.{Record};
ghost use Rattle.convoy_branch.specs.BothWays.{IsAfterPlain, IsWithinBothWays, IsOutcomeBothWays, lead_share, plain_share};
ghost use Rattle.convoy_branch.specs.Outcomes.{IsOpen, IsOutcome, best_of};
ghost use Rattle.convoy_branch.specs.declared.bounds.Bounds.TheVariants.{Lead, Plain};

use super::bounds::Bounds;
use super::gate::Gate;
use super::limit::Limit;
use super::outcome::Outcome;
use super::search::search_alone_from;
use convoy_certificate::MOST_LEADS;
use convoy_packets::Instance;
use convoy_scenario::Scenario;
use convoy_sim::Record;
use std::alloc::{AllocError, Global};

/// How many tickets a search both ways spends at most by plain bounds.
pub const PLAIN_TICKETS: u64 = 2_000;

/// How many of so many tickets a search both ways spends at most by plain bounds.
pub fn plain_share(limit: u64) -> u64
    ensures value { result ≡ plain_share limit }
    ensures some { 1 ≤ limit → 1 ≤ result }
{
    limit.min(PLAIN_TICKETS)
}

/// How many of so many tickets a search both ways spends at most by leads: of those that plain bounds
/// leave, as many as lead leaves can be read.
pub fn lead_share(limit: u64) -> u64
    ensures { result ≡ lead_share limit }
{
    limit.saturating_sub(PLAIN_TICKETS).min(MOST_LEADS as u64)
}

/// Searches both ways with one worker, from an opening record of the scenario as
/// [`search_alone_from`] does: first by plain bounds, with at most [`PLAIN_TICKETS`] of the `limit`
/// tickets, and where regions are left and tickets too, by leads from the root, with the best record that was
/// found. The gate is told of the second search; where it may stop the search, and does so before then, there is
/// no second one. The tickets of the outcome are those of the search that ended last.
///
/// `Outcome::Open` is the answer only where both searches left regions, or the first one did and there was no
/// second one: no latency is above its upper bound, the lesser one of theirs where there were two. The error is
/// that memory ran out.
pub fn search_both_ways<G: Gate>(
    alloc: Global,
    instance: &Instance,
    opening: Record,
    limit: Limit,
    gate: &G,
) -> Result<Outcome, AllocError>
    requires of_scenario { opening.scenario ≡ instance.now }
    requires least { latency_of instance.now (least_of (ranges_of instance.now)) ≤ opening.latency }
    ensures value { IfOk result (λ outcome.
        IsWithinBothWays limit (λ plain leads. IsOutcomeBothWays instance.now 1 plain leads outcome)) }
    ensures opened { IfOk result (λ outcome. opening.latency ≤ best_of outcome) }
{
    let plain = limit.by_plain();
    let first = search_alone_from(alloc, instance, opening, plain, Bounds::Plain, gate)?;
    match after_plain(first, limit, gate) {
        AfterPlain::Ended(outcome) => Ok(outcome),
        AfterPlain::ByLeads { best, upper } => {
            let lead = limit.by_leads();
            let second = search_alone_from(alloc, instance, best, lead, Bounds::Lead, gate)?;
            Ok(second.with_upper(upper))
        }
    }
}

/// What comes in a search both ways after its search by plain bounds.
#[derive(Drop)]
pub enum AfterPlain {
    /// Nothing: this is the outcome.
    Ended(Outcome),
    /// The search by leads, from the best record so far; no latency is above `upper`, in ticks.
    ByLeads { best: Record, upper: u32 },
}

/// What comes in a search both ways with that limit after its first search, by plain bounds, has ended so. The
/// search by leads comes where regions are left, some tickets are for leads, and the gate does not stop the search;
/// the gate is told of it.
pub fn after_plain<G: Gate>(first: Outcome, limit: Limit, gate: &G) -> AfterPlain
    ensures { IsAfterPlain limit first result }
{
    let by_leads = lead_share(limit.tickets);
    match first {
        Outcome::Proved { .. } => AfterPlain::Ended(first),
        Outcome::Open { best, upper, .. } if by_leads > 0 && !limit.is_over(gate) => {
            gate.begins_anew(Bounds::Lead, by_leads, best.latency(), upper);
            AfterPlain::ByLeads { best, upper }
        }
        Outcome::Open { .. } => AfterPlain::Ended(first),
    }
}

impl Limit {
    /// How far the first search of a search both ways goes, by plain bounds.
    pub fn by_plain(self) -> Limit
        ensures { result ≡ record self { tickets = plain_share self.tickets } }
    {
        self.with_tickets(plain_share(self.tickets))
    }

    /// How far the second search of a search both ways goes, by leads.
    pub fn by_leads(self) -> Limit
        ensures { result ≡ record self { tickets = lead_share self.tickets } }
    {
        self.with_tickets(lead_share(self.tickets))
    }
}

impl Outcome {
    /// What a search both ways answers where this is the outcome of the search by leads, and that by
    /// plain bounds told that no latency is above `upper`: the lesser upper bound of an open one counts.
    pub fn with_upper(self, upper: u32) -> Outcome
        ensures value { (scenario : Scenario) (workers plain leads : ℕ) (best : Record) (tickets : ℕ)
            (by_worker : List ℕ)
            → IsOpen Plain scenario workers plain best upper tickets by_worker
            → IsOutcome Lead scenario workers leads self
            → best.latency ≤ best_of self
            → IsOutcomeBothWays scenario workers plain leads result }
        ensures best { best_of result ≡ best_of self }
    {
        match self {
            Outcome::Open {
                best,
                upper: by_leads,
                tickets,
                by_worker,
            } => Outcome::Open {
                best,
                upper: upper.min(by_leads),
                tickets,
                by_worker,
            },
            proved => proved,
        }
    }
}
