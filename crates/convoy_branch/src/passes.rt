//! The passes of a search by leads in real time, which split regions in several ways.

ghost use Rattle.std.specs.Prelude.{ℕ, IfSome};
ghost use Rattle.convoy_scenario.specs.Scenario.{Scenario};
ghost use Rattle.convoy_branch.specs.declared.bounds.Bounds.{Bounds};
ghost use Rattle.convoy_branch.specs.declared.limit.Limit.{Limit};
ghost use Rattle.convoy_branch.specs.Limits.{IsOutcomeWithin};
ghost use Rattle.convoy_branch.specs.Passes.{GoesOn, IsPass};

use super::bounds::Bounds;
use super::gate::Gate;
use super::limit::Limit;
use super::outcome::Outcome;
use super::splits::Splits;
use convoy_scenario::Time;
use convoy_sim::Record;

/// A pass of a search before the last one.
#[derive(Clone, Copy)]
pub struct Pass {
    /// By what it splits regions.
    splits: Splits,
    /// How many tickets it spends at most.
    most: u64,
}

impl Pass {
    /// Those before the last one, in the order in which they are made.
    pub const ALL: [Pass; 3] = [
        Pass {
            splits: Splits::Packets,
            most: 200,
        },
        Pass {
            splits: Splits::Orders,
            most: 400,
        },
        Pass {
            splits: Splits::Packets,
            most: 2_000,
        },
    ];

    /// How far a search goes in this pass: with few of its tickets, which the next pass has again. None where the search
    /// has no such passes: in whole ticks, by other bounds than leads, or with too few tickets.
    pub fn within(self, limit: Limit, time: Time, bounds: Bounds) -> Option<Limit>
        ensures { IfSome result (IsPass limit) }
    {
        let tickets = (limit.tickets / 4).min(self.most);
        match (time, bounds) {
            (Time::Real, Bounds::Lead) if 0 < tickets => Some(Limit {
                tickets,
                splits: self.splits,
                ..limit
            }),
            _ => None,
        }
    }
}

/// What comes after a pass of a search.
#[derive(Drop)]
pub enum AfterPass {
    /// Nothing: this is the outcome.
    Ended(Outcome),
    /// The next pass, from the best record so far.
    Again(Record),
}

/// What comes after a pass of a search with that limit which has ended so: the next one where regions are left and the
/// gate does not stop the search.
#[tactic(auto, using(crate::proofs::EndedPasses::proved_in_pass, crate::proofs::EndedPasses::stopped_in_pass, crate::proofs::EndedPasses::again))]
pub fn after_pass<G: Gate>(first: Outcome, limit: Limit, gate: &G) -> AfterPass
    ensures { (bounds : Bounds) (scenario : Scenario) (workers : ℕ) (few : Limit) → IsPass limit few
        → IsOutcomeWithin bounds scenario workers few first → GoesOn bounds scenario workers limit first result }
{
    match first {
        Outcome::Proved { .. } => AfterPass::Ended(first),
        Outcome::Open { best, .. } if !limit.is_over(gate) => AfterPass::Again(best),
        Outcome::Open { .. } => AfterPass::Ended(first),
    }
}
