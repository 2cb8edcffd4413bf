//! The search of several workers.

ghost use Rattle.std.specs.Prelude.{◌≡◌, ℕ, ◌-◌, ◌+◌, ◌≤◌, [], ◌∷◌, false, true, length, IfOk};
ghost use Rattle.std.specs.List.{list_any, sum};
ghost use Rattle.convoy_shares.specs.declared.shares.TheConstants.{MOST_WORKERS};
ghost use Rattle.convoy_packets.specs.Assignment.{ranges_of};
ghost use Rattle.convoy_packets.specs.Table.{least_of};
ghost use Rattle.convoy_sim.specs.Delivery.{latency_of};
ghost use Rattle.convoy_branch.specs.declared.limit.Limit.{Limit};
ghost use Rattle.convoy_branch.specs.Limits.{IsOutcomeWithin, IsWithin};
ghost use Rattle.convoy_branch.specs.Outcomes.{IsOutcome, best_of};
ghost use Rattle.convoy_shares.specs.Shares.{whole};
ghost use Rattle.convoy_ledger.specs.Tickets.{most_tickets};
ghost use Rattle.convoy_share.specs.Common.{common_by, common_of};
ghost use Rattle.convoy_share.specs.Ended.{IsClosed, IsEnded};
ghost use Rattle.convoy_share.specs.Pieces.{is_left};

use super::ending::{Ended, finish};
use super::opening::open_workers;
use super::piece::Settled;
use super::running::run;
use super::settled::{has_left, nodes_of, upper_over};
use super::shared::Shared;
use convoy_branch::front_laws::{
    fronts_better, fronts_bound, only_leads_have_lead_leaves, plain_fronts_have_no_stamps,
    whole_fronts_are_readable, whole_fronts_are_trees,
};
use convoy_branch::{AfterPass, Bounds, Gate, Limit, Outcome, Pass, after_pass};
use convoy_certificate::Certificate;
use convoy_checker::tree_laws::trees_cover;
use convoy_incumbent::{Board, CloseFault, Hand};
use convoy_ledger::{Clerk, Ledger};
use convoy_origin::Origin;
use convoy_packets::schedule_laws::least_is_assignment;
use convoy_packets::{Instance, Schedule};
use convoy_sim::Record;
use std::alloc::{AllocError, Global};
use std::sync::Wait;
use std::sync::atomic::AtomicBool;
use std::thread::Threads;

/// Searches for the greatest latency of a scenario with so many workers, each in a thread of its own,
/// by branch and bound (docs/PROTOCOL.md). It starts from the record of the least delays. The workers
/// draw their tickets from one ledger of `limit`, and each calls the gate before it takes up a branch;
/// regions are closed by those bounds. Where a thread can't be started, its worker runs after the others.
/// One worker searches alone, as [`convoy_branch::search_alone`] does.
///
/// The only error is that memory ran out, for any worker or for the outcome. It comes after all threads
/// have ended.
pub fn search<R: Threads + Wait + Sync, G: Gate + Sync>(
    rt: &R,
    alloc: Global,
    instance: &Instance,
    workers: u32,
    limit: u64,
    bounds: Bounds,
    gate: &G,
) -> Result<Outcome, AllocError>
    requires workers { (1 ≤ workers) × (workers ≤ MOST_WORKERS) }
    requires tickets { (1 ≤ limit) × (limit ≤ most_tickets) }
    ensures { IfOk result (λ outcome. IsOutcome bounds instance.now workers limit outcome) }
{
    least_is_assignment();
    let _delay = instance.delay();
    let schedule = Schedule::least(alloc, instance.table())?;
    let opening = Record::of(instance, schedule);
    let limit = Limit::of(limit);
    search_from(rt, alloc, instance, opening, workers, limit, bounds, gate)
}

/// The search of [`search`] from an opening record of the scenario. Its latency is at least that of the
/// least delays, and the latency that the search finds is at least that of the record. Where the limit
/// says that the gate may stop the search, and it does, each worker leaves the regions that it has not
/// taken up: some may be left then with fewer tickets spent.
///
/// The only error is that memory ran out, for any worker or for the outcome.
pub fn search_from<'a, R: Threads + Wait + Sync, G: Gate + Sync>(
    rt: &R,
    alloc: Global,
    instance: &'a Instance,
    opening: Record,
    workers: u32,
    limit: Limit,
    bounds: Bounds,
    gate: &G,
) -> Result<Outcome, AllocError>
    requires of_scenario { opening.scenario ≡ instance.now }
    requires least { latency_of instance.now (least_of (ranges_of instance.now)) ≤ opening.latency }
    requires workers { (1 ≤ workers) × (workers ≤ MOST_WORKERS) }
    requires tickets { (1 ≤ limit.tickets) × (limit.tickets ≤ most_tickets) }
    ensures value { IfOk result (λ outcome.
        IsWithin limit (λ tickets. IsOutcome bounds instance.now workers tickets outcome)) }
    ensures opened { IfOk result (λ outcome. opening.latency ≤ best_of outcome) }
{
    let mut begun = opening;
    for pass in Pass::ALL {
        let Some(few) = pass.within(limit, instance.time(), bounds) else {
            break;
        };
        let ended = search_by(rt, alloc, instance, begun, workers, few, bounds, gate)?;
        match after_pass(ended, limit, gate) {
            AfterPass::Ended(outcome) => return Ok(outcome),
            AfterPass::Again(best) => begun = best,
        }
    }
    search_by(rt, alloc, instance, begun, workers, limit, bounds, gate)
}

/// The search of [`search_from`] in one pass: regions are split as the limit says.
fn search_by<'a, R: Threads + Wait + Sync, G: Gate + Sync>(
    rt: &R,
    alloc: Global,
    instance: &'a Instance,
    opening: Record,
    workers: u32,
    limit: Limit,
    bounds: Bounds,
    gate: &G,
) -> Result<Outcome, AllocError>
    requires of_scenario { opening.scenario ≡ instance.now }
    requires least { latency_of instance.now (least_of (ranges_of instance.now)) ≤ opening.latency }
    requires workers { (1 ≤ workers) × (workers ≤ MOST_WORKERS) }
    requires tickets { (1 ≤ limit.tickets) × (limit.tickets ≤ most_tickets) }
    ensures value { IfOk result (λ outcome.
        IsWithin limit (λ tickets. IsOutcome bounds instance.now workers tickets outcome)) }
    ensures opened { IfOk result (λ outcome. opening.latency ≤ best_of outcome) }
{
    if workers == 1 {
        return convoy_branch::search_alone_from(alloc, instance, opening, limit, bounds, gate);
    }
    let origin = Origin::of(alloc, instance)?;
    let Ok((board, hand)) = Board::open(rt, alloc, opening) else {
        return Err(AllocError);
    };
    let (ledger, clerk) = Ledger::open(alloc, limit.tickets)?;
    let begun = AtomicBool::new(false);
    let ended = AtomicBool::new(false);
    let shared = Shared {
        alloc,
        instance,
        origin: &origin,
        bounds,
        limit,
        board: &board,
        ledger: &ledger,
        begun: &begun,
        ended: &ended,
        workers,
    };
    let brought = search_together(rt, gate, &shared, hand, clerk)?;
    let closed = close(alloc, instance, bounds, limit, board, ledger, brought)?;
    closed.into_outcome(&origin, bounds)
}

/// Runs all workers, and puts together what they bring.
fn search_together<R: Threads + Wait + Sync, G: Gate + Sync>(
    rt: &R,
    gate: &G,
    shared: &Shared,
    hand: Hand,
    clerk: Clerk,
) -> Result<Ended, AllocError>
    requires workers { (1 ≤ shared.now.workers) × (shared.now.workers ≤ MOST_WORKERS) }
    requires hand { (hand.board ≡ shared.now.board.now) × (hand.share ≡ whole) }
    requires clerk { (clerk.ledger ≡ shared.now.ledger.now) × (clerk.share ≡ whole) }
    requires none { clerk.tickets ≡ [] }
    ensures { IfOk result (λ ended. IsEnded (common_of shared.now) whole whole (shared.now.workers - 1)
        hand.seen ended) }
{
    let (owner, thieves) = open_workers(shared, hand, clerk)?;
    let owner = run(rt, gate, shared, owner, thieves)?;
    finish(rt, gate, shared, owner)
}

/// What a search has come to.
#[derive(Drop)]
pub(crate) struct Closed {
    /// The record of the greatest latency that was found.
    best: Record,
    /// How many tickets were drawn.
    tickets: u64,
    /// How many each worker drew.
    by_worker: Vec<u64>,
    /// The tree.
    pieces: Vec<Settled>,
}

/// Ends board and ledger, of which all workers' shares are back.
fn close(
    alloc: Global,
    instance: &Instance,
    bounds: Bounds,
    limit: Limit,
    board: Board,
    ledger: Ledger,
    ended: Ended,
) -> Result<Closed, AllocError>
    requires of_scenario { board.scenario ≡ instance.now }
    requires limit { limit.tickets ≡ ledger.most }
    requires hand { (ended.hand.board ≡ board) × (ended.hand.share ≡ whole) }
    requires clerk { (ended.clerk.ledger ≡ ledger) × (ended.clerk.share ≡ whole) }
    requires theirs { sum ended.drawn_by_thieves.items ≤ length ended.clerk.tickets }
    requires ended { (joined : ℕ) × (least : ℕ)
        × IsEnded (common_by bounds instance.now board ledger limit.may_stop) whole whole joined least ended }
    ensures closed { (joined least : ℕ)
        → IsEnded (common_by bounds instance.now board ledger limit.may_stop) whole whole joined least ended
        → IfOk result (λ closed. IsClosed bounds instance.now (joined + 1) limit closed) }
    ensures no_less { IfOk result (λ closed. ended.hand.seen ≤ closed.best.latency) }
{
    fronts_better();
    let Ended {
        hand,
        clerk,
        pieces,
        drawn_by_thieves,
    } = ended;
    let Ok(tickets) = ledger.close(clerk) else {
        unreachable!();
    };
    let best = match board.close(hand) {
        Ok(best) => best,
        Err(CloseFault::Memory(_, _)) => return Err(AllocError),
        Err(CloseFault::HandsOut(_, _)) => unreachable!(),
    };
    let by_worker = tickets_by_worker(alloc, tickets, &drawn_by_thieves)?;
    Ok(Closed {
        best,
        tickets,
        by_worker,
        pieces,
    })
}

/// How many tickets each worker drew, where so many were drawn in all, and those by the thieves: the
/// owner drew the others.
fn tickets_by_worker(alloc: Global, tickets: u64, thieves: &[u64]) -> Result<Vec<u64>, AllocError>
    requires { sum thieves.now ≤ tickets }
    ensures each { IfOk result (λ drawn. drawn.items ≡ (tickets - sum thieves.now) ∷ thieves.now) }
    ensures count { IfOk result (λ drawn. length drawn.items ≡ length thieves.now + 1) }
    ensures all { IfOk result (λ drawn. sum drawn.items ≡ tickets) }
{
    let theirs = thieves.iter().sum::<u64>();
    let mut by_worker = Vec::new(alloc);
    by_worker.push(tickets - theirs)?;
    by_worker.extend_from_slice(thieves)?;
    Ok(by_worker)
}

impl Closed {
    /// The outcome: a certificate where no branch is left.
    fn into_outcome(self, origin: &Origin, bounds: Bounds) -> Result<Outcome, AllocError>
        requires closed { (workers : ℕ) × (limit : Limit)
            × IsClosed bounds origin.now workers limit self }
        requires least { latency_of origin.now (least_of (ranges_of origin.now))
            ≤ self.best.latency }
        ensures value { (workers : ℕ) (limit : Limit) → IsClosed bounds origin.now workers limit self
            → IfOk result (IsOutcomeWithin bounds origin.now workers limit) }
        ensures best { IfOk result (λ outcome. best_of outcome ≡ self.best.latency) }
    {
        if has_left(&self.pieces) {
            self.into_open(origin, bounds)
        } else {
            self.into_proved(origin, bounds)
        }
    }

    /// The outcome where no branch is left.
    fn into_proved(self, origin: &Origin, bounds: Bounds) -> Result<Outcome, AllocError>
        requires closed { (workers : ℕ) × (limit : Limit)
            × IsClosed bounds origin.now workers limit self }
        requires none { list_any is_left self.pieces.items ≡ false }
        ensures value { (workers : ℕ) (limit : Limit) → IsClosed bounds origin.now workers limit self
            → IfOk result (IsOutcomeWithin bounds origin.now workers limit) }
        ensures best { IfOk result (λ outcome. best_of outcome ≡ self.best.latency) }
    {
        plain_fronts_have_no_stamps();
        only_leads_have_lead_leaves();
        whole_fronts_are_readable();
        trees_cover();
        whole_fronts_are_trees();
        let instance = origin.instance();
        let alloc = *self.by_worker.allocator();
        let nodes = nodes_of(alloc, &self.pieces)?;
        let latency = self.best.latency();
        let schedule = self.best.schedule().copy()?;
        Ok(Outcome::Proved {
            certificate: Certificate::new(instance.copy(alloc)?, latency, schedule, nodes),
            tickets: self.tickets,
            by_worker: self.by_worker,
        })
    }

    /// The outcome where a branch is left.
    fn into_open(self, origin: &Origin, bounds: Bounds) -> Result<Outcome, AllocError>
        requires closed { (workers : ℕ) × (limit : Limit)
            × IsClosed bounds origin.now workers limit self }
        requires some { list_any is_left self.pieces.items ≡ true }
        requires least { latency_of origin.now (least_of (ranges_of origin.now))
            ≤ self.best.latency }
        ensures value { (workers : ℕ) (limit : Limit) → IsClosed bounds origin.now workers limit self
            → IfOk result (IsOutcomeWithin bounds origin.now workers limit) }
        ensures best { IfOk result (λ outcome. best_of outcome ≡ self.best.latency) }
    {
        fronts_bound();
        let seen = self.best.latency();
        let alloc = *self.by_worker.allocator();
        let upper = upper_over(alloc, origin, bounds, &self.pieces, seen)?;
        Ok(Outcome::Open {
            best: self.best,
            upper,
            tickets: self.tickets,
            by_worker: self.by_worker,
        })
    }
}
