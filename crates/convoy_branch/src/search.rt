ghost use Rattle.std.specs.Prelude.{◌≡◌, ℕ, ◌+◌, ◌<◌, ◌≤◌, [], ◌∷◌, ◌++◌, map};
ghost use Rattle.std.specs.Prelude.{IfOk, OnOk, unwrap_or};
ghost use Rattle.std.specs.List.{All};
ghost use Rattle.convoy_packets.specs.Assignment.{ranges_of};
ghost use Rattle.convoy_packets.specs.Table.{IsTable, least_of, table_of};
ghost use Rattle.convoy_sim.specs.Delivery.{latency_of};
ghost use Rattle.convoy_branch.specs.declared.bounds.Bounds.{Bounds};
ghost use Rattle.convoy_branch.specs.Fronts.{left_in};
ghost use Rattle.convoy_branch.specs.Limits.{IsWithin};
ghost use Rattle.convoy_branch.specs.Outcomes.{IsOutcome, best_of};
ghost use Rattle.convoy_branch.specs.Searching.{HasTurned, IsSearching, IsWork};
ghost use Rattle.convoy_branch.specs.Searching.{IsRaisedOver, front_of, nodes_after, work_after};
ghost use Rattle.convoy_branch.specs.Uppers.{IsUpperOf};

use super::bounds::Bounds;
use super::front_laws::{fronts_bound, uppers_begin, uppers_raised};
use super::gate::{Gate, NoGate};
use super::limit::Limit;
use super::outcome::Outcome;
use super::splits::Splits;
use super::step::{Turn, step_branch};
use convoy_certificate::{Certificate, Node};
use convoy_checker::tree_laws::trees_cover;
use convoy_origin::Origin;
use convoy_packets::schedule_laws::fixed_order_is_order;
use convoy_packets::{Instance, Schedule};
use convoy_regions::Branch;
use convoy_regions::region_laws::halves_are_regions;
use convoy_sim::Record;
use std::alloc::{AllocError, Global};

/// Searches for the greatest latency of a scenario with one worker, by branch and bound
/// (docs/PROTOCOL.md). It starts from the record of the least delays, takes up the second half of
/// each split first, and spends a ticket for each region that it closes or splits, at most `limit` of them.
/// Regions are closed by those bounds: by plain ones no node of the certificate is a stamp leaf, and only
/// by leads is one a lead leaf, which names the latency that was known where it closed its region.
///
/// `Outcome::Open` is the answer only where a region is left when all tickets are spent. The error is that
/// memory ran out.
pub fn search_alone(
    alloc: Global,
    instance: &Instance,
    limit: u64,
    bounds: Bounds,
) -> Result<Outcome, AllocError>
    ensures { IfOk result (λ outcome. IsOutcome bounds instance.now 1 limit outcome) }
{
    fixed_order_is_order();
    let schedule = Schedule::least(alloc, instance.table())?;
    let opening = Record::of(instance, schedule);
    let limit = Limit::of(limit);
    search_alone_from(alloc, instance, opening, limit, bounds, &NoGate)
}

/// The search of [`search_alone`] from an opening record of the scenario. Its latency is at least
/// that of the least delays, and the latency that the search finds is at least that of the record.
/// The gate is called before each region that is taken up, by worker 0; where the limit says that it may stop
/// the search, and it does, regions may be left with fewer tickets spent. The error is that memory ran out.
pub fn search_alone_from<G: Gate>(
    alloc: Global,
    instance: &Instance,
    opening: Record,
    limit: Limit,
    bounds: Bounds,
    gate: &G,
) -> Result<Outcome, AllocError>
    requires of_scenario { opening.scenario ≡ instance.now }
    requires least { latency_of instance.now (least_of (ranges_of instance.now)) ≤ opening.latency }
    ensures value { IfOk result (λ outcome.
        IsWithin limit (λ tickets. IsOutcome bounds instance.now 1 tickets outcome)) }
    ensures opened { IfOk result (λ outcome. opening.latency ≤ best_of outcome) }
{
    let origin = Origin::of(alloc, instance)?;
    search_over(alloc, &origin, opening, limit, bounds, gate)
}

/// The same, where bounds are asked of that instance.
fn search_over<G: Gate>(
    alloc: Global,
    origin: &Origin,
    opening: Record,
    limit: Limit,
    bounds: Bounds,
    gate: &G,
) -> Result<Outcome, AllocError>
    requires of_scenario { opening.scenario ≡ origin.now }
    requires least { latency_of origin.now (least_of (ranges_of origin.now)) ≤ opening.latency }
    ensures value { IfOk result (λ outcome.
        IsWithin limit (λ tickets. IsOutcome bounds origin.now 1 tickets outcome)) }
    ensures opened { IfOk result (λ outcome. opening.latency ≤ best_of outcome) }
{
    let mut search = Search::start(alloc, origin, opening)?;
    while let Some(work) = search.work.pop() {
        match work {
            Work::Write(node) => search.nodes.push(node)?,
            Work::Branch { branch, tried } if limit.allows(search.tickets, gate) => {
                gate.before_branch(0, search.tickets + 1);
                search.take_up(alloc, origin, branch, tried, bounds, limit.splits)?;
            }
            Work::Branch { branch, tried } => {
                return search.into_open(alloc, origin, branch, tried, bounds);
            }
        }
    }
    search.into_proved(alloc, origin, bounds)
}

/// What a search has still to do.
#[derive(Drop)]
enum Work {
    /// To take up a region. Where it is `tried`, its run is known to have no greater latency than the best
    /// record.
    Branch { branch: Branch, tried: bool },
    /// To write a split: both its halves are done.
    Write(Node),
}

/// Where a search stands.
#[derive(Drop)]
struct Search {
    /// The record of the greatest latency that it has seen.
    best: Record,
    /// The work that is left. What is done first stands last.
    work: Vec<Work>,
    /// The nodes of the tree that are done, from the last one back.
    nodes: Vec<Node>,
    /// How many regions were closed or split.
    tickets: u64,
}

impl Search {
    /// A search of the root from an opening record.
    fn start(alloc: Global, origin: &Origin, opening: Record) -> Result<Search, AllocError>
        requires of_scenario { opening.scenario ≡ origin.now }
        requires least { latency_of origin.now (least_of (ranges_of origin.now))
            ≤ opening.latency }
        ensures searching { (bounds : Bounds) → IfOk result
            (λ s. IsSearching bounds origin.now s.best s.work.items s.nodes.items s.tickets) }
        ensures best { IfOk result (λ s. s.best ≡ opening) }
        ensures tickets { IfOk result (λ s. s.tickets ≡ 0) }
        ensures lawful { IfOk result (λ _. IsTable (table_of origin.now)) }
    {
        let instance = origin.instance();
        let mut work = Vec::with_capacity(alloc, instance.table().len())?;
        work.push(Work::Branch {
            branch: Branch::root(alloc, instance)?,
            tried: false,
        })?;
        Ok(Search {
            best: opening,
            work,
            nodes: Vec::new(alloc),
            tickets: 0,
        })
    }

    /// Spends a ticket for a region.
    fn take_up(
        &mut self,
        alloc: Global,
        origin: &Origin,
        branch: Branch,
        tried: bool,
        bounds: Bounds,
        splits: Splits,
    ) -> Result<(), AllocError>
        requires lawful { IsTable (table_of origin.now) }
        requires searching { IsSearching bounds origin.now self.old.best
            (self.old.work.items ++ Work.Branch branch tried ∷ []) self.old.nodes.items
            self.old.tickets }
        requires ticket { self.old.tickets < u64.MAX }
        ensures turned { OnOk result (HasTurned bounds origin.now self.old self.new) }
        ensures best { OnOk result (self.old.best.latency ≤ self.new.best.latency) }
    {
        halves_are_regions();
        let seen = self.best.latency();
        let step = match step_branch(alloc, origin, branch, tried, seen, bounds, splits) {
            Ok(step) => step,
            Err((_, error)) => return Err(error),
        };
        self.note(step.found);
        self.tickets += 1;
        self.follow(step.turn)
    }

    /// Keeps the record that a step has found.
    fn note(&mut self, found: Option<Record>)
        ensures { self.new ≡ record self.old { best = unwrap_or found self.old.best } }
    {
        if let Some(found) = found {
            self.best = found;
        }
    }

    /// Writes the leaf that closes a region, or else leaves the halves to be taken up, the second one
    /// first, and then the split to be written.
    fn follow(&mut self, turn: Turn) -> Result<(), AllocError>
        ensures work { OnOk result (self.new.work.items ≡ work_after self.old.work.items turn) }
        ensures nodes { OnOk result (self.new.nodes.items ≡ nodes_after self.old.nodes.items turn) }
        ensures best { OnOk result (self.new.best ≡ self.old.best) }
        ensures tickets { OnOk result (self.new.tickets ≡ self.old.tickets) }
    {
        match turn {
            Turn::Closed(node) => self.nodes.push(node)?,
            Turn::Halves {
                split,
                first,
                second,
                tried,
            } => {
                self.work.push(Work::Write(split))?;
                self.work.push(Work::Branch {
                    branch: first,
                    tried: false,
                })?;
                self.work.push(Work::Branch {
                    branch: second,
                    tried,
                })?;
            }
        }
        Ok(())
    }

    /// The outcome of a search with no work left.
    fn into_proved(
        self,
        alloc: Global,
        origin: &Origin,
        bounds: Bounds,
    ) -> Result<Outcome, AllocError>
        requires { IsSearching bounds origin.now self.best [] self.nodes.items self.tickets }
        ensures value { (limit : ℕ) → self.tickets ≤ limit
            → IfOk result (λ outcome. IsOutcome bounds origin.now 1 limit outcome) }
        ensures best { IfOk result (λ outcome. best_of outcome ≡ self.best.latency) }
    {
        trees_cover();
        let instance = origin.instance();
        let mut nodes = self.nodes;
        nodes.reverse();
        let latency = self.best.latency();
        let schedule = self.best.schedule().copy()?;
        Ok(Outcome::Proved {
            certificate: Certificate::new(instance.copy(alloc)?, latency, schedule, nodes),
            tickets: self.tickets,
            by_worker: Vec::from_slice(alloc, &[self.tickets])?,
        })
    }

    /// The outcome of a search that has no ticket left for a region.
    fn into_open(
        mut self,
        alloc: Global,
        origin: &Origin,
        branch: Branch,
        tried: bool,
        bounds: Bounds,
    ) -> Result<Outcome, AllocError>
        requires searching { IsSearching bounds origin.now self.best
            (self.work.items ++ Work.Branch branch tried ∷ []) self.nodes.items self.tickets }
        ensures value { IfOk result (λ outcome. IsOutcome bounds origin.now 1 self.tickets outcome) }
        ensures best { IfOk result (λ outcome. best_of outcome ≡ self.best.latency) }
    {
        fronts_bound();
        let _instance = origin.instance();
        self.work.push(Work::Branch { branch, tried })?;
        let seen = self.best.latency();
        let upper = upper_of(alloc, origin, &self.work, seen, bounds)?;
        Ok(Outcome::Open {
            best: self.best,
            upper,
            tickets: self.tickets,
            by_worker: Vec::from_slice(alloc, &[self.tickets])?,
        })
    }
}

/// The upper bound of all latencies, in ticks, where that is the best one and the regions of the work are
/// left.
fn upper_of(
    alloc: Global,
    origin: &Origin,
    work: &[Work],
    seen: u32,
    bounds: Bounds,
) -> Result<u32, AllocError>
    requires work { All (IsWork origin.now seen) work.now }
    ensures value { IfOk result (λ upper. IsUpperOf bounds origin.now seen
        (left_in (map front_of work.now)) upper) }
{
    uppers_begin();
    uppers_raised();
    let mut upper = seen;
    for piece in work {
        upper = raised_over(alloc, origin, piece, upper, bounds)?;
    }
    Ok(upper)
}

/// What a piece of work raises an upper bound to, in ticks: a region that is left, and nothing else.
fn raised_over(
    alloc: Global,
    origin: &Origin,
    piece: &Work,
    upper: u32,
    bounds: Bounds,
) -> Result<u32, AllocError>
    requires work { (seen : ℕ) × IsWork origin.now seen piece.now }
    ensures { IfOk result
        (λ raised. IsRaisedOver bounds origin.now piece.now upper raised) }
{
    match piece {
        Work::Branch { branch, .. } => bounds.raised(alloc, origin, branch, upper),
        Work::Write(_) => Ok(upper),
    }
}
