//! The search of many workers as a machine of its own: which events are lawful, and what becomes of
//! the state.

ghost use Rattle.std.specs.Prelude.{◌≡◌, ◌+◌, ◌<◌, ◌≤◌, ◌^◌, ◌&&◌, nat_le};
ghost use Rattle.std.specs.Prelude.{Bool, List, length, slice_set};
ghost use Rattle.std.specs.Prelude.{IfNone, IfOk, IfSome, IsFalse, IsTrue, OnOk};
ghost use Rattle.std.specs.List.{All};
ghost use Rattle.convoy_scenario.specs.Scenario.{Scenario};
ghost use Rattle.convoy_sim.specs.Delivery.{latency_of};
ghost use Rattle.convoy_sim.specs.Record.{IsAttained};
ghost use Rattle.convoy_intervals.specs.Boxes.{CanSplit, IsBox};
ghost use Rattle.convoy_intervals.specs.Boxes.{lower_half, upper_half};
ghost use Rattle.convoy_regions.specs.Regions.{Region, any_order, is_decided, run_of};
ghost use Rattle.convoy_checker.specs.Checks.{in_ticks};
ghost use Rattle.convoy_machine.specs.Machine.{after, allows, best_after, branch_at, branches_after};
ghost use Rattle.convoy_machine.specs.Machine.{closes, is_free, is_lawful, taken, HasBranch};
ghost use Rattle.convoy_machine.specs.Machine.{is_with, stands, start, worker_after, worker_at};
ghost use Rattle.convoy_machine.specs.Machine.{worker_of};
ghost use Rattle.convoy_machine.specs.Replays.{IsFound, left_of};

use super::event::Event;
use super::parts::{Branch, BranchState, WORKERS, Worker};
use convoy_intervals::DelayBox;
use convoy_origin::{Origin, closes_from_origin, plain_from_origin, stamp_from_origin};
use convoy_packets::schedule_laws::least_is_assignment;
use convoy_packets::{Instance, Schedule};
use convoy_regions::{is_decided, run_latency};
use convoy_scenario::{AllocResult, Scenario, Time};
use convoy_sim::Record;
use std::alloc::Global;
use std::marker::Model;

/// The state of a search of many workers between two events: the best record, what each worker has
/// seen, drawn and spent, and what has become of each branch.
#[derive(Drop)]
pub struct Core {
    best: Record,
    workers: [Worker; WORKERS],
    branches: Vec<Branch>,
}

impl Model for Core {
    ghost use Rattle.convoy_machine.specs.Machine.{Core};

    ghost Value = { Core };

    ghost view = { λ c. record { best = c.best; workers = c.workers; branches = c.branches.items } };
}

impl Core {
    /// The record of the greatest latency that was published.
    pub fn best(&self) -> &Record
        ensures { result.now ≡ self.now.best }
    {
        &self.best
    }

    /// How many branches are left to be searched: free, or taken by a worker.
    pub fn left(&self) -> usize
        ensures { result ≡ left_of self.now }
    {
        self.branches
            .iter()
            .filter(|branch| branch.state.is_left())
            .count()
    }

    /// The greatest latency that the worker has seen, in ticks.
    pub fn seen(&self, worker: usize) -> u32
        requires { worker < WORKERS }
        ensures { result ≡ (worker_at self.now.workers worker).seen }
    {
        self.workers[worker].seen
    }

    /// How many tickets the worker has drawn.
    pub fn drawn(&self, worker: usize) -> u64
        requires { worker < WORKERS }
        ensures { result ≡ (worker_at self.now.workers worker).drawn }
    {
        self.workers[worker].drawn
    }

    /// How many of its tickets the worker has spent.
    pub fn spent(&self, worker: usize) -> u64
        requires { worker < WORKERS }
        ensures { result ≡ (worker_at self.now.workers worker).spent }
    {
        self.workers[worker].spent
    }

    /// The state at the start of a search.
    pub(crate) fn start(alloc: Global, instance: &Instance) -> AllocResult<Core>
        ensures value { IfOk result (λ core. core ≡ start instance.now) }
        ensures attained { IfOk result (λ core. IsAttained core.best) }
    {
        least_is_assignment();
        let _delay = instance.delay();
        let best = Record::of(instance, Schedule::least(alloc, instance.table())?);
        let worker = Worker {
            seen: best.latency(),
            drawn: 0,
            spent: 0,
        };
        let mut branches = Vec::new(alloc);
        branches.push(Branch {
            delay_box: DelayBox::root(alloc, instance)?,
            state: BranchState::Taken(0),
        })?;
        Ok(Core {
            best,
            workers: [worker; WORKERS],
            branches,
        })
    }

    /// Whether the state allows an event. The error is that memory ran out.
    pub(crate) fn is_lawful(
        &self,
        alloc: Global,
        origin: &Origin,
        event: &Event,
    ) -> AllocResult<bool>
        requires boxes { All (λ branch. IsBox origin.now branch.delay_box) self.now.branches }
        ensures { IfOk result (λ lawful. lawful ≡ is_lawful origin.now self.now event.now) }
    {
        let worker = event.worker();
        if worker >= WORKERS {
            return Ok(false);
        }
        self.allows(alloc, origin, &self.workers[worker], event)
    }

    /// Whether the state allows an event of that worker. The error is that memory ran out.
    fn allows(
        &self,
        alloc: Global,
        origin: &Origin,
        doer: &Worker,
        event: &Event,
    ) -> AllocResult<bool>
        requires boxes { All (λ branch. IsBox origin.now branch.delay_box) self.now.branches }
        requires doer { doer.now ≡ worker_at self.now.workers (worker_of event.now) }
        ensures { IfOk result (λ allowed. allowed ≡ allows origin.now self.now event.now) }
    {
        let allowed = match event {
            Event::Look { .. } | Event::Publish { .. } | Event::Draw { .. } => true,
            Event::Put { worker, branch } => self.held_by(*worker, *branch).is_some(),
            Event::Take { branch, .. } => self.is_free(*branch),
            Event::Split {
                worker,
                branch,
                packet,
                at,
            } => {
                match self.held_by(*worker, *branch) {
                    None => false,
                    Some(delay_box) => {
                        doer.has_ticket() && delay_box.can_split(usize::from(*packet), *at)
                    }
                }
            }
            Event::Close { worker, branch } => {
                match self.held_by(*worker, *branch) {
                    None => false,
                    Some(delay_box) => {
                        doer.has_ticket() && closes(alloc, origin, delay_box, doer.seen)?
                    }
                }
            }
        };
        Ok(allowed)
    }

    /// The box of a branch that the worker has, where it has that branch.
    fn held_by(&self, worker: usize, branch: usize) -> Option<&DelayBox>
        ensures none { IfNone result (IsFalse (stands (is_with worker) self.now.branches branch)) }
        ensures some { IfSome result (λ delay_box.
            IsTrue (stands (is_with worker) self.now.branches branch)
            × (delay_box.now ≡ (branch_at self.now.branches branch).delay_box)) }
        ensures inside { (scenario : Scenario)
            → All (λ branch. IsBox scenario branch.delay_box) self.now.branches
            → IfSome result (λ delay_box. IsBox scenario delay_box.now) }
    {
        match self.branches.get(branch) {
            Some(held) if held.state.is_with(worker) => Some(&held.delay_box),
            _ => None,
        }
    }

    /// Whether there is a branch of that number, and any worker may take it.
    fn is_free(&self, branch: usize) -> bool
        ensures { result ≡ stands is_free self.now.branches branch }
    {
        match self.branches.get(branch) {
            Some(branch) => branch.state.is_free(),
            None => false,
        }
    }

    /// Does what a lawful event says.
    pub(crate) fn follow(&mut self, event: &Event) -> AllocResult<()>
        requires lawful { (scenario : Scenario) × IsTrue (is_lawful scenario self.old event.now) }
        requires counts { All (λ worker. (worker.drawn < u64.MAX) × (worker.spent < u64.MAX))
            self.old.workers }
        ensures after { OnOk result (self.new ≡ after self.old event.now) }
        ensures found { OnOk result (IsFound event.now) }
    {
        raise(&mut self.best, event)?;
        let worker = event.worker();
        let latency = self.best.latency();
        self.workers[worker] = self.workers[worker].after(latency, event);
        turn(&mut self.branches, event)
    }
}

/// Takes over the record of an event as the best one, where its latency is greater.
fn raise(best: &mut Record, event: &Event) -> AllocResult<()>
    ensures best { OnOk result (best.new ≡ best_after best.old event.now) }
    ensures found { OnOk result (IsFound event.now) }
{
    if let Event::Publish { found, .. } = event
        && found.latency() > best.latency()
    {
        *best = found.copy()?;
    }
    Ok(())
}

/// Does to the branches what an event says.
fn turn(branches: &mut Vec<Branch>, event: &Event) -> AllocResult<()>
    requires { HasBranch branches.old.items event.now }
    ensures { OnOk result (branches.new.items ≡ branches_after branches.old.items event.now) }
{
    match event {
        Event::Look { .. } | Event::Publish { .. } | Event::Draw { .. } => {}
        Event::Put { branch, .. } => branches[*branch].state = BranchState::Free,
        Event::Take { worker, branch } => branches[*branch].state = BranchState::Taken(*worker),
        Event::Split {
            worker,
            branch,
            packet,
            at,
        } => {
            let (lower, upper) = halves_of(&branches[*branch].delay_box, *packet, *at)?;
            branches[*branch].state = BranchState::Split;
            branches.push(taken(*worker, lower))?;
            branches.push(taken(*worker, upper))?;
        }
        Event::Close { branch, .. } => branches[*branch].state = BranchState::Closed,
    }
    Ok(())
}

/// A branch that a worker has.
fn taken(worker: usize, delay_box: DelayBox) -> Branch
    ensures { result ≡ taken worker delay_box }
{
    Branch {
        delay_box,
        state: BranchState::Taken(worker),
    }
}

/// The halves of a box that stays.
fn halves_of(delay_box: &DelayBox, packet: u16, at: u16) -> AllocResult<(DelayBox, DelayBox)>
    requires { CanSplit delay_box.now packet at }
    ensures { IfOk result (λ halves. halves
        ≡ (lower_half delay_box.now packet at, upper_half delay_box.now packet at)) }
{
    match delay_box.copy()?.halves(usize::from(packet), at) {
        Ok(halves) => Ok(halves),
        Err((_, error)) => Err(error),
    }
}

/// Whether a leaf of some kind closes the box for that latency, in ticks, whatever order ties fall in. Each
/// kind is asked for where those that take less time do not close it. The error is that memory ran out.
#[tactic(auto, using(crate::proofs::Closing::closes_is))]
fn closes(alloc: Global, origin: &Origin, delay_box: &DelayBox, latency: u32) -> AllocResult<bool>
    requires inside { IsBox origin.now delay_box.now }
    ensures { IfOk result (λ closed. closed ≡ closes origin.now latency delay_box.now) }
{
    let instance = origin.instance();
    if plain_from_origin(alloc, origin, delay_box)? <= latency {
        return Ok(true);
    }
    if closes_as_point(alloc, instance, delay_box, latency)? {
        return Ok(true);
    }
    if in_ticks(instance) && stamp_from_origin(alloc, origin, delay_box)? <= latency {
        return Ok(true);
    }
    closes_from_origin(alloc, origin, delay_box, &[], latency)
}

/// Whether the box has one delay for each packet and leaves no tie open, and the latency of its one run
/// is at most that latency, in ticks. The error is that memory ran out.
fn closes_as_point(
    alloc: Global,
    instance: &Instance,
    delay_box: &DelayBox,
    latency: u32,
) -> AllocResult<bool>
    requires inside { IsBox instance.now delay_box.now }
    ensures { let region : Region = any_order delay_box.now in
        IfOk result (λ closed. closed ≡ (is_decided instance.now region
        && nat_le (latency_of instance.now (run_of instance.now region)) latency)) }
{
    if !is_decided(alloc, instance, delay_box, &[])? {
        return Ok(false);
    }
    Ok(run_latency(alloc, instance, delay_box, &[])? <= latency)
}

/// Whether time goes in whole ticks.
fn in_ticks(instance: &Instance) -> bool
    ensures { result ≡ in_ticks instance.now.time }
{
    matches!(instance.time(), Time::Ticks)
}
