//! The owner's end of the deque.

ghost use Rattle.std.specs.Prelude.{◌≡◌, ◌+◌, ◌-◌, ◌<◌, [], ◌∷◌, ◌++◌, length};
ghost use Rattle.std.specs.Prelude.{IfOk, IfNone, IfSome, MatchResult, OnErr, OnOk};
ghost use Rattle.convoy_share_deque.specs.Tasks.{whole_share, AreAllTaken, IsOf, IsPut};

use super::rule::{Begin, Count, EachOnce, OneShare, Put, Take, View};
use super::task::Task;
use super::thief::Thief;
use convoy_regions::Branch;
use crossbeam_deque::Worker;
use std::alloc::{AllocError, Global};
use std::marker::Model;

/// So many tasks a new deque has room for; it grows as it needs.
const FIRST_CAPACITY: usize = 64;

/// The owner's end of a deque of branches of one scenario. Contracts see its deque, the scenario, the
/// branches that were put, by number, the tasks that it took, and its share. The shares of an owner
/// and of all its thieves are the whole, 1024, so an owner with the whole share has joined every
/// thief. No call waits for another thread.
#[derive(Drop)]
pub struct Owner {
    worker: Worker<Task, Global, View, EachOnce>,
    count: u64,
}

impl Model for Owner {
    ghost use Rattle.std.specs.Prelude.{◌≡◌, ◌<◌, true};
    ghost use Rattle.crossbeam_deque.specs.Handles.{worker_deque, worker_flavor, worker_view};
    ghost use Rattle.convoy_share_deque.specs.Tasks.{OwnerEnd, owner_end, list_length};

    ghost Value = { OwnerEnd };

    ghost view = { λ o. owner_end (worker_deque o.worker) (worker_view o.worker) };

    ghost invariant = { λ o. (worker_flavor o.worker ≡ 1)
        × ((worker_view o.worker).owns ≡ true)
        × (0 < (worker_view o.worker).share)
        × (o.count ≡ list_length (worker_view o.worker).put) };
}

impl Owner {
    /// A deque that has one branch, the first one, under the number 0, and its owner, which has the
    /// whole share. Fails only where memory runs out.
    pub fn open(alloc: Global, first: Branch) -> Result<Owner, AllocError>
        ensures { IfOk result (λ owner. owner ≡ record {
          deque = owner.deque;
          scenario = first.scenario;
          put = first.region ∷ [];
          taken = [];
          share = whole_share;
        }) }
    {
        let mut worker = Worker::lifo_as(alloc, FIRST_CAPACITY)?;
        let task = Task {
            number: 0,
            branch: first,
        };
        match worker.push_as::<Begin>(task) {
            Ok(()) => Ok(Owner { worker, count: 1 }),
            Err(_) => Err(AllocError),
        }
    }

    /// Puts a branch of the deque's scenario, and answers its number. Where the deque can't grow, as
    /// memory runs out, the branch comes back.
    pub fn put(&mut self, branch: Branch) -> Result<u64, Branch>
        requires { branch.scenario ≡ self.old.scenario }
        ensures { MatchResult result
            (λ number. (number ≡ length self.old.put)
            × (self.new ≡ record self.old { put = self.old.put ++ branch.region ∷ [] }))
            (λ back. (back ≡ branch) × (self.new ≡ self.old)) }
    {
        let number = self.count;
        if number == u64::MAX {
            return Err(branch);
        }
        match self.worker.push_as::<Put>(Task { number, branch }) {
            Ok(()) => {
                self.count = number + 1;
                Ok(number)
            }
            Err(task) => Err(task.branch),
        }
    }

    /// Takes the branch that was put last of those that stand in the deque. An owner with the whole
    /// share that finds none knows that each branch put was taken, once.
    pub fn take(&mut self) -> Option<Task>
        ensures some { IfSome result (λ task. (self.new
            ≡ record self.old { taken = self.old.taken ++ task ∷ [] })
            × IsOf self.old.scenario task
            × IsPut self.old.put task) }
        ensures none { IfNone result ((self.new ≡ self.old)
            × (self.old.share ≡ whole_share → AreAllTaken self.old.put self.old.taken)) }
    {
        self.worker.pop_as::<Take>()
    }

    /// A thief for another thread, with a share of 1. Fails only where memory runs out.
    pub fn thief(&mut self) -> Result<Thief, AllocError>
        requires { 1 < self.old.share }
        ensures given { IfOk result (λ thief. thief ≡ record {
          deque = self.old.deque;
          scenario = self.old.scenario;
          taken = [];
        }) }
        ensures kept { OnOk result (self.new
            ≡ record self.old { share = self.old.share - 1 }) }
        ensures err { OnErr result (self.new ≡ self.old) }
    {
        let stealer = self.worker.stealer()?;
        let pass = self.worker.another::<OneShare>();
        Ok(Thief::of(stealer, pass))
    }

    /// How many branches stand in the deque at one moment of the call. Thieves may take them meanwhile,
    /// so contracts learn nothing from it.
    pub fn len(&mut self) -> usize
        ensures { self.new ≡ self.old }
    {
        self.worker.len_as::<Count>()
    }

    /// How many branches were put.
    pub fn put_count(&self) -> u64
        ensures { result ≡ length self.now.put }
    {
        self.count
    }

    /// Joins a thief of this deque: the owner takes over its tasks and its share.
    pub fn join(&mut self, thief: Thief)
        requires { thief.deque ≡ self.old.deque }
        ensures { self.new ≡ record self.old {
          taken = self.old.taken ++ thief.taken;
          share = self.old.share + 1;
        } }
    {
        self.worker.absorb::<OneShare>(thief.into_pass());
    }
}
