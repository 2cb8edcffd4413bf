//! The workers and the branches of a search of many workers.

ghost use Rattle.std.specs.Prelude.{◌≡◌, ◌<◌};
ghost use Rattle.convoy_machine.specs.Machine.{has_ticket, is_free, is_left, is_with, worker_after};

use super::event::Event;
use convoy_intervals::DelayBox;
use convoy_shares::MOST_WORKERS;

/// The number of workers, which is the most that a search may have.
pub const WORKERS: usize = MOST_WORKERS as usize;

/// What a worker knows, and the tickets that it has.
#[derive(Clone, Copy)]
pub struct Worker {
    /// The greatest latency that it has seen, in ticks.
    pub seen: u32,
    /// How many tickets it drew.
    pub drawn: u64,
    /// How many of them it spent.
    pub spent: u64,
}

/// A box of a search, and what has become of it.
#[derive(Drop)]
pub struct Branch {
    pub delay_box: DelayBox,
    pub state: BranchState,
}

/// What has become of a branch.
#[derive(Clone, Copy)]
pub enum BranchState {
    /// Any worker may take it.
    Free,
    /// The worker of that number has it.
    Taken(usize),
    /// Its halves are branches of their own.
    Split,
    /// None of its schedules has a greater latency than the best record.
    Closed,
}

impl Worker {
    /// Whether it has a ticket that it has not spent.
    pub fn has_ticket(&self) -> bool
        ensures { result ≡ has_ticket self.now }
    {
        self.spent < self.drawn
    }

    /// The worker after an event of its own, where the best latency is then `latency`, in ticks.
    pub fn after(self, latency: u32, event: &Event) -> Worker
        requires drawn { self.drawn < u64.MAX }
        requires spent { self.spent < u64.MAX }
        ensures { result ≡ worker_after latency self event.now }
    {
        match event {
            Event::Look { .. } | Event::Publish { .. } => {
                Worker {
                    seen: latency,
                    ..self
                }
            }
            Event::Draw { .. } => {
                Worker {
                    drawn: self.drawn + 1,
                    ..self
                }
            }
            Event::Split { .. } | Event::Close { .. } => {
                Worker {
                    spent: self.spent + 1,
                    ..self
                }
            }
            Event::Put { .. } | Event::Take { .. } => self,
        }
    }
}

impl BranchState {
    /// Whether the branch is left to be searched.
    pub fn is_left(&self) -> bool
        ensures { result ≡ is_left self.now }
    {
        matches!(self, BranchState::Free | BranchState::Taken(_))
    }

    /// Whether any worker may take the branch.
    pub fn is_free(&self) -> bool
        ensures { result ≡ is_free self.now }
    {
        matches!(self, BranchState::Free)
    }

    /// Whether the worker has the branch.
    pub fn is_with(&self, worker: usize) -> bool
        ensures { result ≡ is_with worker self.now }
    {
        match self {
            BranchState::Taken(holder) => *holder == worker,
            _ => false,
        }
    }
}
