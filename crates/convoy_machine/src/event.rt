ghost use Rattle.std.specs.Prelude.{◌≡◌};
ghost use Rattle.convoy_machine.specs.Machine.{worker_of};

use convoy_sim::Record;

/// One thing that a worker does in a search of many workers. Workers have numbers from 0 to 15;
/// branches have numbers from 0 on, in the order in which they came to be.
#[derive(Drop)]
pub enum Event {
    /// The worker sees the latency of the best record.
    Look {
        worker: usize,
    },
    /// The worker offers a record that it has found, and sees the best latency after that.
    Publish {
        worker: usize,
        found: Record,
    },
    /// The worker draws a ticket.
    Draw {
        worker: usize,
    },
    /// The worker lets a branch go, for any worker to take.
    Put {
        worker: usize,
        branch: usize,
    },
    /// The worker takes a branch that is free.
    Take {
        worker: usize,
        branch: usize,
    },
    /// The worker spends a ticket and splits a branch at a packet: into the schedules whose delay of
    /// it is at most `at` ticks, and those whose delay is more.
    Split {
        worker: usize,
        branch: usize,
        packet: u16,
        at: u16,
    },
    /// The worker spends a ticket and closes a branch: none of its schedules has a latency above the
    /// one that the worker has seen.
    Close {
        worker: usize,
        branch: usize,
    },
}

impl Event {
    /// The worker that does it.
    pub fn worker(&self) -> usize
        ensures { result ≡ worker_of self.now }
    {
        match self {
            Event::Look { worker }
            | Event::Publish { worker, .. }
            | Event::Draw { worker }
            | Event::Put { worker, .. }
            | Event::Take { worker, .. }
            | Event::Split { worker, .. }
            | Event::Close { worker, .. } => *worker,
        }
    }
}
