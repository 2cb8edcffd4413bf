use convoy_certificate::Certificate;
use convoy_sim::Record;

/// How a search ended.
#[derive(Drop)]
pub enum Outcome {
    /// The greatest latency is known: the certificate shows it. A ticket was spent for each node,
    /// `tickets` in all. `by_worker` has how many of them each worker drew, at the index of the
    /// worker's number, which is 0 for the owner.
    Proved {
        certificate: Certificate,
        tickets: u64,
        by_worker: Vec<u64>,
    },
    /// Regions are left. The greatest latency is that of `best` or more, and at most `upper`, in ticks.
    /// As many tickets as may be were spent, which is `tickets`, and `by_worker` has how many of them
    /// each worker drew, as above.
    Open {
        best: Record,
        upper: u32,
        tickets: u64,
        by_worker: Vec<u64>,
    },
}
