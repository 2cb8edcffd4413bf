use convoy_certificate::Certificate;
use convoy_finishes::Ways;

/// What a certificate of finishes says: a scenario, by which ways its messages are finished, the greatest latency of its
/// target then, and a run that has it. What shows that none has a greater one is no part of it: the checker finds that
/// itself. Nothing is known of the parts.
#[derive(Drop)]
pub struct FinishCertificate {
    /// How long it takes at most from when each message comes to each group until the target's group has the answers that
    /// wait for that, in ticks.
    pub ways: Ways,
    /// The scenario, with the latency in ticks and the schedule of the run. It has no nodes.
    pub run: Certificate,
}
