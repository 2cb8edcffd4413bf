use convoy_causes::Cause;
use convoy_certificate::Certificate;

/// What a certificate of a workflow says: a scenario, what its messages follow, the greatest time from the issue of a
/// message to the delivery of the target, a run that takes so long, and what shows that none takes longer. Nothing is known
/// of the parts.
#[derive(Drop)]
pub struct WorkflowCertificate {
    /// What messages follow.
    pub causes: Vec<Cause>,
    /// For each of these, by its place: within how many ticks from the first at which the message that it follows may be
    /// issued that one is delivered at the group of the event. Where the event is no delivery, it says nothing.
    pub within: Vec<u32>,
    /// The number of the message from whose issue time is counted.
    pub origin: usize,
    /// The scenario, with the time in ticks and the schedule of the run. It has no nodes.
    pub run: Certificate,
}
