use super::branch::Branch;
use convoy_certificate::Certificate;

/// What a certificate of a plan says: a choice, what its targets have for greatest latencies, and a tree that shows that no other
/// choice is better. Nothing is known of the parts.
#[derive(Drop)]
pub struct PlanCertificate {
    /// The number of the site of each group, by the groups' numbers in the plan.
    pub placement: Vec<usize>,
    /// The numbers of the groups of the placement's scenario, in the order in which they are listed.
    pub order: Vec<usize>,
    /// For each target that counts, in their order, a certificate of its greatest latency in that order.
    pub shown: Vec<Certificate>,
    /// The nodes of the tree over placements, in their order.
    pub nodes: Vec<Branch>,
}
