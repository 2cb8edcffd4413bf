ghost use Rattle.std.specs.Prelude.{◌≡◌};
ghost use Rattle.convoy_plan_checker.specs.declared.plan_refused.PlanRefused.TheVariants.{Memory};

use convoy_checker::Refused;
use std::alloc::AllocError;
use thiserror::Error;

/// Why a certificate of a plan is not valid. Where it has several faults, the first is told in the order of these variants;
/// certificates, targets and nodes are numbered from 0, and of the nodes the first is told that has a fault.
#[derive(Clone, Copy, Debug, PartialEq, Eq, Error)]
pub enum PlanRefused {
    /// The sites are no placement of the plan.
    #[error("the sites are no placement of the plan")]
    Placement,
    /// The placement has no scenario.
    #[error("the placement has no scenario")]
    Unmade,
    /// The order has not each group of the placement's scenario once.
    #[error("the order has not each group once")]
    Order,
    /// There is not one certificate for each target that counts.
    #[error("there is not one certificate for each target that counts")]
    Count,
    /// The certificate of that number is not of the scenario of its target with the groups in that order.
    #[error("certificate {0} is of another scenario")]
    Scenario(usize),
    /// The certificate of that number is not valid.
    #[error("certificate {0} is not valid: {1}")]
    Certificate(usize, Refused),
    /// The split of that number names no group, or one that has its site already.
    #[error("node {0} splits by a group that has a site, or that is not there")]
    Split(usize),
    /// The two groups of that leaf are not to be apart, or are not known to be at one site.
    #[error("node {0} is a leaf of groups that are not at one site, or may be")]
    Apart(usize),
    /// The commits of the target of that leaf are not so late as far as sites are known, or there is no such target.
    #[error("node {0} is a leaf of commits that are not late")]
    Commit(usize),
    /// Some group has no site at that leaf, or there is a scenario.
    #[error("node {0} is a leaf without a scenario where there is one, or some group has no site")]
    NoScenario(usize),
    /// Some group has no site at that leaf, or there is no scenario, or no witness; or one of the witnesses names no target, or
    /// a group twice, or has no schedule of its scenario, or one that is not late.
    #[error("node {0} is a leaf of witnesses that do not show that each order is late")]
    Late(usize),
    /// The nodes end before the tree is whole, or go on after it.
    #[error("the nodes are not one whole tree")]
    TreeCount,
    /// Memory ran out, which says nothing of the certificate.
    #[error("out of memory")]
    Memory,
}

impl From<AllocError> for PlanRefused {
    ghost from_gives = { λ _ refused. refused ≡ Memory };

    fn from(_error: AllocError) -> PlanRefused {
        PlanRefused::Memory
    }
}
