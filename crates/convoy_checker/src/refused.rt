ghost use Rattle.std.specs.Prelude.{◌≡◌};
ghost use Rattle.convoy_checker.specs.declared.refused.Refused.TheVariants.{Memory};

use std::alloc::AllocError;
use thiserror::Error;

/// Why a certificate is not valid. Where it has several faults, the first is told: that of the
/// schedule, and then the first in the order of the nodes, which are numbered from 0.
#[derive(Clone, Copy, Debug, PartialEq, Eq, Error)]
pub enum Refused {
    /// The schedule has another latency than the stated one: this, in ticks.
    #[error("the latency of the schedule is {0} ticks, and not the stated one")]
    Latency(u32),
    /// The split of that number names no packet of the scenario, or a place at which the packet's
    /// range in the box can't be split; or that split by order names moments that are not of one group, or
    /// whose order is decided there.
    #[error("node {0} splits a packet or an order that is not there, or where it can't be split")]
    Split(usize),
    /// The nodes end before the tree is whole, or go on after it.
    #[error("the nodes are not one whole tree")]
    TreeCount,
    /// The plain bound of the box of that leaf is above the stated latency: the leaf's number, and the
    /// bound in ticks.
    #[error("node {0} is a leaf whose plain bound is {1} ticks, above the stated latency")]
    BoundLeaf(usize, u32),
    /// The box of the leaf of that number has several delays for a packet, or in real time a tie in which either
    /// of two moments may come first, or its run has a latency above the stated one.
    #[error("node {0} is a point leaf of several schedules, or of one above the stated latency")]
    PointLeaf(usize),
    /// The stamp bound of the box of that leaf is above the stated latency: the leaf's number, and the
    /// bound in ticks.
    #[error("node {0} is a leaf whose stamp bound is {1} ticks, above the stated latency")]
    StampLeaf(usize, u32),
    /// The latency that the leaf of that number names is above the stated one, or leads don't close its
    /// box for it.
    #[error("node {0} is a lead leaf that leads don't close for the latency that it names, or which is above the stated one")]
    LeadLeaf(usize),
    /// Memory ran out, which says nothing of the certificate.
    #[error("out of memory")]
    Memory,
}

impl From<AllocError> for Refused {
    ghost from_gives = { λ _ refused. refused ≡ Memory };

    fn from(_error: AllocError) -> Refused {
        Refused::Memory
    }
}
