//! The workers, between two branches that they search.

use super::means::Means;
use super::tree::Tree;
use convoy_share_deque::{Owner, Thief};

/// The worker that owns the deque: what it looks and draws with, its end of the deque, and a tree for
/// each branch that it took.
#[derive(Drop)]
pub(crate) struct OwnerWorker {
    pub means: Means,
    pub end: Owner,
    pub trees: Vec<Tree>,
    /// How many tickets each thief that was joined drew, in the order in which they were.
    pub drawn_by_thieves: Vec<u64>,
}

/// A worker that steals: what it looks and draws with, its end of the deque, and a tree for each
/// branch that it took.
#[derive(Drop)]
pub(crate) struct ThiefWorker {
    pub means: Means,
    pub end: Thief,
    pub trees: Vec<Tree>,
}
