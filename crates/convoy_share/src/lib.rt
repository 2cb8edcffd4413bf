//! Branch and bound by several workers, who share one board, one ledger and one deque.
#![tactic(auto)]

pub use convoy_branch::{Gate, NoGate};
pub use piece::Piece;
pub use searching::{search, search_from};
pub use ways::search_both_ways;

mod ending;
mod filling;
mod finishing;
mod gathering;
mod growing;
mod halves;
mod means;
mod opening;
mod owner;
mod piece;
mod placing;
mod running;
mod searching;
mod settled;
mod shared;
pub mod shared_tree_laws;
mod thief;
mod tree;
mod ways;
mod worker;
mod workers;
