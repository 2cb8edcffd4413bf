//! A deque of branches that workers share: its owner puts them, and it and thieves take each of them
//! once.
#![tactic(auto)]

pub use owner::Owner;
pub use task::Task;
pub use thief::Thief;

mod owner;
mod rule;
mod task;
mod thief;
