//! Starts: how far the stamps of messages can rise in a box, from the commits that may have raised the
//! clocks of groups last.
#![tactic(auto)]

pub use chain::{Commit, Link};
pub use scratch::Scratch;
pub use setting::Setting;

mod chain;
mod changes;
mod led;
mod memo;
mod mosts;
mod scratch;
mod setting;
mod stamps;
mod start;
mod starts;
mod window;
