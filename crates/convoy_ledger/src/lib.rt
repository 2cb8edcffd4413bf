//! A ledger of numbered tickets that threads draw from: each ticket goes to one clerk, with no lock.
#![tactic(auto)]

pub use convoy_shares::ShareTooSmall;
pub use fault::ClerksOut;
pub use ledger::{Clerk, Ledger};

mod fault;
mod ledger;
mod rule;
