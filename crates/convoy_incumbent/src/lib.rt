//! The greatest latency that threads have found so far, with its record: one word that only rises,
//! and a table of records, with no lock.
#![tactic(auto)]

pub use board::{Board, Hand};
pub use convoy_shares::ShareTooSmall;
pub use fault::CloseFault;
pub use noted::Noted;

mod board;
mod fault;
mod noted;
mod rule;
