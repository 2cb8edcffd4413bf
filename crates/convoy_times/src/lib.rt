//! How times are told: exactly, in a unit, with as many digits as that needs.
#![tactic(auto)]

pub use measure::{Measure, push_told};

mod decimals;
mod measure;
pub mod time_laws;
