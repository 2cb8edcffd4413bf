//! Rows that several threads make, in their order.
#![tactic(auto)]

pub use keys::{all_values, make_each};
pub use rows::make_rows;

mod keys;
mod places;
mod rows;
mod threads;
