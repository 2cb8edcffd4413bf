//! How sure a scenario's ranges are: in at most which share of runs some packet leaves its range, where the links of a text
//! tell which share of their packets does.
#![tactic(auto)]

pub use percent::{percent_text, push_percent};
pub use shares::outside_told;

pub mod outside_laws;
mod percent;
mod shares;
