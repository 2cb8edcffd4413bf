//! Bounds that see stamps: a rival is left out where its stamp is surely greater than the target's.
#![tactic(auto)]

pub use bound::{stamp_bound, stamp_bound_of};
pub use pair::Pair;
pub use reach::pairs_of;

mod bound;
mod pair;
mod reach;
mod spans;
pub mod stamp_bound_laws;
