//! Bounds of scenarios in which the target may wait: each is told as a scenario in which it does not, so that whatever
//! closes a region of that one closes the region of the scenario. The laws rest on those of two runs of which one is the
//! other so many ticks later.
#![tactic(auto)]

pub use from_origin::{closes_from_origin, plain_from_origin, stamp_from_origin};
pub use origin::Origin;

mod from_origin;
pub mod from_origin_laws;
mod origin;
pub mod origin_laws;
pub mod shift_laws;
pub mod widened_laws;
