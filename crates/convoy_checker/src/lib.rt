//! The checker: whoever made a certificate, a yes means that no schedule has a greater latency.
#![tactic(auto)]

pub use accepted::Accepted;
pub use checking::{check, check_within};
pub use refusal::Refusal;
pub use refused::Refused;

mod accepted;
mod checking;
mod open_region;
mod refusal;
mod refused;
mod steps;
pub mod tree_laws;
mod walk;
