//! Leads that know orders: the windows of a region are narrowed by what comes before what.
#![tactic(auto)]

pub use closing::closes_region;
pub use narrowing::narrowed;

mod closing;
mod narrowing;
pub mod narrowing_laws;
