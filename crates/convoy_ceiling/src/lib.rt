//! The ceiling: a number that no latency exceeds, whatever traffic of a scenario's kinds of messages there is; and
//! traffic that attains it, or comes near it, which is made for the reason for which the ceiling holds, and
//! simulated. No proof rests on how that is made.
#![tactic(auto)]

pub use computing::{
    ceiling, delays_between, goes_to, longest_from_arrival, longest_to_commit, stamp_delays,
    target_ceiling,
};
pub use seeking::{Found, seek_traffic};

mod asking;
pub mod ceiling_laws;
mod computing;
mod naming;
mod plan;
mod seeking;
mod ticks;
mod traffic;
