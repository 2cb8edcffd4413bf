//! Runs of a scenario through outages, ticks at which groups are silent: scenarios with compressed outages, whose runs
//! are no earlier but by the ticks that are saved so.
#![tactic(auto)]

pub use compressing::{compressed, saved_ticks, shortest_travel};

mod compressing;
pub mod outage_run_laws;
