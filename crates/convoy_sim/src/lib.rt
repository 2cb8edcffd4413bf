//! The protocol: arrival, settling, moments, stamps, delivery and latency, and a program that computes them.
#![tactic(auto)]

pub use moment::{Moment, MomentKind, next_arrival};
pub use record::Record;
pub use run::{Proposal, Run};
pub use simulation::simulate;
pub use tag::Tag;
pub use target::{latency, latency_by};
pub use ticks::Ticks;
pub use timestamp::Timestamp;

mod agenda;
mod delivery;
mod key;
mod moment;
mod progress;
pub mod protocol_laws;
mod record;
mod run;
mod simulation;
mod stamps;
mod tag;
mod target;
mod ticks;
mod times;
mod timestamp;
mod timetable;
