//! Messages that follow others, each issued some time after an event of another one: when a run is such, how long it
//! takes at most from the issue of a message to the delivery of the target then, and which runs take long.
#![tactic(auto)]

pub use cause::Cause;
pub use caused_run::CausedRun;
pub use climb::climb_causes;
pub use closing::{Closing, closes_by, least_closing};
pub use event::Event;
pub use known::may_be_origin;

mod cause;
pub mod cause_laws;
mod cause_test;
mod caused_run;
mod climb;
mod climber;
mod closing;
mod cutting;
mod event;
mod gaps;
mod known;
mod laying;
mod narrowing;
mod question;
mod starts;
