//! Whether a trace of a real run is one of a run of a scenario, by clocks that are right or nearly so: the run that did
//! what the trace tells, or the first thing in which the trace departs from what the scenario allows and the protocol
//! does.
#![tactic(auto)]

pub use departure::{Departure, Verdict};
pub use fault::FitsFault;
pub use judging::judge;
pub use network::explained;
pub use teller::Teller;

mod clocks;
mod comparing;
mod corrected;
mod departure;
mod fault;
mod fine_draft;
mod fine_test;
pub mod fits_laws;
mod judging;
mod lags;
mod laying;
mod limits;
mod missing;
mod network;
mod teller;
mod tells;
mod ties;
mod told_times;
