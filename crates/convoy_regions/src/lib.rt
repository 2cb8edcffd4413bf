//! Regions of schedules: a range of delays for each packet, and what comes before what where ties may fall in any
//! order. A search splits them and a check goes over them (docs/PROTOCOL.md).
#![tactic(auto)]

pub use branch::Branch;
pub use halving::{can_order, ordered};
pub use run::{run_latency, run_of};
pub use stage::{Precedence, Stage, list_stages};
pub use ties::{is_decided, open_tie};

mod branch;
mod halving;
mod known;
pub mod region_laws;
mod run;
mod stage;
mod ties;
