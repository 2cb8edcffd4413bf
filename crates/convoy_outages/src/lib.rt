//! Outages: ticks at which groups may be silent, each of which costs a latency no more than it lasts; and the ceiling
//! through outages, a number that no latency exceeds, whatever traffic of a scenario's kinds of messages there is.
#![tactic(auto)]

pub use computing::{asked_ceiling, ceiling_through, outage_ceiling};
pub use outage::{LONGEST_OUTAGE, Outage, OutageFault, Span, span_asked};

mod computing;
mod outage;
pub mod outage_laws;
