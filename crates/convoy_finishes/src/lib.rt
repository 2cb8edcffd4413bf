//! Messages that are finished, so that they may be delivered, only some time after their commit, as in groups that are
//! replicated: the greatest latency then, which schedules reach it, and how it is shown that none exceeds it.
#![tactic(auto)]

pub use climb::climb_finishes;
pub use closing::{closes_finishing, least_closed};
pub use finish_run::{FinishRun, finish_latency};
pub use ways::{LONGEST_WAY, Ways};

mod climb;
mod climber;
mod closing;
pub mod finish_laws;
mod finish_run;
mod finish_test;
mod starts;
mod ways;
