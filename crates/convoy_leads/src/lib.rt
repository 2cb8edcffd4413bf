//! Leads: a box is closed for a latency where each rival that could delay the target so long has a
//! stamp that surely exceeds the target's.
#![tactic(auto)]

pub use closing::closes_by_leads;
pub use convoy_starts::{Commit, Link, Scratch};
pub use lead_test::LeadTest;
pub use open_case::OpenCase;
pub use opening::Opening;
pub use shown::Shown;

mod behind;
mod closing;
mod facts;
pub mod lead_laws;
mod lead_test;
mod open_case;
mod opening;
mod shown;
