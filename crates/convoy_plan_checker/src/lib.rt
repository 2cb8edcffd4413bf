//! The checker of certificates of plans: whoever made one, a yes means that no choice of the plan is better than the one that it
//! names.
#![tactic(auto)]

pub use answering::plan_check_answer;
pub use checking::{check_plan, check_plan_text};
pub use lateness::{instance_in, is_order, witness_order};
pub use plan_refusal::PlanRefusal;
pub use plan_refused::PlanRefused;
pub use refusal_lines::plan_refusal_line;

mod answering;
mod checking;
mod claim;
mod commits;
mod group_sites;
mod lateness;
pub mod plan_check_laws;
mod plan_refusal;
mod plan_refused;
mod refusal_lines;
mod shown;
mod walking;
